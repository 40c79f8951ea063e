//! Lists that contracts see as their values.

ghost use Rattle.std.specs.Prelude.{◌≡◌, [], ◌∷◌, ◌++◌, OnErr, OnOk, length, slice_get};
ghost use Rattle.std.specs.Option.{option_copied};

use crate::copies::Copied;
use std::alloc::Global;
use std::marker::Model;
use std::mem;
use unit_streams::Memory;

// Drops a value that is refused, apart from the code that seldom refuses one.
#[inline(never)]
pub(crate) fn discard<T: Drop>(_refused: T) {}

/// A list that grows at its end, which contracts see as the list of its values.
#[derive(Debug, Drop)]
pub struct Sequence<T> {
    items: Vec<T>,
}

impl<T> Model for Sequence<T> {
    ghost use Rattle.std.specs.Prelude.{List};

    ghost Value = { List T };

    ghost view = { λ s. s.items.items };
}

impl<T> Sequence<T> {
    /// The list without values.
    pub fn new(alloc: Global) -> Self
        ensures { result ≡ [] }
    {
        Sequence {
            items: Vec::new(alloc),
        }
    }

    /// How many values the list has.
    pub fn len(&self) -> usize
        ensures { result ≡ length self.now }
    {
        self.items.len()
    }

    /// The value at a place, counted from 0; None from the list's length on.
    pub fn get(&self, at: usize) -> Option<&T>
        ensures { option_copied result ≡ slice_get self.now at }
    {
        self.items.get(at)
    }

    /// The values in order.
    pub fn as_slice(&self) -> &[T]
        ensures { result.now ≡ self.now }
    {
        self.items.as_slice()
    }

    /// The values, taken out.
    pub fn into_vec(self) -> Vec<T>
        ensures { result.items ≡ self }
    {
        let Sequence { items } = self;
        items
    }

    /// The list of these values. It takes their memory over, and copies nothing.
    pub fn from_vec(items: Vec<T>) -> Self
        ensures { result ≡ items.items }
    {
        Sequence { items }
    }

    // The values, which leave the list without any.
    pub(crate) fn take(&mut self) -> Sequence<T>
        ensures values { result ≡ self.old }
        ensures none { self.new ≡ [] }
    {
        let alloc = *self.items.allocator();
        Sequence {
            items: mem::replace(&mut self.items, Vec::new(alloc)),
        }
    }
}

impl<T: Drop> Sequence<T> {
    /// Allocates memory for so many values more. It fails without that memory; the values stay
    /// either way.
    pub fn reserve(&mut self, count: usize) -> Result<(), Memory>
        ensures { self.new ≡ self.old }
    {
        match self.items.reserve(count) {
            Ok(()) => Ok(()),
            Err(_) => Err(Memory),
        }
    }

    /// Drops all values. Their memory stays allocated.
    pub fn clear(&mut self)
        ensures { self.new ≡ [] }
    {
        self.items.clear();
    }

    /// Puts one more value at the end. Without memory it fails, drops the value and leaves the list
    /// as it was.
    #[inline(always)]
    pub fn push(&mut self, one: T) -> Result<(), Memory>
        ensures pushed { OnOk result (self.new ≡ self.old ++ one ∷ []) }
        ensures unchanged { OnErr result (self.new ≡ self.old) }
    {
        if self.items.reserve(1).is_err() {
            discard(one);
            return Err(Memory);
        }
        self.items.push_reserved(one);
        Ok(())
    }

    /// Puts two more values at the end. Without memory it fails, drops both and leaves the list as
    /// it was.
    #[inline(always)]
    pub fn push_two(&mut self, first: T, second: T) -> Result<(), Memory>
        ensures pushed { OnOk result (self.new ≡ self.old ++ first ∷ second ∷ []) }
        ensures unchanged { OnErr result (self.new ≡ self.old) }
    {
        if self.items.reserve(2).is_err() {
            discard(first);
            discard(second);
            return Err(Memory);
        }
        self.items.push_reserved(first);
        self.items.push_reserved(second);
        Ok(())
    }
}

impl<T: Copied + Drop> Copied for Sequence<T> {
    fn copy(&self) -> Result<Sequence<T>, Memory> {
        let mut copied = Sequence::new(*self.items.allocator());
        for one in self.items.as_slice() {
            copied.push(one.copy()?)?;
        }
        Ok(copied)
    }
}
