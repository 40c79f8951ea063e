//! Bodies in a row of places, some of which are free.

ghost use Rattle.std.specs.Prelude.{◌≡◌, ◌+◌, ◌^◌, ◌<◌, ◌≤◌, [], ◌∷◌, ◌++◌, IfOk, None, OnErr, OnOk, Some, drop, is_some, length, replicate, slice_set, take};
ghost use Rattle.std.specs.Option.{option_copied};
ghost use Rattle.reliable_sequence.specs.Ranges.{runs};
ghost use Rattle.reliable_sequence.specs.Received.{next_body};
ghost use Rattle.reliable_sequence.specs.Slots as spec;
ghost use Rattle.reliable_sequence.specs.Slots.{free_count, freed, leading_free, with_body};

use crate::ranges::{Ranges, begun_with, end_range};
use nbfx_values::Items;
use std::alloc::Global;
use std::collections::VecDeque;
use std::marker::Model;
use unit_streams::Memory;

/// The places, each with its body or None.
#[derive(Drop)]
pub(crate) struct Slots {
    slots: VecDeque<Option<Items>>,
}

impl Model for Slots {
    ghost use Rattle.reliable_sequence.specs.Slots as spec;

    ghost Value = { spec.Slots };

    ghost view = { λ s. s.slots.items };
}

impl Slots {
    pub(crate) fn new(alloc: Global) -> Slots
        ensures { result ≡ [] }
    {
        Slots {
            slots: VecDeque::new(alloc),
        }
    }

    pub(crate) fn len(&self) -> usize
        ensures { result ≡ length self.now }
    {
        self.slots.len()
    }

    /// The body at a place.
    pub(crate) fn body_at(&self, at: usize) -> Option<&Items>
        ensures { option_copied result ≡ spec.body_at self.now at }
    {
        match self.slots.get(at) {
            Some(slot) => slot.as_ref(),
            None => None,
        }
    }

    pub(crate) fn has_body(&self, at: usize) -> bool
        ensures { result ≡ is_some (spec.body_at self.now at) }
    {
        self.body_at(at).is_some()
    }

    /// Puts one more place behind the others.
    fn push(&mut self, slot: Option<Items>) -> Result<(), Memory>
        ensures pushed { OnOk result (self.new ≡ self.old ++ slot ∷ []) }
        ensures unchanged { OnErr result (self.new ≡ self.old) }
    {
        self.slots.push_back(slot)?;
        Ok(())
    }

    /// Puts a body behind the others.
    pub(crate) fn push_body(&mut self, body: Items) -> Result<(), Memory>
        ensures pushed { OnOk result (self.new ≡ self.old ++ Some body ∷ []) }
        ensures unchanged { OnErr result (self.new ≡ self.old) }
    {
        self.push(Some(body))
    }

    /// Takes the first place away.
    pub(crate) fn pop_first(&mut self) -> Option<Items>
        ensures body { result ≡ next_body self.old }
        ensures rest { self.new ≡ drop 1 self.old }
    {
        match self.slots.pop_front() {
            Some(slot) => slot,
            None => None,
        }
    }

    // Cuts the places to this many. There are that many at least.
    fn cut(&mut self, len: usize)
        ensures { self.new ≡ take len self.old }
    {
        self.slots.truncate(len);
    }

    // Puts so many free places behind the others.
    fn push_free(&mut self, count: usize) -> Result<(), Memory>
        ensures added { OnOk result (self.new ≡ self.old ++ replicate count None) }
        ensures kept { take (length self.old) self.new ≡ self.old }
    {
        for _ in 0..count {
            self.push(None)?;
        }
        Ok(())
    }

    // Puts a body behind the others and so many free places.
    fn push_far(&mut self, free: usize, body: Items) -> Result<(), Memory>
        ensures pushed { OnOk result (self.new
            ≡ self.old ++ replicate free None ++ Some body ∷ []) }
        ensures kept { take (length self.old) self.new ≡ self.old }
    {
        self.push_free(free)?;
        self.push_body(body)
    }

    // Writes what stands at a place.
    fn write(&mut self, at: usize, slot: Option<Items>)
        requires { at < length self.old }
        ensures { self.new ≡ slice_set self.old at slot }
    {
        self.slots[at] = slot;
    }

    /// Puts a body at a place, behind the last one too.
    pub(crate) fn put(&mut self, at: usize, body: Items) -> Result<(), Memory>
        ensures put { OnOk result (self.new ≡ with_body self.old at body) }
        ensures unchanged { OnErr result (self.new ≡ self.old) }
    {
        let len = self.len();
        if at < len {
            self.write(at, Some(body));
            return Ok(());
        }
        match self.push_far(at - len, body) {
            Ok(()) => Ok(()),
            Err(Memory) => {
                self.cut(len);
                Err(Memory)
            }
        }
    }

    /// Takes the bodies of the places from one up to another away.
    pub(crate) fn free(&mut self, from: usize, end: usize)
        requires ordered { from ≤ end }
        requires within { end ≤ length self.old }
        ensures { self.new ≡ freed self.old from end }
    {
        for at in from..end {
            self.write(at, None);
        }
    }

    /// Takes away the places that are free in front of the first that isn't, and says how many.
    pub(crate) fn pop_free(&mut self) -> usize
        ensures count { result ≡ leading_free self.old }
        ensures rest { self.new ≡ drop (leading_free self.old) self.old }
    {
        let len = self.len();
        for count in 0..len {
            if self.has_body(0) {
                return count;
            }
            self.pop_first();
        }
        len
    }

    /// How many places are free.
    pub(crate) fn free_count(&self) -> usize
        ensures { result ≡ free_count self.now }
    {
        let mut count = 0;
        for at in 0..self.len() {
            if !self.has_body(at) {
                count += 1;
            }
        }
        count
    }

    /// The ranges of the numbers whose places have a body, where this is the number before the
    /// first place's, and a range has begun there at its lower end or not.
    pub(crate) fn runs(
        &self,
        alloc: Global,
        begun: Option<u64>,
        before: u64,
    ) -> Result<Ranges, Memory>
        requires { before + length self.now < 2 ^ 64 }
        ensures { IfOk result (λ ranges. ranges ≡ runs begun before self.now) }
    {
        let mut ranges = Ranges::new(alloc);
        let mut begun = begun;
        for at in 0..self.len() {
            let number = before + at as u64;
            let has_body = self.has_body(at);
            end_range(&mut ranges, begun, number, has_body)?;
            begun = begun_with(begun, number + 1, has_body);
        }
        end_range(&mut ranges, begun, before + self.len() as u64, false)?;
        Ok(ranges)
    }
}
