// Texts that lie in one buffer.
ghost use Rattle.std.specs.Prelude.{◌≡◌, ◌≤◌, ◌==◌, [], ◌∷◌, ◌++◌, length, option_map, slice_get, slice_index, slice_index_or, slice_range, take, OnOk, OnErr};
ghost use Rattle.std.specs.Str.{IsUtf8};

use std::alloc::{AllocError, Global};
use std::marker::Model;
use std::str::from_utf8_unchecked;

// Texts one after the other, each by the place where it ends.
#[derive(Drop)]
pub(crate) struct Texts {
    bytes: Vec<u8>,
    ends: Vec<usize>,
}

impl Model for Texts {
    ghost use Rattle.std.specs.Prelude.{ℕ, List};
    ghost use Rattle.session_dictionary.specs.Pieces.{AreTexts, pieces};

    ghost Value = { List (List ℕ) };

    ghost view = { λ t. pieces 0 t.ends.items t.bytes.items };

    ghost invariant = { λ t. AreTexts t.ends.items t.bytes.items };
}

impl Texts {
    pub(crate) fn new(alloc: Global) -> Self
        ensures { result ≡ [] }
    {
        Texts {
            bytes: Vec::new(alloc),
            ends: Vec::new(alloc),
        }
    }

    pub(crate) fn len(&self) -> usize
        ensures { result ≡ length self.now }
    {
        self.ends.len()
    }

    pub(crate) fn is_empty(&self) -> bool
        ensures { result ≡ (length self.now == 0) }
    {
        self.ends.is_empty()
    }

    // The text at a place.
    pub(crate) fn get(&self, place: usize) -> Option<&str>
        ensures { option_map (λ text. text.now) result ≡ slice_get self.now place }
    {
        let end = *self.ends.get(place)?;
        let start = start_at(&self.ends, place);
        Some(part_of(&self.bytes, start, end))
    }

    // The text at a place, and the empty one where there is none.
    pub(crate) fn nth(&self, place: usize) -> &str
        ensures { result.now ≡ slice_index_or self.now place [] }
    {
        match self.get(place) {
            Some(text) => text,
            None => "",
        }
    }

    // Appends a text.
    pub(crate) fn push(&mut self, text: &str) -> Result<(), AllocError>
        ensures added { OnOk result (self.new ≡ self.old ++ text.now ∷ []) }
        ensures err { OnErr result (self.new ≡ self.old) }
    {
        self.ends.reserve(1)?;
        self.bytes.extend_from_slice(text.as_bytes())?;
        self.ends.push(self.bytes.len())?;
        Ok(())
    }

    // Leaves the first so many texts.
    pub(crate) fn truncate(&mut self, count: usize)
        requires { count ≤ length self.old }
        ensures { self.new ≡ take count self.old }
    {
        let end = start_at(&self.ends, count);
        self.ends.truncate(count);
        self.bytes.truncate(end);
    }
}

// Where the text at a place begins.
fn start_at(ends: &[usize], place: usize) -> usize
    requires { place ≤ length ends.now }
    ensures { result ≡ slice_index (0 ∷ ends.now) place }
{
    if place == 0 { 0 } else { ends[place - 1] }
}

// The text of a part of the bytes.
fn part_of(bytes: &[u8], start: usize, end: usize) -> &str
    requires rises { start ≤ end }
    requires within { end ≤ length bytes.now }
    requires utf8 { IsUtf8 (slice_range bytes.now start end) }
    ensures { result.now ≡ slice_range bytes.now start end }
{
    unsafe { from_utf8_unchecked(&bytes[start..end]) }
}
