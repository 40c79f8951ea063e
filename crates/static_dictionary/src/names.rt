// Which identifier a text has.
ghost use Rattle.std.specs.Prelude.{◌≡◌, ℕ, List, None, Some, false, if◌then◌else◌, IfOk, OnOk, length, max};
ghost use Rattle.std.specs.BTreeMap as tree;
ghost use Rattle.std.specs.HashMap as hashed;
ghost use Rattle.std.specs.Str.{bytes_eq};
ghost use Rattle.static_dictionary.specs.Names.{identifier_in};

use nbfx_values::Memory;
use std::alloc::Global;
use std::collections::{BTreeMap, HashMap};
use std::hash::BuildHasher;

/// So many texts at most share a place of the hash map, which is one of its groups: as many as
/// `HashMap` takes for each group of twelve entries before it grows. That a place is a group is how
/// std's `HashMap` is made today; where it weren't, only time would be lost, and
/// `bench/hostile_input` would see it.
const MOST_AT_PLACE: u8 = 9;

/// A place for so many rows of the file.
const ROWS_A_PLACE: usize = 4;

/// So many bytes a row has at least, or it is passed over where places are counted.
const LEAST_ROW: usize = 16;

/// The identifiers of texts. A text is looked up by its hash. A file may be made of texts whose
/// hashes agree, so those that would crowd a place of the hash map are found by their order.
#[derive(Drop)]
pub(crate) struct Names {
    pub(crate) by_hash: HashMap<String, u32>,
    pub(crate) by_order: BTreeMap<String, u32>,
    /// How many texts of the hash map there are at each place.
    counts: Vec<u8>,
    /// How many bytes the longest text has. A longer one isn't hashed to find that it isn't there.
    pub(crate) longest: usize,
}

// How many rows of a file are counted: one a line, and at most one for so many bytes.
fn rows_of(bytes: &[u8]) -> usize {
    let mut lines = 0usize;
    for byte in bytes {
        if *byte == b'\n' || *byte == b'\r' {
            lines = lines.saturating_add(1);
        }
    }
    lines.min(bytes.len() / LEAST_ROW)
}

// How many places the names of so many rows have: a power of two.
fn places_of(rows: usize) -> usize {
    let mut places = 1usize;
    // There are fewer rows than 2^31.
    for _ in 0..32 {
        if places >= rows / ROWS_A_PLACE {
            return places;
        }
        places = places.wrapping_mul(2);
    }
    places
}

impl Names {
    /// No names, with places for those of this file. The hash map never grows, so a place stays one
    /// of its groups.
    pub(crate) fn new(alloc: Global, bytes: &[u8]) -> Result<Names, Memory>
        ensures { IfOk result (λ names. (text : List ℕ) → identifier_in names text ≡ None) }
    {
        let places = places_of(rows_of(bytes));
        let mut counts = Vec::new(alloc);
        counts.resize(places, 0)?;
        Ok(Names {
            by_hash: HashMap::with_capacity(alloc, places.wrapping_mul(MOST_AT_PLACE as usize))?,
            by_order: BTreeMap::new(alloc),
            counts,
            longest: 0,
        })
    }

    /// The identifier of a text.
    #[inline(always)]
    pub(crate) fn id(&self, text: &str) -> Option<u32>
        ensures { result ≡ identifier_in self.now text.now }
    {
        match self.by_hash.get(text).copied() {
            Some(id) => Some(id),
            None => id_by_order(&self.by_order, text),
        }
    }

    /// Sets the identifier of a text.
    pub(crate) fn put(&mut self, alloc: Global, text: &str, id: u32) -> Result<(), Memory>
        ensures set { OnOk result ((other : List ℕ) → identifier_in self.new other
            ≡ (if bytes_eq text.now other then Some id else identifier_in self.old other)) }
        ensures longest { OnOk result (self.new.longest
            ≡ max self.old.longest (length text.now)) }
    {
        self.longest = self.longest.max(text.len());
        let key = String::from_str(alloc, text)?;
        if goes_by_hash(&self.by_hash, &mut self.counts, text) {
            self.by_hash.insert(key, id)?;
        } else {
            self.by_order.insert(key, id)?;
        }
        Ok(())
    }
}

#[inline(never)]
fn id_by_order(by_order: &BTreeMap<String, u32>, text: &str) -> Option<u32>
    ensures { result ≡ tree.get_by_text by_order.now text.now }
{
    by_order.get(text).copied()
}

// Whether a text goes into the hash map: where it is already, or there are few at its place, among
// which it is counted then.
fn goes_by_hash(by_hash: &HashMap<String, u32>, counts: &mut [u8], text: &str) -> bool
    ensures { result ≡ false → hashed.get_by_text by_hash.now text.now ≡ None }
{
    if by_hash.contains_key(text) {
        return true;
    }
    let hash = by_hash.hasher().hash_one(text);
    let place = (hash ^ (hash >> 32)) as usize & counts.len().wrapping_sub(1);
    let Some(count) = counts.get_mut(place) else {
        return false;
    };
    if *count >= MOST_AT_PLACE {
        return false;
    }
    *count += 1;
    true
}
