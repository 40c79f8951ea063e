//! How far a list or an array was seen to be complete, so that it isn't scanned again from its
//! beginning.

/// How far the bytes of an incomplete record were scanned: offsets alone.
#[derive(Clone, Copy, Debug)]
pub struct Resume {
    // A list that begins here goes on there.
    list_from: usize,
    list_at: usize,
    // The attributes of an array that begin here go on there.
    parts_from: usize,
    parts_at: usize,
}

impl Resume {
    ghost use Rattle.std.specs.Prelude.{◌≡◌, ℕ, ◌≤◌, List, length, true};
    ghost use Rattle.nbfx_records.specs.Resuming.{Fits, Passes};
    ghost use Rattle.nbfx_records.specs.Shapes.{array_turn, list_turn};

    /// Nothing was scanned.
    pub fn new() -> Resume
        ensures { (bytes : List ℕ) → Fits result bytes }
    {
        Resume {
            list_from: 0,
            list_at: 0,
            parts_from: 0,
            parts_at: 0,
        }
    }

    // Where a list that begins here goes on.
    pub(crate) fn list_goes_on(&self, from: usize) -> usize
        ensures { (bytes : List ℕ) → Fits self.now bytes → from ≤ length bytes
            → Passes (list_turn true) bytes from result }
    {
        if self.list_from == from {
            self.list_at
        } else {
            from
        }
    }

    // A list that begins here is whole up to there.
    pub(crate) fn keep_list(&mut self, from: usize, at: usize)
        ensures begins { self.new.list_from ≡ from }
        ensures goes_on { self.new.list_at ≡ at }
        ensures fits { (bytes : List ℕ) → Fits self.old bytes → Passes (list_turn true) bytes from
            at → Fits self.new bytes }
    {
        self.list_from = from;
        self.list_at = at;
    }

    // Where the attributes of an array go on that begin here.
    pub(crate) fn parts_go_on(&self, from: usize) -> usize
        ensures { (bytes : List ℕ) → Fits self.now bytes → from ≤ length bytes
            → Passes array_turn bytes from result }
    {
        if self.parts_from == from {
            self.parts_at
        } else {
            from
        }
    }

    // Those that begin here are whole up to there.
    pub(crate) fn keep_parts(&mut self, from: usize, at: usize)
        ensures begins { self.new.parts_from ≡ from }
        ensures goes_on { self.new.parts_at ≡ at }
        ensures fits { (bytes : List ℕ) → Fits self.old bytes → Passes array_turn bytes from at
            → Fits self.new bytes }
    {
        self.parts_from = from;
        self.parts_at = at;
    }
}
