//! The bytes that were taken from an input and aren't used yet.

ghost use Rattle.std.specs.Prelude.{◌≡◌, ◌≤◌, [], length, drop, IfOk, IsTrue, ◌↔◌};
ghost use Rattle.stream_loop.specs.Edges.{Fills, input_at};

use io_edges::{Failed, Source};
use std::alloc::Global;
use std::marker::Model;
use unit_streams::Memory;

/// How many bytes are taken at most at a time.
const MOST_TAKEN: usize = 65_536;

/// What was taken from an input and isn't used yet. Its room of 64 KiB is allocated once.
///
/// It outlives a call that stops reading in the middle of what was taken, so that the next call
/// goes on right there.
#[derive(Debug, Drop)]
pub struct InputBuffer {
    room: Vec<u8>,
    from: usize,
    to: usize,
}

impl Model for InputBuffer {
    ghost use Rattle.std.specs.Prelude.{◌≡◌, ◌≤◌, ◌-◌, ℕ, List, take, drop, vec_len};

    ghost Value = { List ℕ };

    ghost view = { λ b. take (b.to - b.from) (drop b.from b.room.items) };

    ghost invariant = { λ b. (b.from ≤ b.to) × (b.to ≤ vec_len b.room) × (vec_len b.room ≡ 65536) };
}

impl InputBuffer {
    /// An empty buffer. It fails without memory for its 64 KiB.
    pub fn new(alloc: Global) -> Result<Self, Memory>
        ensures { IfOk result (λ buffer. buffer ≡ []) }
    {
        let Ok(room) = vec![in alloc; 0u8; MOST_TAKEN] else {
            return Err(Memory);
        };
        Ok(InputBuffer {
            room,
            from: 0,
            to: 0,
        })
    }

    /// The bytes that aren't used yet.
    pub fn bytes(&self) -> &[u8]
        ensures held { result.now ≡ self.now }
        ensures short { length self.now ≤ 65536 }
    {
        &self.room[self.from..self.to]
    }

    /// Uses the first bytes.
    pub fn consume(&mut self, count: usize)
        requires { count ≤ length self.old }
        ensures { self.new ≡ drop count self.old }
    {
        self.from += count;
    }

    /// Uses all bytes.
    pub fn clear(&mut self)
        ensures { self.new ≡ [] }
    {
        self.from = self.to;
    }

    /// Takes the next bytes of the input, by one read, where none are left. They may be long in
    /// coming. Answers how many they are, which is 0 at the end of the input. It fails where the
    /// read met an I/O error, and then no bytes are there.
    pub fn fill<I: Source>(&mut self, input: &mut I) -> Result<usize, Failed>
        requires { self.old ≡ [] }
        ensures { Fills (input_at I.left I.taken I.faults I.empty_takes input.old)
            (input_at I.left I.taken I.faults I.empty_takes input.new) self.new result }
    {
        self.from = 0;
        self.to = 0;
        let count = input.take(&mut self.room)?;
        self.to = count;
        Ok(count)
    }
}
