//! A source in memory that never fails.

ghost use Rattle.std.specs.Prelude.{◌≡◌, ◌++◌, length, take, drop, Some, min, IsOk, IfOk};
ghost use Rattle.io_edges.specs.Faults.{CountsOne};
ghost use Rattle.io_edges.specs.InMemory.{new_tape, advanced};

use crate::memory_source::{copy_front, with_take};
use crate::{Failed, Source};
use std::marker::Model;

/// A source over bytes in memory that never fails, and gives as much as the buffer holds.
#[derive(Debug, Drop)]
pub struct SureSource {
    bytes: Vec<u8>,
    at: usize,
    empty_takes: u64,
}

impl Model for SureSource {
    ghost use Rattle.std.specs.Prelude.{◌≤◌, vec_len};
    ghost use Rattle.io_edges.specs.InMemory.{Tape, tape_at};

    ghost Value = { Tape };

    ghost view = { λ s. tape_at s.at s.bytes.items s.empty_takes };

    ghost invariant = { λ s. s.at ≤ vec_len s.bytes };
}

impl SureSource {
    /// A source of these bytes.
    pub fn new(bytes: Vec<u8>) -> SureSource
        ensures { result ≡ new_tape bytes.items }
    {
        SureSource {
            bytes,
            at: 0,
            empty_takes: 0,
        }
    }

    /// The bytes that are left.
    pub fn rest(&self) -> &[u8]
        ensures { result.now ≡ self.now.left }
    {
        &self.bytes[self.at..]
    }
}

impl Source for SureSource {
    ghost taken = { λ s. Some s.taken };

    ghost left = { λ s. Some s.left };

    ghost faults = { λ _. 0 };

    ghost empty_takes = { λ s. s.empty_takes };

    fn take(&mut self, room: &mut [u8]) -> Result<usize, Failed>
        ensures sure { IsOk result }
        ensures empty { CountsOne self.old.empty_takes self.new.empty_takes (result ≡ Ok 0) }
        ensures count { IfOk result (λ n. n ≡ min (length room.old) (length self.old.left)) }
        ensures given { IfOk result (λ n. room.new ≡ take n self.old.left ++ drop n room.old) }
        ensures after { self.new
            ≡ advanced (min (length room.old) (length self.old.left)) self.old }
    {
        let n = copy_front(&self.bytes[self.at..], usize::MAX, room);
        self.at += n;
        self.empty_takes = with_take(n, self.empty_takes);
        Ok(n)
    }
}
