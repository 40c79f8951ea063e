//! A source in memory, whose calls fail as planned.

ghost use Rattle.std.specs.Prelude.{◌≡◌, ◌≤◌, ◌<◌, ◌^◌, ◌++◌, ℕ, length, take, drop, Some, min, IsErr, IsTrue, IfOk, OnErr, ◌↔◌};
ghost use Rattle.io_edges.specs.Plan.{is_due};
ghost use Rattle.io_edges.specs.Faults.{CountsOne};
ghost use Rattle.io_edges.specs.InMemory.{new_source, next_count, after_take, with_take};

use crate::fault_plan::FaultPlan;
use crate::{Failed, Source};
use std::marker::Model;

/// A source over bytes in memory, which gives short pieces and fails at the calls whose numbers it
/// is given. A failing take gives no bytes.
#[derive(Debug, Drop)]
pub struct MemorySource {
    bytes: Vec<u8>,
    at: usize,
    empty_takes: u64,
    most: usize,
    plan: FaultPlan,
}

impl Model for MemorySource {
    ghost use Rattle.std.specs.Prelude.{◌≤◌, vec_len};
    ghost use Rattle.io_edges.specs.InMemory.{PlannedSource, tape_at};

    ghost Value = { PlannedSource };

    ghost view = { λ s. record {
      tape = tape_at s.at s.bytes.items s.empty_takes;
      most = s.most;
      plan = s.plan;
    } };

    ghost invariant = { λ s. (s.at ≤ vec_len s.bytes) × (1 ≤ s.most) };
}

impl MemorySource {
    /// Gives at most `most` bytes a take. The takes whose numbers, from 0, are in `failing` fail.
    pub fn new(bytes: Vec<u8>, most: usize, failing: Vec<u64>) -> MemorySource
        requires { 1 ≤ most }
        ensures { result ≡ new_source bytes.items most failing.items }
    {
        MemorySource {
            bytes,
            at: 0,
            empty_takes: 0,
            most,
            plan: FaultPlan::new(failing),
        }
    }

    // How many takes failed.
    pub(crate) fn faults(&self) -> u64
        ensures { result ≡ self.now.plan.faults }
    {
        self.plan.faults()
    }

    // The bytes that were taken.
    pub(crate) fn given(&self) -> &[u8]
        ensures { result.now ≡ self.now.tape.taken }
    {
        &self.bytes[..self.at]
    }

    /// The bytes that are left.
    pub fn rest(&self) -> &[u8]
        ensures { result.now ≡ self.now.tape.left }
    {
        &self.bytes[self.at..]
    }
}

impl Source for MemorySource {
    ghost taken = { λ s. Some s.tape.taken };

    ghost left = { λ s. Some s.tape.left };

    ghost faults = { λ s. s.plan.faults };

    ghost empty_takes = { λ s. s.tape.empty_takes };

    fn take(&mut self, room: &mut [u8]) -> Result<usize, Failed>
        ensures failing { IsErr result ↔ IsTrue (is_due self.old.plan) }
        ensures count { IfOk result (λ n. n ≡ next_count self.old (length room.old)) }
        ensures given { IfOk result (λ n. room.new ≡ take n self.old.tape.left ++ drop n room.old) }
        ensures kept { OnErr result (room.new ≡ room.old) }
        ensures after { self.new ≡ after_take self.old (length room.old) }
        ensures some { 1 ≤ self.old.most }
        ensures faults { self.old.plan.faults < 2 ^ 64 }
        ensures empty { CountsOne self.old.tape.empty_takes self.new.tape.empty_takes (result ≡ Ok 0) }
    {
        if self.plan.fails() {
            return Err(Failed);
        }
        let n = copy_front(&self.bytes[self.at..], self.most, room);
        self.at += n;
        self.empty_takes = with_take(n, self.empty_takes);
        Ok(n)
    }
}

// How many takes gave nothing, after one that gave so many bytes.
pub(crate) fn with_take(given: usize, empty: u64) -> u64
    ensures { result ≡ with_take given empty }
{
    if given == 0 {
        empty.saturating_add(1)
    } else {
        empty
    }
}

// Copies the first bytes, at most `most` of them, to the front of the room.
pub(crate) fn copy_front(bytes: &[u8], most: usize, room: &mut [u8]) -> usize
    ensures count { result ≡ min (min most (length room.old)) (length bytes.now) }
    ensures given { room.new ≡ take result bytes.now ++ drop result room.old }
{
    let n = most.min(room.len()).min(bytes.len());
    room[..n].copy_from_slice(&bytes[..n]);
    n
}
