//! A wire in memory, whose calls fail as planned.

ghost use Rattle.std.specs.Prelude.{◌≡◌, ◌⊎◌, true, false, OnOk, ◌<◌, ◌+◌, ◌^◌, ◌∷◌, ◌++◌, [], Some, IfOk, IfSome, All, IsTrue, IsErr, IsNone, ◌↔◌, length, OnErr, MatchOption, slice_get};
ghost use Rattle.std.specs.Option.{option_map};
ghost use Rattle.io_edges.specs.Plan.{is_due, one_call_more, after_call};
ghost use Rattle.io_edges.specs.Wires.{Untouched, new_wire, pair_of, added_up};

use crate::fault_plan::FaultPlan;
use crate::wire::Wire;
use crate::{Failed, MemorySink, MemorySource};
use std::alloc::Global;
use std::collections::VecDeque;
use std::marker::Model;
use unit_streams::Memory;

/// A wire that gives prepared ends, in their order, to accepts and to connects alike, and fails at
/// the calls whose numbers it is given. A connect where no ends are left fails too.
#[derive(Drop)]
pub struct MemoryWire {
    waiting: VecDeque<(MemorySource, MemorySink)>,
    closed: Vec<(MemorySource, MemorySink)>,
    out: u64,
    end_faults: u64,
    plan: FaultPlan,
}

impl Model for MemoryWire {
    ghost use Rattle.std.specs.Prelude.{◌≤◌, ◌+◌, ◌<◌, ◌^◌, map, vec_len, vec_capacity, All};
    ghost use Rattle.std.specs.VecDeque.{deque_len};
    ghost use Rattle.io_edges.specs.Wires.{PlannedWire, Untouched, pair_of};

    ghost Value = { PlannedWire };

    ghost view = { λ s. record {
      waiting = s.waiting.items;
      closed = map pair_of s.closed.items;
      out = s.out;
      end_faults = s.end_faults;
      plan = s.plan;
    } };

    ghost invariant = { λ s.
        (vec_len s.closed + s.out + deque_len s.waiting ≤ vec_capacity s.closed)
        × All Untouched s.waiting.items };
}

impl MemoryWire {
    /// A wire of these ends. The accepts and connects whose numbers, counted together from 0, are
    /// in `failing` fail. It takes the memory for what the ended connections leave, and fails
    /// without it.
    pub fn new(
        alloc: Global,
        ends: Vec<(MemorySource, MemorySink)>,
        failing: Vec<u64>,
    ) -> Result<MemoryWire, Memory>
        requires { All Untouched ends.items }
        ensures { IfOk result (λ wire. wire ≡ new_wire ends.items failing.items) }
    {
        let Ok(closed) = Vec::with_capacity(alloc, ends.len()) else {
            return Err(Memory);
        };
        Ok(MemoryWire {
            waiting: VecDeque::from(ends),
            closed,
            out: 0,
            end_faults: 0,
            plan: FaultPlan::new(failing),
        })
    }

    /// What was taken from the ended connection of that number, from 0, and what was written to it;
    /// None where fewer have ended.
    pub fn pair(&self, at: usize) -> Option<(&[u8], &[u8])>
        ensures { option_map (λ p. (p.0.now, p.1.now)) result ≡ slice_get self.now.closed at }
    {
        let (reader, writer) = self.closed.get(at)?;
        Some((reader.given(), writer.bytes()))
    }
}

impl Wire for MemoryWire {
    type Reader = MemorySource;

    type Writer = MemorySink;

    ghost waiting = { λ s. Some s.waiting };

    ghost closed = { λ s. Some s.closed };

    ghost out = { λ s. s.out };

    ghost faults = { λ s. s.plan.faults };

    ghost end_faults = { λ s. s.end_faults };

    fn accept(&mut self, _place: &str) -> Result<Option<(MemorySource, MemorySink)>, Failed>
        ensures failing { IsErr result ↔ IsTrue (is_due self.old.plan) }
        ensures handed { IfOk result (λ found. MatchOption found
            ((self.old.waiting ≡ []) × (self.new.waiting ≡ []) × (self.new.out ≡ self.old.out))
            (λ ends. (self.old.waiting ≡ ends ∷ self.new.waiting) × Untouched ends
            × (self.new.out ≡ self.old.out + 1))) }
        ensures failed { OnErr result ((self.new.waiting ≡ self.old.waiting)
            × (self.new.out ≡ self.old.out)) }
        ensures plan { self.new.plan ≡ after_call self.old.plan }
        ensures ended { (self.new.closed ≡ self.old.closed)
            × (self.new.end_faults ≡ self.old.end_faults) }
        ensures faults { self.old.plan.faults < 2 ^ 64 }
    {
        if self.plan.fails() {
            return Err(Failed);
        }
        match self.waiting.pop_front() {
            Some(ends) => {
                self.out += 1;
                Ok(Some(ends))
            }
            None => Ok(None),
        }
    }

    fn connect(&mut self, _place: &str) -> Result<(MemorySource, MemorySink), Failed>
        ensures handed { IfOk result (λ ends. (self.old.waiting ≡ ends ∷ self.new.waiting)
            × Untouched ends × (self.new.out ≡ self.old.out + 1)) }
        ensures due { OnOk result (is_due self.old.plan ≡ false) }
        ensures failed { OnErr result ((self.new.waiting ≡ self.old.waiting)
            × (self.new.out ≡ self.old.out)) }
        ensures why { OnErr result ((is_due self.old.plan ≡ true) ⊎ (self.old.waiting ≡ [])) }
        ensures plan { OnOk result (self.new.plan ≡ one_call_more false self.old.plan) }
        ensures failed_plan { OnErr result (self.new.plan ≡ one_call_more true self.old.plan) }
        ensures ended { (self.new.closed ≡ self.old.closed)
            × (self.new.end_faults ≡ self.old.end_faults) }
        ensures faults { self.old.plan.faults < 2 ^ 64 }
    {
        if self.plan.is_due() {
            self.plan.count(true);
            return Err(Failed);
        }
        let Some(ends) = self.waiting.pop_front() else {
            self.plan.count(true);
            return Err(Failed);
        };
        self.plan.count(false);
        self.out += 1;
        Ok(ends)
    }

    fn close(&mut self, reader: MemorySource, writer: MemorySink)
        requires { 0 < self.old.out }
        ensures closed { self.new.closed ≡ self.old.closed ++ pair_of (reader, writer) ∷ [] }
        ensures out { self.old.out ≡ self.new.out + 1 }
        ensures kept { (self.new.waiting ≡ self.old.waiting) × (self.new.plan ≡ self.old.plan) }
        ensures counted { self.new.end_faults ≡ added_up self.old.end_faults
            reader.plan.faults writer.plan.faults }
    {
        self.out -= 1;
        self.end_faults = self
            .end_faults
            .saturating_add(reader.faults())
            .saturating_add(writer.faults());
        self.closed.push_reserved((reader, writer));
    }
}
