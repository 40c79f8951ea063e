//! A sink in memory, whose calls fail as planned, and after the end of its direction.

ghost use Rattle.std.specs.Prelude.{◌≡◌, ◌<◌, ◌≤◌, ◌^◌, ◌++◌, [], length, take, true, false, Some, OnOk, OnErr, IfOk, IsOk, IsErrOf};
ghost use Rattle.io_edges.specs.Plan.{one_call_more};
ghost use Rattle.io_edges.specs.InMemory.{after_end, fails_next, kept_next, new_sink};

use crate::fault_plan::FaultPlan;
use crate::{Sink, SinkFault};
use std::alloc::Global;
use std::marker::Model;

/// A sink that keeps what is written to it, and fails at the calls whose numbers it is given. Puts
/// after the end of its direction fail too, and write nothing.
#[derive(Debug, Drop)]
pub struct MemorySink {
    bytes: Vec<u8>,
    kept: usize,
    plan: FaultPlan,
    ended: bool,
}

impl Model for MemorySink {
    ghost use Rattle.io_edges.specs.InMemory.{PlannedSink};

    ghost Value = { PlannedSink };

    ghost view = { λ s. record {
      written = s.bytes.items;
      kept = s.kept;
      plan = s.plan;
      ended = s.ended;
    } };
}

impl MemorySink {
    /// The puts whose numbers, from 0, are in `failing` fail. Each of them writes the first `kept`
    /// bytes of its piece, or all where it is shorter. A put that runs out of memory writes nothing.
    /// Of puts in parts, the last one before a failing one writes these first bytes, and later ones
    /// that fail write none.
    pub fn new(alloc: Global, failing: Vec<u64>, kept: usize) -> MemorySink
        ensures { result ≡ new_sink failing.items kept }
    {
        MemorySink {
            bytes: Vec::new(alloc),
            kept,
            plan: FaultPlan::new(failing),
            ended: false,
        }
    }

    // How many puts failed.
    pub(crate) fn faults(&self) -> u64
        ensures { result ≡ self.now.plan.faults }
    {
        self.plan.faults()
    }

    // The answer of a put after the end, which is counted.
    fn refuse<T>(&mut self) -> Result<T, SinkFault>
        ensures failed { IsErrOf result SinkFault.Failed }
        ensures counted { self.new.plan ≡ one_call_more true self.old.plan }
        ensures written { self.new.written ≡ self.old.written }
        ensures kept { (self.new.kept ≡ self.old.kept) × (self.new.ended ≡ self.old.ended) }
        ensures faults { self.old.plan.faults < 2 ^ 64 }
    {
        self.plan.count(true);
        Err(SinkFault::Failed)
    }

    /// All that was written.
    pub fn bytes(&self) -> &[u8]
        ensures { result.now ≡ self.now.written }
    {
        &self.bytes
    }
}

impl Sink for MemorySink {
    ghost view = { λ s. record {
      written = Some s.written;
      held = [];
      faults = s.plan.faults;
      may_hold = false;
      may_run_out = true;
    } };

    ghost ended = { λ s. s.ended };

    fn put(&mut self, bytes: &[u8]) -> Result<(), SinkFault>
        ensures ok { OnOk result (fails_next self.old ≡ false) }
        ensures written { OnOk result (self.new.written ≡ self.old.written ++ bytes.now) }
        ensures failed { IsErrOf result SinkFault.Failed → fails_next self.old ≡ true }
        ensures front { IsErrOf result SinkFault.Failed
            → self.new.written ≡ self.old.written ++ take (kept_next self.old) bytes.now }
        ensures memory { IsErrOf result SinkFault.Memory → self.new.written ≡ self.old.written }
        ensures counted { (IsErrOf result SinkFault.Memory → ⊥)
            → self.new.plan ≡ one_call_more (fails_next self.old) self.old.plan }
        ensures passed { IsErrOf result SinkFault.Memory
            → self.new.plan ≡ one_call_more false self.old.plan }
        ensures kept { self.new.kept ≡ self.old.kept }
        ensures same_end { self.new.ended ≡ self.old.ended }
        ensures faults { self.old.plan.faults < 2 ^ 64 }
    {
        if self.ended {
            return self.refuse();
        }
        let is_due = self.plan.is_due();
        let most = if is_due {
            self.kept.min(bytes.len())
        } else {
            bytes.len()
        };
        if self.bytes.extend_from_slice(&bytes[..most]).is_err() {
            self.plan.count(false);
            return Err(SinkFault::Memory);
        }
        self.plan.count(is_due);
        if is_due {
            return Err(SinkFault::Failed);
        }
        Ok(())
    }

    // A call that is to fail first takes the bytes that it keeps, once, and fails at the next try.
    fn put_some(&mut self, bytes: &[u8]) -> Result<usize, SinkFault>
        ensures within { IfOk result (λ n. n ≤ length bytes.now) }
        ensures some { IfOk result (λ n. 0 < length bytes.now → 0 < n) }
        ensures written { IfOk result
            (λ n. self.new.written ≡ self.old.written ++ take n bytes.now) }
        ensures refused { OnErr result (self.new.written ≡ self.old.written) }
        ensures failed { IsErrOf result SinkFault.Failed
            → (fails_next self.old ≡ true)
            × (self.new.plan ≡ one_call_more true self.old.plan) }
        ensures passed { (IsErrOf result SinkFault.Failed → ⊥)
            → self.new.plan.faults ≡ self.old.plan.faults }
        ensures same_end { self.new.ended ≡ self.old.ended }
        ensures faults { self.old.plan.faults < 2 ^ 64 }
    {
        if self.ended {
            return self.refuse();
        }
        let is_due = self.plan.is_due();
        let most = if is_due {
            self.kept.min(bytes.len())
        } else {
            bytes.len()
        };
        if is_due && most == 0 {
            self.plan.count(true);
            return Err(SinkFault::Failed);
        }
        if self.bytes.extend_from_slice(&bytes[..most]).is_err() {
            self.plan.count(false);
            return Err(SinkFault::Memory);
        }
        if is_due {
            self.kept = 0;
        } else {
            self.plan.count(false);
        }
        Ok(most)
    }

    // Nothing is held, so there is nothing to do.
    fn flush(&mut self) -> Result<(), SinkFault>
        ensures ok { IsOk result }
        ensures kept { self.new ≡ self.old }
    {
        Ok(())
    }

    fn end(&mut self)
        ensures { self.new ≡ after_end self.old }
    {
        self.ended = true;
    }
}
