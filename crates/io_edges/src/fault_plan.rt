// Which calls of a fake fail.
ghost use Rattle.std.specs.Prelude.{◌≡◌, ◌<◌, ◌^◌};

use std::marker::Model;

#[derive(Debug, Drop)]
pub(crate) struct FaultPlan {
    failing: Vec<u64>,
    calls: u64,
    faults: u64,
}

impl Model for FaultPlan {
    ghost use Rattle.std.specs.Prelude.{◌<◌, ◌^◌};
    ghost use Rattle.io_edges.specs.Plan.{Plan};

    ghost Value = { Plan };

    ghost view = { λ p. record { failing = p.failing.items; calls = p.calls; faults = p.faults } };

    ghost invariant = { λ p. p.faults < 2 ^ 64 };
}

impl FaultPlan {
    ghost use Rattle.io_edges.specs.Plan.{new_plan, is_due, one_call_more, after_call};

    pub(crate) fn new(failing: Vec<u64>) -> FaultPlan
        ensures { result ≡ new_plan failing.items }
    {
        FaultPlan {
            failing,
            calls: 0,
            faults: 0,
        }
    }

    // How many calls failed.
    pub(crate) fn faults(&self) -> u64
        ensures { result ≡ self.now.faults }
    {
        self.faults
    }

    // Whether the next call fails.
    pub(crate) fn is_due(&self) -> bool
        ensures answer { result ≡ is_due self.now }
        ensures faults { self.now.faults < 2 ^ 64 }
    {
        self.failing.contains(&self.calls)
    }

    // Counts a call that failed or didn't.
    pub(crate) fn count(&mut self, failed: bool)
        ensures counted { self.new ≡ one_call_more failed self.old }
        ensures faults { self.old.faults < 2 ^ 64 }
    {
        self.calls = self.calls.saturating_add(1);
        if failed {
            self.faults = self.faults.saturating_add(1);
        }
    }

    // Counts the next call, and says whether it fails.
    pub(crate) fn fails(&mut self) -> bool
        ensures answer { result ≡ is_due self.old }
        ensures counted { self.new ≡ after_call self.old }
        ensures faults { self.old.faults < 2 ^ 64 }
    {
        let is_due = self.is_due();
        self.count(is_due);
        is_due
    }
}
