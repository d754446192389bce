//! Which calls on an object in memory fail.

ghost use Rattle.std.specs.Prelude.{◌≡◌, ◌≤◌, OnOk, OnErr};
ghost use Rattle.gp_base.specs.FaultPlan.{no_failures, failing_also, fails_next, counted};

use std::alloc::{AllocError, Global};
use std::marker::Model;

// The calls so far, the numbers of those that fail, and the count of faults.
#[derive(Drop)]
pub struct FaultPlan {
    calls: u64,
    failing: Vec<u64>,
    faults: u64,
}

impl Model for FaultPlan {
    ghost use Rattle.gp_base.specs.FaultPlan.{CallPlan};

    ghost Value = { CallPlan };

    ghost view = { λ plan. record { calls = plan.calls; failing = plan.failing.items; faults = plan.faults } };
}

impl FaultPlan {
    // No call was made, and none fails. Takes no memory.
    pub fn new(alloc: Global) -> FaultPlan
        ensures { result ≡ no_failures }
    {
        FaultPlan {
            calls: 0,
            failing: Vec::new(alloc),
            faults: 0,
        }
    }

    // Lets the call with this number fail. After an error the plan is as it was.
    pub fn fail_at(&mut self, call: u64) -> Result<(), AllocError>
        ensures ok { OnOk result (self.new ≡ failing_also call self.old) }
        ensures err { OnErr result (self.new ≡ self.old) }
    {
        self.failing.push(call)?;
        Ok(())
    }

    // Whether the next call is to fail.
    pub fn fails_next(&self) -> bool
        ensures { result ≡ fails_next self.now }
    {
        self.failing.contains(&self.calls)
    }

    // Counts a call, and a fault where it failed.
    pub fn count(&mut self, failed: bool)
        ensures exact { self.new ≡ counted failed self.old }
        ensures faults { self.old.faults ≤ self.new.faults }
    {
        self.calls = self.calls.saturating_add(1);
        if failed {
            self.faults = self.faults.saturating_add(1);
        }
    }

    // How many calls failed by a fault.
    pub fn faults(&self) -> u64
        ensures { result ≡ self.now.faults }
    {
        self.faults
    }
}
