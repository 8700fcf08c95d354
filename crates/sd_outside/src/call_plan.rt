// Which call of a thing for tests is to fail.
ghost use Rattle.std.specs.Prelude.{◌≡◌, ◌↔◌, OnOk, OnErr, IsTrue};
ghost use Rattle.sd_outside.specs.Memory.{IsToFail, after_call, failing_at, no_calls};

use crate::NoMemory;
use std::alloc::Global;
use std::marker::Model;

/// How often an object in memory was called, and which of its calls are to fail.
#[derive(Debug, Drop)]
pub(crate) struct CallPlan {
    made: u64,
    failing: Vec<u64>,
}

impl Model for CallPlan {
    ghost use Rattle.sd_outside.specs.Memory.{Calls};

    ghost Value = { Calls };

    ghost view = { λ p. record { made = p.made; failing = p.failing.items } };
}

impl CallPlan {
    /// No call was made, and none is to fail.
    pub(crate) fn new(alloc: Global) -> CallPlan
        ensures { result ≡ no_calls }
    {
        CallPlan {
            made: 0,
            failing: Vec::new(alloc),
        }
    }

    /// Lets the call of this number fail, too, counted from 0.
    pub(crate) fn fail_at(&mut self, call: u64) -> Result<(), NoMemory>
        ensures ok { OnOk result (self.new ≡ failing_at self.old call) }
        ensures err { OnErr result (self.new ≡ self.old) }
    {
        self.failing.push(call)?;
        Ok(())
    }

    /// Counts a call, and says whether it is to fail.
    pub(crate) fn next_fails(&mut self) -> bool
        ensures fails { IsTrue result ↔ IsToFail self.old }
        ensures counts { self.new ≡ after_call self.old }
    {
        let fails = self.failing.contains(&self.made);
        self.made = self.made.saturating_add(1);
        fails
    }
}
