// A source in memory that comes in pieces, whose calls fail where they are told to.
ghost use Rattle.std.specs.Prelude.{◌≡◌, ◌+◌, ◌<◌, ◌≤◌, Some, length, take, drop, min, [], ◌++◌, OnOk, OnErr, IfOk};
ghost use Rattle.sd_outside.specs.Causes.{Rose};
ghost use Rattle.sd_outside.specs.Memory.{IsToFail, after_call, failing_at, no_calls, one_more};

use crate::call_plan::CallPlan;
use crate::{Failed, NoMemory, Source};
use std::alloc::Global;
use std::marker::Model;

/// A source in memory, which tells what it has left and gives it in pieces of
/// at most a fixed length.
#[derive(Debug, Drop)]
pub struct MemSource {
    content: Vec<u8>,
    at: usize,
    step: usize,
    faults: u64,
    calls: CallPlan,
}

impl Model for MemSource {
    ghost use Rattle.std.specs.Prelude.{◌<◌, ◌≤◌, drop, vec_len};
    ghost use Rattle.sd_outside.specs.Memory.{SourceState};

    ghost Value = { SourceState };

    ghost view = { λ s. record {
      left = drop s.at s.content.items;
      taken = s.at;
      step = s.step;
      faults = s.faults;
      calls = s.calls;
    } };

    ghost invariant = { λ s. (s.at ≤ vec_len s.content) × (0 < s.step) };
}

impl MemSource {
    /// A source of these bytes, which gives at most `step` of them in one pull.
    pub fn new(alloc: Global, content: &[u8], step: usize) -> Result<MemSource, NoMemory>
        requires { 0 < step }
        ensures { IfOk result
            (λ s. s
            ≡ record {
              left = content.now;
              taken = 0;
              step = step;
              faults = 0;
              calls = no_calls;
            }) }
    {
        Ok(MemSource {
            content: content.to_vec(alloc)?,
            at: 0,
            step,
            faults: 0,
            calls: CallPlan::new(alloc),
        })
    }

    /// Lets the pull of this number fail, counted from 0, and give nothing.
    pub fn fail_at(&mut self, call: u64) -> Result<(), NoMemory>
        ensures listed { OnOk result (self.new.calls ≡ failing_at self.old.calls call) }
        ensures same_left { self.new.left ≡ self.old.left }
        ensures same_taken { self.new.taken ≡ self.old.taken }
        ensures same_step { self.new.step ≡ self.old.step }
        ensures same_count { self.new.faults ≡ self.old.faults }
        ensures err { OnErr result (self.new ≡ self.old) }
    {
        self.calls.fail_at(call)
    }

    /// The number of pulls that failed.
    pub fn failures(&self) -> u64
        ensures { result ≡ self.now.faults }
    {
        self.faults
    }
}

// Puts the front of the content into the front of the room, as many bytes as
// fit and at most `step`.
fn fill(content: &[u8], room: &mut [u8], step: usize) -> usize
    ensures count { result ≡ min step (min (length room.old) (length content.now)) }
    ensures filled { take result room.new ≡ take result content.now }
{
    let count = step.min(room.len().min(content.len()));
    room[..count].copy_from_slice(&content[..count]);
    count
}

impl Source for MemSource {
    ghost left = { λ s. Some s.left };

    ghost taken = { λ s. s.taken };

    ghost faults = { λ s. s.faults };

    fn pull(&mut self, room: &mut [u8]) -> Result<usize, Failed>
        requires { 0 < length room.old }

        // the clauses of the trait
        ensures gives { IfOk result
            (λ count. self.old.left ≡ take count room.new ++ self.new.left) }
        ensures within { IfOk result (λ count. count ≤ length room.old) }
        ensures counts { IfOk result (λ count. self.new.taken ≡ self.old.taken + count) }
        ensures end { IfOk result (λ count. count ≡ 0 → self.old.left ≡ []) }
        ensures failed { OnErr result (Rose self.old.faults self.new.faults) }
        ensures same_left { OnErr result (self.new.left ≡ self.old.left) }
        ensures same_taken { OnErr result (self.new.taken ≡ self.old.taken) }
        ensures later { self.old.faults ≤ self.new.faults }

        // it fails exactly at a call that is to fail, and just then it counts; else it gives the
        // least of the step, the room and what is left
        ensures asked { OnOk result (IsToFail self.old.calls → ⊥) }
        ensures cause { OnErr result (IsToFail self.old.calls) }
        ensures least { IfOk result
            (λ count. count ≡ min self.old.step (min (length room.old) (length self.old.left))) }
        ensures counts_faults { OnErr result (self.new.faults ≡ one_more self.old.faults) }
        ensures same_count { OnOk result (self.new.faults ≡ self.old.faults) }
        ensures same_step { self.new.step ≡ self.old.step }
        ensures calls { self.new.calls ≡ after_call self.old.calls }
    {
        if self.calls.next_fails() {
            self.faults = self.faults.saturating_add(1);
            return Err(Failed);
        }
        let count = fill(&self.content[self.at..], room, self.step);
        self.at += count;
        Ok(count)
    }
}
