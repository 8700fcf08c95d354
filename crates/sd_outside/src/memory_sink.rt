// A sink in memory with a bound, whose calls fail where they are told to.
ghost use Rattle.std.specs.Prelude.{◌≡◌, ◌+◌, ◌<◌, ◌≤◌, ◌⊎◌, Some, [], ◌++◌, length, take, OnOk, OnErr, IfOk};
ghost use Rattle.std.specs.Io.KnownBytes.{Appends};
ghost use Rattle.sd_outside.specs.Causes.{Rose, AppendsPrefix};
ghost use Rattle.sd_outside.specs.Memory.{IsToFail, after_call, failing_at, no_calls, one_more};

use crate::call_plan::CallPlan;
use crate::{Failed, NoMemory, Sink};
use std::alloc::Global;
use std::marker::Model;

/// A sink in memory, which takes a fixed number of bytes and tells them.
#[derive(Debug, Drop)]
pub struct MemSink {
    bytes: Vec<u8>,
    room: usize,
    faults: u64,
    calls: CallPlan,
}

impl Model for MemSink {
    ghost use Rattle.std.specs.Prelude.{◌≤◌, vec_capacity, vec_len};
    ghost use Rattle.sd_outside.specs.Memory.{SinkState};

    ghost Value = { SinkState };

    ghost view = { λ s.
        record { bytes = s.bytes.items; room = s.room; faults = s.faults; calls = s.calls } };

    ghost invariant = { λ s. (vec_len s.bytes ≤ s.room) × (s.room ≤ vec_capacity s.bytes) };
}

impl MemSink {
    /// An empty sink. It takes the memory for the whole room, in bytes.
    pub fn new(alloc: Global, room: usize) -> Result<MemSink, NoMemory>
        ensures { IfOk result
            (λ s. s ≡ record { bytes = []; room = room; faults = 0; calls = no_calls }) }
    {
        Ok(MemSink {
            bytes: Vec::with_capacity(alloc, room)?,
            room,
            faults: 0,
            calls: CallPlan::new(alloc),
        })
    }

    /// Lets the put of this number fail, counted from 0, and write nothing.
    pub fn fail_at(&mut self, call: u64) -> Result<(), NoMemory>
        ensures listed { OnOk result (self.new.calls ≡ failing_at self.old.calls call) }
        ensures same_bytes { self.new.bytes ≡ self.old.bytes }
        ensures same_room { self.new.room ≡ self.old.room }
        ensures same_count { self.new.faults ≡ self.old.faults }
        ensures err { OnErr result (self.new ≡ self.old) }
    {
        self.calls.fail_at(call)
    }

    /// The bytes written so far.
    pub fn written(&self) -> &[u8]
        ensures { result.now ≡ self.now.bytes }
    {
        self.bytes.as_slice()
    }

    /// The number of puts that failed.
    pub fn failures(&self) -> u64
        ensures { result ≡ self.now.faults }
    {
        self.faults
    }
}

impl Sink for MemSink {
    ghost written = { λ s. Some s.bytes };

    ghost faults = { λ s. s.faults };

    fn put(&mut self, bytes: &[u8]) -> Result<(), Failed>
        // the clauses of the trait
        ensures whole { OnOk result
            (Appends (Some self.old.bytes) (Some self.new.bytes) bytes.now) }
        ensures part { OnErr result
            (AppendsPrefix (Some self.old.bytes) (Some self.new.bytes) bytes.now) }
        ensures failed { OnErr result (Rose self.old.faults self.new.faults) }
        ensures later { self.old.faults ≤ self.new.faults }

        // it fails exactly at a call that is to fail, which writes nothing, and where the piece
        // does not fit; what fits is written, and just then it counts
        ensures asked { OnOk result (IsToFail self.old.calls → ⊥) }
        ensures fits { OnOk result (length self.old.bytes + length bytes.now ≤ self.old.room) }
        ensures cause { OnErr result
            (IsToFail self.old.calls ⊎ (self.old.room < length self.old.bytes + length bytes.now)) }
        ensures nothing { IsToFail self.old.calls → self.new.bytes ≡ self.old.bytes }
        ensures front { (IsToFail self.old.calls → ⊥)
            → self.new.bytes ≡ take self.old.room (self.old.bytes ++ bytes.now) }
        ensures counts { OnErr result (self.new.faults ≡ one_more self.old.faults) }
        ensures same_count { OnOk result (self.new.faults ≡ self.old.faults) }
        ensures same_room { self.new.room ≡ self.old.room }
        ensures calls { self.new.calls ≡ after_call self.old.calls }
    {
        if self.calls.next_fails() {
            self.faults = self.faults.saturating_add(1);
            return Err(Failed);
        }
        let left = self.room - self.bytes.len();
        if bytes.len() <= left {
            self.bytes.extend_from_slice(bytes).unwrap();
            Ok(())
        } else {
            self.bytes.extend_from_slice(&bytes[..left]).unwrap();
            self.faults = self.faults.saturating_add(1);
            Err(Failed)
        }
    }
}
