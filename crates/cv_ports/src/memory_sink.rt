//! A sink in memory.
ghost use Rattle.std.specs.Prelude.{◌≡◌, ◌≤◌, ◌<◌, ◌-◌, ℕ, List, Option, Some, [], length, take, min, IsTrue, ◌↔◌, ◌⊎◌, OnOk, OnErr, IfOk, IsErr, is_err, if◌then◌else◌};
ghost use Rattle.cv_base.specs.Counts.{HasCause, raised};
ghost use Rattle.cv_ports.specs.Streams.{onto};
ghost use Rattle.cv_ports.specs.Calls.{breaks, called_while_whole};
ghost use Rattle.cv_ports.specs.Memory.{IsFull};

use crate::failed::Failed;
use crate::failing_calls::FailingCalls;
use crate::sink::Sink;
use cv_base::NoMemory;
use std::alloc::Global;
use std::marker::Model;

/// Takes bytes into room of a stated size. The writes and flushes of stated numbers fail, from 1 on, and so does a write
/// for which no room is left, and each call behind one that failed.
#[derive(Debug, Drop)]
pub struct MemorySink {
    taken: Vec<u8>,
    passed: usize,
    room: usize,
    calls: FailingCalls,
}

impl Model for MemorySink {
    ghost use Rattle.std.specs.Prelude.{◌≤◌, take, vec_len, vec_capacity};
    ghost use Rattle.cv_ports.specs.Memory.{SinkView};

    ghost Value = { SinkView };

    ghost view = { λ s. record { taken = s.taken.items; passed = take s.passed s.taken.items; room = s.room; calls = s.calls } };

    ghost invariant = { λ s. (s.passed ≤ vec_len s.taken) × (vec_len s.taken ≤ s.room) × (s.room ≤ vec_capacity s.taken) };
}

impl MemorySink {
    /// Took nothing, and has room for `room` bytes in all. The calls of the numbers in `failing` fail and take nothing.
    pub fn new(alloc: Global, room: usize, failing: Vec<u64>) -> Result<MemorySink, NoMemory>
        ensures { IfOk result (λ sink. sink ≡ record { taken = []; passed = []; room = room; calls = record { failing = failing.items; count = 0; faults = 0 } }) }
    {
        Ok(MemorySink {
            taken: Vec::with_capacity(alloc, room)?,
            passed: 0,
            room,
            calls: FailingCalls::new(failing),
        })
    }

    /// What it took.
    pub fn as_slice(&self) -> &[u8]
        ensures { result.now ≡ self.now.taken }
    {
        self.taken.as_slice()
    }

    /// What it passed on.
    pub fn passed(&self) -> &[u8]
        ensures { result.now ≡ self.now.passed }
    {
        &self.taken[..self.passed]
    }

    /// How many of its calls failed.
    pub fn faults(&self) -> u64
        ensures { result ≡ self.now.calls.faults }
    {
        self.calls.faults()
    }

    /// What it took, without taking memory.
    pub fn into_vec(self) -> Vec<u8>
        ensures { result.items ≡ self.taken }
    {
        self.taken
    }
}

impl Sink for MemorySink {
    ghost taken = { λ s. Some s.taken };

    ghost passed = { λ s. Some s.passed };

    ghost faults = { λ s. s.calls.faults };

    fn write(&mut self, bytes: &[u8]) -> Result<usize, Failed>
        ensures fits { IfOk result (λ count. count ≤ length bytes.now) }
        ensures some { IfOk result (λ count. 0 < length bytes.now → 0 < count) }
        ensures takes { IfOk result (λ count. Some self.new.taken ≡ onto (Some self.old.taken) (take count bytes.now)) }
        ensures unchanged { OnErr result (Some self.new.taken ≡ Some self.old.taken) }
        ensures held { Some self.new.passed ≡ Some self.old.passed }
        ensures sticks { 0 < self.old.calls.faults → IsErr result }
        ensures no_write_failed { OnOk result (self.new.calls.faults ≡ self.old.calls.faults) }
        ensures cause { HasCause self.old.calls.faults self.new.calls.faults (IsErr result) }
        ensures most { IfOk result (λ count. count ≡ min (length bytes.now) (self.old.room - length self.old.taken)) }
        ensures failing { IsErr result ↔ (IsTrue (breaks self.old.calls) ⊎ IsFull self.old bytes.now) }
        ensures calls { self.new.calls ≡ record self.old.calls { count = raised self.old.calls.count; faults = if is_err result then raised self.old.calls.faults else self.old.calls.faults } }
        ensures room { self.new.room ≡ self.old.room }
    {
        if self.calls.next_breaks() {
            return Err(Failed);
        }
        let count = bytes.len().min(self.room - self.taken.len());
        if count == 0 && !bytes.is_empty() {
            self.calls.add_fault();
            return Err(Failed);
        }
        match self.taken.extend_from_slice(&bytes[..count]) {
            Ok(()) => Ok(count),
            Err(_) => unreachable!(),
        }
    }

    fn flush(&mut self) -> Result<(), Failed>
        ensures same { Some self.new.taken ≡ Some self.old.taken }
        ensures passes { OnOk result (Some self.new.passed ≡ Some self.new.taken) }
        ensures held { OnErr result (Some self.new.passed ≡ Some self.old.passed) }
        ensures sticks { 0 < self.old.calls.faults → IsErr result }
        ensures no_write_failed { OnOk result (self.new.calls.faults ≡ self.old.calls.faults) }
        ensures cause { HasCause self.old.calls.faults self.new.calls.faults (IsErr result) }
        ensures failing { IsErr result ↔ IsTrue (breaks self.old.calls) }
        ensures after { self.new ≡ record self.old { passed = if breaks self.old.calls then self.old.passed else self.old.taken; calls = called_while_whole self.old.calls } }
    {
        if self.calls.next_breaks() {
            return Err(Failed);
        }
        self.passed = self.taken.len();
        Ok(())
    }
}
