//! A source in memory.
ghost use Rattle.std.specs.Prelude.{◌≡◌, ◌≤◌, ◌<◌, ◌↔◌, ◌⊎◌, ℕ, List, Option, Some, [], length, take, drop, min, IsTrue, OnErr, IfOk, IsErr, OnOk};
ghost use Rattle.cv_base.specs.Counts.{HasCause};
ghost use Rattle.cv_base.specs.Told.{WhereTold};
ghost use Rattle.cv_ports.specs.Streams.{Look, front, onto};
ghost use Rattle.cv_ports.specs.Calls.{fails, called};

use crate::failed::Failed;
use crate::failing_calls::FailingCalls;
use crate::memory_sink::MemorySink;
use crate::source::Source;
use std::marker::Model;

/// Gives stated bytes, in pieces of at most a stated size. The calls of stated numbers fail, from 1 on.
#[derive(Debug, Drop)]
pub struct MemorySource {
    bytes: Vec<u8>,
    given: usize,
    piece: usize,
    calls: FailingCalls,
}

impl Model for MemorySource {
    ghost use Rattle.std.specs.Prelude.{◌≤◌, ◌<◌, vec_len, take, drop};
    ghost use Rattle.cv_ports.specs.Memory.{SourceView};

    ghost Value = { SourceView };

    ghost view = { λ s. record { left = drop s.given s.bytes.items; given = take s.given s.bytes.items; piece = s.piece; calls = s.calls } };

    ghost invariant = { λ s. (s.given ≤ vec_len s.bytes) × (0 < s.piece) };
}

impl MemorySource {
    /// Gives these bytes, at most `piece` a call. The calls of the numbers in `failing` fail and give nothing.
    pub fn new(bytes: Vec<u8>, piece: usize, failing: Vec<u64>) -> MemorySource
        requires { 0 < piece }
        ensures { result ≡ record { left = bytes.items; given = []; piece = piece; calls = record { failing = failing.items; count = 0; faults = 0 } } }
    {
        MemorySource {
            bytes,
            given: 0,
            piece,
            calls: FailingCalls::new(failing),
        }
    }

    /// What it gave.
    pub fn given(&self) -> &[u8]
        ensures { result.now ≡ self.now.given }
    {
        &self.bytes[..self.given]
    }

    /// What it has left.
    pub fn left(&self) -> &[u8]
        ensures { result.now ≡ self.now.left }
    {
        &self.bytes[self.given..]
    }

    /// How many of its calls failed.
    pub fn faults(&self) -> u64
        ensures { result ≡ self.now.calls.faults }
    {
        self.calls.faults()
    }
}

impl Source for MemorySource {
    type Beside = MemorySink;

    ghost left = { λ s. Some s.left };

    ghost given = { λ s. Some s.given };

    ghost faults = { λ s. s.calls.faults };

    ghost looks = { λ s look. ⊥ };

    fn read(&mut self, buf: &mut [u8], beside: &MemorySink) -> Result<usize, Failed>
        ensures fits { IfOk result (λ count. count ≤ length buf.old) }
        ensures gives { IfOk result (λ count. Some self.old.left ≡ front (take count buf.new) (Some self.new.left)) }
        ensures given { IfOk result (λ count. Some self.new.given ≡ onto (Some self.old.given) (take count buf.new)) }
        ensures end { IfOk result (λ count. count ≡ 0 → 0 < length buf.old → WhereTold (Some self.new.left) (λ more. more ≡ [])) }
        ensures unchanged { OnErr result (Some self.new.left ≡ Some self.old.left) }
        ensures ungiven { OnErr result (Some self.new.given ≡ Some self.old.given) }
        ensures no_read_failed { OnOk result (self.new.calls.faults ≡ self.old.calls.faults) }
        ensures cause { HasCause self.old.calls.faults self.new.calls.faults (IsErr result) }
        ensures noted { (look : Look) → ⊥ → ⊥ ⊎ (look ≡ record { left = Some self.old.left; passed = Some beside.now.passed }) }
        ensures most { IfOk result (λ count. count ≡ min (min (length self.old.left) (length buf.old)) self.old.piece) }
        ensures calls { self.new.calls ≡ called self.old.calls }
        ensures failing { IsErr result ↔ IsTrue (fails self.old.calls) }
        ensures piece { self.new.piece ≡ self.old.piece }
    {
        if self.calls.next_fails() {
            return Err(Failed);
        }
        let rest = &self.bytes[self.given..];
        let count = rest.len().min(buf.len()).min(self.piece);
        buf[..count].copy_from_slice(&rest[..count]);
        self.given += count;
        Ok(count)
    }
}
