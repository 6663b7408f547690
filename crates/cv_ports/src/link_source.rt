//! What a link in memory gives.
ghost use Rattle.std.specs.Prelude.{◌≡◌, ◌≤◌, ◌<◌, ◌↔◌, ◌⊎◌, ℕ, Some, [], length, take, min, IsTrue, OnErr, IfOk, IsErr, OnOk};
ghost use Rattle.cv_base.specs.Counts.{HasCause};
ghost use Rattle.cv_base.specs.Told.{WhereTold};
ghost use Rattle.cv_ports.specs.Streams.{Look, front, onto};
ghost use Rattle.cv_ports.specs.Calls.{fails, called};

use crate::came_back::CameBack;
use crate::failed::Failed;
use crate::memory_sink::MemorySink;
use crate::memory_source::MemorySource;
use crate::source::Source;
use std::marker::Model;

/// The source of a link in memory. It brings along the place in which its link is kept when it comes back.
#[derive(Drop)]
pub struct LinkSource {
    source: MemorySource,
    place: Box<CameBack>,
}

impl Model for LinkSource {
    ghost use Rattle.cv_ports.specs.Memory.{SourceView};

    ghost Value = { SourceView };

    ghost view = { λ s. s.source };
}

impl LinkSource {
    /// A source with a place for its link.
    pub(crate) fn new(source: MemorySource, place: Box<CameBack>) -> LinkSource
        ensures { result ≡ source }
    {
        LinkSource { source, place }
    }

    /// The source in memory, and the place.
    pub(crate) fn into_parts(self) -> (MemorySource, Box<CameBack>)
        ensures { result.0 ≡ self }
    {
        (self.source, self.place)
    }

    /// How many of its calls failed.
    pub(crate) fn faults(&self) -> u64
        ensures { result ≡ self.now.calls.faults }
    {
        self.source.faults()
    }
}

impl Source for LinkSource {
    type Beside = MemorySink;

    ghost left = { λ s. Some s.left };

    ghost given = { λ s. Some s.given };

    ghost faults = { λ s. s.calls.faults };

    ghost looks = { λ s look. ⊥ };

    fn read(&mut self, buf: &mut [u8], beside: &MemorySink) -> Result<usize, Failed>
        ensures fits { IfOk result (λ count. count ≤ length buf.old) }
        ensures gives { IfOk result (λ count. Some self.old.left ≡ front (take count buf.new) (Some self.new.left)) }
        ensures given { IfOk result (λ count. Some self.new.given ≡ onto (Some self.old.given) (take count buf.new)) }
        ensures end { IfOk result (λ count. count ≡ 0 → 0 < length buf.old → WhereTold (Some self.new.left) (λ more. more ≡ [])) }
        ensures unchanged { OnErr result (Some self.new.left ≡ Some self.old.left) }
        ensures ungiven { OnErr result (Some self.new.given ≡ Some self.old.given) }
        ensures no_read_failed { OnOk result (self.new.calls.faults ≡ self.old.calls.faults) }
        ensures cause { HasCause self.old.calls.faults self.new.calls.faults (IsErr result) }
        ensures noted { (look : Look) → ⊥ → ⊥ ⊎ (look ≡ record { left = Some self.old.left; passed = Some beside.now.passed }) }
        ensures most { IfOk result (λ count. count ≡ min (min (length self.old.left) (length buf.old)) self.old.piece) }
        ensures calls { self.new.calls ≡ called self.old.calls }
        ensures failing { IsErr result ↔ IsTrue (fails self.old.calls) }
        ensures piece { self.new.piece ≡ self.old.piece }
    {
        self.source.read(buf, beside)
    }
}
