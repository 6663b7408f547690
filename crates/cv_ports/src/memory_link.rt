//! A link that a dial in memory will give.
ghost use Rattle.std.specs.Prelude.{◌≡◌, [], IfOk};

use crate::came_back::CameBack;
use crate::link_source::LinkSource;
use crate::memory_sink::MemorySink;
use crate::memory_source::MemorySource;
use crate::place::Place;
use cv_base::NoMemory;
use std::alloc::Global;

/// The two halves of a link that no one dialled yet. Nothing was given or taken, and none of their calls failed.
#[derive(Drop)]
pub struct MemoryLink {
    pub(crate) reads: LinkSource,
    pub(crate) writes: MemorySink,
    pub(crate) place: Place,
    ghost given: { reads.given ≡ [] },
    ghost reads_sound: { reads.calls.faults ≡ 0 },
    ghost taken: { writes.taken ≡ [] },
    ghost passed: { writes.passed ≡ [] },
    ghost writes_sound: { writes.calls.faults ≡ 0 },
}

impl MemoryLink {
    /// A link of these halves, with the places in which a dial keeps that it was opened, and keeps it when it comes back.
    pub fn new(
        alloc: Global,
        reads: MemorySource,
        writes: MemorySink,
    ) -> Result<MemoryLink, NoMemory>
        requires given { reads.given ≡ [] }
        requires reads { reads.calls.faults ≡ 0 }
        requires taken { writes.taken ≡ [] }
        requires passed { writes.passed ≡ [] }
        requires writes { writes.calls.faults ≡ 0 }
        ensures reads { IfOk result (λ link. link.reads ≡ reads) }
        ensures writes { IfOk result (λ link. link.writes ≡ writes) }
    {
        Ok(MemoryLink {
            reads: LinkSource::new(reads, Box::new(alloc, CameBack::Nothing)?),
            writes,
            place: Place::new(alloc)?,
        })
    }
}
