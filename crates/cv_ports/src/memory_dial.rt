//! A dial in memory.
ghost use Rattle.std.specs.Prelude.{◌≡◌, ◌<◌, ◌≤◌, ◌++◌, ◌∷◌, [], ◌⊎◌, ◌↔◌, Some, IfOk, OnErr, IsErr, IsTrue, IsSome, length, is_err, if◌then◌else◌, option_map, map};
ghost use Rattle.cv_base.specs.Counts.{HasCause, raised};
ghost use Rattle.cv_base.specs.Told.{WhereTold};
ghost use Rattle.cv_ports.specs.Calls.{fails};
ghost use Rattle.cv_ports.specs.Dial.{and_failed, and_opened, and_back, after_back};
ghost use Rattle.cv_ports.specs.Streams.{Look};
ghost use Rattle.cv_ports.specs.MemoryDial.{came_in_memory, backs_of, told_of, GivesFirst};
ghost use Rattle.cv_ports.specs.declared.host_name.TheConstants.{HOST_LIMIT};

use crate::came_back::{CameBack, put_links};
use crate::dial::Dial;
use crate::failed::Failed;
use crate::failing_calls::FailingCalls;
use crate::host_name::HostName;
use crate::link::Link;
use crate::link_source::LinkSource;
use crate::memory_link::MemoryLink;
use crate::memory_sink::MemorySink;
use crate::memory_source::MemorySource;
use cv_base::NoMemory;
use std::alloc::Global;
use std::marker::Model;
use std::mem;

/// Gives stated links in their order, and keeps which were opened and those that come back. The dials of stated numbers fail, from 1 on, and so do
/// a dial for which no link is left and one of a host of more than `HOST_LIMIT` bytes.
#[derive(Drop)]
pub struct MemoryDial {
    waiting: Vec<MemoryLink>,
    came: Box<CameBack>,
    calls: FailingCalls,
}

impl Model for MemoryDial {
    ghost use Rattle.std.specs.Prelude.{reverse};
    ghost use Rattle.cv_ports.specs.CameBack.{links_of, events_of};
    ghost use Rattle.cv_ports.specs.MemoryDial.{DialView};

    ghost Value = { DialView };

    ghost view = { λ d. record { waiting = reverse d.waiting.items; came = links_of d.came.value; events = events_of d.came.value; calls = d.calls } };
}

impl MemoryDial {
    /// Gives these links. The dials of the numbers in `failing` fail, and give no link.
    pub fn new(
        alloc: Global,
        links: Vec<MemoryLink>,
        failing: Vec<u64>,
    ) -> Result<MemoryDial, NoMemory>
        ensures { IfOk result (λ dial. dial ≡ record { waiting = links.items; came = []; events = []; calls = record { failing = failing.items; count = 0; faults = 0 } }) }
    {
        let mut waiting = links;
        waiting.reverse();
        Ok(MemoryDial {
            waiting,
            came: Box::new(alloc, CameBack::Nothing)?,
            calls: FailingCalls::new(failing),
        })
    }

    /// How many of its dials failed, and how many of its links came back with a fault.
    pub fn faults(&self) -> u64
        ensures { result ≡ self.now.calls.faults }
    {
        self.calls.faults()
    }

    /// The links that came back, in their order.
    #[tactic(auto, using(crate::proofs::Backs::backs_tell))]
    pub fn into_links(self, alloc: Global) -> Result<Vec<Link<MemorySource, MemorySink>>, NoMemory>
        ensures links { IfOk result (λ links. links.items ≡ self.came) }
        ensures told { IfOk result (λ links. map came_in_memory links.items ≡ backs_of self.events) }
    {
        let mut links = Vec::new(alloc);
        put_links(Box::into_inner(self.came), &mut links)?;
        Ok(links)
    }
}

impl Dial for MemoryDial {
    type Reads = LinkSource;

    type Writes = MemorySink;

    ghost came = { told_of };

    ghost looks = { λ d look. ⊥ };

    ghost faults = { λ d. d.calls.faults };

    fn dial(&mut self, host: &str, port: u16) -> Result<Link<LinkSource, MemorySink>, Failed>
        ensures host { IfOk result (λ link. link.host ≡ host.now) }
        ensures port { IfOk result (λ link. link.port ≡ port) }
        ensures given { IfOk result (λ link. WhereTold (Some link.reads.given) (λ bytes. bytes ≡ [])) }
        ensures taken { IfOk result (λ link. WhereTold (Some link.writes.taken) (λ bytes. bytes ≡ [])) }
        ensures passed { IfOk result (λ link. Some link.writes.passed ≡ Some link.writes.taken) }
        ensures unread { IfOk result (λ link. (look : Look) → ⊥ → ⊥) }
        ensures reads { IfOk result (λ link. link.reads.calls.faults ≡ 0) }
        ensures writes { IfOk result (λ link. link.writes.calls.faults ≡ 0) }
        ensures left_told { IfOk result (λ link. IsSome (told_of self.old) → IsSome (Some link.reads.left)) }
        ensures given_told { IfOk result (λ link. IsSome (told_of self.old) → IsSome (Some link.reads.given)) }
        ensures taken_told { IfOk result (λ link. IsSome (told_of self.old) → IsSome (Some link.writes.taken)) }
        ensures opened { IfOk result (λ link. told_of self.new ≡ option_map (and_opened host.now port) (told_of self.old)) }
        ensures failed { OnErr result (told_of self.new ≡ option_map and_failed (told_of self.old)) }
        ensures unlooked { (look : Look) → ⊥ → ⊥ }
        ensures cause { HasCause self.old.calls.faults self.new.calls.faults (IsErr result) }
        ensures gives { IfOk result (λ link. GivesFirst link.reads link.writes self.old.waiting self.new.waiting) }
        ensures waiting { OnErr result (self.new.waiting ≡ self.old.waiting) }
        ensures failing { IsErr result ↔ (IsTrue (fails self.old.calls) ⊎ (HOST_LIMIT < length host.now) ⊎ (self.old.waiting ≡ [])) }
        ensures calls { self.new.calls ≡ record self.old.calls { count = raised self.old.calls.count; faults = if is_err result then raised self.old.calls.faults else self.old.calls.faults } }
        ensures unchanged { self.new.came ≡ self.old.came }
    {
        if self.calls.next_fails() {
            return Err(Failed);
        }
        let Some(name) = HostName::new(host) else {
            self.calls.add_fault();
            return Err(Failed);
        };
        let Some(link) = self.waiting.pop() else {
            self.calls.add_fault();
            return Err(Failed);
        };
        let before = mem::replace(&mut self.came, link.place.into_box());
        *self.came = CameBack::Opened(name.copy(), port, before);
        Ok(Link::new(link.reads, link.writes, name, port))
    }

    fn back(&mut self, link: Link<LinkSource, MemorySink>)
        ensures came { told_of self.new ≡ option_map (and_back (came_in_memory link)) (told_of self.old) }
        ensures noted { (look : Look) → ⊥ → ⊥ ⊎ ⊥ }
        ensures later { self.old.calls.faults ≤ self.new.calls.faults }
        ensures counted { self.new.calls.faults ≡ after_back link.reads.calls.faults link.writes.calls.faults self.old.calls.faults }
        ensures kept { self.new.came ≡ self.old.came ++ link ∷ [] }
        ensures waiting { self.new.waiting ≡ self.old.waiting }
        ensures count { self.new.calls.count ≡ self.old.calls.count }
        ensures failing { self.new.calls.failing ≡ self.old.calls.failing }
    {
        if link.reads.faults() > 0 || link.writes.faults() > 0 {
            self.calls.add_fault();
        }
        let (link, place) = link.into_memory();
        let before = mem::replace(&mut self.came, place);
        *self.came = CameBack::Back(link, before);
    }
}
