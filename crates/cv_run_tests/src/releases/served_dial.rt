//! A dial whose links a peer in memory serves.
ghost use Rattle.std.specs.Prelude.{◌≡◌, ◌≤◌, [], None, IfSome};
ghost use Rattle.cv_ports.specs.Dial.{after_back};

use crate::releases::changes::Change;
use crate::releases::peer::Peer;
use crate::releases::served_source::ServedSource;
use cv_base::NoMemory;
use cv_ports::{Dial, Failed, FailingCalls, HostName, Link, MemorySink, MemorySource};
use std::alloc::Global;
use std::test::Fail;

/// The most bytes that a link takes.
const ROOM: usize = 200_000;

/// What went over a link that came back: what it took, and what came on it, where a read began.
#[derive(Drop)]
pub(crate) struct Exchange {
    took: MemorySink,
    reply: Option<MemorySource>,
}

impl Exchange {
    /// What the link took.
    pub(crate) fn took(&self) -> &[u8] {
        self.took.as_slice()
    }

    /// What came on the link, read or not.
    pub(crate) fn came(&self, alloc: Global) -> Result<Vec<u8>, NoMemory> {
        let mut came = Vec::new(alloc);
        if let Some(reply) = &self.reply {
            came.extend_from_slice(reply.given())?;
            came.extend_from_slice(reply.left())?;
        }
        Ok(came)
    }
}

/// Gives links to one peer, one after another. It tells nothing.
#[derive(Drop)]
pub(crate) struct ServedDial<P> {
    alloc: Global,
    peer: Option<P>,
    changes: Vec<Change>,
    dials: u64,
    exchanges: Vec<Exchange>,
    calls: FailingCalls,
}

impl<P: Peer> ServedDial<P> {
    /// Without a peer: no link is opened.
    pub(crate) fn new(alloc: Global) -> ServedDial<P> {
        ServedDial {
            alloc,
            peer: None,
            changes: Vec::new(alloc),
            dials: 0,
            exchanges: Vec::new(alloc),
            calls: FailingCalls::new(Vec::new(alloc)),
        }
    }

    /// Puts a new peer behind the links.
    pub(crate) fn renew(&mut self) -> Result<(), Fail> {
        self.peer = Some(P::new(self.alloc)?);
        Ok(())
    }

    /// Begins anew to count links and to keep what goes over them. These changes happen to the next ones, that of the first link
    /// last, and nothing to those behind them.
    pub(crate) fn begin(&mut self, changes: Vec<Change>) {
        self.changes = changes;
        self.dials = 0;
        self.exchanges.clear();
    }

    /// How many links were dialled.
    pub(crate) fn dials(&self) -> u64 {
        self.dials
    }

    /// What went over the links that came back.
    pub(crate) fn exchanges(&self) -> &[Exchange] {
        self.exchanges.as_slice()
    }

    /// The peer, where no link is open.
    pub(crate) fn peer(&mut self) -> Result<&mut P, Fail> {
        Ok(self.peer.as_mut().ok_or("no peer")?)
    }

    /// What becomes of the next link.
    fn next_change(&mut self) -> Change
        ensures { self.new.calls ≡ self.old.calls }
    {
        self.dials = self.dials.saturating_add(1);
        self.changes.pop().unwrap_or(Change::Nothing)
    }

    /// Has others ask the peer before a link is opened, where they do.
    fn serve_others(&mut self, change: &Change) -> Result<(), NoMemory>
        ensures { self.new.calls ≡ self.old.calls }
    {
        if let Change::Others(seconds, requests) = change {
            if let Some(peer) = &mut self.peer {
                peer.come_to(*seconds);
                let _reply = peer.reply(requests.as_slice())?;
            }
        }
        Ok(())
    }

    /// Counts a link that came back with so many faults of its halves.
    fn count(&mut self, reads: u64, writes: u64)
        ensures counted { self.new.calls.faults ≡ after_back reads writes self.old.calls.faults }
        ensures later { self.old.calls.faults ≤ self.new.calls.faults }
    {
        if reads > 0 || writes > 0 {
            self.calls.add_fault();
        }
    }

    /// Keeps the peer of a link that came back, and what went over the link where there is memory for it.
    fn keep(&mut self, exchange: Exchange, peer: P)
        ensures { self.new.calls ≡ self.old.calls }
    {
        self.peer = Some(peer);
        let _kept = self.exchanges.push(exchange);
    }

    /// What the peer sends on the next link, if it is opened.
    fn accept(&mut self) -> Option<ServedSource<P>>
        ensures faults { IfSome result (λ reads. reads.calls.faults ≡ 0) }
        ensures calls { self.new.calls ≡ self.old.calls }
    {
        let change = self.next_change();
        if matches!(&change, Change::Undialled) {
            return None;
        }
        self.serve_others(&change).ok()?;
        Some(ServedSource::new(self.alloc, self.peer.take()?, change))
    }

    /// The next link, if it is opened.
    fn open(&mut self, host: &str, port: u16) -> Option<Link<ServedSource<P>, MemorySink>>
        ensures host { IfSome result (λ link. link.host ≡ host.now) }
        ensures port { IfSome result (λ link. link.port ≡ port) }
        ensures taken { IfSome result (λ link. link.writes.taken ≡ []) }
        ensures passed { IfSome result (λ link. link.writes.passed ≡ []) }
        ensures reads { IfSome result (λ link. link.reads.calls.faults ≡ 0) }
        ensures writes { IfSome result (λ link. link.writes.calls.faults ≡ 0) }
        ensures calls { self.new.calls ≡ self.old.calls }
    {
        let name = HostName::new(host)?;
        let writes = MemorySink::new(self.alloc, ROOM, Vec::new(self.alloc)).ok()?;
        let reads = self.accept()?;
        Some(Link::new(reads, writes, name, port))
    }
}

impl<P: Peer> Dial for ServedDial<P> {
    type Reads = ServedSource<P>;

    type Writes = MemorySink;

    ghost came = { λ d. None };

    ghost looks = { λ d look. ⊥ };

    ghost faults = { λ d. d.calls.faults };

    fn dial(&mut self, host: &str, port: u16) -> Result<Link<ServedSource<P>, MemorySink>, Failed> {
        match self.open(host, port) {
            Some(link) => Ok(link),
            None => {
                self.calls.add_fault();
                Err(Failed)
            }
        }
    }

    fn back(&mut self, link: Link<ServedSource<P>, MemorySink>)
        ensures later { self.old.calls.faults ≤ self.new.calls.faults }
        ensures counted { self.new.calls.faults
            ≡ after_back link.reads.calls.faults link.writes.calls.faults self.old.calls.faults }
    {
        self.count(link.reads.faults(), link.writes.faults());
        let (peer, reply) = link.reads.into_parts();
        let took = link.writes;
        self.keep(Exchange { took, reply }, peer);
    }
}
