//! What a peer in memory sends on a link.
ghost use Rattle.std.specs.Prelude.{◌≡◌, ◌≤◌, None, length};

use crate::releases::changes::Change;
use crate::releases::peer::Peer;
use cv_ports::{Failed, FailingCalls, MemorySink, MemorySource, Source};
use std::alloc::Global;

/// The most bytes that one read gives.
const PIECE: usize = 65_536;

/// What the peer of a link sends: by the first read, all that it replies to what the link was sent by then.
#[derive(Drop)]
pub(crate) struct ServedSource<P> {
    alloc: Global,
    peer: P,
    change: Change,
    reply: Option<MemorySource>,
    calls: FailingCalls,
}

impl<P: Peer> ServedSource<P> {
    /// A source that gave nothing yet.
    pub(crate) fn new(alloc: Global, peer: P, change: Change) -> ServedSource<P>
        ensures { result.calls.faults ≡ 0 }
    {
        ServedSource {
            alloc,
            peer,
            change,
            reply: None,
            calls: FailingCalls::new(Vec::new(alloc)),
        }
    }

    /// The peer, and what came.
    pub(crate) fn into_parts(self) -> (P, Option<MemorySource>) {
        (self.peer, self.reply)
    }

    /// How many of its reads failed.
    pub(crate) fn faults(&self) -> u64
        ensures { result ≡ self.now.calls.faults }
    {
        self.calls.faults()
    }

    /// What comes where the link was sent this. Nothing where the read fails.
    fn reply_to(&mut self, sent: &[u8]) -> Option<Vec<u8>>
        ensures { self.new.calls ≡ self.old.calls }
    {
        match &self.change {
            Change::Failing => None,
            Change::Says(bytes) => Vec::from_slice(self.alloc, bytes.as_slice()).ok(),
            Change::Cut(most) => {
                let mut reply = self.peer.reply(sent).ok()?;
                reply.truncate(*most);
                Some(reply)
            }
            _ => self.peer.reply(sent).ok(),
        }
    }

    /// Whether there is a reply, for which the peer is asked by the first read.
    fn begin(&mut self, sent: &[u8]) -> bool
        ensures { self.new.calls ≡ self.old.calls }
    {
        if self.reply.is_none() {
            let Some(reply) = self.reply_to(sent) else {
                return false;
            };
            self.reply = Some(MemorySource::new(reply, PIECE, Vec::new(self.alloc)));
        }
        true
    }

    /// Puts the next bytes of the reply at the front of the buffer, and says how many.
    fn give(&mut self, buf: &mut [u8], beside: &MemorySink) -> usize
        ensures fits { result ≤ length buf.old }
        ensures calls { self.new.calls ≡ self.old.calls }
    {
        match &mut self.reply {
            Some(reply) => next_of(reply, buf, beside),
            None => 0,
        }
    }
}

/// Puts the next bytes of a source, none of whose calls fails, at the front of the buffer, and says how many.
fn next_of(source: &mut MemorySource, buf: &mut [u8], beside: &MemorySink) -> usize
    ensures { result ≤ length buf.old }
{
    match source.read(buf, beside) {
        Ok(count) => count,
        Err(Failed) => 0,
    }
}

impl<P: Peer> Source for ServedSource<P> {
    type Beside = MemorySink;

    ghost left = { λ s. None };

    ghost given = { λ s. None };

    ghost faults = { λ s. s.calls.faults };

    ghost looks = { λ s look. ⊥ };

    fn read(&mut self, buf: &mut [u8], beside: &MemorySink) -> Result<usize, Failed> {
        if self.begin(beside.passed()) {
            return Ok(self.give(buf, beside));
        }
        self.calls.add_fault();
        Err(Failed)
    }
}
