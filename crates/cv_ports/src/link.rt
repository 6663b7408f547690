//! A link to another host.
ghost use Rattle.std.specs.Prelude.{◌≡◌};

use crate::came_back::CameBack;
use crate::host_name::HostName;
use crate::link_source::LinkSource;
use crate::memory_sink::MemorySink;
use crate::memory_source::MemorySource;

/// A link that a dial gave: a source and a sink that stand side by side, so that what is read can be answered. Which host
/// and port it was dialled for stays as it was made.
#[derive(Drop)]
pub struct Link<R: Drop, W: Drop> {
    /// What the peer sends.
    pub reads: R,
    /// What the peer is sent.
    pub writes: W,
    host: HostName,
    port: u16,
}

impl<R: Drop, W: Drop> Link<R, W> {
    /// A link of these halves, dialled for a host and a port.
    pub fn new(reads: R, writes: W, host: HostName, port: u16) -> Link<R, W>
        ensures { result ≡ record { reads = reads; writes = writes; host = host; port = port } }
    {
        Link {
            reads,
            writes,
            host,
            port,
        }
    }

    /// The host that was dialled, as its name's bytes.
    pub fn host(&self) -> &[u8]
        ensures { result.now ≡ self.now.host }
    {
        self.host.as_bytes()
    }

    /// The port that was dialled.
    pub fn port(&self) -> u16
        ensures { result ≡ self.now.port }
    {
        self.port
    }
}

impl Link<LinkSource, MemorySink> {
    /// The same link with its source in memory alone, and the place that the source brought along.
    pub(crate) fn into_memory(self) -> (Link<MemorySource, MemorySink>, Box<CameBack>)
        ensures { result.0 ≡ record { reads = self.reads; writes = self.writes; host = self.host; port = self.port } }
    {
        let (reads, place) = self.reads.into_parts();
        let link = Link {
            reads,
            writes: self.writes,
            host: self.host,
            port: self.port,
        };
        (link, place)
    }
}
