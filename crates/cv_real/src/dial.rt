//! Links over TCP.
ghost use Rattle.std.specs.Prelude.{◌≡◌, ◌≤◌, ◌*◌, None, IfOk};
ghost use Rattle.std.specs.Net.ToAddrs.{GivesHostAndPort};
ghost use Rattle.std.specs.Duration.{as_nanos};
ghost use Rattle.cv_ports.specs.Dial.{after_back};

use crate::count::FaultCount;
use crate::streams::{StreamSink, StreamSource};
use cv_ports::{Dial, Failed, HostName, Link};
use std::io;
use std::io::ErrorKind;
use std::net::{HostAddrs, Net, Shutdown, TcpListener, TcpStream, ToSocketAddrs};
use std::time::Duration;

/// How many seconds a host has to answer at one of its addresses.
const ANSWER_LIMIT: u64 = 30;

/// How many seconds a peer may send nothing, or take nothing, before the call fails.
const STALL_LIMIT: u64 = 60;

/// What a peer sends. What it is sent stands beside it.
type TcpReads = StreamSource<TcpStream, TcpWrites>;

/// What a peer is sent.
type TcpWrites = StreamSink<TcpStream>;

/// Opens links over TCP (RFC 9293). It tells nothing of what they carry.
///
/// The system looks up a host's name, and each address that it gives is tried in turn, for 30 seconds. A read or a write
/// that moves nothing for 60 seconds fails. What is written goes out at once. A link that is dropped is closed too.
#[derive(Drop)]
pub struct TcpDial<R: Net<Listener = TcpListener, Stream = TcpStream> + Drop> {
    rt: R,
    faults: FaultCount,
}

/// How long a host has to answer at one of its addresses.
fn answer_limit() -> Duration
    ensures { as_nanos result ≡ 30 * 1_000_000_000 }
{
    Duration::from_secs(ANSWER_LIMIT)
}

/// How long a peer may send nothing, or take nothing, before the call fails.
fn stall_limit() -> Duration
    ensures { as_nanos result ≡ 60 * 1_000_000_000 }
{
    Duration::from_secs(STALL_LIMIT)
}

/// The addresses of a port of a host. A text that is an IP address, of version 4 or 6 and without brackets, isn't looked up.
fn addresses<R: Net<Listener = TcpListener, Stream = TcpStream>>(
    rt: &R,
    host: &str,
    port: u16,
) -> io::Result<HostAddrs>
    ensures { GivesHostAndPort host.now port result }
{
    (host, port).to_socket_addrs(rt)
}

/// A stream to the first address of a host that answers.
fn connect<R: Net<Listener = TcpListener, Stream = TcpStream>>(
    rt: &R,
    host: &str,
    port: u16,
) -> io::Result<TcpStream> {
    let mut last = io::Error::from(ErrorKind::NotFound);
    for address in addresses(rt, host, port)? {
        match TcpStream::connect_timeout(rt, &address, answer_limit()) {
            Ok(stream) => return Ok(stream),
            Err(error) => last = error,
        }
    }
    Err(last)
}

/// The two halves of a stream to a port of a host.
fn open<R: Net<Listener = TcpListener, Stream = TcpStream>>(
    rt: &R,
    host: &str,
    port: u16,
) -> io::Result<(TcpReads, TcpWrites)>
    ensures reads { IfOk result (λ both. both.0.faults.number ≡ 0) }
    ensures writes { IfOk result (λ both. both.1.faults.number ≡ 0) }
{
    let stream = connect(rt, host, port)?;
    let limit = Some(stall_limit());
    stream.set_nodelay(true)?;
    stream.set_read_timeout(limit)?;
    stream.set_write_timeout(limit)?;
    let other = stream.try_clone()?;
    Ok((StreamSource::new(stream), StreamSink::new(other)))
}

impl<R: Net<Listener = TcpListener, Stream = TcpStream> + Drop> TcpDial<R> {
    /// No dial failed yet.
    pub fn new(rt: R) -> TcpDial<R>
        ensures faults { result.faults.number ≡ 0 }
        ensures runtime { result.rt ≡ rt }
    {
        TcpDial {
            rt,
            faults: FaultCount::new(),
        }
    }

    /// How many of its dials failed, and how many of its links came back with a fault.
    pub fn faults(&self) -> u64
        ensures { result ≡ self.now.faults.number }
    {
        self.faults.number
    }
}

impl<R: Net<Listener = TcpListener, Stream = TcpStream> + Drop> Dial for TcpDial<R> {
    type Reads = TcpReads;

    type Writes = TcpWrites;

    ghost came = { λ d. None };

    ghost looks = { λ d look. ⊥ };

    ghost faults = { λ d. d.faults.number };

    fn dial(&mut self, host: &str, port: u16) -> Result<Link<TcpReads, TcpWrites>, Failed> {
        let Some(name) = HostName::new(host) else {
            self.faults.raise();
            return Err(Failed);
        };
        let Ok((reads, writes)) = open(&self.rt, host, port) else {
            self.faults.raise();
            return Err(Failed);
        };
        Ok(Link::new(reads, writes, name, port))
    }

    fn back(&mut self, link: Link<TcpReads, TcpWrites>)
        ensures later { self.old.faults.number ≤ self.new.faults.number }
        ensures counted { self.new.faults.number ≡ after_back link.reads.faults.number link.writes.faults.number self.old.faults.number }
    {
        if link.reads.faults() > 0 || link.writes.faults() > 0 {
            self.faults.raise();
        }
        let _ = link.writes.inner().shutdown(Shutdown::Both);
    }
}
