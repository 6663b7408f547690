//! Any reader of std as a source, and any writer as a sink.
ghost use Rattle.std.specs.Prelude.{◌≡◌, ◌≤◌, ◌<◌, ⊤, None, IfOk, OnOk, IsErr, length};
ghost use Rattle.std.specs.Io.{ReadsAtMost};
ghost use Rattle.std.specs.Io.KnownBytes.{Keeps, ReadConsumes, WriteAppends};
ghost use Rattle.cv_base.specs.Counts.{HasCause};

use crate::count::FaultCount;
use cv_ports::{Failed, Sink, Source};
use std::io;
use std::io::{ErrorKind, Read, Write};
use std::marker::PhantomData;

/// Reads, and begins again where a signal interrupted the call.
fn read_retrying<T: Read>(inner: &mut T, buf: &mut [u8]) -> io::Result<usize>
    ensures fits { ReadsAtMost result buf.new }
    ensures consumes { ReadConsumes (T.remaining inner.old) (T.remaining inner.new) result buf.new }
{
    // Each turn but the last is a signal; the bound is never met.
    for _ in 0..u64::MAX {
        match inner.read(buf) {
            Err(error) if error.kind() == ErrorKind::Interrupted => {}
            done => return done,
        }
    }
    Err(io::Error::from(ErrorKind::TimedOut))
}

/// Writes some of the bytes. A write that takes nothing is an error.
fn write_retrying<T: Write>(inner: &mut T, bytes: &[u8]) -> io::Result<usize>
    ensures fits { IfOk result (λ count. (count ≤ length bytes.now) × (0 < count)) }
    ensures appends { WriteAppends (T.contents inner.old) (T.contents inner.new) result bytes.now }
{
    // Each turn but the last is a signal; the bound is never met.
    for _ in 0..u64::MAX {
        match inner.write(bytes) {
            Ok(0) => return Err(io::Error::from(ErrorKind::WriteZero)),
            Err(error) if error.kind() == ErrorKind::Interrupted => {}
            done => return done,
        }
    }
    Err(io::Error::from(ErrorKind::TimedOut))
}

/// A source over what std reads: standard input, a file or a connection. Beside it stands a sink of the type `W`. It tells
/// nothing of its content.
#[derive(Drop)]
pub struct StreamSource<T: Read, W: Sink> {
    inner: T,
    faults: FaultCount,
    beside: PhantomData<W>,
}

impl<T: Read, W: Sink> StreamSource<T, W> {
    /// A source over this reader. No call failed yet.
    pub fn new(inner: T) -> StreamSource<T, W>
        ensures faults { result.faults.number ≡ 0 }
        ensures inner { result.inner ≡ inner }
    {
        StreamSource {
            inner,
            faults: FaultCount::new(),
            beside: PhantomData,
        }
    }

    /// How many of its reads failed.
    pub fn faults(&self) -> u64
        ensures { result ≡ self.now.faults.number }
    {
        self.faults.number
    }
}

impl<T: Read, W: Sink> Source for StreamSource<T, W> {
    type Beside = W;

    ghost left = { λ s. None };

    ghost given = { λ s. None };

    ghost faults = { λ s. s.faults.number };

    ghost looks = { λ s look. ⊥ };

    fn read(&mut self, buf: &mut [u8], _beside: &W) -> Result<usize, Failed>
        ensures fits { IfOk result (λ count. count ≤ length buf.old) }
        ensures consumes { ReadConsumes (T.remaining self.old.inner) (T.remaining self.new.inner)
            result buf.new }
        ensures no_read_failed { OnOk result (self.new.faults.number ≡ self.old.faults.number) }
        ensures cause { HasCause self.old.faults.number self.new.faults.number (IsErr result) }
    {
        if let Ok(count) = read_retrying(&mut self.inner, buf) {
            return Ok(count);
        }
        self.faults.raise();
        Err(Failed)
    }
}

/// A sink over what std writes: standard output, a file or a connection. It tells nothing of its content. Once a call failed
/// the writer isn't asked any more, and each later call fails.
#[derive(Drop)]
pub struct StreamSink<T: Write> {
    inner: T,
    faults: FaultCount,
}

impl<T: Write> StreamSink<T> {
    /// A sink over this writer. No call failed yet.
    pub fn new(inner: T) -> StreamSink<T>
        ensures faults { result.faults.number ≡ 0 }
        ensures inner { result.inner ≡ inner }
    {
        StreamSink {
            inner,
            faults: FaultCount::new(),
        }
    }

    /// How many of its writes and flushes failed.
    pub fn faults(&self) -> u64
        ensures { result ≡ self.now.faults.number }
    {
        self.faults.number
    }

    /// One more call failed.
    fn fault(&mut self) -> Failed
        ensures inner { self.new.inner ≡ self.old.inner }
        ensures cause { HasCause self.old.faults.number self.new.faults.number ⊤ }
    {
        self.faults.raise();
        Failed
    }

    /// The writer.
    pub(crate) fn inner(&self) -> &T
        ensures { result.now ≡ self.now.inner }
    {
        &self.inner
    }
}

impl<T: Write> Sink for StreamSink<T> {
    ghost taken = { λ s. None };

    ghost passed = { λ s. None };

    ghost faults = { λ s. s.faults.number };

    fn write(&mut self, bytes: &[u8]) -> Result<usize, Failed>
        ensures fits { IfOk result (λ count. count ≤ length bytes.now) }
        ensures some { IfOk result (λ count. 0 < length bytes.now → 0 < count) }
        ensures appends { WriteAppends (T.contents self.old.inner) (T.contents self.new.inner)
            result bytes.now }
        ensures sticks { 0 < self.old.faults.number → IsErr result }
        ensures unasked { 0 < self.old.faults.number → self.new.inner ≡ self.old.inner }
        ensures no_write_failed { OnOk result (self.new.faults.number ≡ self.old.faults.number) }
        ensures cause { HasCause self.old.faults.number self.new.faults.number (IsErr result) }
    {
        if self.faults.number > 0 {
            return Err(self.fault());
        }
        if bytes.is_empty() {
            return Ok(0);
        }
        match write_retrying(&mut self.inner, bytes) {
            Ok(count) => Ok(count),
            Err(_) => Err(self.fault()),
        }
    }

    fn flush(&mut self) -> Result<(), Failed>
        ensures keeps { Keeps (T.contents self.old.inner) (T.contents self.new.inner) }
        ensures sticks { 0 < self.old.faults.number → IsErr result }
        ensures unasked { 0 < self.old.faults.number → self.new.inner ≡ self.old.inner }
        ensures no_write_failed { OnOk result (self.new.faults.number ≡ self.old.faults.number) }
        ensures cause { HasCause self.old.faults.number self.new.faults.number (IsErr result) }
    {
        if self.faults.number > 0 {
            return Err(self.fault());
        }
        match self.inner.flush() {
            Ok(()) => Ok(()),
            Err(_) => Err(self.fault()),
        }
    }
}
