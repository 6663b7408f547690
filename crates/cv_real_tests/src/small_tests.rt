//! A full stream, the clock, and the texts of the environment.

use crate::made::{Item, make_all};
use cv_ports::{Clock, MemorySink, Sink, Source};
use cv_real::{StreamSink, StreamSource, SystemClock, program_words, text_or_empty};
use std::alloc::Global;
use std::io::{Read, Write};
use std::os::fd::OwnedFd;
use std::os::unix::net::UnixStream;
use std::process::Abort;
use std::test::Fail;
use std::{env, io};

// More than the system holds for a stream's reader.
const MUCH: usize = 4_194_304;

// Fills a stream whose writer waits for nobody: it takes a front of what is written, and then fails. How much it took.
fn fill<W: Write + Drop>(rt: &impl Abort, alloc: Global, writes: W) -> Result<usize, Fail> {
    let bytes = vec![in alloc; 7u8; MUCH]?;
    let mut sink = StreamSink::new(writes);
    let taken = sink.write(bytes.as_slice()).unwrap_or(0);
    assert!(rt; 0 < taken && taken < MUCH);
    assert!(rt; sink.write(bytes.as_slice()).is_err() && sink.faults() == 1);
    assert!(rt; sink.flush().is_err() && sink.faults() == 2);
    Ok(taken)
}

// How much a stream gives up to its end, of what was written there.
fn given<R: Read + Drop>(rt: &impl Abort, alloc: Global, reads: R) -> Result<usize, Fail> {
    let mut piece = vec![in alloc; 0u8; MUCH]?;
    let beside = MemorySink::new(alloc, 0, Vec::new(alloc))?;
    let mut source = StreamSource::new(reads);
    let mut given = 0usize;
    for _ in 0..MUCH {
        let count = source.read(&mut piece, &beside).unwrap_or(0);
        if count == 0 {
            break;
        }
        assert!(rt; piece.iter().take(count).all(|byte| *byte == 7));
        given = given.saturating_add(count);
    }
    assert!(rt; source.faults() == 0);
    Ok(given)
}

// What a full stream took is what its reader gives, up to the end.
fn fill_and_drain<R: Read + Drop, W: Write + Drop>(
    rt: &impl Abort,
    alloc: Global,
    reads: R,
    writes: W,
) -> Result<(), Fail> {
    let taken = fill(rt, alloc, writes)?;
    assert!(rt; given(rt, alloc, reads)? == taken);
    Ok(())
}

#[test]
fn a_full_stream_takes_a_front_and_then_fails(rt: HostRuntime) -> Result<(), Fail> {
    let (near, far) = UnixStream::pair(&rt)?;
    near.set_nonblocking(true)?;
    fill_and_drain(&rt, rt.alloc(), far, near)?;
    let (reads, writes) = io::pipe(&rt)?;
    UnixStream::from(OwnedFd::from(writes.try_clone()?)).set_nonblocking(true)?;
    fill_and_drain(&rt, rt.alloc(), reads, writes)
}

// A file of text, one that isn't UTF-8, a folder, and links to each kind of name.
static ITEMS: [(&str, Item); 5] = [
    ("texts/folder", Item::Folder),
    ("texts/text", Item::File(b"a text\n")),
    ("texts/raw", Item::File(b"a\xff")),
    ("texts/linked", Item::Link("text")),
    ("texts/dangling", Item::Link("nowhere")),
];

const TEXTS: [(&str, &str); 7] = [
    ("texts/text", "a text\n"),
    ("texts/linked", "a text\n"),
    ("texts/raw", ""),
    ("texts/folder", ""),
    ("texts/dangling", ""),
    ("texts/absent", ""),
    ("texts/text/below", ""),
];

#[test]
fn the_environment_gives_texts_and_words(rt: HostRuntime) -> Result<(), Fail> {
    make_all(&rt, "texts", &ITEMS)?;
    for (name, want) in TEXTS {
        assert!(rt; text_or_empty(&rt, name)?.as_str() == want, "at {name}");
    }
    assert!(rt; program_words(rt.alloc(), env::args(&rt))?.is_some());
    assert!(rt; SystemClock::new(rt).now() > 1_000_000_000);
    Ok(())
}
