//! Each form in memory once, with a call that fails.
use cv_base::{Bytes, Items, Kind, Object, ObjectId, RepoPath, Text};
use cv_ports::{
    Clock, Dial, Failed, Folder, FolderFault, FolderItem, FoundKind, Hold, Link, MemoryClock,
    MemoryDial, MemoryFolder, MemoryHold, MemoryLink, MemoryShelf, MemorySink, MemorySource, Pause,
    Point, Shelf, ShelfFault, Sink, Source, write_all,
};
use std::alloc::Global;
use std::test::Fail;

// What each read gives, or none where it fails, and what the buffer holds then.
static READS: [(Option<usize>, &[u8]); 4] = [
    (Some(3), b"abc\0"),
    (None, b"abc\0"),
    (Some(2), b"dec\0"),
    (Some(0), b"dec\0"),
];

// Five bytes in pieces of at most three. The second read fails.
fn five_bytes(alloc: Global) -> Result<MemorySource, Fail> {
    let bytes = Vec::from_slice(alloc, b"abcde")?;
    let failing = Vec::from_slice(alloc, &[2])?;
    Ok(MemorySource::new(bytes, 3, failing))
}

// A read, beside nothing.
fn read<R: Source>(source: &mut R, beside: &R::Beside, buf: &mut [u8; 4]) -> Option<usize> {
    source.read(buf, beside).ok()
}

#[test]
fn source_gives_pieces_and_its_end(rt: HostRuntime) -> Result<(), Fail> {
    let mut source = five_bytes(rt.alloc())?;
    let beside = MemorySink::new(rt.alloc(), 0, Vec::new(rt.alloc()))?;
    let mut buf = [0; 4];
    for (count, held) in &READS {
        let found = read(&mut source, &beside, &mut buf);
        assert!(rt; found == *count && buf.as_slice() == *held);
    }
    Ok(())
}

// What is written, or a flush for nothing; whether it is done; and what has passed then. The last step fails, as the one before did.
static STEPS: [(&[u8], bool, &[u8]); 4] = [
    (b"ab", true, b""),
    (b"", true, b"ab"),
    (b"cde", false, b"ab"),
    (b"", false, b"ab"),
];

// Writes these bytes, or flushes where there are none, and answers whether it was done.
fn step<W: Sink>(sink: &mut W, bytes: &[u8]) -> bool {
    if bytes.is_empty() {
        return sink.flush().is_ok();
    }
    write_all(sink, bytes).is_ok()
}

// Whether the steps come out so in room for four bytes, where the call of this number fails; and whether this was taken.
fn steps_in_room(alloc: Global, failing: u64, taken: &[u8]) -> Result<(bool, bool), Fail> {
    let mut sink = MemorySink::new(alloc, 4, vec![in alloc; failing]?)?;
    let mut so = true;
    for (bytes, done, passed) in &STEPS {
        let found = step(&mut sink, bytes);
        so = so && found == *done && sink.passed() == *passed;
    }
    let seen = sink.as_slice() == taken;
    Ok((so, seen && sink.into_vec().as_slice() == taken))
}

// Three bytes don't fit behind two, the third call fails, or the first flush does, in the place of a later one.
#[test]
fn sink_takes_what_fits_until_a_call_fails(rt: HostRuntime) -> Result<(), Fail> {
    for (failing, so, taken) in [
        (0, true, b"abcd".as_slice()),
        (3, true, b"ab".as_slice()),
        (2, false, b"ab".as_slice()),
    ] {
        let found = steps_in_room(rt.alloc(), failing, taken)?;
        assert!(rt; found == (so, true));
    }
    Ok(())
}

#[test]
fn clock_repeats_its_last_moment(rt: HostRuntime) -> Result<(), Fail> {
    let mut clock = MemoryClock::new(Vec::from_slice(rt.alloc(), &[7, 5])?);
    for moment in [7, 5, 5] {
        assert!(rt; clock.now() == moment);
    }
    Ok(())
}

// A hold that keeps a session that read a payload until two leases were answered.
fn hold_until_two_leases() -> MemoryHold {
    MemoryHold::new(Some(Pause {
        at: Point::PayloadRead,
        until: Point::LeaseAnswered,
        times: 2,
    }))
}

// How many payloads were read and leases answered, and how many pauses ran out.
fn counts(hold: &MemoryHold) -> [u64; 3] {
    [
        hold.count(Point::PayloadRead),
        hold.count(Point::LeaseAnswered),
        hold.spent(),
    ]
}

#[test]
fn hold_counts_and_waits(rt: HostRuntime) {
    let hold = hold_until_two_leases();
    for point in [
        Point::LeaseAnswered,
        Point::LeaseAnswered,
        Point::PayloadRead,
    ] {
        hold.at(point);
    }
    assert!(rt; counts(&hold) == [1, 2, 0]);
}

// The SHA-1 of no bytes, and of `hello` and a newline.
const EMPTY: [u8; 20] = [
    0xda, 0x39, 0xa3, 0xee, 0x5e, 0x6b, 0x4b, 0x0d, 0x32, 0x55, 0xbf, 0xef, 0x95, 0x60, 0x18, 0x90,
    0xaf, 0xd8, 0x07, 0x09,
];

const HELLO: [u8; 20] = [
    0xf5, 0x72, 0xd3, 0x96, 0xfa, 0xe9, 0x20, 0x66, 0x28, 0x71, 0x4f, 0xb2, 0xce, 0x00, 0xf7, 0x2e,
    0x94, 0xf2, 0x25, 0x8f,
];

fn object(alloc: Global, id: ObjectId, bytes: &[u8]) -> Result<Object, Fail> {
    let bytes = Bytes::from_slice(alloc, bytes)?;
    Ok(Object { id, bytes })
}

// The id of this kind, whose hash is that of `hello` and a newline.
fn id_of(kind: Kind) -> ObjectId {
    ObjectId { hash: HELLO, kind }
}

// Objects that stand under the hash of `hello` and a newline: those bytes twice, not quite equal, and no bytes as a history.
static OBJECTS: [(Kind, &[u8]); 3] = [
    (Kind::Plain, b"hello\n"),
    (Kind::History, b""),
    (Kind::Plain, b"hellO\n"),
];

// The shelf of these objects. Its second call fails.
fn shelf(alloc: Global) -> Result<MemoryShelf, Fail> {
    let mut objects = Vec::new(alloc);
    for (kind, bytes) in &OBJECTS {
        objects.push(object(alloc, id_of(*kind), bytes)?)?;
    }
    Ok(MemoryShelf::new(alloc, objects, Vec::from_slice(alloc, &[2])?)?)
}

// A fault as one word: `damaged` is that of the history, which has no bytes.
fn word(fault: ShelfFault) -> &'static str {
    let id = id_of(Kind::History);
    match fault {
        ShelfFault::Failed => "failed",
        ShelfFault::NoMemory => "no memory",
        ShelfFault::Damaged { id: of, found } if of == id && found == EMPTY => "damaged",
        ShelfFault::Damaged { .. } => "another",
    }
}

// What a fetch gives: a word, or the bytes after a stroke.
fn fetched<S: Shelf>(alloc: Global, shelf: &mut S, kind: Kind) -> Result<String, Fail> {
    let mut text = String::new(alloc);
    match shelf.fetch(alloc, &id_of(kind)) {
        Ok(Some(bytes)) => {
            text.push('|')?;
            text.push_str(str::from_utf8(bytes.as_slice())?)?;
        }
        Ok(None) => text.push_str("none")?,
        Err(fault) => text.push_str(word(fault))?,
    }
    Ok(text)
}

// What the length is: a word, or the digits.
fn measured<S: Shelf>(alloc: Global, shelf: &mut S, kind: Kind) -> Result<String, Fail> {
    match shelf.length(alloc, &id_of(kind)) {
        Ok(Some(length)) => Ok(length.to_string(alloc)?),
        Ok(None) => Ok(String::from_str(alloc, "none")?),
        Err(fault) => Ok(String::from_str(alloc, word(fault))?),
    }
}

// Of which kind the id is that is asked for, whether for the bytes, and the answer.
static ASKED: [(Kind, bool, &str); 6] = [
    (Kind::Plain, true, "|hello\n"),
    (Kind::Plain, false, "failed"),
    (Kind::History, false, "0"),
    (Kind::Catalogue, false, "none"),
    (Kind::Catalogue, true, "none"),
    (Kind::History, true, "damaged"),
];

#[test]
fn shelf_gives_the_first_of_an_id(rt: HostRuntime) -> Result<(), Fail> {
    let mut shelf = shelf(rt.alloc())?;
    for (kind, whole, want) in &ASKED {
        let found = if *whole {
            fetched(rt.alloc(), &mut shelf, *kind)?
        } else {
            measured(rt.alloc(), &mut shelf, *kind)?
        };
        assert!(rt; found.as_str() == *want);
    }
    Ok(())
}

fn file(alloc: Global, name: &str) -> Result<FolderItem, Fail> {
    Ok(FolderItem {
        name: Text::from_str(alloc, name)?,
        kind: FoundKind::File,
        mode: 0o644,
        mtime: 5,
    })
}

// The items of the root: two files of these names.
fn two_files(alloc: Global, first: &str, second: &str) -> Result<Vec<FolderItem>, Fail> {
    let mut items = Vec::new(alloc);
    for name in [first, second] {
        items.push(file(alloc, name)?)?;
    }
    Ok(items)
}

// The content of the file at `/b`.
fn content_of_b(alloc: Global) -> Result<(RepoPath, Bytes), Fail> {
    let path = RepoPath::read(alloc, "/b")?;
    Ok((path, Bytes::from_slice(alloc, b"text")?))
}

/// A folder of two files, of which the second has content. Its third call fails.
fn folder(alloc: Global, first: &str, second: &str) -> Result<Option<MemoryFolder>, Fail> {
    let items = Items::new(two_files(alloc, first, second)?);
    let directories = vec![in alloc; (RepoPath::root(alloc), items)]?;
    let files = vec![in alloc; content_of_b(alloc)?]?;
    Ok(MemoryFolder::new(directories, files, vec![in alloc; 3u64]?))
}

// How many items a listing of the root has.
fn listed<F: Folder>(alloc: Global, folder: &mut F) -> Result<usize, FolderFault> {
    Ok(folder.list(alloc, &RepoPath::root(alloc))?.as_slice().len())
}

// Whether the file at `/b` has this content.
fn has<F: Folder>(alloc: Global, folder: &mut F, content: &[u8]) -> Result<bool, Fail> {
    let found = folder.read(alloc, &RepoPath::read(alloc, "/b")?)?;
    Ok(found.bytes.as_slice() == content)
}

#[test]
fn folder_gives_what_it_holds(rt: HostRuntime) -> Result<(), Fail> {
    let mut held = folder(rt.alloc(), "a", "b")?.ok_or("order")?;
    assert!(rt; held.root(rt.alloc(), "any") == Ok(()));
    for count in [Ok(2), Err(FolderFault::Failed)] {
        assert!(rt; listed(rt.alloc(), &mut held) == count);
    }
    assert!(rt; has(rt.alloc(), &mut held, b"text")?);
    Ok(())
}

#[test]
fn folder_takes_items_in_order_alone(rt: HostRuntime) -> Result<(), Fail> {
    for (first, second) in [("b", "a"), ("a", "a")] {
        assert!(rt; folder(rt.alloc(), first, second)?.is_none());
    }
    Ok(())
}

// A link that gives these bytes in pieces of at most three, and has room for four.
fn link_giving(alloc: Global, input: &[u8], failing: &[u64]) -> Result<MemoryLink, Fail> {
    let bytes = Vec::from_slice(alloc, input)?;
    let reads = MemorySource::new(bytes, 3, Vec::from_slice(alloc, failing)?);
    let writes = MemorySink::new(alloc, 4, Vec::new(alloc))?;
    Ok(MemoryLink::new(alloc, reads, writes)?)
}

// Dials, says a text, reads a piece, and hands the link back. It answers whether there was a link.
fn asks<D: Dial>(dial: &mut D, port: u16, text: &[u8]) -> bool {
    let Ok(link) = dial.dial("gate.example", port) else {
        return false;
    };
    let mut link = link;
    let mut piece = [0; 8];
    let _ = write_all(&mut link.writes, text);
    let _ = link.reads.read(&mut piece, &link.writes);
    dial.back(link);
    true
}

// What a link gave, what it has left, what it took, and for which host and port.
fn story(told: &mut Vec<u8>, link: &Link<MemorySource, MemorySink>) -> Result<(), Fail> {
    put_part(told, link.reads.given())?;
    put_part(told, link.reads.left())?;
    put_part(told, link.writes.as_slice())?;
    put_part(told, link.host())?;
    put_part(told, &link.port().to_be_bytes())
}

fn put_part(told: &mut Vec<u8>, part: &[u8]) -> Result<(), Fail> {
    told.extend_from_slice(part)?;
    told.push(b'|')?;
    Ok(())
}

// The stories of the links that came back.
fn stories(alloc: Global, dial: MemoryDial) -> Result<Vec<u8>, Fail> {
    let mut told = Vec::new(alloc);
    for link in &dial.into_links(alloc)? {
        story(&mut told, link)?;
    }
    Ok(told)
}

// A dial with a link that gives a text, and one whose first read fails. The second dialling fails.
fn two_links(alloc: Global) -> Result<MemoryDial, Fail> {
    let mut links = Vec::new(alloc);
    links.push(link_giving(alloc, b"hello", &[])?)?;
    links.push(link_giving(alloc, b"x", &[1])?)?;
    Ok(MemoryDial::new(alloc, links, vec![in alloc; 2u64]?)?)
}

// A port, what is said there, and whether there was a link.
static SAID: [(u16, &[u8], bool); 4] = [
    (80, b"ask", true),
    (81, b"again", false),
    (82, b"again", true),
    (83, b"", false),
];

const STORIES: &[u8] = b"hel|lo|ask|gate.example|\0\x50||x|agai|gate.example|\0\x52|";

#[test]
fn dial_keeps_what_comes_back(rt: HostRuntime) -> Result<(), Fail> {
    let mut dial = two_links(rt.alloc())?;
    for (port, text, linked) in &SAID {
        assert!(rt; asks(&mut dial, *port, text) == *linked);
    }
    assert!(rt; dial.faults() == 3);
    assert!(rt; stories(rt.alloc(), dial)?.as_slice() == STORIES);
    Ok(())
}

#[test]
fn hold_keeps_a_session_until_another_went_on(rt: HostRuntime) {
    let hold = hold_until_two_leases();
    let (answered, ()) = std::thread::join(
        &rt,
        || {
            hold.at(Point::PayloadRead);
            hold.count(Point::LeaseAnswered)
        },
        || {
            hold.at(Point::LeaseAnswered);
            hold.at(Point::LeaseAnswered);
        },
    );
    assert!(rt; answered == 2 && counts(&hold) == [1, 2, 0]);
}
