//! The bytes, digests and offsets are those of `tools/history_vectors.py`.
use cv_base::{Bytes, Kind, Object, ObjectId};
use cv_history::{ChainFault, Record, RecordFault, chain};
use cv_ports::MemoryShelf;
use std::alloc::Global;
use std::test::Fail;

// The record of the empty repository, and that of its second revision.
fn first() -> [u8; 102] {
    [
        67, 86, 72, 49, 0, 0, 0, 0, 0, 0, 0, 1, 0, 0, 0, 0, 0, 0, 0, 0, 0, 0, 0, 0, 0, 0, 0, 0, 0,
        0, 0, 0, 48, 122, 172, 32, 254, 83, 145, 250, 172, 208, 234, 56, 249, 88, 159, 183, 151,
        163, 104, 92, 48, 122, 172, 32, 254, 83, 145, 250, 172, 208, 234, 56, 249, 88, 159, 183,
        151, 163, 104, 92, 0, 0, 0, 0, 0, 0, 0, 0, 0, 0, 0, 0, 0, 0, 0, 0, 0, 0, 0, 0, 0, 0, 0, 0,
        101, 83, 241, 0, 0, 0,
    ]
}

fn second() -> [u8; 106] {
    [
        67, 86, 72, 49, 0, 0, 0, 0, 0, 0, 0, 2, 170, 100, 37, 170, 177, 140, 199, 23, 178, 76, 144,
        208, 163, 229, 170, 203, 189, 192, 25, 22, 230, 210, 230, 82, 252, 233, 148, 144, 149, 111,
        17, 38, 219, 28, 198, 156, 43, 171, 197, 206, 230, 210, 230, 82, 252, 233, 148, 144, 149,
        111, 17, 38, 219, 28, 198, 156, 43, 171, 197, 206, 0, 0, 0, 0, 0, 0, 0, 1, 0, 0, 0, 0, 0,
        0, 0, 1, 0, 2, 47, 97, 0, 2, 107, 49, 0, 0, 0, 0, 101, 83, 241, 0, 0, 0,
    ]
}

const FIRST_ID: ObjectId = ObjectId {
    hash: [
        170, 100, 37, 170, 177, 140, 199, 23, 178, 76, 144, 208, 163, 229, 170, 203, 189, 192, 25,
        22,
    ],
    kind: Kind::History,
};

const SECOND_ID: ObjectId = ObjectId {
    hash: [
        207, 15, 99, 209, 2, 5, 45, 121, 79, 200, 138, 79, 0, 27, 151, 69, 29, 91, 172, 119,
    ],
    kind: Kind::History,
};

// The SHA-1 of no bytes.
const NOTHING: [u8; 20] = [
    218, 57, 163, 238, 94, 107, 75, 13, 50, 85, 191, 239, 149, 96, 24, 144, 175, 216, 7, 9,
];

// That of `hello` and a newline.
const HELLO_ID: ObjectId = ObjectId {
    hash: [
        245, 114, 211, 150, 250, 233, 32, 102, 40, 113, 79, 178, 206, 0, 247, 46, 148, 242, 37, 143,
    ],
    kind: Kind::History,
};

// An offset, a byte that is set there, and the offset of the first field that is wrong then.
type Edit = (usize, u8, usize);

static FIRST_EDITS: [Edit; 8] = [
    (12, 1, 12),
    (31, 1, 12),
    (52, 0, 52),
    (79, 1, 72),
    (87, 1, 80),
    (89, 1, 88),
    (91, 1, 90),
    (101, 1, 100),
];

static SECOND_EDITS: [Edit; 12] = [
    (3, 50, 0),
    (4, 1, 4),
    (11, 0, 4),
    (9, 5, 4),
    (88, 16, 88),
    (90, 97, 90),
    (91, 0, 90),
    (91, 47, 90),
    (92, 1, 92),
    (94, 255, 94),
    (96, 64, 96),
    (104, 1, 104),
];

fn first_id() -> ObjectId {
    FIRST_ID
}

fn second_id() -> ObjectId {
    SECOND_ID
}

fn hello_id() -> ObjectId {
    HELLO_ID
}

fn read(alloc: Global, bytes: &[u8]) -> Result<Record, RecordFault> {
    Record::read(alloc, bytes)
}

// The numbers of the record that bytes are, and the id of the record before.
fn numbers(alloc: Global, bytes: &[u8]) -> Result<([u64; 4], ObjectId), Fail> {
    let record = read(alloc, bytes)?;
    let token = record.token;
    let numbers = [record.revision, record.time, token.epoch, token.number];
    let hash = record.previous;
    let kind = Kind::History;
    Ok((numbers, ObjectId { hash, kind }))
}

// The path, the key and the tag of the record that bytes are, with a bar between each two.
fn texts(alloc: Global, bytes: &[u8]) -> Result<String, Fail> {
    let record = read(alloc, bytes)?;
    let path = record.path.text(alloc)?;
    let (key, tag) = (record.key.text(), record.tag.text());
    Ok(format!(in alloc; "{path}|{key}|{tag}")?)
}

// The bytes that the record is written as that bytes are.
fn rewritten(alloc: Global, bytes: &[u8]) -> Result<Vec<u8>, Fail> {
    let record = Record::read(alloc, bytes)?;
    Ok(record.write(alloc)?)
}

fn id_of(bytes: &[u8]) -> ObjectId {
    ObjectId::of(Kind::History, bytes)
}

#[test]
fn records_are_read(rt: HostRuntime) -> Result<(), Fail> {
    let (numbers_of_one, _) = numbers(rt.alloc(), &first())?;
    assert_eq!(rt; numbers_of_one, [1, 1_700_000_000, 0, 0]);
    let (numbers_of_two, previous) = numbers(rt.alloc(), &second())?;
    assert_eq!(rt; numbers_of_two, [2, 1_700_000_000, 1, 1]);
    assert_eq!(rt; previous, first_id());
    assert_eq!(rt; texts(rt.alloc(), &second())?.as_str(), "/a|k1|");
    Ok(())
}

#[test]
fn records_are_written(rt: HostRuntime) -> Result<(), Fail> {
    assert_eq!(rt; id_of(&first()), first_id());
    assert_eq!(rt; id_of(&second()), second_id());
    let written = rewritten(rt.alloc(), &second())?;
    assert_eq!(rt; written.as_slice(), second().as_slice());
    Ok(())
}

// The fault of the first bytes of these.
fn fault_of_cut(alloc: Global, bytes: &[u8], size: usize) -> Option<RecordFault> {
    if size > bytes.len() {
        return None;
    }
    read(alloc, &bytes[..size]).err()
}

// The first size, below that of the bytes, of which the fault is another than at their end.
fn first_other_cut(alloc: Global, bytes: &[u8]) -> Option<usize> {
    for size in 0..bytes.len() {
        if fault_of_cut(alloc, bytes, size) != Some(RecordFault::BadRecord(size)) {
            return Some(size);
        }
    }
    None
}

#[test]
fn cut_records_are_faulty_at_their_end(rt: HostRuntime) -> Result<(), Fail> {
    assert_eq!(rt; first_other_cut(rt.alloc(), &first()), None);
    assert_eq!(rt; first_other_cut(rt.alloc(), &second()), None);
    let mut longer = Vec::from_slice(rt.alloc(), &second())?;
    longer.push(0)?;
    let fault = fault_of_cut(rt.alloc(), longer.as_slice(), 107);
    assert_eq!(rt; fault, Some(RecordFault::BadRecord(106)));
    Ok(())
}

fn fault_of_edit(
    alloc: Global,
    bytes: &[u8],
    at: usize,
    byte: u8,
) -> Result<Option<RecordFault>, Fail> {
    let mut edited = Vec::from_slice(alloc, bytes)?;
    if at < edited.len() {
        edited[at] = byte;
    }
    Ok(read(alloc, edited.as_slice()).err())
}

// The number of the first edit that shows another fault.
fn first_other_edit(alloc: Global, bytes: &[u8], edits: &[Edit]) -> Result<Option<usize>, Fail> {
    for (number, (at, byte, offset)) in edits.iter().enumerate() {
        let fault = fault_of_edit(alloc, bytes, *at, *byte)?;
        if fault != Some(RecordFault::BadRecord(*offset)) {
            return Ok(Some(number));
        }
    }
    Ok(None)
}

#[test]
fn wrong_fields_are_named_by_their_offsets(rt: HostRuntime) -> Result<(), Fail> {
    assert_eq!(rt; first_other_edit(rt.alloc(), &first(), &FIRST_EDITS)?, None);
    assert_eq!(rt;
        first_other_edit(rt.alloc(), &second(), &SECOND_EDITS)?,
        None
    );
    Ok(())
}

// A shelf of these objects, whose calls of these numbers fail.
fn shelf_of(
    alloc: Global,
    objects: &[(ObjectId, &[u8])],
    failing: &[u64],
) -> Result<MemoryShelf, Fail> {
    let mut made = Vec::new(alloc);
    for (id, bytes) in objects {
        let bytes = Bytes::from_slice(alloc, bytes)?;
        made.push(Object { id: *id, bytes })?;
    }
    Ok(MemoryShelf::new(alloc, made, Vec::from_slice(alloc, failing)?)?)
}

fn walk(
    alloc: Global,
    shelf: &mut MemoryShelf,
    last: &ObjectId,
    revision: u64,
) -> Result<Vec<Record>, ChainFault> {
    chain(alloc, shelf, last, revision)
}

// The revisions of the records of a chain.
fn revisions(
    alloc: Global,
    shelf: &mut MemoryShelf,
    last: &ObjectId,
    revision: u64,
) -> Result<Vec<u64>, ChainFault> {
    let records = walk(alloc, shelf, last, revision)?;
    let mut revisions = Vec::new(alloc);
    for record in &records {
        revisions.push(record.revision)?;
    }
    Ok(revisions)
}

// The id and the revision of a chain's end, and its revisions.
type Walk = (ObjectId, u64, Result<&'static [u64], ChainFault>);

fn is_as(found: &Result<Vec<u64>, ChainFault>, expected: Result<&[u64], ChainFault>) -> bool {
    match (found, expected) {
        (Ok(found), Ok(expected)) => found.as_slice() == expected,
        (Err(found), Err(expected)) => *found == expected,
        _ => false,
    }
}

// The number of the first walk, one after another over one shelf, that gives otherwise.
fn first_other_walk(
    alloc: Global,
    objects: &[(ObjectId, &[u8])],
    failing: &[u64],
    walks: &[Walk],
) -> Result<Option<usize>, Fail> {
    let mut shelf = shelf_of(alloc, objects, failing)?;
    for (number, (last, revision, expected)) in walks.iter().enumerate() {
        let found = revisions(alloc, &mut shelf, last, *revision);
        if !is_as(&found, *expected) {
            return Ok(Some(number));
        }
    }
    Ok(None)
}

static WALKS: [Walk; 5] = [
    (SECOND_ID, 2, Ok(&[1, 2])),
    (SECOND_ID, 2, Err(ChainFault::Failed)),
    (SECOND_ID, 0, Ok(&[])),
    (
        SECOND_ID,
        3,
        Err(ChainFault::BadLink {
            id: SECOND_ID,
            revision: 2,
            wanted: 3,
        }),
    ),
    (HELLO_ID, 1, Err(ChainFault::BadRecord(HELLO_ID))),
];

#[test]
fn chains_are_walked_from_their_end(rt: HostRuntime) -> Result<(), Fail> {
    let (first, second) = (first(), second());
    let objects = [
        (first_id(), first.as_slice()),
        (second_id(), second.as_slice()),
        (hello_id(), b"hello\n".as_slice()),
    ];
    assert_eq!(rt; first_other_walk(rt.alloc(), &objects, &[3], &WALKS)?, None);
    Ok(())
}

static LACKING: [Walk; 1] = [(SECOND_ID, 2, Err(ChainFault::Missing(FIRST_ID)))];

static DAMAGED: [Walk; 1] = [(
    SECOND_ID,
    2,
    Err(ChainFault::Damaged {
        id: FIRST_ID,
        found: NOTHING,
    }),
)];

#[test]
fn chains_break_at_what_is_lacking_or_damaged(rt: HostRuntime) -> Result<(), Fail> {
    let second = second();
    let lacking = [(second_id(), second.as_slice())];
    assert_eq!(rt;
        first_other_walk(rt.alloc(), &lacking, &[], &LACKING)?,
        None
    );
    let damaged = [
        (second_id(), second.as_slice()),
        (first_id(), b"".as_slice()),
    ];
    assert_eq!(rt;
        first_other_walk(rt.alloc(), &damaged, &[], &DAMAGED)?,
        None
    );
    Ok(())
}
