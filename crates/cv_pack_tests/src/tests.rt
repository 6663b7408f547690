use cv_base::{Bytes, Kind, NoMemory, Object, ObjectId};
use cv_pack::{AddFault, Pack, PackFault, PackReader, PackWriter};
use std::alloc::Global;
use std::test::*;

// Expected values are those of tools/pack_vectors.py.

const HEADER: &[u8] =
    b"V2\nS177\nN2\n--\nC f572d396fae9206628714fb2ce00f72e94f2258f 6\nC e6d2e652fce99490956f1126db1cc69c2babc5ceC 171\n";

static HEADER_DIGEST: [u8; 20] = [
    232, 82, 143, 9, 151, 72, 26, 6, 100, 64, 99, 221, 236, 170, 178, 248, 94, 163, 222, 55,
];

const HELLO: &[u8] = b"hello\n";

static CATALOGUE: [u8; 171] = [
    67, 86, 82, 49, 0, 0, 0, 2, 0, 0, 0, 0, 6, 57, 118, 127, 62, 158, 170, 215, 41, 181, 64, 55,
    167, 226, 171, 245, 212, 29, 140, 217, 143, 0, 178, 4, 233, 128, 9, 152, 236, 248, 66, 126, 0,
    0, 0, 4, 0, 0, 129, 164, 0, 0, 0, 0, 101, 83, 241, 0, 0, 0, 0, 0, 0, 0, 0, 0, 0, 0, 0, 0, 0, 0,
    0, 6, 20, 245, 114, 211, 150, 250, 233, 32, 102, 40, 113, 79, 178, 206, 0, 247, 46, 148, 242,
    37, 143, 0, 1, 97, 0, 0, 212, 29, 140, 217, 143, 0, 178, 4, 233, 128, 9, 152, 236, 248, 66,
    126, 0, 0, 0, 0, 0, 0, 0, 0, 0, 0, 0, 0, 0, 0, 0, 0, 0, 0, 0, 1, 0, 0, 65, 237, 0, 0, 0, 0,
    101, 83, 241, 0, 0, 0, 0, 0, 0, 0, 0, 0, 0, 0, 0, 0, 0, 0, 0, 0, 0, 0, 0, 0, 0,
];

static EMPTY_DIGEST: [u8; 20] = [
    176, 138, 9, 199, 32, 194, 157, 1, 234, 197, 93, 137, 204, 193, 43, 173, 113, 134, 212, 95,
];

// Each text shows the fault by its last byte.
static FAULTS: [(&[u8], PackFault); 33] = [
    (b"X", PackFault::BadHeader(0)),
    (b"V2\r", PackFault::BadHeader(0)),
    (b"V2\nT", PackFault::BadHeader(3)),
    (b"V2\nS\n", PackFault::BadHeader(3)),
    (b"V2\nS01", PackFault::BadHeader(3)),
    (b"V2\nS-", PackFault::BadHeader(3)),
    (b"V2\nS33554433", PackFault::TooLarge),
    (b"V2\nS335544320", PackFault::TooLarge),
    (b"V2\nS0\r", PackFault::BadHeader(3)),
    (b"V2\nS12\nM", PackFault::BadHeader(7)),
    (b"V2\nS0\nN\n", PackFault::BadHeader(6)),
    (b"V2\nS0\nN10001", PackFault::TooMany),
    (b"V2\nS0\nN0\n-\n", PackFault::BadHeader(9)),
    (b"V2\nS0\nN0\n---", PackFault::BadHeader(9)),
    (b"V2\nS1\nN0\n--\n", PackFault::BadHeader(3)),
    (b"V2\nS0\nN1\n--\nD", PackFault::BadHeader(12)),
    (b"V2\nS0\nN1\n--\nC  ", PackFault::BadHeader(12)),
    (b"V2\nS0\nN1\n--\nC D", PackFault::BadHeader(12)),
    (
        b"V2\nS0\nN1\n--\nC da39a3ee5e6b4b0d3255bfef95601890afd80709H",
        PackFault::BadHeader(12),
    ),
    (
        b"V2\nS0\nN1\n--\nC da39a3ee5e6b4b0d3255bfef95601890afd80709CC",
        PackFault::BadHeader(12),
    ),
    (
        b"V2\nS0\nN1\n--\nC da39a3ee5e6b4b0d3255bfef95601890afd807090",
        PackFault::BadHeader(12),
    ),
    (
        b"V2\nS0\nN1\n--\nC da39a3ee5e6b4b0d3255bfef95601890afd80709 \n",
        PackFault::BadHeader(12),
    ),
    (
        b"V2\nS0\nN1\n--\nC da39a3ee5e6b4b0d3255bfef95601890afd80709 00",
        PackFault::BadHeader(12),
    ),
    (
        b"V2\nS0\nN1\n--\nC da39a3ee5e6b4b0d3255bfef95601890afd80709 16777217",
        PackFault::TooLarge,
    ),
    (
        b"V2\nS0\nN1\n--\nC 86f7e437faa5a7fce15d1ddcb9eaeaea377667b8 0\n",
        PackFault::HashDiffers(0),
    ),
    (
        b"V2\nS1\nN1\n--\nC 86f7e437faa5a7fce15d1ddcb9eaeaea377667b8 0\n",
        PackFault::BadHeader(3),
    ),
    (
        b"V2\nS1\nN1\n--\nC 86f7e437faa5a7fce15d1ddcb9eaeaea377667b8 1\nb",
        PackFault::HashDiffers(0),
    ),
    (
        b"V2\nS1\nN2\n--\nC 86f7e437faa5a7fce15d1ddcb9eaeaea377667b8 1\nC 86f7e437faa5a7fce15d1ddcb9eaeaea377667b8 ",
        PackFault::Duplicate(1),
    ),
    (
        b"V2\nS1\nN2\n--\nC 86f7e437faa5a7fce15d1ddcb9eaeaea377667b8C 1\nC 86f7e437faa5a7fce15d1ddcb9eaeaea377667b8C",
        PackFault::Duplicate(1),
    ),
    (
        b"V2\nS1\nN2\n--\nC 86f7e437faa5a7fce15d1ddcb9eaeaea377667b8 1\nC 86f7e437faa5a7fce15d1ddcb9eaeaea377667b8C 0\na",
        PackFault::HashDiffers(1),
    ),
    (
        b"V2\nS1\nN2\n--\nC 86f7e437faa5a7fce15d1ddcb9eaeaea377667b8C 0\nC 86f7e437faa5a7fce15d1ddcb9eaeaea377667b8 1\n",
        PackFault::HashDiffers(0),
    ),
    (
        b"V2\nS1\nN3\n--\nC da39a3ee5e6b4b0d3255bfef95601890afd80709 0\nC 86f7e437faa5a7fce15d1ddcb9eaeaea377667b8 1\nC da39a3ee5e6b4b0d3255bfef95601890afd80709C 0\naa",
        PackFault::Trailing,
    ),
    (b"V2\nS0\nN0\n--\n\n", PackFault::Trailing),
];

/// The pack of two objects, with this as the first content.
fn two_objects(alloc: Global, first: &[u8]) -> Result<Vec<u8>, Fail> {
    let mut pack = HEADER.to_vec(alloc)?;
    pack.extend_from_slice(first)?;
    pack.extend_from_slice(&CATALOGUE)?;
    Ok(pack)
}

/// What a reader answers to a piece.
fn feed(reader: &mut PackReader, piece: &[u8]) -> Result<(), PackFault> {
    reader.feed(piece)
}

/// What a reader gives in the end.
fn finish(reader: PackReader) -> Result<Pack, PackFault> {
    reader.finish()
}

/// What a pack in pieces of one byte gives.
fn read_by_bytes(alloc: Global, bytes: &[u8]) -> Result<Pack, PackFault> {
    let mut reader = PackReader::new(alloc);
    for byte in bytes {
        feed(&mut reader, &[*byte])?;
    }
    finish(reader)
}

/// What a pack in one piece gives.
fn read(alloc: Global, bytes: &[u8]) -> Result<Pack, PackFault> {
    let mut reader = PackReader::new(alloc);
    feed(&mut reader, bytes)?;
    finish(reader)
}

/// The id of an object.
fn id_of(kind: Kind, bytes: &[u8]) -> ObjectId {
    ObjectId::of(kind, bytes)
}

/// Whether a pack has just these objects.
fn holds(pack: &Pack, expected: &[(Kind, &[u8])]) -> bool {
    let objects = pack.objects.as_slice();
    if objects.len() != expected.len() {
        return false;
    }
    for (object, (kind, bytes)) in objects.iter().zip(expected) {
        if object.id != id_of(*kind, bytes) || object.bytes.as_slice() != *bytes {
            return false;
        }
    }
    true
}

/// Whether a pack has a header of so many bytes and this digest, and just these objects.
fn is_pack(pack: &Pack, header: u64, digest: &[u8; 20], objects: &[(Kind, &[u8])]) -> bool {
    pack.header == header && pack.digest == *digest && holds(pack, objects)
}

/// Whether the pack of two objects is read.
fn reads_two(alloc: Global, bytes: &[u8], by_bytes: bool) -> Result<bool, Fail> {
    let pack = if by_bytes {
        read_by_bytes(alloc, bytes)?
    } else {
        read(alloc, bytes)?
    };
    let objects = [
        (Kind::Plain, HELLO),
        (Kind::Catalogue, CATALOGUE.as_slice()),
    ];
    Ok(is_pack(&pack, 107, &HEADER_DIGEST, &objects))
}

#[test]
fn reads_two_objects(rt: HostRuntime) -> Result<(), Fail> {
    let bytes = two_objects(rt.alloc(), HELLO)?;
    assert_eq!(rt; bytes.len(), 284);
    for by_bytes in [false, true] {
        assert!(rt; reads_two(rt.alloc(), &bytes, by_bytes)?);
    }
    Ok(())
}

#[test]
fn reads_no_objects(rt: HostRuntime) -> Result<(), Fail> {
    let pack = read(rt.alloc(), b"V2\nS0\nN0\n--\n")?;
    assert!(rt; is_pack(&pack, 12, &EMPTY_DIGEST, &[]));
    Ok(())
}

/// The fault that these bytes show in one piece.
fn fault_of(alloc: Global, bytes: &[u8]) -> Option<PackFault> {
    read(alloc, bytes).err()
}

#[test]
fn lacks_each_byte(rt: HostRuntime) -> Result<(), Fail> {
    let bytes = two_objects(rt.alloc(), HELLO)?;
    for end in 0..bytes.len() {
        assert_eq!(rt; fault_of(rt.alloc(), &bytes[..end]), Some(PackFault::Short));
    }
    Ok(())
}

/// A first content, what stands behind all, and the fault that the pack of two objects shows then.
static OTHERS: [(&[u8], &[u8], PackFault); 2] = [
    (HELLO, b"\0", PackFault::Trailing),
    (b"hellO\n", b"", PackFault::HashDiffers(0)),
];

/// The fault of the pack of two objects, with this as the first content and that behind all.
fn fault_with(alloc: Global, first: &[u8], behind: &[u8]) -> Result<Option<PackFault>, Fail> {
    let mut bytes = two_objects(alloc, first)?;
    bytes.extend_from_slice(behind)?;
    Ok(fault_of(alloc, &bytes))
}

#[test]
fn refuses_other_bytes(rt: HostRuntime) -> Result<(), Fail> {
    for (first, behind, fault) in &OTHERS {
        assert_eq!(rt; fault_with(rt.alloc(), first, behind)?, Some(*fault));
    }
    Ok(())
}

/// What a reader answers to the bytes before the last one, to that one, to more bytes and at the end.
fn answers(alloc: Global, before: &[u8], last: u8) -> [Option<PackFault>; 4] {
    let mut reader = PackReader::new(alloc);
    let first = feed(&mut reader, before).err();
    let second = feed(&mut reader, &[last]).err();
    let third = feed(&mut reader, b"V2\n").err();
    [first, second, third, finish(reader).err()]
}

/// Whether the last byte of a text shows this fault, and the fault stays.
fn shows(alloc: Global, text: &[u8], fault: PackFault) -> Result<bool, Fail> {
    let (last, before) = text.split_last().ok_or("a text")?;
    let shown = Some(fault);
    let is_shown = answers(alloc, before, *last) == [None, shown, shown, shown];
    Ok(is_shown && fault_of(alloc, text) == shown)
}

#[test]
fn shows_each_fault(rt: HostRuntime) -> Result<(), Fail> {
    for (number, (text, fault)) in FAULTS.iter().enumerate() {
        assert!(rt; shows(rt.alloc(), text, *fault)?, "at {number}");
    }
    Ok(())
}

/// An object of these bytes.
fn object_of(alloc: Global, kind: Kind, bytes: &[u8]) -> Result<Object, NoMemory> {
    Ok(Object {
        id: ObjectId::of(kind, bytes),
        bytes: Bytes::from_slice(alloc, bytes)?,
    })
}

/// What adding an object answers. None where one of its id is there already.
fn add<'a>(writer: &mut PackWriter<'a>, object: &'a Object) -> Option<Result<(), AddFault>> {
    let id = ObjectId::of(object.id.kind, object.bytes.as_slice());
    if id != object.id || id.kind == Kind::History || writer.has(&object.id) {
        return None;
    }
    Some(writer.add(&object.id, object.bytes.as_slice()))
}

/// The pack that is written of the two objects, if both are added, in parts and at once, and how many bytes its contents have.
fn written(alloc: Global) -> Result<Option<(Vec<u8>, Bytes, usize)>, Fail> {
    let hello = object_of(alloc, Kind::Plain, HELLO)?;
    let catalogue = object_of(alloc, Kind::Catalogue, &CATALOGUE)?;
    let mut writer = PackWriter::new(alloc);
    let first = add(&mut writer, &hello);
    let second = add(&mut writer, &catalogue);
    if first != Some(Ok(())) || second != Some(Ok(())) {
        return Ok(None);
    }
    let mut parts = writer.header()?;
    writer.append_contents(&mut parts)?;
    let size = writer.contents_size();
    Ok(Some((parts, writer.finish()?, size)))
}

#[test]
fn writes_two_objects(rt: HostRuntime) -> Result<(), Fail> {
    let expected = two_objects(rt.alloc(), HELLO)?;
    let (parts, pack, size) = written(rt.alloc())?.ok_or("not added")?;
    assert_eq!(rt; parts.as_slice(), expected.as_slice());
    assert_eq!(rt; pack.as_slice(), expected.as_slice());
    assert_eq!(rt; size, 177);
    Ok(())
}

/// Objects of the numbers below this one.
fn numbered(alloc: Global, count: u32) -> Result<Vec<Object>, NoMemory> {
    let mut objects = Vec::new(alloc);
    for number in 0..count {
        objects.push(object_of(alloc, Kind::Plain, &number.to_be_bytes())?)?;
    }
    Ok(objects)
}

#[test]
fn is_full_at_10_000_objects(rt: HostRuntime) -> Result<(), Fail> {
    let objects = numbered(rt.alloc(), 10_001)?;
    let mut writer = PackWriter::new(rt.alloc());
    for (number, object) in objects.iter().enumerate() {
        let expected = if number < 10_000 {
            Ok(())
        } else {
            Err(AddFault::Full)
        };
        assert_eq!(rt; add(&mut writer, object), Some(expected));
    }
    Ok(())
}

/// A value, how many bytes of it are added, and what that answers.
static ADDS: [(u8, usize, Result<(), AddFault>); 5] = [
    (0, 16_777_217, Err(AddFault::Full)),
    (0, 16_777_216, Ok(())),
    (1, 16_777_216, Ok(())),
    (2, 1, Err(AddFault::Full)),
    (2, 0, Ok(())),
];

/// An object for each line of the table.
fn objects_to_add(alloc: Global) -> Result<Vec<Object>, NoMemory> {
    let mut objects = Vec::new(alloc);
    for (byte, size, _) in &ADDS {
        let bytes = vec![in alloc; *byte; *size]?;
        objects.push(object_of(alloc, Kind::Plain, &bytes)?)?;
    }
    Ok(objects)
}

#[test]
fn is_full_at_the_limits_of_size(rt: HostRuntime) -> Result<(), Fail> {
    let objects = objects_to_add(rt.alloc())?;
    let mut writer = PackWriter::new(rt.alloc());
    for (object, (_, _, expected)) in objects.iter().zip(&ADDS) {
        assert_eq!(rt; add(&mut writer, object), Some(*expected));
    }
    Ok(())
}
