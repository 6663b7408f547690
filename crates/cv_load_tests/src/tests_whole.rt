//! Roots with one byte changed, and roots of which something is known. The answers are those of another reader, that of
//! `tools/whole_vectors.py`.
ghost use Rattle.std.specs.Prelude.{◌≡◌, IfOk};
ghost use Rattle.cv_base.specs.declared.id.Kind.TheVariants as id_kind;

use crate::tests::{INNER_ID, OUTER_ID, catalogue_id, shelf_with};
use cv_base::{Bytes, Kind, Object, ObjectId, RepoPath};
use cv_cut::{LoadFault, cut};
use cv_load::{KnownSet, load, whole};
use cv_ports::MemoryShelf;
use cv_samples::{Modes, tree_of};
use std::alloc::Global;
use std::test::*;

/// A tree as a text of its paths, in which `/d/` is a directory, `/l=t` a link to `t`, and anything else a file whose content is
/// the text of its path.
///
/// Its catalogues are, one after another, those of `/a/b`, `/a`, `/0` and the root.
const TREE: &str =
    "/a/ /a/.cvmfscatalog /a/b/ /a/b/.cvmfscatalog /a/b/f /a/d/ /a/d/x /0/ /0/.cvmfscatalog /0/l=../r /r";

/// Where the hash of one catalogue stands in another: the number of the other, that of the one, and how many bytes before the
/// end.
const LINKS: [(usize, usize, usize); 3] = [(1, 0, 28), (3, 1, 28), (3, 2, 60)];

/// How far apart the bytes are that are changed, of the bytes of all catalogues.
const STEP: usize = 5;

/// What is to be answered where one byte is one greater, for each change: the number of the catalogue that is bad, `-` for an
/// object that is missing, `+` for a whole root.
const ANSWERS: &str =
    "0000000000++++00----00000000000+++00----000000000000000111111111111111111111111++++11----11111111++++1111111111++++11----111111111110001111----112222222222+++22----2222222222222222222222222++++22233333333331111333333333322223333333333++++33----33333333++++333----333----3";

/// The place of a mode of the row that names the catalogue of `/a`.
const MODE: usize = 1031;

/// Behind all catalogues.
const NOWHERE: usize = 10_000;

/// The number of a known catalogue, its path, how many of the first catalogues the shelf lacks, and how many pairs a check of
/// the root gives.
const KNOWN: [(usize, &str, usize, Option<usize>); 5] = [
    (3, "/other", 0, Some(4)),
    (2, "/0", 0, Some(3)),
    (1, "/a", 1, Some(2)),
    (1, "/other", 1, None),
    (3, "/", 4, Some(0)),
];

/// Writes a hash so many bytes before the end.
fn write_hash(bytes: &mut Vec<u8>, distance: usize, hash: &[u8; 20]) {
    let mut place = bytes.len().saturating_sub(distance);
    for digit in hash {
        if let Some(byte) = bytes.get_mut(place) {
            *byte = *digit;
        }
        place = place.saturating_add(1);
    }
}

/// Writes into the next catalogue the hashes of those before it that it names.
fn write_hashes(bytes: &mut Vec<u8>, before: &[Object]) {
    for (above, below, distance) in &LINKS {
        if *above == before.len() {
            if let Some(object) = before.get(*below) {
                write_hash(bytes, *distance, &object.id.hash);
            }
        }
    }
}

/// Makes the byte at a place of all catalogues one greater, if it is one of these, which start at another place.
fn change(bytes: &mut Vec<u8>, start: usize, place: usize) {
    if let Some(offset) = place.checked_sub(start) {
        if let Some(byte) = bytes.get_mut(offset) {
            *byte = byte.wrapping_add(1);
        }
    }
}

/// The catalogues, of which the byte at a place is one greater.
fn catalogues(alloc: Global, place: usize) -> Result<Vec<Object>, Fail> {
    let mut made = Vec::new(alloc);
    let mut start: usize = 0;
    for object in cut(alloc, &tree_of(alloc, Modes::Usual, TREE)?)?
        .catalogues
        .into_vec()
    {
        let mut bytes = object.bytes.into_vec();
        write_hashes(&mut bytes, &made);
        change(&mut bytes, start, place);
        start = start.saturating_add(bytes.len());
        let id = ObjectId::of(Kind::Catalogue, &bytes);
        let bytes = Bytes::new(bytes);
        made.push(Object { id, bytes })?;
    }
    Ok(made)
}

/// The ids of these objects.
fn ids_of(alloc: Global, objects: &[Object]) -> Result<Vec<ObjectId>, Fail> {
    let mut ids = Vec::new(alloc);
    for object in objects {
        ids.push(object.id)?;
    }
    Ok(ids)
}

/// The id of the root.
fn root_of(objects: &[Object]) -> Result<ObjectId, Fail>
    ensures { IfOk result (λ id. id.kind ≡ id_kind.Catalogue) }
{
    match objects.last() {
        Some(object) => Ok(ObjectId {
            hash: object.id.hash,
            kind: Kind::Catalogue,
        }),
        None => Err(Fail::new("no root")),
    }
}

/// The shelf of these objects and of the contents of all files.
fn shelf_of(alloc: Global, mut objects: Vec<Object>) -> Result<MemoryShelf, Fail> {
    for word in TREE.split(' ') {
        let id = ObjectId::of(Kind::Plain, word.as_bytes());
        let bytes = Bytes::from_slice(alloc, word.as_bytes())?;
        objects.push(Object { id, bytes })?;
    }
    Ok(MemoryShelf::new(alloc, objects, Vec::new(alloc))?)
}

/// The number of a catalogue, by its id.
fn number_of(ids: &[ObjectId], id: &ObjectId) -> char {
    for (number, other) in "0123".chars().zip(ids) {
        if *other == *id {
            return number;
        }
    }
    '?'
}

/// The answer that a fault is.
fn answer(ids: &[ObjectId], fault: Option<LoadFault>) -> char {
    match fault {
        None => '+',
        Some(LoadFault::Missing(_)) => '-',
        Some(LoadFault::Bad(id)) => number_of(ids, &id),
        Some(_) => '?',
    }
}

/// Whether a load and a check of the root answer this, where the byte at a place is one greater.
fn both_answer(alloc: Global, place: usize, known: &KnownSet, wanted: char) -> Result<bool, Fail> {
    let objects = catalogues(alloc, place)?;
    let ids = ids_of(alloc, &objects)?;
    let root = root_of(&objects)?;
    let mut shelf = shelf_of(alloc, objects)?;
    let loaded = load(alloc, &mut shelf, &root).err();
    let checked = whole(alloc, &mut shelf, &root, known).err();
    Ok(answer(&ids, loaded) == wanted && answer(&ids, checked) == wanted)
}

#[test]
fn both_answer_what_is_wrong(rt: HostRuntime) -> Result<(), Fail> {
    let known = KnownSet::new(rt.alloc());
    let mut place: usize = 0;
    for wanted in ANSWERS.chars() {
        assert!(rt;
            both_answer(rt.alloc(), place, &known, wanted)?,
            "at {place}"
        );
        place = place.saturating_add(STEP);
    }
    Ok(())
}

/// The set of one pair: the catalogue of a number, and a path.
fn known_of(
    alloc: Global,
    objects: &[Object],
    number: usize,
    path: &str,
) -> Result<KnownSet, Fail> {
    let mut known = KnownSet::new(alloc);
    match objects.get(number) {
        Some(object) => known.add(alloc, object.id.hash, &RepoPath::read(alloc, path)?)?,
        None => return Err(Fail::new("no catalogue")),
    }
    Ok(known)
}

/// The objects but so many at the front.
fn without(alloc: Global, objects: Vec<Object>, lacking: usize) -> Result<Vec<Object>, Fail> {
    let mut left = Vec::new(alloc);
    for object in objects.into_iter().skip(lacking) {
        left.push(object)?;
    }
    Ok(left)
}

/// How many pairs a check of the root gives, where one pair is known and the shelf lacks so many catalogues.
fn pairs_where(
    alloc: Global,
    number: usize,
    path: &str,
    lacking: usize,
) -> Result<Option<usize>, Fail> {
    let objects = catalogues(alloc, NOWHERE)?;
    let root = root_of(&objects)?;
    let known = known_of(alloc, &objects, number, path)?;
    let mut shelf = shelf_of(alloc, without(alloc, objects, lacking)?)?;
    match whole(alloc, &mut shelf, &root, &known) {
        Ok(pairs) => Ok(Some(pairs.len())),
        Err(_) => Ok(None),
    }
}

#[test]
fn what_is_known_is_not_gone_through(rt: HostRuntime) -> Result<(), Fail> {
    for (number, path, lacking, pairs) in &KNOWN {
        assert!(rt; pairs_where(rt.alloc(), *number, path, *lacking)? == *pairs);
    }
    Ok(())
}

#[test]
fn a_known_catalogue_that_does_not_fit_is_bad(rt: HostRuntime) -> Result<(), Fail> {
    let objects = catalogues(rt.alloc(), MODE)?;
    let known = known_of(rt.alloc(), &objects, 1, "/a")?;
    assert!(rt; both_answer(rt.alloc(), MODE, &known, '1')?);
    Ok(())
}

/// How many pairs a check of a root gives that has one nested catalogue, where a pair of one of the two is known and this call of
/// the shelf fails.
fn pairs_beside(
    alloc: Global,
    known: &str,
    path: &str,
    failing: u64,
) -> Result<Option<usize>, Fail> {
    let mut pairs = KnownSet::new(alloc);
    let path = RepoPath::read(alloc, path)?;
    pairs.add(alloc, catalogue_id(known)?.hash, &path)?;
    let mut shelf = shelf_with(alloc, "", None, vec![in alloc; failing]?)?;
    match whole(alloc, &mut shelf, &catalogue_id(OUTER_ID)?, &pairs) {
        Ok(pairs) => Ok(Some(pairs.len())),
        Err(LoadFault::Failed) => Ok(None),
        Err(_) => Err(Fail::new("another fault")),
    }
}

/// Beside a known catalogue the root is fetched, and the known one measured and fetched to compare its root row: its files are
/// not measured. Of a known root nothing is asked.
#[test]
fn beside_a_known_catalogue_there_are_three_calls(rt: HostRuntime) -> Result<(), Fail> {
    for failing in 1..=3u64 {
        assert!(rt; pairs_beside(rt.alloc(), INNER_ID, "/d", failing)? == None);
    }
    assert!(rt; pairs_beside(rt.alloc(), INNER_ID, "/d", 4)? == Some(1));
    assert!(rt; pairs_beside(rt.alloc(), OUTER_ID, "/", 1)? == Some(0));
    Ok(())
}
