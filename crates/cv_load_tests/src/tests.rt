//! The catalogues are those that `tools/row_vectors.py` writes, the digests those that `sha1sum` gives of them.
ghost use Rattle.std.specs.Prelude.{◌≡◌, IfOk};
ghost use Rattle.cv_base.specs.declared.id.Kind.TheVariants as id_kind;

use cv_base::{Bytes, Kind, Object, ObjectId, RepoPath};
use cv_cut::{LoadFault, cut};
use cv_load::{KnownSet, load, whole};
use cv_ports::MemoryShelf;
use cv_samples::{Modes, file, tree_of};
use cv_tree::{Node, Tree};
use hex::decode;
use std::alloc::Global;
use std::test::*;

/// The catalogue of the root: the root and `/d`, which has a marker.
const OUTER: &str =
    "4356523100000002000000010c606f9929ab0de4b9d1961ce5dfdadfd41d8cd98f00b204e9800998ecf8427e00000003000041ed000000006553f10000000000000000000000000000000000000001640000d41d8cd98f00b204e9800998ecf8427e0000000000000000000000000000000000000001000041ed000000006553f10000000000000000000000000000000000000000000000022f6415e722b24d77179e50b53e6f895e28a36c0c7be9000000000000016c";

/// That of `/d`: the files `f` and `g` and the marker.
const INNER: &str =
    "43565231000000040000000008227ee67df92d3f9e3516ba38228da60c606f9929ab0de4b9d1961ce5dfdadf00000004000081a4000000006553f1000000000000000000000000000000000214a9fcd54b25e7e863d72cd47c08af46e61b74b56100016600000c606f9929ab0de4b9d1961ce5dfdadfd41d8cd98f00b204e9800998ecf8427e00000021000041ed000000006553f1000000000000000000000000000000000000000164000080d24ab2d14dc16dba54ba605a2f406e0c606f9929ab0de4b9d1961ce5dfdadf00000004000081a4000000006553f1000000000000000000000000000000000014da39a3ee5e6b4b0d3255bfef95601890afd80709000d2e63766d6673636174616c6f670000fe6d224f2fe186dff9a69bd329190c210c606f9929ab0de4b9d1961ce5dfdadf00000004000081a4000000006553f1000000000000000000000000000000000214a5938ace3f424be1a26904781cdb06d55b614e6b0001670000";

pub(crate) const OUTER_ID: &str = "ed86bc027f62370252daf1586037a02ac7cd165aC";

pub(crate) const INNER_ID: &str = "15e722b24d77179e50b53e6f895e28a36c0c7be9C";

const F_ID: &str = "a9fcd54b25e7e863d72cd47c08af46e61b74b561";

const G_ID: &str = "a5938ace3f424be1a26904781cdb06d55b614e6b";

const MARKER_ID: &str = "da39a3ee5e6b4b0d3255bfef95601890afd80709";

/// All that is reached, by the texts of ids and the digits of bytes.
const OBJECTS: [(&str, &str); 5] = [
    (OUTER_ID, OUTER),
    (INNER_ID, INNER),
    (F_ID, "660a"),
    (G_ID, "670a"),
    (MARKER_ID, ""),
];

fn id_of(text: &str) -> Result<ObjectId, Fail> {
    match ObjectId::read(text) {
        Some(id) => Ok(id),
        None => Err(Fail::new("no id")),
    }
}

/// The id of the catalogue of the hash in this text.
pub(crate) fn catalogue_id(text: &str) -> Result<ObjectId, Fail>
    ensures { IfOk result (λ id. id.kind ≡ id_kind.Catalogue) }
{
    Ok(ObjectId {
        hash: id_of(text)?.hash,
        kind: Kind::Catalogue,
    })
}

/// The shelf of all objects, but that the bytes under one id are others or none.
pub(crate) fn shelf_with(
    alloc: Global,
    changed: &str,
    other: Option<&str>,
    failing: Vec<u64>,
) -> Result<MemoryShelf, Fail> {
    let mut objects = Vec::new(alloc);
    for (text, digits) in &OBJECTS {
        let digits = if *text == changed {
            other
        } else {
            Some(*digits)
        };
        if let Some(digits) = digits {
            let bytes = Bytes::new(decode(alloc, digits)?);
            let id = id_of(text)?;
            objects.push(Object { id, bytes })?;
        }
    }
    Ok(MemoryShelf::new(alloc, objects, failing)?)
}

/// What a load of the root answers there.
fn loaded(alloc: Global, mut shelf: MemoryShelf) -> Result<Result<Tree, LoadFault>, Fail> {
    Ok(load(alloc, &mut shelf, &catalogue_id(OUTER_ID)?))
}

/// The fault that it answers.
fn fault_with(
    alloc: Global,
    changed: &str,
    other: Option<&str>,
) -> Result<Option<LoadFault>, Fail> {
    let shelf = shelf_with(alloc, changed, other, Vec::new(alloc))?;
    Ok(loaded(alloc, shelf)?.err())
}

/// The size of a file, and 0 for a directory.
fn size_of(node: Option<&Node>) -> Option<u64> {
    match node {
        Some(Node::File(_, content)) => Some(content.size),
        Some(_) => Some(0),
        None => None,
    }
}

/// A path, and the size of the file there, which is 0 for a directory.
type Place = (&'static str, Option<u64>);

/// What stands at a path of the root's tree.
static PLACES: [Place; 7] = [
    ("/", Some(0)),
    ("/d", Some(0)),
    ("/d/f", Some(2)),
    ("/d/g", Some(2)),
    ("/d/.cvmfscatalog", Some(0)),
    ("/f", None),
    ("/d/h", None),
];

/// Whether this is what stands at a path of a tree.
fn stands(alloc: Global, tree: &Tree, place: &Place) -> Result<bool, Fail> {
    let (text, size) = place;
    let path = RepoPath::read(alloc, text)?;
    Ok(size_of(tree.get(&path)) == *size)
}

/// Whether this is what stands at all of these paths.
fn all_stand(alloc: Global, tree: &Tree, places: &[Place]) -> Result<bool, Fail> {
    for place in places {
        if !stands(alloc, tree, place)? {
            return Ok(false);
        }
    }
    Ok(true)
}

/// The tree of the root.
fn root_tree(alloc: Global) -> Result<Tree, Fail> {
    let shelf = shelf_with(alloc, "", None, Vec::new(alloc))?;
    match loaded(alloc, shelf)? {
        Ok(tree) => Ok(tree),
        Err(_) => Err(Fail::new("no tree")),
    }
}

#[test]
fn a_root_gives_its_tree(rt: HostRuntime) -> Result<(), Fail> {
    let tree = root_tree(rt.alloc())?;
    assert!(rt; all_stand(rt.alloc(), &tree, &PLACES)?);
    Ok(())
}

/// Whether nothing stands under an id, which is then missing.
fn is_missing(alloc: Global, text: &str) -> Result<bool, Fail> {
    Ok(fault_with(alloc, text, None)? == Some(LoadFault::Missing(id_of(text)?)))
}

/// Whether other bytes under an id make the catalogue of another id bad.
fn makes_bad(alloc: Global, text: &str, digits: &str, bad: &str) -> Result<bool, Fail> {
    Ok(fault_with(alloc, text, Some(digits))? == Some(LoadFault::Bad(id_of(bad)?)))
}

/// The fault where the second fetch fails.
fn fault_of_a_fetch(alloc: Global) -> Result<Option<LoadFault>, Fail> {
    let failing = vec![in alloc; 2u64]?;
    Ok(loaded(alloc, shelf_with(alloc, "", None, failing)?)?.err())
}

#[test]
fn a_fault_names_its_object(rt: HostRuntime) -> Result<(), Fail> {
    for text in [F_ID, OUTER_ID, INNER_ID] {
        assert!(rt; is_missing(rt.alloc(), text)?);
    }
    assert!(rt; makes_bad(rt.alloc(), F_ID, "66", INNER_ID)?);
    assert!(rt; makes_bad(rt.alloc(), INNER_ID, "00", OUTER_ID)?);
    assert!(rt; fault_of_a_fetch(rt.alloc())? == Some(LoadFault::Failed));
    Ok(())
}

/// The fault where another byte ends the catalogue of `/d`.
fn fault_of_another_end(alloc: Global) -> Result<Option<LoadFault>, Fail> {
    let Some(front) = INNER.strip_suffix("00") else {
        return Err(Fail::new("another end"));
    };
    let other = format!(in alloc; "{front}01")?;
    fault_with(alloc, INNER_ID, Some(other.as_str()))
}

/// The fault that other bytes, of this hash, stand under an id.
fn damaged(id: &str, hash: &str) -> Result<Option<LoadFault>, Fail> {
    let id = id_of(id)?;
    let found = id_of(hash)?.hash;
    Ok(Some(LoadFault::Damaged { id, found }))
}

#[test]
fn a_changed_catalogue_is_damaged(rt: HostRuntime) -> Result<(), Fail> {
    let fault = damaged(INNER_ID, "d4e0f7a2399222df2b6f27bc2b25d0ff2acb4ac3")?;
    assert!(rt; fault_of_another_end(rt.alloc())? == fault);
    Ok(())
}

/// Files, of which each holds the text of its path.
const FILES: [&str; 4] = [
    "/a/.cvmfscatalog",
    "/a/b/.cvmfscatalog",
    "/a/b/c/.cvmfscatalog",
    "/a/b/c/f",
];

/// The directories above them, of which each is marked.
const DIRECTORIES: &str = "/a/ /a/b/ /a/b/c/";

/// The id of the root catalogue of their tree, by `tools/cut_vectors.py`.
const CUT_ID: &str = "a78b6e61f2a693f1d431bc6ac868a01ad8635c27C";

/// The tree of those directories and files.
fn marked_tree(alloc: Global) -> Result<Tree, Fail> {
    let mut tree = tree_of(alloc, Modes::Usual, DIRECTORIES)?;
    for text in FILES {
        tree.insert(&RepoPath::read(alloc, text)?, file(Modes::Usual, text)?)?;
    }
    Ok(tree)
}

/// The shelf of its catalogues and of the contents of its files.
fn shelf_of(alloc: Global) -> Result<MemoryShelf, Fail> {
    let mut objects = cut(alloc, &marked_tree(alloc)?)?.catalogues.into_vec();
    for text in FILES {
        let id = ObjectId::of(Kind::Plain, text.as_bytes());
        let bytes = Bytes::from_slice(alloc, text.as_bytes())?;
        objects.push(Object { id, bytes })?;
    }
    Ok(MemoryShelf::new(alloc, objects, Vec::new(alloc))?)
}

/// What stands at a path of that tree.
static CUT_PLACES: [Place; 9] = [
    ("/", Some(0)),
    ("/a", Some(0)),
    ("/a/.cvmfscatalog", Some(16)),
    ("/a/b", Some(0)),
    ("/a/b/.cvmfscatalog", Some(18)),
    ("/a/b/c", Some(0)),
    ("/a/b/c/.cvmfscatalog", Some(20)),
    ("/a/b/c/f", Some(8)),
    ("/a/b/f", None),
];

/// The tree that is loaded again.
fn tree_again(alloc: Global) -> Result<Tree, Fail> {
    let mut shelf = shelf_of(alloc)?;
    match load(alloc, &mut shelf, &catalogue_id(CUT_ID)?) {
        Ok(tree) => Ok(tree),
        Err(_) => Err(Fail::new("no tree")),
    }
}

/// Whether a tree has this root.
fn has_root(alloc: Global, tree: &Tree, root: &str) -> Result<bool, Fail> {
    Ok(cut(alloc, tree)?.root == id_of(root)?)
}

#[test]
fn a_tree_that_was_cut_is_loaded(rt: HostRuntime) -> Result<(), Fail> {
    let tree = tree_again(rt.alloc())?;
    assert!(rt; all_stand(rt.alloc(), &tree, &CUT_PLACES)?);
    assert!(rt; has_root(rt.alloc(), &tree, CUT_ID)?);
    Ok(())
}

/// The end of the root's catalogue: the hash and the size of that of `/d`.
const INNER_ENTRY: &str = "15e722b24d77179e50b53e6f895e28a36c0c7be9000000000000016c";

/// Catalogues that can't stand at `/d`, by `tools/load_vectors.py`: the digits of the hash under which one stands, of its
/// size and of its bytes.
static WRONG: [(&str, &str, &str); 10] = [
    // it has no marker
    (
        "40d7ba19e448ac762a87b14d03c7f29ce69eac0a",
        "0000000000000052",
        "4356523100000001000000000c606f9929ab0de4b9d1961ce5dfdadfd41d8cd98f00b204e9800998ecf8427e00000021000041ed000000006553f10000000000000000000000000000000000000001640000",
    ),
    // its root row has another mode
    (
        "079fe1d4648e7da626f78a0764f213807e23fff4",
        "00000000000000b8",
        "4356523100000002000000000c606f9929ab0de4b9d1961ce5dfdadfd41d8cd98f00b204e9800998ecf8427e00000021000041c0000000006553f1000000000000000000000000000000000000000164000080d24ab2d14dc16dba54ba605a2f406e0c606f9929ab0de4b9d1961ce5dfdadf00000004000081a4000000006553f1000000000000000000000000000000000014da39a3ee5e6b4b0d3255bfef95601890afd80709000d2e63766d6673636174616c6f670000",
    ),
    // it is the catalogue of another place
    (
        "2c539410fc09f2f8a47841b9a517e0f95f6f5e88",
        "00000000000000b8",
        "4356523100000002000000004db00d963c2498e4e7bdf49ff1ff11a3d41d8cd98f00b204e9800998ecf8427e00000021000041ed000000006553f10000000000000000000000000000000000000001650000a67c012781bd5b7e1021603d3a4a9b984db00d963c2498e4e7bdf49ff1ff11a300000004000081a4000000006553f1000000000000000000000000000000000014da39a3ee5e6b4b0d3255bfef95601890afd80709000d2e63766d6673636174616c6f670000",
    ),
    // it is a catalogue of the root
    (
        "307aac20fe5391faacd0ea38f9589fb797a3685c",
        "0000000000000051",
        "435652310000000100000000d41d8cd98f00b204e9800998ecf8427e0000000000000000000000000000000000000001000041ed000000006553f100000000000000000000000000000000000000000000",
    ),
    // its rows are out of order
    (
        "956fc0fc375cf7dc86bacd13d9a5b016d0f170d5",
        "00000000000000b8",
        "43565231000000020000000080d24ab2d14dc16dba54ba605a2f406e0c606f9929ab0de4b9d1961ce5dfdadf00000004000081a4000000006553f1000000000000000000000000000000000014da39a3ee5e6b4b0d3255bfef95601890afd80709000d2e63766d6673636174616c6f6700000c606f9929ab0de4b9d1961ce5dfdadfd41d8cd98f00b204e9800998ecf8427e00000021000041ed000000006553f10000000000000000000000000000000000000001640000",
    ),
    // a row has the key of another path
    (
        "5fb42b76a34b90832c7037ec5ae58bfaf4d937cb",
        "0000000000000112",
        "4356523100000003000000000c606f9929ab0de4b9d1961ce5dfdadfd41d8cd98f00b204e9800998ecf8427e00000021000041ed000000006553f1000000000000000000000000000000000000000164000080d24ab2d14dc16dba54ba605a2f406e0c606f9929ab0de4b9d1961ce5dfdadf00000004000081a4000000006553f1000000000000000000000000000000000014da39a3ee5e6b4b0d3255bfef95601890afd80709000d2e63766d6673636174616c6f670000fe6d224f2fe186dff9a69bd329190c210c606f9929ab0de4b9d1961ce5dfdadf00000004000081a4000000006553f1000000000000000000000000000000000014da39a3ee5e6b4b0d3255bfef95601890afd807090001660000",
    ),
    // a transition has no entry
    (
        "17fe0fc302c011fd7f8b4383a371e46bd90ba812",
        "00000000000000fe",
        "4356523100000003000000000c606f9929ab0de4b9d1961ce5dfdadfd41d8cd98f00b204e9800998ecf8427e00000021000041ed000000006553f1000000000000000000000000000000000000000164000080d24ab2d14dc16dba54ba605a2f406e0c606f9929ab0de4b9d1961ce5dfdadf00000004000081a4000000006553f1000000000000000000000000000000000014da39a3ee5e6b4b0d3255bfef95601890afd80709000d2e63766d6673636174616c6f670000f4c5ce1b21553fffda3b6386bf573d4c0c606f9929ab0de4b9d1961ce5dfdadf00000003000041ed000000006553f10000000000000000000000000000000000000001650000",
    ),
    // an entry has no transition
    (
        "ff2af63c26efc7ecba74593f265e0eee6e93f43a",
        "00000000000000da",
        "4356523100000002000000010c606f9929ab0de4b9d1961ce5dfdadfd41d8cd98f00b204e9800998ecf8427e00000021000041ed000000006553f1000000000000000000000000000000000000000164000080d24ab2d14dc16dba54ba605a2f406e0c606f9929ab0de4b9d1961ce5dfdadf00000004000081a4000000006553f1000000000000000000000000000000000014da39a3ee5e6b4b0d3255bfef95601890afd80709000d2e63766d6673636174616c6f67000000042f642f65da39a3ee5e6b4b0d3255bfef95601890afd807090000000000000000",
    ),
    // an entry is that of the place above
    (
        "22126b43614e2549be0f671a57afe0c972fb488b",
        "00000000000000d6",
        "4356523100000002000000010c606f9929ab0de4b9d1961ce5dfdadfd41d8cd98f00b204e9800998ecf8427e00000021000041ed000000006553f1000000000000000000000000000000000000000164000080d24ab2d14dc16dba54ba605a2f406e0c606f9929ab0de4b9d1961ce5dfdadf00000004000081a4000000006553f1000000000000000000000000000000000014da39a3ee5e6b4b0d3255bfef95601890afd80709000d2e63766d6673636174616c6f6700000000da39a3ee5e6b4b0d3255bfef95601890afd807090000000000000000",
    ),
    // it says 50,001 rows
    (
        "ce10a9979406f92c17a48d0c6fdacbee12220b6a",
        "000000000000000c",
        "435652310000c35100000000",
    ),
];

/// The digits of the hash of 16 MiB of zeros and one more, and of how many they are.
const LARGE: (&str, &str) = (
    "4ec99add603bb162675fa8b96d0b3856b3ec2593",
    "0000000001000001",
);

/// One that names what stands under the hash `11`, forty digits of it, which it is itself.
const NAMES_ITSELF: (&str, &str, &str) = (
    "1111111111111111111111111111111111111111",
    "0000000000000120",
    "4356523100000003000000010c606f9929ab0de4b9d1961ce5dfdadfd41d8cd98f00b204e9800998ecf8427e00000021000041ed000000006553f1000000000000000000000000000000000000000164000080d24ab2d14dc16dba54ba605a2f406e0c606f9929ab0de4b9d1961ce5dfdadf00000004000081a4000000006553f1000000000000000000000000000000000014da39a3ee5e6b4b0d3255bfef95601890afd80709000d2e63766d6673636174616c6f670000f4c5ce1b21553fffda3b6386bf573d4c0c606f9929ab0de4b9d1961ce5dfdadf00000003000041ed000000006553f1000000000000000000000000000000000000000165000000042f642f6511111111111111111111111111111111111111110000000000000120",
);

/// The bytes of a catalogue of the root that names one of this hash and size at `/d`.
fn root_above(alloc: Global, hash: &str, size: &str) -> Result<Bytes, Fail> {
    let Some(front) = OUTER.strip_suffix(INNER_ENTRY) else {
        return Err(Fail::new("another end"));
    };
    let digits = format!(in alloc; "{front}{hash}{size}")?;
    Ok(Bytes::new(decode(alloc, digits.as_str())?))
}

/// The fault of a root whose catalogue names one of this hash and size at `/d`, where these bytes stand under the hash. A load
/// and a check both answer it, by three calls each: they fetch the root, measure what it names, and fetch that. One more fails.
fn fault_above(
    alloc: Global,
    hash: &str,
    size: &str,
    bytes: Vec<u8>,
) -> Result<Option<LoadFault>, Fail> {
    let outer = root_above(alloc, hash, size)?;
    let root = ObjectId {
        hash: ObjectId::of(Kind::Catalogue, outer.as_slice()).hash,
        kind: Kind::Catalogue,
    };
    let id = catalogue_id(hash)?;
    let bytes = Bytes::new(bytes);
    let mut objects = Vec::new(alloc);
    objects.push(Object { id, bytes })?;
    objects.push(Object {
        id: root,
        bytes: outer,
    })?;
    let mut shelf = MemoryShelf::new(alloc, objects, vec![in alloc; 7u64]?)?;
    let loaded = load(alloc, &mut shelf, &root).err();
    if whole(alloc, &mut shelf, &root, &KnownSet::new(alloc)).err() != loaded {
        return Err(Fail::new("a load and a check differ"));
    }
    Ok(loaded)
}

/// Whether a catalogue of these bytes, which can't stand at `/d`, is the one that is bad.
fn is_named_bad(alloc: Global, hash: &str, size: &str, bytes: Vec<u8>) -> Result<bool, Fail> {
    let fault = fault_above(alloc, hash, size, bytes)?;
    Ok(fault == Some(LoadFault::Bad(catalogue_id(hash)?)))
}

#[test]
fn a_wrong_catalogue_is_named(rt: HostRuntime) -> Result<(), Fail> {
    for (hash, size, digits) in &WRONG {
        assert!(rt; is_named_bad(rt.alloc(), hash, size, decode(rt.alloc(), digits)?)?);
    }
    Ok(())
}

#[test]
fn a_catalogue_of_more_than_16_mib_is_named(rt: HostRuntime) -> Result<(), Fail> {
    let (hash, size) = LARGE;
    let zeros = vec![in rt.alloc(); 0u8; 16_777_217]?;
    assert!(rt; is_named_bad(rt.alloc(), hash, size, zeros)?);
    Ok(())
}

/// The fault of the one that names itself.
fn fault_of_itself(alloc: Global) -> Result<Option<LoadFault>, Fail> {
    let (hash, size, digits) = NAMES_ITSELF;
    fault_above(alloc, hash, size, decode(alloc, digits)?)
}

#[test]
fn a_catalogue_that_names_itself_is_damaged(rt: HostRuntime) -> Result<(), Fail> {
    let fault = damaged(
        "1111111111111111111111111111111111111111C",
        "d030a7de0a6329a15c4d7424e528df095148bfa2",
    )?;
    assert!(rt; fault_of_itself(rt.alloc())? == fault);
    Ok(())
}

/// The id of the root's catalogue where `/d` has no marker.
const PLAIN_ID: &str = "6e3569955e612c74b6d8ec7e11381115765ffa2fC";

/// Takes out what stands at a path.
fn take_out(tree: &mut Tree, path: &RepoPath) -> Result<(), Fail> {
    if path.names().is_empty() {
        return Err(Fail::new("the root"));
    }
    tree.replace(path, None)?;
    Ok(())
}

#[test]
fn a_marker_taken_out_brings_the_first_root_back(rt: HostRuntime) -> Result<(), Fail> {
    let mut tree = root_tree(rt.alloc())?;
    let marker = RepoPath::read(rt.alloc(), "/d/.cvmfscatalog")?;
    assert!(rt; has_root(rt.alloc(), &tree, OUTER_ID)?);
    take_out(&mut tree, &marker)?;
    assert!(rt; has_root(rt.alloc(), &tree, PLAIN_ID)?);
    tree.insert(&marker, file(Modes::Usual, "")?)?;
    assert!(rt; has_root(rt.alloc(), &tree, OUTER_ID)?);
    take_out(&mut tree, &marker)?;
    assert!(rt; has_root(rt.alloc(), &tree, PLAIN_ID)?);
    Ok(())
}
