//! Checkouts of trees whose cuts are told by hand.
ghost use Rattle.std.specs.Prelude.{◌≡◌};
ghost use Rattle.cv_base.specs.declared.id.Kind.TheVariants as id_kind;

use cv_base::{Bytes, Kind, Object, ObjectId, RepoPath};
use cv_checkout::{Base, Checkout, CheckoutFault};
use cv_cut::cut;
use cv_ports::Shelf;
use cv_rows::Catalogue;
use cv_samples::{Modes, tree_of};
use cv_tree::Part;
use std::alloc::Global;
use std::test::*;

/// A tree, as the paths of its directories, which end with a slash, and of its files; and the paths of its cuts, each before those
/// above it.
#[derive(Drop)]
struct Published {
    tree: &'static str,
    cuts: &'static str,
}

const DEEP: Published = Published {
    tree: "/a/ /a/.cvmfscatalog /a/b/ /a/b/.cvmfscatalog /a/b/x /a/c/ /a/c/.cvmfscatalog /a/c/d/ /a/c/d/.cvmfscatalog /a/c/f /a/z /e/ /e/.cvmfscatalog /e/f",
    cuts: "/e /a/c/d /a/c /a/b /a /",
};

/// The text of `/a-b` stands before that of `/a/x`, and its names behind.
const SIDE: Published = Published {
    tree: "/a/ /a/x/ /a/x/.cvmfscatalog /a-b/ /a-b/.cvmfscatalog",
    cuts: "/a-b /a/x /",
};

/// What is published; the path of a checkout; the cuts whose catalogues are wanted, in this order; the paths of what the tree has
/// there, if anything; and whether the path has a place.
type Row = (
    &'static Published,
    &'static str,
    &'static str,
    Option<&'static str>,
    bool,
);

static ROWS: [Row; 13] = [
    (
        &DEEP,
        "/",
        "/ /a /a/b /a/c /a/c/d /e",
        Some(
            " /a /a/.cvmfscatalog /a/b /a/b/.cvmfscatalog /a/b/x /a/c /a/c/.cvmfscatalog /a/c/d /a/c/d/.cvmfscatalog /a/c/f /a/z /e /e/.cvmfscatalog /e/f",
        ),
        true,
    ),
    (
        &DEEP,
        "/a",
        "/ /a /a/b /a/c /a/c/d",
        Some(
            " /.cvmfscatalog /b /b/.cvmfscatalog /b/x /c /c/.cvmfscatalog /c/d /c/d/.cvmfscatalog /c/f /z",
        ),
        true,
    ),
    (
        &DEEP,
        "/a/c",
        "/ /a /a/c /a/c/d",
        Some(" /.cvmfscatalog /d /d/.cvmfscatalog /f"),
        true,
    ),
    (
        &DEEP,
        "/a/c/d",
        "/ /a /a/c /a/c/d",
        Some(" /.cvmfscatalog"),
        true,
    ),
    (&DEEP, "/a/c/f", "/ /a /a/c", Some(""), true),
    (&DEEP, "/a/b/x", "/ /a /a/b", Some(""), true),
    (&DEEP, "/a/b/x/y", "/ /a /a/b", None, false),
    (&DEEP, "/a/q", "/ /a", None, true),
    (&DEEP, "/q", "/", None, true),
    (&DEEP, "/q/r", "/", None, false),
    (&DEEP, "/e", "/ /e", Some(" /.cvmfscatalog /f"), true),
    (
        &SIDE,
        "/",
        "/ /a-b /a/x",
        Some(" /a /a/x /a/x/.cvmfscatalog /a-b /a-b/.cvmfscatalog"),
        true,
    ),
    (&SIDE, "/a", "/ /a/x", Some(" /x /x/.cvmfscatalog"), true),
];

/// The catalogues of what is published, those nested in another before it.
fn catalogues(alloc: Global, published: &Published) -> Result<Vec<Object>, Fail> {
    let made = cut(alloc, &tree_of(alloc, Modes::Same, published.tree)?)?;
    Ok(made.catalogues.into_vec())
}

/// The catalogue of a cut, with its id.
fn catalogue_of<'a>(
    published: &Published,
    objects: &'a [Object],
    path: &str,
) -> Result<&'a Object, Fail> {
    for (object, cut) in objects.iter().zip(published.cuts.split(' ')) {
        if cut == path {
            return Ok(object);
        }
    }
    Err(Fail::new("no cut"))
}

/// The id of a catalogue of this hash.
fn catalogue_id(hash: [u8; 20]) -> ObjectId
    ensures { result.kind ≡ id_kind.Catalogue }
{
    ObjectId {
        hash,
        kind: Kind::Catalogue,
    }
}

/// A checkout of a path below a root of this hash.
fn begun(alloc: Global, root: [u8; 20], path: &str) -> Result<Checkout, Fail> {
    let path = RepoPath::read(alloc, path)?;
    Ok(Checkout::new(alloc, &catalogue_id(root), path)?)
}

/// Gives a checkout these bytes, or none, in the place of what it wants: what it wants, and its fault.
fn give_bytes(
    alloc: Global,
    checkout: &mut Checkout,
    bytes: Option<Bytes>,
) -> Result<(ObjectId, Option<CheckoutFault>), Fail> {
    match checkout.want() {
        Some(wanted) => Ok((wanted, checkout.give(alloc, bytes).err())),
        None => Err(Fail::new("nothing is wanted")),
    }
}

/// Gives the catalogue of a cut, which has to be the one that is wanted.
fn give(
    alloc: Global,
    checkout: &mut Checkout,
    object: &Object,
) -> Result<Option<CheckoutFault>, Fail> {
    let bytes = Bytes::from_slice(alloc, object.bytes.as_slice())?;
    let (wanted, fault) = give_bytes(alloc, checkout, Some(bytes))?;
    if wanted != object.id {
        return Err(Fail::new("another catalogue is wanted"));
    }
    Ok(fault)
}

/// Gives the catalogues of these cuts in turn, as they are wanted.
fn give_all(
    alloc: Global,
    checkout: &mut Checkout,
    published: &Published,
    objects: &[Object],
    cuts: &str,
) -> Result<(), Fail> {
    for cut in cuts.split(' ') {
        let object = catalogue_of(published, objects, cut)?;
        if give(alloc, checkout, object)?.is_some() {
            return Err(Fail::new("a fault"));
        }
    }
    Ok(())
}

/// A checkout to which the catalogues of these cuts were given in turn.
fn begun_with(
    alloc: Global,
    published: &Published,
    path: &str,
    cuts: &str,
) -> Result<Checkout, Fail> {
    let objects = catalogues(alloc, published)?;
    let root = catalogue_of(published, &objects, "/")?.id.hash;
    let mut checkout = begun(alloc, root, path)?;
    give_all(alloc, &mut checkout, published, &objects, cuts)?;
    Ok(checkout)
}

/// What a checkout tells to which the catalogues of these cuts were given in turn, as they were wanted.
fn base_of(alloc: Global, published: &Published, path: &str, cuts: &str) -> Result<Base, Fail> {
    let checkout = begun_with(alloc, published, path, cuts)?;
    match checkout.want() {
        Some(_) => Err(Fail::new("one more is wanted")),
        None => Ok(checkout.finish(alloc)?),
    }
}

/// The texts of the paths of a part, with a space between them.
fn paths_of(alloc: Global, part: &Part) -> Result<String, Fail> {
    let mut all = String::new(alloc);
    for (path, _) in &part.entries(alloc)? {
        if !path.names().is_empty() {
            all.push(' ')?;
        }
        all.push_str(path.text(alloc)?.as_str())?;
    }
    Ok(all)
}

/// Whether a part has these paths.
fn has_paths(alloc: Global, part: Option<&Part>, paths: Option<&str>) -> Result<bool, Fail> {
    match (part, paths) {
        (Some(part), Some(paths)) => Ok(paths_of(alloc, part)?.as_str() == paths),
        (None, None) => Ok(true),
        (_, _) => Ok(false),
    }
}

/// Whether a checkout tells these paths, and that its own has a place or not.
fn tells(alloc: Global, row: &Row) -> Result<bool, Fail> {
    let (published, path, cuts, paths, has_place) = row;
    let base = base_of(alloc, published, path, cuts)?;
    Ok(has_paths(alloc, base.part.as_ref(), *paths)? && base.has_place == *has_place)
}

#[test]
fn catalogues_are_wanted_in_turn_and_tell_the_part(rt: HostRuntime) -> Result<(), Fail> {
    for row in &ROWS {
        assert!(rt; tells(rt.alloc(), row)?);
    }
    Ok(())
}

/// The cuts whose catalogues are given.
const GIVEN: &str = "/ /a /a/c /a/c/d";

/// Whether a cut is among them.
fn is_given(cut: &str) -> bool {
    GIVEN.split(' ').any(|given| given == cut)
}

/// Whether a shelf has an object.
fn has<S: Shelf>(alloc: Global, shelf: &mut S, id: &ObjectId) -> Result<bool, Fail> {
    Ok(shelf.fetch(alloc, id)?.is_some())
}

/// Whether a shelf has the catalogues that are given, of these, and no other.
fn has_given<S: Shelf>(alloc: Global, shelf: &mut S, objects: &[Object]) -> Result<bool, Fail> {
    for (object, cut) in objects.iter().zip(DEEP.cuts.split(' ')) {
        if has(alloc, shelf, &object.id)? != is_given(cut) {
            return Ok(false);
        }
    }
    Ok(true)
}

#[test]
fn each_catalogue_that_was_given_is_kept(rt: HostRuntime) -> Result<(), Fail> {
    let objects = catalogues(rt.alloc(), &DEEP)?;
    assert!(rt; objects.len() == 6);
    let mut base = base_of(rt.alloc(), &DEEP, "/a/c", GIVEN)?;
    assert!(rt; has_given(rt.alloc(), &mut base.catalogues, &objects)?);
    Ok(())
}

/// The digest of the text `hello` and a newline, as `sha1sum` gives it, with the suffix of a catalogue.
const HELLO: &str = "f572d396fae9206628714fb2ce00f72e94f2258fC";

/// What is answered where these bytes are given in the place of the catalogue of `/a`.
fn fault_of(alloc: Global, given: Option<&str>) -> Result<(ObjectId, Option<CheckoutFault>), Fail> {
    let bytes = match given {
        Some(text) => Some(Bytes::from_slice(alloc, text.as_bytes())?),
        None => None,
    };
    let mut checkout = begun_with(alloc, &DEEP, "/a/c", "/")?;
    give_bytes(alloc, &mut checkout, bytes)
}

#[test]
fn what_is_not_served_or_has_another_digest_is_refused(rt: HostRuntime) -> Result<(), Fail> {
    let (wanted, fault) = fault_of(rt.alloc(), None)?;
    assert!(rt; fault == Some(CheckoutFault::NotServed(wanted)));
    let found = ObjectId::read(HELLO).ok_or("no id")?.hash;
    let (id, fault) = fault_of(rt.alloc(), Some("hello\n"))?;
    assert!(rt; fault == Some(CheckoutFault::BadObject { id, found }));
    Ok(())
}

/// Whether the catalogue of `/a` is bad in the place of a root.
fn is_bad_as_a_root(alloc: Global) -> Result<bool, Fail> {
    let objects = catalogues(alloc, &DEEP)?;
    let nested = catalogue_of(&DEEP, &objects, "/a")?;
    let mut checkout = begun(alloc, nested.id.hash, "/a/c")?;
    let fault = give(alloc, &mut checkout, nested)?;
    Ok(fault == Some(CheckoutFault::BadCatalogue(nested.id)))
}

#[test]
fn what_decodes_elsewhere_is_refused(rt: HostRuntime) -> Result<(), Fail> {
    assert!(rt; is_bad_as_a_root(rt.alloc())?);
    Ok(())
}

/// The bytes of the root's catalogue, but that another size is stated of the one of this hash at `/e`.
fn misstated(alloc: Global, root: &[u8], hash: [u8; 20]) -> Result<Bytes, Fail> {
    let path = RepoPath::read(alloc, "/e")?;
    let mut catalogue = Catalogue::decode(alloc, root, &RepoPath::root(alloc))?;
    catalogue.renew(&path, hash, 1);
    Ok(Bytes::new(catalogue.encode(alloc)?))
}

/// Gives a checkout a root and then a catalogue, and tells both faults.
fn faults_of_two(
    alloc: Global,
    root: &Object,
    nested: &Object,
) -> Result<[Option<CheckoutFault>; 2], Fail> {
    let mut checkout = begun(alloc, root.id.hash, "/e")?;
    let first = give(alloc, &mut checkout, root)?;
    Ok([first, give(alloc, &mut checkout, nested)?])
}

/// The root's catalogue, but that another size is stated of the one at `/e`.
fn misstated_root(alloc: Global, objects: &[Object]) -> Result<Object, Fail> {
    let nested = catalogue_of(&DEEP, objects, "/e")?;
    let root = catalogue_of(&DEEP, objects, "/")?;
    let hash = ObjectId::of(Kind::Catalogue, nested.bytes.as_slice()).hash;
    let bytes = misstated(alloc, root.bytes.as_slice(), hash)?;
    let id = ObjectId::of(Kind::Catalogue, bytes.as_slice());
    Ok(Object { id, bytes })
}

/// Whether that root is taken, and the catalogue of `/e` is bad then.
fn is_bad_below_misstated(alloc: Global) -> Result<bool, Fail> {
    let objects = catalogues(alloc, &DEEP)?;
    let root = misstated_root(alloc, &objects)?;
    let nested = catalogue_of(&DEEP, &objects, "/e")?;
    let faults = faults_of_two(alloc, &root, nested)?;
    Ok(faults == [None, Some(CheckoutFault::BadCatalogue(nested.id))])
}

#[test]
fn a_catalogue_of_another_size_is_refused(rt: HostRuntime) -> Result<(), Fail> {
    assert!(rt; is_bad_below_misstated(rt.alloc())?);
    Ok(())
}
