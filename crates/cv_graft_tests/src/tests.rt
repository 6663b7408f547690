//! Grafts against the cutting of the whole tree by another program, that of `tools/graft_vectors.py`.
ghost use Rattle.std.specs.Prelude.{◌≡◌, false, IfOk};
ghost use Rattle.cv_base.specs.Marker.{marker, ends_in};
ghost use Rattle.cv_base.specs.declared.id.Kind.TheVariants as id_kind;

use cv_base::{Kind, Object, ObjectId, RepoPath, ends_in_marker};
use cv_cut::{LoadFault, cut};
use cv_graft::{GraftFault, Grafted, directory_at, graft, place};
use cv_ports::{MemoryShelf, Shelf};
use cv_samples::{Modes, file, tree_of};
use cv_tree::Tree;
use std::alloc::Global;
use std::test::*;

/// A newest tree, the path at which it takes the offered tree's subtree, and the offered tree; the id of the new root's
/// catalogue, how many catalogues are made, and how many more where the subtree is set there as a part.
///
/// Trees are texts of their paths, in which `/d/` is a directory and anything else a file whose content is the text of its
/// path.
static GRAFTS: [(&str, &str, &str, &str, usize, usize); 9] = [
    (
        "/a/ /a/f /b",
        "/a",
        "/a/ /a/g",
        "85bb0ba1c7deeb447be9719081fbaa19b1ac662dC",
        1,
        0,
    ),
    (
        "/a/ /a/f /b",
        "/a",
        "/c",
        "c219e2f686baafbcd32a9323f48aabc8d1eddda7C",
        1,
        0,
    ),
    (
        "/a/ /a/f /b",
        "/a",
        "/a/ /a/.cvmfscatalog /a/g",
        "15a3a7aee8823993c915c28912030ac30fb7ee41C",
        1,
        1,
    ),
    (
        "/a/ /a/.cvmfscatalog /a/f /b",
        "/a",
        "/a/ /a/g",
        "85bb0ba1c7deeb447be9719081fbaa19b1ac662dC",
        1,
        0,
    ),
    (
        "/a/ /a/.cvmfscatalog /a/b/ /a/b/x",
        "/a/b",
        "/a/ /a/b/ /a/b/y",
        "848254e4491e18710e07da861be2008006dcb603C",
        2,
        0,
    ),
    (
        "/a/ /a/.cvmfscatalog /a/b/ /a/b/.cvmfscatalog /a/b/c/ /a/z",
        "/a/b/c",
        "/a/ /a/b/ /a/b/c/ /a/b/c/d/ /a/b/c/d/.cvmfscatalog",
        "7f174e52808f4719b500146ae6165a4ef83fa086C",
        3,
        1,
    ),
    (
        "/a/ /a/b/ /a/b/x",
        "/a/b",
        "/a/ /a/.cvmfscatalog /a/b/ /a/b/.cvmfscatalog /a/b/y",
        "da2263931854af3eb05f6c1e7e9db6eb40a6c36dC",
        1,
        1,
    ),
    (
        "/a/ /a/f",
        "/",
        "/b/ /b/.cvmfscatalog",
        "25b1ec6b68cb1ad49d9a3778019ec5a7d4227fa4C",
        0,
        2,
    ),
    (
        "/a/ /a/f /b",
        "/a",
        "/a",
        "25044deb63180e6c29735f5fbddfb9a67ddf5aadC",
        1,
        0,
    ),
];

/// A newest tree in which the path's parent is no directory, the path, and an offered tree.
static PARENTLESS: [(&str, &str, &str); 5] = [
    ("/b", "/a/x", "/a/ /a/x"),
    ("/a /b", "/a/x", "/a/ /a/x"),
    ("/b", "/a/x", "/a/"),
    (
        "/a/ /a/.cvmfscatalog /a/c",
        "/a/b/x",
        "/a/ /a/b/ /a/b/.cvmfscatalog /a/b/x",
    ),
    ("/b", "/a/b/x", "/a/ /a/b/ /a/b/x"),
];

/// A tree.
const PLACES: &str = "/a/ /a/.cvmfscatalog /a/b/ /a/b/x /c";

/// Whether a path is a directory of it.
static DIRECTORIES: [(&str, bool); 9] = [
    ("/", true),
    ("/a", true),
    ("/a/b", true),
    ("/a/b/x", false),
    ("/a/d", false),
    ("/a/d/e", false),
    ("/c", false),
    ("/c/d", false),
    ("/b", false),
];

/// The id of the catalogue of a hash.
fn root_of(hash: [u8; 20]) -> ObjectId
    ensures { result.kind ≡ id_kind.Catalogue }
{
    let kind = Kind::Catalogue;
    ObjectId { hash, kind }
}

/// The hash of the root of a tree, and all its catalogues.
fn cut_of(alloc: Global, tree: &Tree) -> Result<([u8; 20], Vec<Object>), Fail> {
    let made = cut(alloc, tree)?;
    let hash = made.root.hash;
    Ok((hash, made.catalogues.into_vec()))
}

/// Adds the catalogues of the tree that a text says, and gives the root's hash.
fn add_catalogues(alloc: Global, objects: &mut Vec<Object>, text: &str) -> Result<[u8; 20], Fail> {
    let (root, catalogues) = cut_of(alloc, &tree_of(alloc, Modes::Usual, text)?)?;
    for object in catalogues {
        objects.push(object)?;
    }
    Ok(root)
}

/// The shelf of these objects.
fn shelf_of(alloc: Global, objects: Vec<Object>) -> Result<MemoryShelf, Fail> {
    Ok(MemoryShelf::new(alloc, objects, Vec::new(alloc))?)
}

/// The path of a text, of which the last name isn't that of a marker.
fn path_of(alloc: Global, text: &str) -> Result<RepoPath, Fail>
    ensures { IfOk result (λ path. ends_in marker path ≡ false) }
{
    let path = RepoPath::read(alloc, text)?;
    if ends_in_marker(&path) {
        return Err(Fail::new("a marker"));
    }
    Ok(path)
}

/// What a graft of the tree of one root into that of another answers.
fn graft_over<S: Shelf>(
    alloc: Global,
    shelf: &mut S,
    newest: [u8; 20],
    offered: [u8; 20],
    path: &RepoPath,
) -> Result<Grafted, GraftFault>
    requires { ends_in marker path.now ≡ false }
{
    graft(alloc, shelf, &root_of(newest), &root_of(offered), path)
}

/// What a graft answers.
fn graft_answer(
    alloc: Global,
    newest: &str,
    at: &str,
    offered: &str,
) -> Result<Result<Grafted, GraftFault>, Fail> {
    let path = path_of(alloc, at)?;
    let mut objects = Vec::new(alloc);
    let newest = add_catalogues(alloc, &mut objects, newest)?;
    let offered = add_catalogues(alloc, &mut objects, offered)?;
    let mut shelf = shelf_of(alloc, objects)?;
    Ok(graft_over(alloc, &mut shelf, newest, offered, &path))
}

/// The root that a graft or a setting gives, and how many catalogues it made.
fn outcome(grafted: Result<Grafted, GraftFault>) -> Result<(Option<ObjectId>, usize), Fail> {
    match grafted {
        Ok(grafted) => Ok((Some(grafted.root), grafted.added.as_slice().len())),
        Err(_) => Err(Fail::new("no graft")),
    }
}

#[test]
fn a_graft_is_the_cut_of_the_tree(rt: HostRuntime) -> Result<(), Fail> {
    for (newest, at, offered, root, above, _) in &GRAFTS {
        let made = outcome(graft_answer(rt.alloc(), newest, at, offered)?)?;
        assert!(rt; made == (ObjectId::read(root), *above));
    }
    Ok(())
}

#[test]
fn a_path_whose_parent_went_away_is_not_grafted(rt: HostRuntime) -> Result<(), Fail> {
    for (newest, at, offered) in &PARENTLESS {
        let answer = graft_answer(rt.alloc(), newest, at, offered)?;
        assert!(rt; matches!(answer, Err(GraftFault::NoMemory)));
    }
    Ok(())
}

/// What setting what a tree has at a path gives, in the tree of a root.
#[tactic(auto, using(cv_cut::proofs::Lemmas::fits_subtree, crate::proofs::Parts::root_subtree))]
fn set<S: Shelf>(
    alloc: Global,
    shelf: &mut S,
    base: [u8; 20],
    path: &RepoPath,
    tree: &Tree,
) -> Result<Result<Grafted, GraftFault>, Fail>
    requires { ends_in marker path.now ≡ false }
{
    let _root = tree.get(path);
    let part = tree.subtree(alloc, path)?;
    Ok(place(alloc, shelf, &root_of(base), path, part.as_ref()))
}

/// What setting the offered tree's part gives, in the tree of a root among these objects.
fn set_answer(
    alloc: Global,
    objects: Vec<Object>,
    base: [u8; 20],
    at: &str,
    offered: &str,
) -> Result<Result<Grafted, GraftFault>, Fail> {
    let path = path_of(alloc, at)?;
    let tree = tree_of(alloc, Modes::Usual, offered)?;
    let mut shelf = shelf_of(alloc, objects)?;
    set(alloc, &mut shelf, base, &path, &tree)
}

/// What setting the offered tree's part in a tree gives.
fn placed(
    alloc: Global,
    base: &str,
    at: &str,
    offered: &str,
) -> Result<(Option<ObjectId>, usize), Fail> {
    let mut objects = Vec::new(alloc);
    let base = add_catalogues(alloc, &mut objects, base)?;
    outcome(set_answer(alloc, objects, base, at, offered)?)
}

#[test]
fn a_placed_part_is_the_cut_of_the_tree(rt: HostRuntime) -> Result<(), Fail> {
    for (base, at, offered, root, above, brought) in &GRAFTS {
        let made = above.saturating_add(*brought);
        assert!(rt; placed(rt.alloc(), base, at, offered)? == (ObjectId::read(root), made));
    }
    Ok(())
}

/// Adds a file at a path of this text.
fn add_file(alloc: Global, tree: &mut Tree, text: &str) -> Result<(), Fail> {
    tree.insert(&RepoPath::read(alloc, text)?, file(Modes::Usual, "f")?)?;
    Ok(())
}

/// A tree of so many files beside each other.
fn files(alloc: Global, count: usize) -> Result<Tree, Fail> {
    let mut tree = tree_of(alloc, Modes::Usual, "")?;
    for i in 0..count {
        let path = format!(in alloc; "/f{i}")?;
        add_file(alloc, &mut tree, path.as_str())?;
    }
    Ok(tree)
}

/// Whether the root's catalogue has no room for one more file beside so many.
fn is_full(alloc: Global, count: usize) -> Result<bool, Fail> {
    let (base, objects) = cut_of(alloc, &files(alloc, count)?)?;
    match set_answer(alloc, objects, base, "/x", "/x")? {
        Ok(_) => Ok(false),
        Err(GraftFault::CatalogueFull(cut)) => Ok(cut.names().is_empty()),
        Err(_) => Err(Fail::new("another fault")),
    }
}

/// How many files there are, and whether there is no room for one more.
static FULL: [(usize, bool); 2] = [(49_998, false), (49_999, true)];

#[test]
fn a_catalogue_takes_no_more_than_50000_rows(rt: HostRuntime) -> Result<(), Fail> {
    for (count, is) in &FULL {
        assert!(rt; is_full(rt.alloc(), *count)? == *is);
    }
    Ok(())
}

/// Whether a path is a directory of the tree of a root.
fn tells_directory<S: Shelf>(
    alloc: Global,
    shelf: &mut S,
    root: [u8; 20],
    path: &RepoPath,
) -> Result<bool, LoadFault> {
    directory_at(alloc, shelf, &root_of(root), path)
}

/// The shelf of the tree's catalogues, and the hash of the root.
fn shelf_of_places(alloc: Global) -> Result<([u8; 20], MemoryShelf), Fail> {
    let (root, objects) = cut_of(alloc, &tree_of(alloc, Modes::Usual, PLACES)?)?;
    Ok((root, shelf_of(alloc, objects)?))
}

/// Whether a path is a directory of the tree.
fn is_directory(alloc: Global, path: &str) -> Result<bool, Fail> {
    let path = RepoPath::read(alloc, path)?;
    let (root, mut shelf) = shelf_of_places(alloc)?;
    match tells_directory(alloc, &mut shelf, root, &path) {
        Ok(is) => Ok(is),
        Err(_) => Err(Fail::new("no answer")),
    }
}

#[test]
fn directories_are_told(rt: HostRuntime) -> Result<(), Fail> {
    for (path, is) in &DIRECTORIES {
        assert!(rt; is_directory(rt.alloc(), path)? == *is);
    }
    Ok(())
}
