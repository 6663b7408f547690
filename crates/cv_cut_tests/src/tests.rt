//! Catalogues of trees against those of another program, which no clause speaks of: it finds memory.
ghost use Rattle.std.specs.Prelude.{◌≡◌, ◌≢◌, [], false, option_copied};
ghost use Rattle.cv_base.specs.Marker.{marker, ends_in};
ghost use Rattle.cv_tree.specs.Changes.{FitsUnder, nodes_of};

use cv_base::{Object, ObjectId, RepoPath, ends_in_marker};
use cv_cut::{Cut, CutFault, PieceCut, alone, cut, cut_piece, piece_at};
use cv_samples::{Modes, file, tree_of};
use cv_tree::{Part, Tree};
use std::alloc::Global;
use std::test::Fail;

// The table is that of tools/cut_vectors.py, which makes the catalogues from the definition of the format.

/// Trees as texts of their paths, in which `/d/` is a directory, `/l=t` a link to `t`, and anything else a file whose
/// content is the text of its path; the id of the root's catalogue and its bytes; how many catalogues there are, and
/// their bytes together.
static TREES: [(&str, &str, u64, usize, usize); 20] = [
    ("", "307aac20fe5391faacd0ea38f9589fb797a3685cC", 81, 1, 81),
    (
        "/a",
        "8a09cceb9eb0c35c21403e91e4d626391987af7dC",
        171,
        1,
        171,
    ),
    (
        "/d/ /d/f /d/g",
        "c6e6232b7f54c1e9842163420699a32bd71dbe3aC",
        331,
        1,
        331,
    ),
    (
        "/d/ /d/f /d/g /d/.cvmfscatalog",
        "fbc70809ab50d727c19f55d42764d2e02c8a71c6C",
        183,
        2,
        547,
    ),
    (
        "/.cvmfscatalog",
        "c7e0923057f2dd5e4c87ab9bd8f5b2a3209833f8C",
        183,
        1,
        183,
    ),
    (
        "/e/ /e/.cvmfscatalog",
        "724fb5a3f80917f6199888c59a13e54d94b59e50C",
        183,
        2,
        367,
    ),
    (
        "/e/ /e/.cvmfscatalog/",
        "ba40da3244579d920b23c87eede08988a801ed5eC",
        233,
        1,
        233,
    ),
    (
        "/e/ /e/.cvmfscatalog=../a",
        "3f7f3c2db7cf19114dff703695cd719de9e9c841C",
        237,
        1,
        237,
    ),
    (
        "/a/ /a/.cvmfscatalog /a/b/ /a/b/.cvmfscatalog /a/b/c/ /a/b/c/.cvmfscatalog /a/b/c/f",
        "a78b6e61f2a693f1d431bc6ac868a01ad8635c27C",
        183,
        4,
        1035,
    ),
    (
        "/a/ /a/b/ /a/b/.cvmfscatalog /a/b/c/ /a/b/c/d/ /a/b/c/d/.cvmfscatalog /a/b/c/d/e/ /a/x",
        "e4bed835ca6cf8cc065e3a86de6528bba909bcbfC",
        345,
        3,
        961,
    ),
    (
        "/a/ /a-b/ /a/x/ /a/x/.cvmfscatalog /a-b/.cvmfscatalog /a-b/f",
        "3a256a6a0b743397b04fcfa376a95621c2db5247C",
        361,
        3,
        821,
    ),
    (
        "/a/ /a/.cvmfscatalog /a-b/ /a-b/.cvmfscatalog /a.b/ /a.b/.cvmfscatalog /a/x",
        "d3dad34e01527aba28ce5cae750167a8926d37f2C",
        395,
        4,
        1041,
    ),
    (
        "/l=a /k=/cvmfs/sw.example.org/l /d/ /d/l=../l",
        "5a5ba4cf281bc17d9b6bb7951ae179b88c488106C",
        389,
        1,
        389,
    ),
    (
        "/é/ /é/ü=ñ /é/.cvmfscatalog /日本/ /日本/語",
        "b0c96fc27f54f3727f7bed50d2d8e58cf4288792C",
        352,
        2,
        610,
    ),
    (
        "/empty/ /empty/er/ /empty/er/still/",
        "c44f69d05e76623b7ec7feb81b6933d4a12eacf3C",
        300,
        1,
        300,
    ),
    (
        "/1/ /1/.cvmfscatalog /2/ /2/.cvmfscatalog /3/ /3/.cvmfscatalog /4/ /4/.cvmfscatalog",
        "26bebda7a95332ad76ed94ed297734ddcb1306bbC",
        489,
        5,
        1225,
    ),
    (
        "/d/ /d/.cvmfscatalog /d/e/ /d/e/f/ /d/e/f/.cvmfscatalog /d/e/g /d/e/f/h /i",
        "e80518aa02c54736883783f23a83cc127184b523C",
        273,
        3,
        997,
    ),
    (
        "/d/ /d/.cvmfscatalogue /d/.cvmfscatalo /.cvmfscatalog",
        "e50209a074b2b908ebfbc751dabb6bc2add53fe5C",
        458,
        1,
        458,
    ),
    (
        "/x/ /x/y/ /x/y/z/ /x/y/z/.cvmfscatalog /x/y/.cvmfscatalog /x/.cvmfscatalog /.cvmfscatalog",
        "85cb82cab207ce6d36e4a0c368e70204a90dae55C",
        285,
        4,
        1047,
    ),
    (
        "/a/ /a/a/ /a/a/a/ /a/a/a/a/ /a/a/a/a/.cvmfscatalog /a/a/.cvmfscatalog",
        "cb424b10c343ffab28a3887a1789ad65675f24c7C",
        255,
        3,
        801,
    ),
];

/// How many bytes the objects have together.
fn bytes_of(objects: &[Object]) -> usize {
    let mut bytes: usize = 0;
    for object in objects {
        bytes = bytes.saturating_add(object.bytes.as_slice().len());
    }
    bytes
}

/// What cutting a tree answers.
fn cut_of(alloc: Global, tree: &Tree) -> Result<Cut, CutFault> {
    cut(alloc, tree)
}

/// What is seen of a tree's cut: whether this is the id of the root's catalogue, and how many bytes that one has; how many
/// catalogues there are, and their bytes together; and whether the last one is the root's.
type Seen = (bool, u64, usize, usize, bool);

/// What is seen of a cut.
fn seen_of(alloc: Global, made: &Cut, root: &str) -> Result<Seen, Fail> {
    let is_root = made.root.text(alloc)?.as_str() == root;
    let catalogues = made.catalogues.as_slice();
    let is_last = catalogues.last().is_some_and(|last| last.id == made.root);
    let (count, total) = (catalogues.len(), bytes_of(catalogues));
    Ok((is_root, made.size, count, total, is_last))
}

/// What is seen of the cut of the tree of a text.
fn seen(alloc: Global, text: &str, root: &str) -> Result<Seen, Fail> {
    let tree = tree_of(alloc, Modes::Usual, text)?;
    let made = cut_of(alloc, &tree)?;
    seen_of(alloc, &made, root)
}

#[test]
fn trees_have_these_catalogues(rt: HostRuntime) -> Result<(), Fail> {
    for (text, root, size, count, total) in &TREES {
        let expected = (true, *size, *count, *total, true);
        assert_eq!(rt; seen(rt.alloc(), text, root)?, expected, "at {text}");
    }
    Ok(())
}

/// The most rows of a catalogue.
const MOST_ROWS: u32 = 50_000;

/// Adds a file to a directory for each number of a range.
fn add_files(
    alloc: Global,
    tree: &mut Tree,
    directory: &str,
    first: u32,
    end: u32,
) -> Result<(), Fail> {
    for number in first..end {
        let path = format!(in alloc; "{directory}/f{number}")?;
        tree.insert(&RepoPath::read(alloc, &path)?, file(Modes::Usual, "one")?)?;
    }
    Ok(())
}

/// Which cut a tree has whose catalogue is full, by the text of its path.
fn full_cut(alloc: Global, tree: &Tree) -> Result<Option<String>, Fail> {
    match cut_of(alloc, tree) {
        Err(CutFault::CatalogueFull(path)) => Ok(Some(path.text(alloc)?)),
        Err(fault) => Err(fault.into()),
        Ok(_) => Ok(None),
    }
}

/// Trees, and paths at which they are to be cut: how many rows and nested entries the catalogue above gets, how many catalogues
/// the part has, and the id of the one nested in no other of them.
static PARTS: [(&str, &str, usize, usize, usize, &str); 6] = [
    ("/a/ /a/b/ /a/b/f /c", "/a/b", 2, 0, 0, ""),
    (
        "/a/ /a/b/ /a/b/.cvmfscatalog /a/b/c/ /a/b/c/.cvmfscatalog /a/b/c/f",
        "/a/b",
        1,
        1,
        2,
        "e5fa7738817640bc664c47571e846da61b65bad8C",
    ),
    (
        "/a/ /a/.cvmfscatalog /a/b/ /a/b/.cvmfscatalog /a/b/c /a/d",
        "/a",
        1,
        1,
        2,
        "86356efc3c74481073a8fa3e8d25d74756de966dC",
    ),
    (
        "/a/ /a/.cvmfscatalog /a/b/ /a/b/c/ /a/b/c/.cvmfscatalog /a/b/c/d /a/b/e",
        "/a/b",
        3,
        1,
        1,
        "c06dbdb45a7e0ce4e87911f6ca48efcd54373e13C",
    ),
    ("/a/ /a/f", "/a/f", 1, 0, 0, ""),
    ("/a/ /a/f", "/a/g", 0, 0, 0, ""),
];

/// What is cut of a part that stands alone at a path.
#[tactic(auto, using(cv_cut::proofs::Lemmas::ready_of))]
fn alone_cut(alloc: Global, path: &RepoPath, part: Option<&Part>) -> Result<PieceCut, Fail>
    requires below { path.now ≢ [] }
    requires unmarked { ends_in marker path.now ≡ false }
    requires limits { FitsUnder path.now (nodes_of (option_copied part)) }
{
    let alone = alone(alloc, path, part)?;
    let piece = piece_at(alloc, alone, path)?;
    Ok(cut_piece(alloc, &piece)?)
}

/// What is cut of the part that a tree has at a path.
#[tactic(auto, using(cv_cut::proofs::Lemmas::fits_subtree))]
fn part_cut(alloc: Global, text: &str, at: &str) -> Result<PieceCut, Fail> {
    let path = RepoPath::read(alloc, at)?;
    if path.names().is_empty() || ends_in_marker(&path) {
        return Err(Fail::new("no path of a part"));
    }
    let tree = tree_of(alloc, Modes::Usual, text)?;
    let _tree = tree.get(&path);
    let part = tree.subtree(alloc, &path)?;
    alone_cut(alloc, &path, part.as_ref())
}

/// How many rows and nested entries the catalogue above gets, how many catalogues the part has, and the id of the last.
fn part_seen(
    alloc: Global,
    text: &str,
    at: &str,
) -> Result<(usize, usize, usize, Option<ObjectId>), Fail> {
    let made = part_cut(alloc, text, at)?;
    let catalogues = made.catalogues.as_slice();
    let last = match catalogues.last() {
        Some(object) => Some(object.id),
        None => None,
    };
    let (rows, nested) = (made.rows.as_slice().len(), made.nested.as_slice().len());
    Ok((rows, nested, catalogues.len(), last))
}

#[test]
fn parts_are_cut_so(rt: HostRuntime) -> Result<(), Fail> {
    for (text, at, rows, nested, catalogues, last) in &PARTS {
        let expected = (*rows, *nested, *catalogues, ObjectId::read(last));
        assert!(rt;
            part_seen(rt.alloc(), text, at)? == expected,
            "at {at} of {text}"
        );
    }
    Ok(())
}

/// The numbers of files that are added to a directory, and which cut is full then. The rows of the directory and of its marker
/// are there already.
static FULL: [(u32, u32, Option<&str>); 2] = [
    (2, MOST_ROWS, None),
    (MOST_ROWS, MOST_ROWS + 1, Some("/d")),
];

/// Adds files to a directory of a tree, and gives the cut that is full then.
fn full_cut_with(
    alloc: Global,
    tree: &mut Tree,
    first: u32,
    end: u32,
) -> Result<Option<String>, Fail> {
    add_files(alloc, tree, "/d", first, end)?;
    full_cut(alloc, tree)
}

#[test]
fn a_nested_catalogue_of_too_many_rows_is_full(rt: HostRuntime) -> Result<(), Fail> {
    let mut tree = tree_of(rt.alloc(), Modes::Usual, "/d/ /d/.cvmfscatalog")?;
    for (first, end, cut) in &FULL {
        let full = full_cut_with(rt.alloc(), &mut tree, *first, *end)?;
        assert_eq!(&rt; full.as_deref(), *cut);
    }
    Ok(())
}
