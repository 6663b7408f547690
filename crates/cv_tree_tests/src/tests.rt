//! What the contracts can't say: that the calls find memory, and the answers on a small tree.
ghost use Rattle.std.specs.Prelude.{IfOk};
ghost use Rattle.cv_tree.specs.Node.{IsNode};
ghost use Rattle.cv_tree.specs.Changes.{FitsUnder};

use cv_base::{Attr, NoMemory, RepoPath, Target};
use cv_tree::{FileRef, Node, Part, Tree, TreeFault};
use std::alloc::Global;
use std::test::Fail;

/// The SHA-1 of `hello` and a newline, by `sha1sum`.
const HELLO: [u8; 20] = [
    245, 114, 211, 150, 250, 233, 32, 102, 40, 113, 79, 178, 206, 0, 247, 46, 148, 242, 37, 143,
];

const ATTR: Attr = Attr {
    mode: 0o755,
    mtime: 1_700_000_000,
    uid: 0,
    gid: 0,
};

fn node(is_directory: bool) -> Node
    ensures { IsNode result }
{
    if is_directory {
        return Node::Dir(ATTR);
    }
    let content = FileRef {
        hash: HELLO,
        size: 6,
    };
    Node::File(ATTR, content)
}

/// What stands at a path.
#[derive(Clone, Copy, Debug, PartialEq, Eq)]
enum Kind {
    Directory,
    File(u64),
    Link,
    Nothing,
}

fn kind_of(node: Option<&Node>) -> Kind {
    match node {
        Some(Node::Dir(_)) => Kind::Directory,
        Some(Node::File(_, content)) => Kind::File(content.size),
        Some(Node::Link(_, _)) => Kind::Link,
        None => Kind::Nothing,
    }
}

/// A call of a tree at a path.
#[derive(Clone, Copy)]
enum Call {
    /// Inserts a directory, or a file.
    Insert(bool),
    /// Takes out what stands there.
    TakeOut,
    /// Adds a file of this name to what stands there, by a replacement.
    AddFile(&'static str),
    /// Looks whether this stands there.
    Has(Kind),
    /// Looks whether there is no part.
    Lacks,
    /// Looks whether the whole tree has so many nodes.
    Counts(usize),
}

/// A path, a call there, and what it answers: true where it has no answer, or finds what it looks for.
type Row = (&'static str, Call, Result<bool, TreeFault>);

/// The directory `/d` with the files `f` and `g`, and the file `/db` beside it.
const SMALL: [Row; 4] = [
    ("/d", Call::Insert(true), Ok(true)),
    ("/d/f", Call::Insert(false), Ok(true)),
    ("/d/g", Call::Insert(false), Ok(true)),
    ("/db", Call::Insert(false), Ok(true)),
];

/// Takes out what stands at a path.
fn take_out(tree: &mut Tree, path: &RepoPath) -> Result<bool, TreeFault> {
    if path.names().is_empty() {
        return Err(TreeFault::Exists);
    }
    tree.replace(path, None)?;
    Ok(true)
}

/// Adds a file of this name to a part that fits at a path.
fn add_file(alloc: Global, part: &mut Part, place: &RepoPath, name: &str) -> Result<(), Fail>
    requires { FitsUnder place.now part.old }
    ensures { FitsUnder place.now part.new }
{
    let whole = place.join(alloc, name)?;
    let short = RepoPath::root(alloc).join(alloc, name)?;
    if whole.names().is_empty() {
        return Err(Fail::new("the root has no name"));
    }
    part.insert(&short, node(false))?;
    Ok(())
}

/// Adds a file of this name to what stands at a path, by a replacement.
fn replace_with_file(
    alloc: Global,
    tree: &mut Tree,
    place: &RepoPath,
    name: &str,
) -> Result<bool, Fail> {
    let part = tree.subtree(alloc, place)?;
    if tree.get(place).is_none() || place.names().is_empty() {
        return Err(Fail::new("no path below the root"));
    }
    let Some(mut part) = part else {
        return Err(Fail::new("nothing stands there"));
    };
    add_file(alloc, &mut part, place, name)?;
    tree.replace(place, Some(part))?;
    Ok(true)
}

fn insert(tree: &mut Tree, path: &RepoPath, is_directory: bool) -> Result<bool, TreeFault> {
    tree.insert(path, node(is_directory))?;
    Ok(true)
}

fn kind_at(tree: &Tree, path: &RepoPath) -> Kind {
    kind_of(tree.get(path))
}

fn lacks(alloc: Global, tree: &Tree, path: &RepoPath) -> Result<bool, NoMemory> {
    Ok(tree.subtree(alloc, path)?.is_none())
}

fn count(alloc: Global, tree: &Tree) -> Result<usize, NoMemory> {
    Ok(tree.entries(alloc)?.len())
}

/// Makes a call at a path.
fn make(
    alloc: Global,
    tree: &mut Tree,
    path: &RepoPath,
    call: Call,
) -> Result<Result<bool, TreeFault>, Fail> {
    match call {
        Call::Insert(is_directory) => Ok(insert(tree, path, is_directory)),
        Call::TakeOut => Ok(take_out(tree, path)),
        Call::AddFile(name) => Ok(Ok(replace_with_file(alloc, tree, path, name)?)),
        Call::Has(kind) => Ok(Ok(kind_at(tree, path) == kind)),
        Call::Lacks => Ok(Ok(lacks(alloc, tree, path)?)),
        Call::Counts(nodes) => Ok(Ok(count(alloc, tree)? == nodes)),
    }
}

/// The number of the first row whose call answers otherwise.
fn first_other(alloc: Global, tree: &mut Tree, rows: &[Row]) -> Result<Option<usize>, Fail> {
    for (number, (text, call, answer)) in rows.iter().enumerate() {
        let path = RepoPath::read(alloc, text)?;
        if make(alloc, tree, &path, *call)? != *answer {
            return Ok(Some(number));
        }
    }
    Ok(None)
}

/// The same where a small tree is made, and of the rows of a test behind that.
fn first_others(alloc: Global, rows: &[Row]) -> Result<[Option<usize>; 2], Fail> {
    let mut tree = Tree::new(alloc, ATTR)?;
    let making = first_other(alloc, &mut tree, &SMALL)?;
    let testing = first_other(alloc, &mut tree, rows)?;
    Ok([making, testing])
}

const STANDING: [Row; 15] = [
    ("/", Call::Counts(5), Ok(true)),
    ("/x/y", Call::Insert(false), Err(TreeFault::NoParent)),
    ("/d", Call::Insert(true), Err(TreeFault::Exists)),
    ("/", Call::Insert(true), Err(TreeFault::Exists)),
    ("/d/f", Call::Insert(false), Err(TreeFault::Exists)),
    ("/d/f/h", Call::Insert(false), Err(TreeFault::NoParent)),
    ("/x", Call::Insert(true), Ok(true)),
    ("/x/y", Call::Insert(false), Ok(true)),
    ("/", Call::Has(Kind::Directory), Ok(true)),
    ("/d", Call::Has(Kind::Directory), Ok(true)),
    ("/d/f", Call::Has(Kind::File(6)), Ok(true)),
    ("/d/f/h", Call::Has(Kind::Nothing), Ok(true)),
    ("/db", Call::Has(Kind::File(6)), Ok(true)),
    ("/x/y", Call::Has(Kind::File(6)), Ok(true)),
    ("/y", Call::Has(Kind::Nothing), Ok(true)),
];

#[test]
fn a_node_stands_in_a_directory(rt: HostRuntime) -> Result<(), Fail> {
    assert_eq!(rt; first_others(rt.alloc(), &STANDING)?, [None, None]);
    Ok(())
}

const REPLACED: [Row; 18] = [
    ("/d", Call::AddFile(".cvmfscatalog"), Ok(true)),
    ("/", Call::Has(Kind::Directory), Ok(true)),
    ("/d", Call::Has(Kind::Directory), Ok(true)),
    ("/d/f", Call::Has(Kind::File(6)), Ok(true)),
    ("/d/g", Call::Has(Kind::File(6)), Ok(true)),
    ("/d/.cvmfscatalog", Call::Has(Kind::File(6)), Ok(true)),
    ("/db", Call::Has(Kind::File(6)), Ok(true)),
    ("/.cvmfscatalog", Call::Has(Kind::Nothing), Ok(true)),
    ("/x/y", Call::TakeOut, Err(TreeFault::NoParent)),
    ("/d", Call::TakeOut, Ok(true)),
    ("/d", Call::Lacks, Ok(true)),
    ("/", Call::Has(Kind::Directory), Ok(true)),
    ("/d", Call::Has(Kind::Nothing), Ok(true)),
    ("/d/f", Call::Has(Kind::Nothing), Ok(true)),
    ("/d/.cvmfscatalog", Call::Has(Kind::Nothing), Ok(true)),
    ("/db", Call::Has(Kind::File(6)), Ok(true)),
    ("/f", Call::Has(Kind::Nothing), Ok(true)),
    ("/x", Call::Has(Kind::Nothing), Ok(true)),
];

#[test]
fn a_part_takes_the_place_of_what_a_path_covers(rt: HostRuntime) -> Result<(), Fail> {
    assert_eq!(rt; first_others(rt.alloc(), &REPLACED)?, [None, None]);
    Ok(())
}

/// A link with this target.
fn link(alloc: Global, text: &str) -> Result<Node, Fail>
    ensures { IfOk result IsNode }
{
    let target = Target::read(alloc, text)?.ok_or("no target")?;
    if target.text().is_empty() {
        return Err(Fail::new("an empty target"));
    }
    Ok(Node::Link(ATTR, target))
}

/// Inserts a node of a kind in a part, or none for nothing.
fn insert_kind(
    alloc: Global,
    part: &mut Part,
    path: &RepoPath,
    kind: Kind,
) -> Result<Result<(), TreeFault>, Fail> {
    let node = match kind {
        Kind::Directory => node(true),
        Kind::File(_) => node(false),
        Kind::Link => link(alloc, "../x")?,
        Kind::Nothing => return Ok(Ok(())),
    };
    Ok(part.insert(path, node))
}

fn kind_in(part: &Part, path: &RepoPath) -> Kind {
    kind_of(part.get(path))
}

/// A path, what is inserted there, what that answers, and what stands there afterwards.
type Insertion = (&'static str, Kind, Result<(), TreeFault>, Kind);

/// The number of the first row that is otherwise, in a part that begins with a directory or a file.
fn first_other_insertion(
    alloc: Global,
    is_directory: bool,
    rows: &[Insertion],
) -> Result<Option<usize>, Fail> {
    let mut part = Part::new(alloc, node(is_directory))?;
    for (number, (text, kind, answer, stands)) in rows.iter().enumerate() {
        let path = RepoPath::read(alloc, text)?;
        let given = insert_kind(alloc, &mut part, &path, *kind)?;
        if given != *answer || kind_in(&part, &path) != *stands {
            return Ok(Some(number));
        }
    }
    Ok(None)
}

const IN_A_FILE: [Insertion; 4] = [
    ("/", Kind::Nothing, Ok(()), Kind::File(6)),
    ("/l", Kind::File(6), Err(TreeFault::NoParent), Kind::Nothing),
    ("/", Kind::Directory, Err(TreeFault::Exists), Kind::File(6)),
    ("/l", Kind::Nothing, Ok(()), Kind::Nothing),
];

const IN_A_DIRECTORY: [Insertion; 1] = [("/l", Kind::Link, Ok(()), Kind::Link)];

#[test]
fn a_part_begins_with_any_node(rt: HostRuntime) -> Result<(), Fail> {
    let tables = [
        (false, IN_A_FILE.as_slice()),
        (true, IN_A_DIRECTORY.as_slice()),
    ];
    for (is_directory, rows) in tables {
        let other = first_other_insertion(rt.alloc(), is_directory, rows)?;
        assert_eq!(rt; other, None, "in a directory: {is_directory}");
    }
    Ok(())
}
