//! Trees as texts of their paths.
ghost use Rattle.std.specs.Prelude.{IfOk};
ghost use Rattle.cv_base.specs.Attr.{IsAttr};
ghost use Rattle.cv_tree.specs.Node.{IsFileRef, IsNode};

use cv_base::{Attr, Kind, ObjectId, RepoPath, Target};
use cv_tree::{FileRef, Node, Tree};
use std::alloc::Global;
use std::test::Fail;

/// The permissions of a tree's directories, files and links.
#[derive(Clone, Copy)]
pub enum Modes {
    /// 755, 644 and 777.
    Usual,
    /// 755 of all.
    Same,
}

const DIRECTORY: Attr = Attr {
    mode: 0o755,
    mtime: 1_700_000_000,
    uid: 0,
    gid: 0,
};

const FILE: Attr = Attr {
    mode: 0o644,
    mtime: 1_700_000_000,
    uid: 0,
    gid: 0,
};

const LINK: Attr = Attr {
    mode: 0o777,
    mtime: 1_700_000_000,
    uid: 0,
    gid: 0,
};

impl Modes {
    fn of_files(self) -> Attr
        ensures { IsAttr result }
    {
        match self {
            Modes::Usual => FILE,
            Modes::Same => DIRECTORY,
        }
    }

    fn of_links(self) -> Attr
        ensures { IsAttr result }
    {
        match self {
            Modes::Usual => LINK,
            Modes::Same => DIRECTORY,
        }
    }
}

/// The content that is this text.
fn content(text: &str) -> Result<FileRef, Fail>
    ensures { IfOk result IsFileRef }
{
    if text.len() > 4095 {
        return Err(Fail::new("a long text"));
    }
    let hash = ObjectId::of(Kind::Plain, text.as_bytes()).hash;
    let size = text.len() as u64;
    Ok(FileRef { hash, size })
}

/// A file whose content is this text.
pub fn file(modes: Modes, text: &str) -> Result<Node, Fail>
    ensures { IfOk result IsNode }
{
    Ok(Node::File(modes.of_files(), content(text)?))
}

/// A link with this target.
fn link(alloc: Global, modes: Modes, text: &str) -> Result<Node, Fail>
    ensures { IfOk result IsNode }
{
    let Some(target) = Target::read(alloc, text)? else {
        return Err(Fail::new("no target"));
    };
    if target.text().is_empty() {
        return Err(Fail::new("an empty target"));
    }
    Ok(Node::Link(modes.of_links(), target))
}

/// Adds what a word says to a tree.
fn add(alloc: Global, modes: Modes, tree: &mut Tree, word: &str) -> Result<(), Fail> {
    if let Some((path, target)) = word.split_once('=') {
        tree.insert(&RepoPath::read(alloc, path)?, link(alloc, modes, target)?)?;
    } else if word.ends_with('/') {
        tree.insert(&RepoPath::read(alloc, word)?, Node::Dir(DIRECTORY))?;
    } else if !word.is_empty() {
        tree.insert(&RepoPath::read(alloc, word)?, file(modes, word)?)?;
    }
    Ok(())
}

/// The tree of a text of paths with a space between each two: `/d/` is a directory, `/l=t` a link to `t`, and anything else a
/// file whose content is the text of its path. All are of root's, of the moment 1,700,000,000, with these permissions.
pub fn tree_of(alloc: Global, modes: Modes, text: &str) -> Result<Tree, Fail> {
    let mut tree = Tree::new(alloc, DIRECTORY)?;
    for word in text.split(' ') {
        add(alloc, modes, &mut tree, word)?;
    }
    Ok(tree)
}
