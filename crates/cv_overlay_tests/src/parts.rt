//! Parts as texts.
//!
//! A base is the paths of a tree below its root: one that ends in a slash is a directory, `/l>t` a link to `t`, and anything else
//! a file of one byte, whose hash is of sevens. A part is the paths below its root, and a number sign and the hashes of the new
//! contents behind them. There a plus marks what the folder puts in, and a file is `=`, its size, a number sign and the first
//! four digits of its hash.
ghost use Rattle.std.specs.Prelude.{◌<◌, IfOk};
ghost use Rattle.cv_base.specs.Attr.{IsAttr};
ghost use Rattle.cv_tree.specs.Node.{IsNode};

use cv_base::{Attr, Kind, Object, ObjectId, RepoPath, Target};
use cv_tree::{FileRef, Node, Part, Tree};
use std::alloc::Global;
use std::test::Fail;

/// The permission bits of what stands in a base. Those of a folder are others.
const OLD: u32 = 0o755;

/// The attributes of a base's nodes.
const ATTR: Attr = Attr {
    mode: OLD,
    mtime: 1_700_000_000,
    uid: 0,
    gid: 0,
};

/// A link of a base.
fn link(alloc: Global, text: &str) -> Result<Node, Fail>
    ensures { IfOk result IsNode }
{
    let Some(target) = Target::read(alloc, text)? else {
        return Err(Fail::new("no target"));
    };
    if target.text().is_empty() {
        return Err(Fail::new("an empty target"));
    }
    Ok(Node::Link(ATTR, target))
}

/// Adds what a word says to a base.
fn add(alloc: Global, tree: &mut Tree, word: &str) -> Result<(), Fail> {
    if let Some((path, target)) = word.split_once('>') {
        tree.insert(&RepoPath::read(alloc, path)?, link(alloc, target)?)?;
    } else if word.ends_with('/') {
        tree.insert(&RepoPath::read(alloc, word)?, Node::Dir(ATTR))?;
    } else if !word.is_empty() {
        let hash = [7; 20];
        let file = FileRef { hash, size: 1 };
        tree.insert(&RepoPath::read(alloc, word)?, Node::File(ATTR, file))?;
    }
    Ok(())
}

/// The base that a row's words say.
pub(crate) fn base(alloc: Global, words: &str) -> Result<Option<Part>, Fail> {
    let mut tree = Tree::new(alloc, ATTR)?;
    for word in words.split(' ') {
        add(alloc, &mut tree, word)?;
    }
    Ok(tree.subtree(alloc, &RepoPath::root(alloc))?)
}

/// Adds the first digits of a hash.
fn push_hash(alloc: Global, text: &mut String, hash: [u8; 20]) -> Result<(), Fail> {
    let kind = Kind::Plain;
    let digits = ObjectId { hash, kind }.text(alloc)?;
    text.push_str(digits.as_str().get(..4).unwrap_or(""))?;
    Ok(())
}

/// Adds what a node is, and gives its attributes.
fn push_node(alloc: Global, text: &mut String, node: &Node) -> Result<(), Fail> {
    match node {
        Node::Dir(_) => text.push('/')?,
        Node::File(_, file) => {
            text.push_str(format!(in alloc; "={}#", file.size)?.as_str())?;
            push_hash(alloc, text, file.hash)?;
        }
        Node::Link(_, target) => {
            text.push('>')?;
            text.push_str(target.text())?;
        }
    }
    Ok(())
}

/// Whether a node is one of the base.
fn is_old(node: &Node) -> bool {
    match node {
        Node::Dir(attr) => attr.mode == OLD,
        Node::File(attr, _) => attr.mode == OLD,
        Node::Link(attr, _) => attr.mode == OLD,
    }
}

/// Adds an entry of a part, and a space behind it.
fn push_entry(alloc: Global, text: &mut String, path: &RepoPath, node: &Node) -> Result<(), Fail> {
    if !is_old(node) {
        text.push('+')?;
    }
    text.push_str(path.text(alloc)?.as_str())?;
    push_node(alloc, text, node)?;
    text.push(' ')?;
    Ok(())
}

/// The entries of a part, and the hashes of these contents.
pub(crate) fn text_of(alloc: Global, part: &Part, objects: &[Object]) -> Result<String, Fail> {
    let mut text = String::new(alloc);
    for (path, node) in part.entries(alloc)? {
        if !path.names().is_empty() {
            push_entry(alloc, &mut text, &path, &node)?;
        }
    }
    text.push('#')?;
    for object in objects {
        text.push(' ')?;
        push_hash(alloc, &mut text, object.id.hash)?;
    }
    Ok(text)
}
