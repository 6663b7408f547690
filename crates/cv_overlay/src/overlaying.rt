//! The overlay of changes over a part.
ghost use Rattle.std.specs.Prelude.{◌≡◌, ◌++◌, ◌∷◌, [], IfOk, OnOk, OnErr};
ghost use Rattle.std.specs.Option.{option_copied};
ghost use Rattle.std.specs.FinMap as map;
ghost use Rattle.cv_base.specs.Path.{Path};
ghost use Rattle.cv_tree.specs.Changes.{nodes_of};
ghost use Rattle.cv_tree.specs.Tree.{IsTree};
ghost use Rattle.cv_overlay.specs.Overlay.{root_of, named_entries, kept_entries, over_entries, over_at, over};
ghost use Rattle.cv_overlay.specs.OverlayInner.{IsBase};
ghost use Rattle.cv_overlay.specs.Answers.{HasNoBad, Overlays};

use crate::changes::Changes;
use crate::hidden::is_hidden_after;
use crate::overlay_fault::OverlayFault;
use crate::whiteout::{is_whiteout, least_bad};
use cv_base::{Attr, NoMemory, RepoPath};
use cv_tree::{Node, Part, Tree};
use std::alloc::Global;

/// The root of the part.
fn root_of(root: Option<&Node>, now: u64) -> Node
    ensures { result ≡ root_of (option_copied root.entry) now }
{
    match root {
        Some(Node::Dir(attr)) => Node::Dir(*attr),
        _ => Node::Dir(Attr::new_directory(now)),
    }
}

/// Puts the entries at the end that a folder names.
fn push_named(
    entries: &mut Vec<(RepoPath, Node)>,
    all: Vec<(RepoPath, Node)>,
) -> Result<(), NoMemory>
    ensures { OnOk result (entries.new.items ≡ entries.old.items ++ named_entries all.items) }
{
    for (path, node) in all {
        if !is_whiteout(path.last_name()) {
            entries.push((path, node))?;
        }
    }
    Ok(())
}

/// Puts the entries at the end that the changes don't hide.
fn push_kept(
    alloc: Global,
    entries: &mut Vec<(RepoPath, Node)>,
    changes: &Tree,
    all: Vec<(RepoPath, Node)>,
) -> Result<(), NoMemory>
    requires { IsTree changes.now }
    ensures { OnOk result (entries.new.items ≡ entries.old.items ++ kept_entries changes.now all.items) }
{
    let mut shown = RepoPath::root(alloc);
    let mut gone = RepoPath::root(alloc);
    for (path, node) in all {
        if is_hidden_after(alloc, changes, &shown, &gone, &path)? {
            gone = path;
        } else {
            shown = path.copy(alloc)?;
            entries.push((path, node))?;
        }
    }
    Ok(())
}

/// The nodes of a part, or none, in the order of their paths.
fn entries_of(alloc: Global, base: Option<&Part>) -> Result<Vec<(RepoPath, Node)>, NoMemory>
    ensures entries { IfOk result (λ entries. entries.items ≡ map.entries (nodes_of (option_copied base.entry))) }
    ensures base { IfOk result (λ _. IsBase (nodes_of (option_copied base.entry))) }
{
    match base {
        Some(part) => part.entries(alloc),
        None => Ok(Vec::new(alloc)),
    }
}

/// The root of the part that the changes make of a base.
fn new_root(alloc: Global, base: Option<&Part>, now: u64) -> Node
    ensures { result ≡ root_of (map.get (nodes_of (option_copied base.entry)) []) now }
{
    match base {
        Some(part) => root_of(part.get(&RepoPath::root(alloc)), now),
        None => root_of(None, now),
    }
}

/// The part that changes make of a base, where no whiteout is bad.
fn overlaid(alloc: Global, base: Option<&Part>, changes: &Tree, now: u64) -> Result<Part, NoMemory>
    requires { HasNoBad changes.now }
    ensures { IfOk result (λ part. part ≡ over (nodes_of (option_copied base.entry)) changes.now now) }
{
    let mut entries = Vec::new(alloc);
    entries.push((RepoPath::root(alloc), new_root(alloc, base, now)))?;
    push_named(&mut entries, changes.entries(alloc)?)?;
    push_kept(alloc, &mut entries, changes, entries_of(alloc, base)?)?;
    Part::of_entries(alloc, entries)
}

/// The part that the changes of this tree make of a base, or of nothing.
pub(crate) fn overlay_tree(
    alloc: Global,
    base: Option<&Part>,
    changes: &Tree,
    now: u64,
) -> Result<Part, OverlayFault>
    ensures { Overlays (nodes_of (option_copied base.entry)) changes.now now result }
{
    match least_bad(alloc, changes)? {
        None => Ok(overlaid(alloc, base, changes, now)?),
        Some(path) => Err(OverlayFault::BadWhiteout(path)),
    }
}

/// The part that changes make of a base, or of nothing: at each path what the folder names, and what of the base it doesn't
/// hide. Its root is a directory. It keeps the attributes of the base's, where that is one; over nothing, a file or a link it
/// is of mode 0755 and time `now`.
///
/// # Errors
///
/// `BadWhiteout` exactly where the folder has a bad whiteout, with the least of them by the bytes of the paths; `NoMemory`.
#[tactic(auto, using(crate::proofs::Cases::overlaid_at))]
pub fn overlay(
    alloc: Global,
    base: Option<&Part>,
    changes: &Changes,
    now: u64,
) -> Result<Part, OverlayFault>
    ensures answer { Overlays (nodes_of (option_copied base.entry)) changes.now.nodes now result }

    // Path by path: the root; what the folder names there; what the base has there and the changes don't hide.
    ensures at { IfOk result (λ part. (q : Path) → map.get part q ≡ over_at (nodes_of (option_copied base.entry)) changes.now.nodes now q) }
{
    overlay_tree(alloc, base, &changes.tree, now)
}
