//! The names of whiteouts.
ghost use Rattle.std.specs.Prelude.{◌≡◌, ◌++◌, ◌∷◌, [], true, false, Some, None, IfOk, MatchOption, string_bytes};
ghost use Rattle.cv_overlay.specs.Whiteout.{whiteout, opaque, is_whiteout, removed, is_no_name, is_bad, is_bad_at};
ghost use Rattle.cv_overlay.specs.LeastInner.{lesser, least_from, IsLeast};
ghost use Rattle.std.specs.Option.{option_copied};
ghost use Rattle.std.specs.FinMap as map;
ghost use Rattle.cv_base.specs.Path.{parent, last_name_of};
ghost use Rattle.cv_tree.specs.Tree.{IsTree, is_file};

use crate::hidden::child;
use cv_base::{NoMemory, RepoPath, cmp_texts};
use cv_tree::{Node, Tree, parent};
use std::alloc::Global;
use std::cmp::Ordering;

/// The name of the file that makes its directory opaque.
pub(crate) const OPAQUE: &str = ".wh..wh..opq";

/// Whether a name is that of a whiteout.
pub(crate) fn is_whiteout(name: &str) -> bool
    ensures { result ≡ is_whiteout name.now }
{
    name.as_bytes().starts_with(b".wh.")
}

/// The name of the whiteout that removes this name.
pub(crate) fn whiteout_of(alloc: Global, name: &str) -> Result<String, NoMemory>
    ensures { IfOk result (λ made. string_bytes made ≡ whiteout ++ name.now) }
{
    let mut made = String::from_str(alloc, ".wh.")?;
    made.push_str(name)?;
    Ok(made)
}

/// The name that the whiteout of this name removes. None where it is no whiteout's.
fn removed(name: &str) -> Option<&str>
    ensures { MatchOption result (is_whiteout name.now ≡ false) (λ rest. (is_whiteout name.now ≡ true) × (rest.now ≡ removed name.now)) }
{
    name.strip_prefix(".wh.")
}

/// Whether no entry has this name.
fn is_no_name(name: &str) -> bool
    ensures { result ≡ is_no_name name.now }
{
    matches!(name.as_bytes(), b"" | b"." | b"..")
}

/// Whether a node is a regular file.
fn is_file(node: &Node) -> bool
    ensures { result ≡ is_file (Some node.now) }
{
    matches!(node, Node::File(_, _))
}

/// Whether an entry of the changes is a bad whiteout.
fn is_bad_entry(
    alloc: Global,
    changes: &Tree,
    path: &RepoPath,
    node: &Node,
) -> Result<bool, NoMemory>
    requires { IsTree changes.now }
    ensures { IfOk result (λ bad. bad ≡ is_bad changes.now (parent path.now) (last_name_of path.now) (Some node.now)) }
{
    let name = path.last_name();
    let Some(rest) = removed(name) else {
        return Ok(false);
    };
    if !is_file(node) {
        return Ok(true);
    }
    if name == OPAQUE {
        return Ok(false);
    }
    if is_no_name(rest) {
        return Ok(true);
    }
    let above = parent(alloc, path)?;
    let beside = child(alloc, changes, &above, rest)?;
    Ok(beside.is_some())
}

/// Whether a bad whiteout stands at a path.
fn is_bad_at(alloc: Global, changes: &Tree, path: &RepoPath) -> Result<bool, NoMemory>
    requires { IsTree changes.now }
    ensures { IfOk result (λ bad. bad ≡ is_bad_at changes.now path.now) }
{
    match changes.get(path) {
        Some(node) => is_bad_entry(alloc, changes, path, node),
        None => Ok(false),
    }
}

/// The lesser of two paths, by their texts.
fn lesser(best: Option<RepoPath>, path: RepoPath) -> Option<RepoPath>
    ensures { result ≡ lesser best path }
{
    match best {
        None => Some(path),
        Some(least) => match cmp_texts(&path, &least) {
            Ordering::Less => Some(path),
            Ordering::Equal => Some(least),
            Ordering::Greater => Some(least),
        },
    }
}

/// The least of the paths of these entries at which a bad whiteout stands.
fn least_of(
    alloc: Global,
    changes: &Tree,
    entries: Vec<(RepoPath, Node)>,
) -> Result<Option<RepoPath>, NoMemory>
    requires { IsTree changes.now }
    ensures { IfOk result (λ found. found ≡ least_from changes.now None entries.items) }
{
    let mut least = None;
    for (path, _node) in entries {
        if is_bad_at(alloc, changes, &path)? {
            least = lesser(least, path);
        }
    }
    Ok(least)
}

/// The least of the bad whiteouts, by the texts of their paths.
pub(crate) fn least_bad(alloc: Global, changes: &Tree) -> Result<Option<RepoPath>, NoMemory>
    ensures { IfOk result (λ found. IsLeast changes.now found) }
{
    let entries = changes.entries(alloc)?;
    let least = least_of(alloc, changes, entries)?;
    Ok(least)
}
