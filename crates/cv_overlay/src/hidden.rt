//! What changes hide of a base.
ghost use Rattle.std.specs.Prelude.{◌≡◌, ◌++◌, ◌∷◌, ◌≢◌, [], true, false, IfOk};
ghost use Rattle.std.specs.Option.{option_copied};
ghost use Rattle.std.specs.FinMap as map;
ghost use Rattle.cv_tree.specs.Tree.{IsTree};
ghost use Rattle.cv_overlay.specs.Overlay.{is_leaf, named, hides, hidden};

use crate::whiteout::{OPAQUE, is_whiteout, whiteout_of};
use cv_base::{NoMemory, RepoPath};
use cv_tree::{Node, Tree, parent};
use std::alloc::Global;

/// The node of this name in a directory. A name that no path has is the name of none.
#[tactic(auto, using(crate::proofs::Children::refused_child))]
pub(crate) fn child<'a>(
    alloc: Global,
    tree: &'a Tree,
    above: &RepoPath,
    name: &str,
) -> Result<Option<&'a Node>, NoMemory>
    requires { IsTree tree.now }
    ensures { IfOk result (λ found. option_copied found ≡ map.get tree.now (above.now ++ name.now ∷ [])) }
{
    match above.join(alloc, name) {
        Ok(path) => Ok(tree.get(&path)),
        Err(fault) => {
            fault.unless_memory()?;
            Ok(None)
        }
    }
}

/// Whether a node is a file or a link.
fn is_leaf(node: Option<&Node>) -> bool
    ensures { result ≡ is_leaf (option_copied node.entry) }
{
    match node {
        None => false,
        Some(Node::Dir(_)) => false,
        Some(_) => true,
    }
}

/// Whether the folder puts a file or a link under this name.
fn puts_leaf(alloc: Global, changes: &Tree, above: &RepoPath, name: &str) -> Result<bool, NoMemory>
    requires { IsTree changes.now }
    ensures { IfOk result (λ puts. puts ≡ is_leaf (named changes.now (above.now ++ name.now ∷ []))) }
{
    if is_whiteout(name) {
        return Ok(false);
    }
    let found = child(alloc, changes, above, name)?;
    Ok(is_leaf(found))
}

/// Whether the changes of a directory hide the child of this name.
fn hides(alloc: Global, changes: &Tree, above: &RepoPath, name: &str) -> Result<bool, NoMemory>
    requires { IsTree changes.now }
    ensures { IfOk result (λ hides_it. hides_it ≡ hides changes.now above.now name.now) }
{
    if child(alloc, changes, above, OPAQUE)?.is_some() {
        return Ok(true);
    }
    let whiteout = whiteout_of(alloc, name)?;
    if child(alloc, changes, above, whiteout.as_str())?.is_some() {
        return Ok(true);
    }
    puts_leaf(alloc, changes, above, name)
}

/// Whether the changes hide what the base has at a path.
pub(crate) fn is_hidden(alloc: Global, changes: &Tree, path: &RepoPath) -> Result<bool, NoMemory>
    requires { IsTree changes.now }
    ensures { IfOk result (λ found. found ≡ hidden changes.now path.now) }
{
    let mut above = RepoPath::root(alloc);
    for name in path.names() {
        if hides(alloc, changes, &above, name.as_str())? {
            return Ok(true);
        }
        // The path keeps its limits, so that only memory may be wanting.
        let Ok(longer) = above.join(alloc, name.as_str()) else {
            return Err(NoMemory);
        };
        above = longer;
    }
    Ok(false)
}

/// The same after a path that isn't hidden and one that is. Over entries in the order of their paths, of which each has its
/// parent before it, it takes one step at each.
pub(crate) fn is_hidden_after(
    alloc: Global,
    changes: &Tree,
    shown: &RepoPath,
    gone: &RepoPath,
    path: &RepoPath,
) -> Result<bool, NoMemory>
    requires tree { IsTree changes.now }
    requires shown { hidden changes.now shown.now ≡ false }
    // The root, which isn't hidden, where none was hidden yet.
    requires gone { gone.now ≢ [] → hidden changes.now gone.now ≡ true }
    ensures { IfOk result (λ found. found ≡ hidden changes.now path.now) }
{
    if path.names().is_empty() {
        return Ok(false);
    }
    if !gone.names().is_empty() && gone.covers(path) {
        return Ok(true);
    }
    let above = parent(alloc, path)?;
    if above.covers(shown) {
        return hides(alloc, changes, &above, path.last_name());
    }
    is_hidden(alloc, changes, path)
}
