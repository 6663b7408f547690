//! The nested entries of a region.
ghost use Rattle.std.specs.Prelude.{◌≡◌, ◌≤◌, true, false, map, filter, Some, IfOk, MatchOption};
ghost use Rattle.std.specs.List.{All};
ghost use Rattle.std.specs.FinMap.{get};
ghost use Rattle.cv_base.specs.Path.{covers};
ghost use Rattle.cv_base.specs.declared.limits.TheConstants.{OBJECT_LIMIT};
ghost use Rattle.cv_tree.specs.Tree.{IsTree};
ghost use Rattle.cv_cut.specs.Cut.{is_other, nested_in};
ghost use Rattle.cv_cut.specs.CutInner.{HasMade, IsOtherEntry, cuts_below};

use crate::marks::is_other;
use cv_base::{NoMemory, RepoPath};
use cv_rows::Nested;
use cv_tree::{Node, Tree};
use std::alloc::Global;
use std::collections::BTreeMap;

/// The nested entry of a path of the region of a cut, with this node. None where the path is no other cut.
fn other_entry(
    alloc: Global,
    tree: &Tree,
    cut: &RepoPath,
    path: &RepoPath,
    node: &Node,
    made: &BTreeMap<RepoPath, Nested>,
) -> Result<Option<Nested>, NoMemory>
    requires tree { IsTree tree.now }
    requires node { get tree.now path.now ≡ Some node.now }
    requires path { covers cut.now path.now ≡ true }
    requires made { HasMade tree.now (cuts_below tree.now cut.now) made.now }
    ensures { IfOk result (λ found. MatchOption found (is_other tree.now cut.now path.now ≡ false) (IsOtherEntry tree.now cut.now path.now)) }
{
    if !is_other(alloc, tree, cut, path, node)? {
        return Ok(None);
    }
    match made.get(path) {
        Some(entry) => Ok(Some(entry.copy(alloc)?)),
        // The cuts below another are made before it.
        None => unreachable!(),
    }
}

/// The nested entries of the catalogue of a cut, one for each other cut of its region.
pub(crate) fn nested(
    alloc: Global,
    tree: &Tree,
    cut: &RepoPath,
    region: &[(RepoPath, Node)],
    made: &BTreeMap<RepoPath, Nested>,
) -> Result<Vec<Nested>, NoMemory>
    requires tree { IsTree tree.now }
    requires nodes { All (λ e. get tree.now e.0 ≡ Some e.1) region.now }
    requires paths { All (λ e. covers cut.now e.0 ≡ true) region.now }
    requires made { HasMade tree.now (cuts_below tree.now cut.now) made.now }
    ensures entries { IfOk result (λ nested. nested.items ≡ map (λ e. nested_in tree.now e.0) (filter (λ e. is_other tree.now cut.now e.0) region.now)) }
    ensures sizes { IfOk result (λ nested. All (λ n. n.size ≤ OBJECT_LIMIT) nested.items) }
{
    let mut nested = Vec::new(alloc);
    for entry in region {
        if let Some(other) = other_entry(alloc, tree, cut, &entry.0, &entry.1, made)? {
            nested.push(other)?;
        }
    }
    Ok(nested)
}
