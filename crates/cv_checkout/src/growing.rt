//! The nodes of catalogues, on the way to a path and at and below it.
ghost use Rattle.std.specs.Prelude.{◌≡◌, IfOk, OnOk, Some};
ghost use Rattle.std.specs.List.Sorted.{IsPermutation};
ghost use Rattle.cv_base.specs.Path.{path_cmp};
ghost use Rattle.cv_rows.specs.Catalogue.{IsCatalogue};
ghost use Rattle.cv_load.specs.Growth.{IsRootOf};
ghost use Rattle.cv_checkout.specs.GrowingInner.{AreNodes, AreThere, IsGrown, KeepLimits};
ghost use Rattle.cv_checkout.specs.Progress.{ComesTo};

use cv_base::{NoMemory, RepoPath};
use cv_load::node_of;
use cv_rows::Catalogue;
use cv_tree::{Node, Tree};
use std::alloc::Global;
use std::cmp::Ordering;

/// The nodes of its rows on the way to a path and at and below it, each with its path.
fn nodes_toward(
    alloc: Global,
    catalogue: &Catalogue,
    path: &RepoPath,
) -> Result<Vec<(RepoPath, Node)>, NoMemory>
    ensures nodes { IfOk result (λ nodes. AreNodes path.now catalogue.now nodes.items) }
    ensures limits { IfOk result (λ nodes. KeepLimits nodes.items) }
{
    let rows = catalogue.rows();
    let places = catalogue.places(alloc)?;
    let mut nodes = Vec::new(alloc);
    for number in 0..rows.len() {
        let row = &rows[number];
        let place = &places[number];
        if path.overlaps(place) {
            let entry = (place.copy(alloc)?, node_of(alloc, row)?);
            nodes.push(entry)?;
        }
    }
    Ok(nodes)
}

/// How two nodes are ordered by their paths.
fn path_order(a: &(RepoPath, Node), b: &(RepoPath, Node)) -> Ordering
    ensures { result ≡ path_cmp a.now.0 b.now.0 }
{
    a.0.cmp(&b.0)
}

/// The same nodes in the order of their paths: that of a directory stands before those below it.
fn in_order(nodes: Vec<(RepoPath, Node)>) -> Vec<(RepoPath, Node)>
    ensures { IsPermutation nodes.items result.items }
{
    let mut sorted = nodes;
    sorted.sort_unstable_by(path_order);
    sorted
}

/// Sees to it that nodes stand in a tree. What stands at the path of one stays.
fn add_all(alloc: Global, tree: &mut Tree, nodes: &[(RepoPath, Node)]) -> Result<(), NoMemory>
    requires { KeepLimits nodes.now }
    ensures grown { OnOk result (IsGrown nodes.now tree.old tree.new) }
    ensures there { OnOk result (AreThere nodes.now tree.new) }
{
    for (path, node) in nodes {
        if tree.get(path).is_none() {
            let node = node.copy(alloc)?;
            // Each stands in a directory that came before it, so that only memory may be wanting.
            let Ok(()) = tree.insert(path, node) else {
                return Err(NoMemory);
            };
        }
    }
    Ok(())
}

/// The tree of the root row of a catalogue alone.
fn root_of(alloc: Global, catalogue: &Catalogue) -> Result<Tree, NoMemory>
    requires { IsCatalogue catalogue.now }
    ensures { IfOk result (IsRootOf catalogue.now) }
{
    Tree::new(alloc, catalogue.root().attr)
}

/// A tree with the nodes of the rows of a catalogue that stand on the way to a path and at and below it. Where there is none,
/// it begins with the catalogue's root row.
pub fn grown(
    alloc: Global,
    tree: Option<Tree>,
    catalogue: &Catalogue,
    path: &RepoPath,
) -> Result<Tree, NoMemory>
    requires { IsCatalogue catalogue.now }
    ensures { IfOk result (λ grown. ComesTo path.now catalogue.now tree (Some grown)) }
{
    let mut grown = match tree {
        Some(tree) => tree,
        None => root_of(alloc, catalogue)?,
    };
    let nodes = in_order(nodes_toward(alloc, catalogue, path)?);
    add_all(alloc, &mut grown, &nodes)?;
    Ok(grown)
}
