//! The rows of a catalogue in a tree.
ghost use Rattle.std.specs.Prelude.{◌≡◌, IfOk, OnOk, IsSome, IsTrue, Contains};
ghost use Rattle.std.specs.FinMap.{get};
ghost use Rattle.cv_rows.specs.Row.{IsRow, holds_rows};
ghost use Rattle.cv_rows.specs.Catalogue.{IsCatalogue};
ghost use Rattle.cv_rows.specs.Places.{StandsAt, StandEach};
ghost use Rattle.cv_tree.specs.Node.{IsNode};
ghost use Rattle.cv_tree.specs.Changes.{has_place};
ghost use Rattle.cv_load.specs.Growth.{GrowsBy};
ghost use Rattle.cv_load.specs.GrowthInner.{IsAdded, IsClear, IsReady, HasHolders, HasRows};
ghost use Rattle.cv_cut.specs.Told.{node_of};

use cv_base::{NoMemory, RepoPath};
use cv_rows::{Catalogue, Row, RowKind};
use cv_tree::{FileRef, Node, Tree, TreeFault};
use std::alloc::Global;

/// The node for which a row stands.
pub fn node_of(alloc: Global, row: &Row) -> Result<Node, NoMemory>
    requires { IsRow row.now }
    ensures node { IfOk result (λ node. node ≡ node_of row.now) }
    ensures limits { IfOk result IsNode }
{
    match (row.kind, row.hash) {
        (RowKind::Link, _) => Ok(Node::Link(row.attr, row.target.copy(alloc)?)),
        (RowKind::File, Some(hash)) => Ok(Node::File(
            row.attr,
            FileRef {
                hash,
                size: row.size,
            },
        )),
        (_, _) => Ok(Node::Dir(row.attr)),
    }
}

/// Adds the node of a row at a path, unless one stands there already. Tells whether the path has a place in the tree.
fn add(alloc: Global, tree: &mut Tree, path: &RepoPath, row: &Row) -> Result<bool, NoMemory>
    requires { IsRow row.now }
    ensures place { IfOk result (λ placed. placed ≡ has_place tree.old path.now) }
    ensures there { IfOk result (λ placed. IsTrue placed → IsSome (get tree.new path.now)) }
    ensures added { IsAdded path.now row.now tree.old tree.new }
{
    let node = node_of(alloc, row)?;
    match tree.insert(path, node) {
        Ok(()) => Ok(true),
        Err(TreeFault::Exists) => Ok(true),
        Err(TreeFault::NoParent) => Ok(false),
        Err(TreeFault::NoMemory) => Err(NoMemory),
    }
}

/// Sees to it that the path at which a row stands is in the tree, with those of all rows above it.
fn place(
    alloc: Global,
    catalogue: &Catalogue,
    tree: &mut Tree,
    row: &Row,
    path: &RepoPath,
) -> Result<(), NoMemory>
    requires rules { IsCatalogue catalogue.now }
    requires row { Contains catalogue.now.rows row.now }
    requires stands { StandsAt catalogue.now.at catalogue.now.rows row.now path.now }
    requires ready { IsReady catalogue.now.at catalogue.now.rows tree.old }
    ensures there { OnOk result (IsSome (get tree.new path.now)) }
    ensures grows { GrowsBy catalogue.now.at catalogue.now.rows tree.old tree.new }
{
    if path.names().len() == catalogue.at().names().len() {
        return Ok(());
    }
    if add(alloc, tree, path, row)? {
        return Ok(());
    }
    let Some(parent) = catalogue.find(row.parent) else {
        unreachable!();
    };
    let above = path.copy(alloc)?.into_parent();
    place(alloc, catalogue, tree, parent, &above)?;
    add(alloc, tree, path, row)?;
    Ok(())
}

/// Sees to it that the path at which a row stands is in the tree, if rows may stand below it.
fn place_holder(
    alloc: Global,
    catalogue: &Catalogue,
    tree: &mut Tree,
    row: &Row,
    path: &RepoPath,
) -> Result<(), NoMemory>
    requires rules { IsCatalogue catalogue.now }
    requires row { Contains catalogue.now.rows row.now }
    requires stands { StandsAt catalogue.now.at catalogue.now.rows row.now path.now }
    requires ready { IsReady catalogue.now.at catalogue.now.rows tree.old }
    ensures there { OnOk result (IsTrue (holds_rows row.now.kind) → IsSome (get tree.new path.now)) }
    ensures grows { GrowsBy catalogue.now.at catalogue.now.rows tree.old tree.new }
{
    if row.kind.holds_rows() {
        place(alloc, catalogue, tree, row, path)
    } else {
        Ok(())
    }
}

/// Sees to it that the path of each row below which rows may stand is in the tree.
fn place_holders(
    alloc: Global,
    catalogue: &Catalogue,
    tree: &mut Tree,
    paths: &[RepoPath],
) -> Result<(), NoMemory>
    requires rules { IsCatalogue catalogue.now }
    requires paths { StandEach catalogue.now.at catalogue.now.rows catalogue.now.rows paths.now }
    requires ready { IsReady catalogue.now.at catalogue.now.rows tree.old }
    ensures there { OnOk result (HasHolders catalogue.now tree.new) }
    ensures grows { GrowsBy catalogue.now.at catalogue.now.rows tree.old tree.new }
{
    let rows = catalogue.rows();
    for row in 0..rows.len() {
        place_holder(alloc, catalogue, tree, &rows[row], &paths[row])?;
    }
    Ok(())
}

/// Sees to it that the path of a row is in the tree, which has all paths below which rows may stand.
fn place_held(
    alloc: Global,
    catalogue: &Catalogue,
    tree: &mut Tree,
    row: &Row,
    path: RepoPath,
) -> Result<(), NoMemory>
    requires rules { IsCatalogue catalogue.now }
    requires row { Contains catalogue.now.rows row.now }
    requires stands { StandsAt catalogue.now.at catalogue.now.rows row.now path }
    requires ready { IsReady catalogue.now.at catalogue.now.rows tree.old }
    requires holders { HasHolders catalogue.now tree.old }
    ensures there { OnOk result (IsSome (get tree.new path)) }
    ensures grows { GrowsBy catalogue.now.at catalogue.now.rows tree.old tree.new }
{
    if row.kind.holds_rows() {
        return Ok(());
    }
    let node = node_of(alloc, row)?;
    tree.place(path, node)
}

/// Sees to it that the path of each row is in the tree, which has all paths below which rows may stand.
fn place_all_held(
    alloc: Global,
    catalogue: &Catalogue,
    tree: &mut Tree,
    paths: Vec<RepoPath>,
) -> Result<(), NoMemory>
    requires rules { IsCatalogue catalogue.now }
    requires paths { StandEach catalogue.now.at catalogue.now.rows catalogue.now.rows paths.items }
    requires ready { IsReady catalogue.now.at catalogue.now.rows tree.old }
    requires holders { HasHolders catalogue.now tree.old }
    ensures there { OnOk result (HasRows catalogue.now tree.new) }
    ensures grows { GrowsBy catalogue.now.at catalogue.now.rows tree.old tree.new }
{
    let rows = catalogue.rows();
    let mut rest = paths;
    'rest: while let Some(path) = rest.pop() {
        place_held(alloc, catalogue, tree, &rows[rest.len()], path)?;
    }
    Ok(())
}

/// Sees to it that the path of each row of a catalogue is in the tree. First come the rows below which others may stand, so
/// that those others are each looked up but once.
pub fn place_rows(alloc: Global, catalogue: &Catalogue, tree: &mut Tree) -> Result<(), NoMemory>
    requires rules { IsCatalogue catalogue.now }
    requires clear { IsClear catalogue.now.at tree.old }
    ensures there { OnOk result (HasRows catalogue.now tree.new) }
    ensures grows { GrowsBy catalogue.now.at catalogue.now.rows tree.old tree.new }
{
    let paths = catalogue.places(alloc)?;
    place_holders(alloc, catalogue, tree, &paths)?;
    place_all_held(alloc, catalogue, tree, paths)
}
