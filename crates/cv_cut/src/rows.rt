//! The rows of a region.
ghost use Rattle.std.specs.Prelude.{◌≡◌, true, map, Some, IfOk, if◌then◌else◌};
ghost use Rattle.std.specs.List.{All};
ghost use Rattle.std.specs.FinMap.{get};
ghost use Rattle.cv_base.specs.Path.{covers, last_name_of};
ghost use Rattle.cv_base.specs.Target.{is_target};
ghost use Rattle.cv_rows.specs.Places.{root_kind};
ghost use Rattle.cv_rows.specs.declared.row_kind.RowKind.TheVariants as kinds;
ghost use Rattle.cv_tree.specs.Tree.{IsTree, at};
ghost use Rattle.cv_cut.specs.Cuts.{is_marked};
ghost use Rattle.cv_cut.specs.Catalogues.{kind_of, row_of};
ghost use Rattle.cv_cut.specs.Cut.{rest_of, row_in};

use crate::marks::is_marked;
use cv_base::{NoMemory, RepoPath, Target};
use cv_rows::{Row, RowKind};
use cv_tree::{Node, Tree};
use std::alloc::Global;

/// A text as the target that it is.
fn as_target(alloc: Global, text: &str) -> Result<Target, NoMemory>
    requires { is_target text.now ≡ true }
    ensures { IfOk result (λ target. target ≡ text.now) }
{
    match Target::read(alloc, text)? {
        Some(target) => Ok(target),
        None => unreachable!(),
    }
}

/// The kind of the row of the cut itself.
fn root_kind(cut: &RepoPath) -> RowKind
    ensures { result ≡ root_kind cut.now }
{
    if cut.names().is_empty() {
        RowKind::Directory
    } else {
        RowKind::NestedRoot
    }
}

/// The kind of the row of a directory below a cut: a Transition where another catalogue begins.
fn directory_kind(
    alloc: Global,
    tree: &Tree,
    path: &RepoPath,
    node: &Node,
) -> Result<RowKind, NoMemory>
    requires tree { IsTree tree.now }
    requires node { get tree.now path.now ≡ Some node.now }
    ensures { IfOk result (λ kind. kind ≡ (if is_marked tree.now path.now then kinds.Transition else kinds.Directory)) }
{
    if is_marked(alloc, tree, path, node)? {
        Ok(RowKind::Transition)
    } else {
        Ok(RowKind::Directory)
    }
}

/// The kind of the row of a node in the catalogue of a cut.
fn kind(
    alloc: Global,
    tree: &Tree,
    cut: &RepoPath,
    path: &RepoPath,
    node: &Node,
) -> Result<RowKind, NoMemory>
    requires tree { IsTree tree.now }
    requires node { get tree.now path.now ≡ Some node.now }
    requires covered { covers cut.now path.now ≡ true }
    ensures { IfOk result (λ kind. kind ≡ kind_of cut.now (at tree.now cut.now) (rest_of cut.now path.now) node.now) }
{
    if path.names().len() == cut.names().len() {
        return Ok(root_kind(cut));
    }
    match node {
        Node::Dir(_) => directory_kind(alloc, tree, path, node),
        Node::File(_, _) => Ok(RowKind::File),
        Node::Link(_, _) => Ok(RowKind::Link),
    }
}

/// The name of the row of a path: the path's last name, and empty for the root of the repository.
fn name(alloc: Global, path: &RepoPath) -> Result<Target, NoMemory>
    ensures { IfOk result (λ name. name ≡ last_name_of path.now) }
{
    if path.names().is_empty() {
        return as_target(alloc, "");
    }
    as_target(alloc, path.last_name())
}

/// The row of this kind for a node at a path.
#[tactic(auto, using(cv_base::proofs::Laws::no_target))]
fn row(alloc: Global, kind: RowKind, path: &RepoPath, node: &Node) -> Result<Row, NoMemory>
    ensures { IfOk result (λ row. row ≡ row_of kind path.now node.now) }
{
    let (attr, size, hash, target) = match node {
        Node::Dir(attr) => (*attr, 0, None, as_target(alloc, "")?),
        Node::File(attr, file) => (*attr, file.size, Some(file.hash), as_target(alloc, "")?),
        Node::Link(attr, to) => (*attr, to.text().len() as u64, None, to.copy(alloc)?),
    };
    Ok(Row {
        key: path.key(),
        parent: path.parent_key(),
        kind,
        attr,
        size,
        hash,
        name: name(alloc, path)?,
        target,
    })
}

/// The rows of the catalogue of a cut, one for each entry of its region.
pub(crate) fn rows(
    alloc: Global,
    tree: &Tree,
    cut: &RepoPath,
    region: &[(RepoPath, Node)],
) -> Result<Vec<Row>, NoMemory>
    requires tree { IsTree tree.now }
    requires nodes { All (λ e. get tree.now e.0 ≡ Some e.1) region.now }
    requires paths { All (λ e. covers cut.now e.0 ≡ true) region.now }
    ensures { IfOk result (λ rows. rows.items ≡ map (row_in tree.now cut.now) region.now) }
{
    let mut rows = Vec::new(alloc);
    for entry in region {
        let kind = kind(alloc, tree, cut, &entry.0, &entry.1)?;
        let row = row(alloc, kind, &entry.0, &entry.1)?;
        rows.push(row)?;
    }
    Ok(rows)
}
