//! Directories that are marked as roots of nested catalogues.
ghost use Rattle.std.specs.Prelude.{◌≡◌, ◌∷◌, ◌++◌, [], true, false, Some, IfOk};
ghost use Rattle.std.specs.FinMap as map;
ghost use Rattle.cv_base.specs.Marker.{marker};
ghost use Rattle.cv_base.specs.Path.{covers};
ghost use Rattle.cv_tree.specs.Tree.{IsTree, is_file};
ghost use Rattle.cv_cut.specs.Cuts.{is_marked};
ghost use Rattle.cv_cut.specs.Cut.{is_other};

use cv_base::{MARKER, NoMemory, RepoPath};
use cv_tree::{Node, Tree};
use std::alloc::Global;

/// Whether a directory of this path holds a marker.
fn holds_marker(alloc: Global, tree: &Tree, path: &RepoPath) -> Result<bool, NoMemory>
    requires { IsTree tree.now }
    ensures { IfOk result (λ holds. holds ≡ is_file (map.get tree.now (path.now ++ marker ∷ []))) }
{
    match path.join(alloc, MARKER) {
        Ok(file) => Ok(matches!(tree.get(&file), Some(Node::File(_, _)))),
        Err(fault) => {
            fault.unless_memory()?;
            Ok(false)
        }
    }
}

/// Whether the node at a path is a marked directory.
pub(crate) fn is_marked(
    alloc: Global,
    tree: &Tree,
    path: &RepoPath,
    node: &Node,
) -> Result<bool, NoMemory>
    requires tree { IsTree tree.now }
    requires node { map.get tree.now path.now ≡ Some node.now }
    ensures { IfOk result (λ marked. marked ≡ is_marked tree.now path.now) }
{
    match node {
        Node::Dir(_) => holds_marker(alloc, tree, path),
        Node::File(_, _) | Node::Link(_, _) => Ok(false),
    }
}

/// Whether a path that a cut covers, with this node, is another cut.
pub(crate) fn is_other(
    alloc: Global,
    tree: &Tree,
    cut: &RepoPath,
    path: &RepoPath,
    node: &Node,
) -> Result<bool, NoMemory>
    requires tree { IsTree tree.now }
    requires node { map.get tree.now path.now ≡ Some node.now }
    requires covered { covers cut.now path.now ≡ true }
    ensures { IfOk result (λ other. other ≡ is_other tree.now cut.now path.now) }
{
    if path.names().len() == cut.names().len() {
        return Ok(false);
    }
    is_marked(alloc, tree, path, node)
}
