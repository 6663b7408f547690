//! Trees.
ghost use Rattle.std.specs.Prelude.{◌≡◌, IfOk, IfSome, IsTrue, OnOk, OnErr};
ghost use Rattle.std.specs.Option.{option_copied};
ghost use Rattle.std.specs.FinMap as map;
ghost use Rattle.cv_base.specs.Unless.{IsUnless};
ghost use Rattle.cv_tree.specs.declared.node.Node.TheVariants.{Dir};
ghost use Rattle.cv_tree.specs.declared.tree_fault.TreeFault.TheVariants as faults;
ghost use Rattle.cv_base.specs.Attr.{IsAttr};
ghost use Rattle.cv_tree.specs.Node.{IsNode};
ghost use Rattle.cv_tree.specs.Tree.{IsPart, IsTree, single, put};
ghost use Rattle.cv_tree.specs.Changes.{has_place, insertion, replacement, subtree_of, nodes_of, FitsUnder, IsTreeAtRoot};

use crate::node::Node;
use crate::node_map::NodeMap;
use crate::part::Part;
use crate::tree_fault::TreeFault;
use cv_base::{Attr, NoMemory, RepoPath};
use std::alloc::Global;
use std::marker::Model;

/// The tree of a repository. Clauses see it as a finite map from paths to nodes, in which the root is a
/// directory, and so is the parent of every other path.
#[derive(Drop)]
pub struct Tree {
    nodes: NodeMap,
}

impl Model for Tree {
    ghost use Rattle.std.specs.FinMap as map;
    ghost use Rattle.std.specs.Coded.{coded_ℕ, coded_list};
    ghost use Rattle.cv_base.specs.Path.{path_cmp};
    ghost use Rattle.cv_tree.specs.declared.node.Node.{Node};
    ghost use Rattle.cv_tree.specs.contracts.node.Node as node;
    ghost use Rattle.cv_tree.specs.Tree.{IsTree};

    ghost Value = { map.FinMap path_cmp Node };

    ghost coded = { map.code (coded_list (coded_list coded_ℕ)) node.the_row.coded };

    ghost view = { λ a. a.nodes };

    ghost invariant = { λ a. IsTree a.nodes };
}

impl Tree {
    /// A tree of one directory, the root.
    pub fn new(alloc: Global, root: Attr) -> Result<Tree, NoMemory>
        requires { IsAttr root }
        ensures { IfOk result (λ tree. tree ≡ single (Dir root)) }
    {
        let nodes = NodeMap::single(alloc, Node::Dir(root))?;
        Ok(Tree { nodes })
    }

    /// The node at a path.
    pub fn get(&self, path: &RepoPath) -> Option<&Node>
        ensures value { option_copied result ≡ map.get self.now path.now }
        ensures tree { IsTree self.now }
        ensures limits { IfSome result (λ node. IsNode node.now) }
    {
        self.nodes.get(path)
    }

    /// A copy of all nodes, each with its path, in the order of the paths: that of a directory stands before those below it.
    pub fn entries(&self, alloc: Global) -> Result<Vec<(RepoPath, Node)>, NoMemory>
        ensures entries { IfOk result (λ entries. entries.items ≡ map.entries self.now) }
        ensures tree { IsTree self.now }
    {
        self.nodes.entries(alloc)
    }

    /// A copy of what stands at a path and below it. None where nothing stands at the path.
    pub fn subtree(&self, alloc: Global, path: &RepoPath) -> Result<Option<Part>, NoMemory>
        ensures { IfOk result (λ found. found ≡ subtree_of self.now path.now) }
    {
        if self.nodes.get(path).is_none() {
            return Ok(None);
        }
        let nodes = self.nodes.at(alloc, path)?;
        Ok(Some(Part { nodes }))
    }

    /// Adds a node at a path that is not there yet. A refusal changes nothing.
    pub fn insert(&mut self, path: &RepoPath, node: Node) -> Result<(), TreeFault>
        requires { IsNode node }
        ensures answer { IsUnless faults.NoMemory result (insertion self.old path.now) }
        ensures ok { OnOk result (self.new ≡ map.insert self.old path.now node) }
        ensures err { OnErr result (self.new ≡ self.old) }
    {
        self.nodes.add(path, node)
    }

    /// Sets a node at a path at which a node may stand, and no other one does. The path is looked up once,
    /// and not copied. Where there is no memory, nothing changes.
    pub fn place(&mut self, path: RepoPath, node: Node) -> Result<(), NoMemory>
        requires node { IsNode node }
        requires place { IsTrue (has_place self.old path) }
        requires alone { IfSome (map.get self.old path) (λ there. there ≡ node) }
        ensures ok { OnOk result (self.new ≡ map.insert self.old path node) }
        ensures err { OnErr result (self.new ≡ self.old) }
    {
        // The names keep the limits of a path.
        let _names = path.names();
        self.nodes.set(path, node)
    }

    /// Takes out all that stands at a path and below it, and sets the part there, if there is one. It
    /// never answers that the path exists. A refusal changes nothing: where there is a part, the new map is
    /// made beside the old one, so that it takes memory for both. With none, what stands there is taken out
    /// in place.
    pub fn replace(&mut self, path: &RepoPath, part: Option<Part>) -> Result<(), TreeFault>
        // At the root there has to be a part, whose root is a directory.
        requires root { IsTreeAtRoot path.now (nodes_of part) }
        // The paths of the part keep the limits of a path behind this one.
        requires limits { IfSome part (FitsUnder path.now) }
        ensures answer { IsUnless faults.NoMemory result (replacement self.old path.now) }
        ensures ok { OnOk result (self.new ≡ put self.old path.now (nodes_of part)) }
        ensures err { OnErr result (self.new ≡ self.old) }
    {
        match part {
            Some(part) => self.nodes.replace(path, part.nodes),
            None => self.nodes.remove(path),
        }
    }
}
