//! Parts of trees.
ghost use Rattle.std.specs.Prelude.{◌≡◌, IfOk, IfSome, OnOk, OnErr};
ghost use Rattle.std.specs.Option.{option_copied};
ghost use Rattle.std.specs.FinMap as map;
ghost use Rattle.cv_base.specs.Unless.{IsUnless};
ghost use Rattle.cv_tree.specs.declared.tree_fault.TreeFault.TheVariants as faults;
ghost use Rattle.cv_tree.specs.Node.{IsNode};
ghost use Rattle.cv_tree.specs.Tree.{IsPart, single};
ghost use Rattle.cv_tree.specs.Changes.{insertion};

use crate::node::Node;
use crate::node_map::NodeMap;
use crate::tree_fault::TreeFault;
use cv_base::{NoMemory, RepoPath};
use std::alloc::Global;
use std::marker::Model;

/// What stands at and below one path of a tree, by the paths from there on. Clauses see it as a finite
/// map from paths to nodes. Its root may be any node, and the parent of every other path is a directory.
#[derive(Drop)]
pub struct Part {
    pub(crate) nodes: NodeMap,
}

impl Model for Part {
    ghost use Rattle.std.specs.FinMap as map;
    ghost use Rattle.std.specs.Coded.{coded_ℕ, coded_list};
    ghost use Rattle.cv_base.specs.Path.{path_cmp};
    ghost use Rattle.cv_tree.specs.declared.node.Node.{Node};
    ghost use Rattle.cv_tree.specs.contracts.node.Node as node;
    ghost use Rattle.cv_tree.specs.Tree.{IsPart};

    ghost Value = { map.FinMap path_cmp Node };

    ghost coded = { map.code (coded_list (coded_list coded_ℕ)) node.the_row.coded };

    ghost view = { λ a. a.nodes };

    ghost invariant = { λ a. IsPart a.nodes };
}

impl Part {
    /// A part of one node, its root.
    pub fn new(alloc: Global, node: Node) -> Result<Part, NoMemory>
        requires { IsNode node }
        ensures { IfOk result (λ part. part ≡ single node) }
    {
        let nodes = NodeMap::single(alloc, node)?;
        Ok(Part { nodes })
    }

    /// The part of these entries. Of several at one path the first counts.
    pub fn of_entries(alloc: Global, entries: Vec<(RepoPath, Node)>) -> Result<Part, NoMemory>
        requires { IsPart (map.from_entries entries.items) }
        ensures { IfOk result (λ part. part ≡ map.from_entries entries.items) }
    {
        let nodes = NodeMap::of_entries(alloc, entries)?;
        Ok(Part { nodes })
    }

    /// A copy of all nodes, each with its path, in the order of the paths: that of a directory stands before those below it.
    pub fn entries(&self, alloc: Global) -> Result<Vec<(RepoPath, Node)>, NoMemory>
        ensures entries { IfOk result (λ entries. entries.items ≡ map.entries self.now) }
        ensures part { IsPart self.now }
    {
        self.nodes.entries(alloc)
    }

    /// The node at a path, counted from the part's root.
    pub fn get(&self, path: &RepoPath) -> Option<&Node>
        ensures value { option_copied result ≡ map.get self.now path.now }
        ensures part { IsPart self.now }
        ensures limits { IfSome result (λ node. IsNode node.now) }
    {
        self.nodes.get(path)
    }

    /// Adds a node at a path that is not there yet. A refusal changes nothing.
    pub fn insert(&mut self, path: &RepoPath, node: Node) -> Result<(), TreeFault>
        requires { IsNode node }
        ensures answer { IsUnless faults.NoMemory result (insertion self.old path.now) }
        ensures ok { OnOk result (self.new ≡ map.insert self.old path.now node) }
        ensures err { OnErr result (self.new ≡ self.old) }
    {
        self.nodes.add(path, node)
    }
}
