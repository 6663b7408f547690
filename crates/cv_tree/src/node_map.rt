//! Maps from paths to nodes.
ghost use Rattle.std.specs.Prelude.{◌≡◌, IfOk, OnOk, OnErr, IsTrue};
ghost use Rattle.std.specs.Option.{option_copied};
ghost use Rattle.std.specs.FinMap as map;
ghost use Rattle.cv_base.specs.Path.{IsPath};
ghost use Rattle.cv_base.specs.Unless.{IsUnless};
ghost use Rattle.cv_tree.specs.declared.tree_fault.TreeFault.TheVariants as faults;
ghost use Rattle.cv_tree.specs.Tree.{is_directory, single, at, under, outside_with, put};
ghost use Rattle.cv_tree.specs.Changes.{has_place, insertion, replacement, FitsUnder};

use crate::joined::{behind, below, parent};
use crate::node::Node;
use crate::tree_fault::TreeFault;
use cv_base::{NoMemory, RepoPath};
use std::alloc::Global;
use std::collections::BTreeMap;
use std::marker::Model;

/// A map from paths to nodes. Clauses see it as a finite map.
#[derive(Drop)]
pub(crate) struct NodeMap {
    alloc: Global,
    nodes: BTreeMap<RepoPath, Node>,
}

impl Model for NodeMap {
    ghost use Rattle.std.specs.FinMap as map;
    ghost use Rattle.std.specs.Coded.{coded_ℕ, coded_list};
    ghost use Rattle.cv_base.specs.Path.{path_cmp};
    ghost use Rattle.cv_tree.specs.declared.node.Node.{Node};
    ghost use Rattle.cv_tree.specs.contracts.node.Node as node;

    ghost Value = { map.FinMap path_cmp Node };

    ghost coded = { map.code (coded_list (coded_list coded_ℕ)) node.the_row.coded };

    ghost view = { λ a. map.from_entries a.nodes.entries };
}

impl NodeMap {
    /// A map without nodes.
    pub(crate) fn new(alloc: Global) -> NodeMap
        ensures { result ≡ map.empty }
    {
        NodeMap {
            alloc,
            nodes: BTreeMap::new(alloc),
        }
    }

    /// The map of one node, which stands at the root.
    pub(crate) fn single(alloc: Global, root: Node) -> Result<NodeMap, NoMemory>
        ensures { IfOk result (λ made. made ≡ single root) }
    {
        let mut nodes = NodeMap::new(alloc);
        nodes.set(RepoPath::root(alloc), root)?;
        Ok(nodes)
    }

    /// The map of these entries. Of several at one path the first counts.
    #[tactic(auto, using(crate::proofs::Made::one_made, crate::proofs::Made::all_made))]
    pub(crate) fn of_entries(
        alloc: Global,
        entries: Vec<(RepoPath, Node)>,
    ) -> Result<NodeMap, NoMemory>
        ensures { IfOk result (λ made. made ≡ map.from_entries entries.items) }
    {
        let mut made = NodeMap::new(alloc);
        let mut rest = entries;
        'entries: while let Some((path, node)) = rest.pop() {
            made.set(path, node)?;
        }
        Ok(made)
    }

    /// The node at a path.
    pub(crate) fn get(&self, path: &RepoPath) -> Option<&Node>
        ensures { option_copied result ≡ map.get self.now path.now }
    {
        self.nodes.get(path)
    }

    /// Equal nodes, each with its path, in the order of the paths.
    pub(crate) fn entries(&self, alloc: Global) -> Result<Vec<(RepoPath, Node)>, NoMemory>
        ensures { IfOk result (λ entries. entries.items ≡ map.entries self.now) }
    {
        let mut entries = Vec::new(alloc);
        for (path, node) in &self.nodes {
            let entry = (path.copy(alloc)?, node.copy(alloc)?);
            entries.push(entry)?;
        }
        Ok(entries)
    }

    /// Sets the node at a path.
    pub(crate) fn set(&mut self, path: RepoPath, node: Node) -> Result<(), NoMemory>
        ensures ok { OnOk result (self.new ≡ map.insert self.old path node) }
        ensures err { OnErr result (self.new ≡ self.old) }
    {
        self.nodes.insert(path, node)?;
        Ok(())
    }

    /// Whether a directory stands at a path.
    fn is_directory(&self, path: &RepoPath) -> bool
        ensures { result ≡ is_directory (map.get self.now path.now) }
    {
        matches!(self.get(path), Some(Node::Dir(_)))
    }

    /// Whether a node may stand at a path: it is the root, or its parent is a directory.
    fn has_place(&self, path: &RepoPath) -> Result<bool, NoMemory>
        ensures place { IfOk result (λ found. found ≡ has_place self.now path.now) }
        ensures path { IsPath path.now }
    {
        if path.names().is_empty() {
            return Ok(true);
        }
        let above = parent(self.alloc, path)?;
        Ok(self.is_directory(&above))
    }

    /// Adds a node at a path that is not there yet.
    pub(crate) fn add(&mut self, path: &RepoPath, node: Node) -> Result<(), TreeFault>
        ensures answer { IsUnless faults.NoMemory result (insertion self.old path.now) }
        ensures ok { OnOk result (self.new ≡ map.insert self.old path.now node) }
        ensures err { OnErr result (self.new ≡ self.old) }
        ensures path { IsPath path.now }
    {
        if self.has_place(path)? {
            self.add_placed(path, node)
        } else {
            Err(TreeFault::NoParent)
        }
    }

    /// The same at a path where a node may stand.
    fn add_placed(&mut self, path: &RepoPath, node: Node) -> Result<(), TreeFault>
        requires { IsTrue (has_place self.old path.now) }
        ensures answer { IsUnless faults.NoMemory result (insertion self.old path.now) }
        ensures ok { OnOk result (self.new ≡ map.insert self.old path.now node) }
        ensures err { OnErr result (self.new ≡ self.old) }
    {
        if self.get(path).is_some() {
            return Err(TreeFault::Exists);
        }
        let key = path.copy(self.alloc)?;
        self.set(key, node)?;
        Ok(())
    }

    /// The nodes that a path covers, with the path taken off.
    pub(crate) fn at(&self, alloc: Global, path: &RepoPath) -> Result<NodeMap, NoMemory>
        ensures { IfOk result (λ found. found ≡ at self.now path.now) }
    {
        let mut found = NodeMap::new(alloc);
        // In the order of paths what a path covers is one run, from the path on.
        for (place, node) in self.nodes.range(path..) {
            let Some(rest) = behind(alloc, path, place)? else {
                break;
            };
            found.set(rest, node.copy(alloc)?)?;
        }
        Ok(found)
    }

    /// The same nodes below a path.
    fn under(self, alloc: Global, path: &RepoPath) -> Result<NodeMap, NoMemory>
        requires { FitsUnder path.now self }
        ensures { IfOk result (λ moved. moved ≡ under path.now self) }
    {
        let mut moved = NodeMap::new(alloc);
        for (rest, node) in self.nodes {
            moved.set(below(alloc, path, &rest)?, node)?;
        }
        Ok(moved)
    }

    /// The nodes that a path does not cover, together with others.
    fn outside_with(&self, path: &RepoPath, others: NodeMap) -> Result<NodeMap, NoMemory>
        ensures { IfOk result (λ all. all ≡ outside_with self.now path.now others) }
    {
        let mut all = others;
        for (place, node) in &self.nodes {
            if !path.covers(place) {
                all.set(place.copy(self.alloc)?, node.copy(self.alloc)?)?;
            }
        }
        Ok(all)
    }

    /// Takes out all that a path covers, in place.
    pub(crate) fn remove(&mut self, path: &RepoPath) -> Result<(), TreeFault>
        ensures answer { IsUnless faults.NoMemory result (replacement self.old path.now) }
        ensures ok { OnOk result (self.new ≡ put self.old path.now map.empty) }
        ensures err { OnErr result (self.new ≡ self.old) }
    {
        if self.has_place(path)? {
            self.remove_covered(path);
            Ok(())
        } else {
            Err(TreeFault::NoParent)
        }
    }

    /// The same, whatever may stand at the path.
    fn remove_covered(&mut self, path: &RepoPath)
        ensures { self.new ≡ put self.old path.now map.empty }
    {
        self.nodes.retain(|place, _| !path.covers(place));
    }

    /// Takes out all that a path covers, and sets other nodes there.
    pub(crate) fn replace(&mut self, path: &RepoPath, part: NodeMap) -> Result<(), TreeFault>
        requires { FitsUnder path.now part }
        ensures answer { IsUnless faults.NoMemory result (replacement self.old path.now) }
        ensures ok { OnOk result (self.new ≡ put self.old path.now part) }
        ensures err { OnErr result (self.new ≡ self.old) }
    {
        if self.has_place(path)? {
            self.replace_placed(path, part)
        } else {
            Err(TreeFault::NoParent)
        }
    }

    /// The same at a path where a node may stand.
    fn replace_placed(&mut self, path: &RepoPath, part: NodeMap) -> Result<(), TreeFault>
        requires place { IsTrue (has_place self.old path.now) }
        requires limits { FitsUnder path.now part }
        ensures answer { IsUnless faults.NoMemory result (replacement self.old path.now) }
        ensures ok { OnOk result (self.new ≡ put self.old path.now part) }
        ensures err { OnErr result (self.new ≡ self.old) }
    {
        let nodes = self.replaced(path, part)?;
        *self = nodes;
        Ok(())
    }

    /// A map like this one, but for what the path covers. Since it is made beside this one, a want of
    /// memory loses nothing.
    fn replaced(&self, path: &RepoPath, part: NodeMap) -> Result<NodeMap, NoMemory>
        requires { FitsUnder path.now part }
        ensures { IfOk result (λ all. all ≡ put self.now path.now part) }
    {
        let moved = part.under(self.alloc, path)?;
        self.outside_with(path, moved)
    }
}
