//! What is fetched of a published tree, one catalogue after another.
ghost use Rattle.std.specs.Prelude.{◌≡◌, [], None, IfOk, IfSome, IsSome, OnOk, IsErrOf, option_copied, option_to_list};
ghost use Rattle.cv_base.specs.declared.id.ObjectId.{ObjectId as TheId};
ghost use Rattle.cv_base.specs.declared.id.Kind.TheVariants as id_kind;
ghost use Rattle.cv_ports.specs.MemoryShelf.{standing};
ghost use Rattle.cv_ports.specs.Objects.{shelf_of};
ghost use Rattle.cv_tree.specs.Tree.{Nodes, IsTree};
ghost use Rattle.cv_tree.specs.Changes.{FitsUnder, has_place, nodes_of, subtree_of};
ghost use Rattle.cv_cut.specs.Catalogues.{Fits, root_of};
ghost use Rattle.cv_cut.specs.Own.{AreOwn};
ghost use Rattle.cv_checkout.specs.Wanting.{next_of};
ghost use Rattle.cv_checkout.specs.Progress.{begun};
ghost use Rattle.cv_checkout.specs.Giving.{Gives};
ghost use Rattle.cv_checkout.specs.OpeningInner.{Judges};
ghost use Rattle.cv_checkout.specs.InTree.{IsOn, IsIdToward, IsBase};
ghost use Rattle.cv_checkout.specs.declared.fault.CheckoutFault.TheVariants as faults;

use crate::base::Base;
use crate::fault::CheckoutFault;
use crate::growing::grown;
use crate::naming::{named_toward, put_first};
use crate::opening::{open, served};
use crate::wanted::{Wanted, id_of, root_wanted};
use cv_base::{Bytes, NoMemory, Object, ObjectId, RepoPath};
use cv_ports::MemoryShelf;
use cv_rows::Catalogue;
use cv_tree::{Node, Part, Tree, parent};
use std::alloc::Global;
use std::collections::VecDeque;
use std::marker::Model;

/// What is fetched of a published tree before what it has at a path is changed: the catalogues of the cuts on the way from the
/// root to the path, and those at and below it, and no other.
///
/// They are wanted one after another: a catalogue before those that are nested in it, and these before what is wanted after
/// it, in the order of the nested entries. What it tells holds of the root alone, whoever gives the catalogues.
#[derive(Drop)]
pub struct Checkout {
    path: RepoPath,
    wanted: VecDeque<Wanted>,
    objects: Vec<Object>,
    tree: Option<Tree>,
}

impl Model for Checkout {
    ghost use Rattle.std.specs.FinMap as map;
    ghost use Rattle.std.specs.Prelude.{List, Option, refl};
    ghost use Rattle.std.specs.Coded.{code_by, coded×, coded_ℕ, coded_list, coded_option};
    ghost use Rattle.cv_base.specs.Path.{Path};
    ghost use Rattle.cv_base.specs.declared.object.Object.{Object};
    ghost use Rattle.cv_base.specs.contracts.object.Object as object;
    ghost use Rattle.cv_tree.specs.Tree.{Nodes};
    ghost use Rattle.cv_tree.specs.contracts.node.Node as node;
    ghost use Rattle.cv_checkout.specs.declared.wanted.Wanted.{Wanted};
    ghost use Rattle.cv_checkout.specs.contracts.wanted.Wanted as one_wanted;
    ghost use Rattle.cv_checkout.specs.Progress.{Progress};

    ghost Value = { Progress };

    ghost coded = { code_by (Path × (List Wanted × (List Object × Option Nodes))) (coded× (coded_list (coded_list coded_ℕ)) (coded× (coded_list one_wanted.the_row.coded) (coded× (coded_list object.the_row.coded) (coded_option (map.code (coded_list (coded_list coded_ℕ)) node.the_row.coded))))) (λ v. (v.path, (v.wanted, (v.objects, v.tree)))) (λ p. record { path = p.0; wanted = p.1.0; objects = p.1.1.0; tree = p.1.1.1 }) (λ _. refl) };

    ghost view = { λ c. record { path = c.path; wanted = c.wanted.items; objects = c.objects.items; tree = c.tree } };
}

impl Checkout {
    /// A checkout of a path of the tree whose root catalogue has this id. That catalogue is wanted first.
    pub fn new(alloc: Global, root: &ObjectId, path: RepoPath) -> Result<Checkout, NoMemory>
        requires { root.now.kind ≡ id_kind.Catalogue }
        ensures begun { IfOk result (λ made. made ≡ begun root.now.hash path) }
        ensures on { (t : Nodes) → IsTree t → Fits t → root.now.hash ≡ root_of t → IfOk result (IsOn t) }
    {
        let mut wanted = VecDeque::new(alloc);
        wanted.push_back(root_wanted(alloc, root.hash))?;
        Ok(Checkout {
            path,
            wanted,
            objects: Vec::new(alloc),
            tree: None,
        })
    }

    /// The id of the catalogue that is wanted next. None where all were given.
    pub fn want(&self) -> Option<ObjectId>
        ensures wanted { result ≡ next_of self.now.wanted }

        // In a tree of that root it is the catalogue of a cut on the way to the path, or at or below it.
        ensures toward { (t : Nodes) → IsOn t self.now → IfSome result (IsIdToward t self.now.path) }
    {
        match self.wanted.front() {
            Some(next) => Some(id_of(next)),
            None => None,
        }
    }

    /// Gives what came for the catalogue that is wanted next: its bytes, or that there are none. A refusal changes nothing; after
    /// want of memory nothing is said of the checkout.
    ///
    /// # Errors
    ///
    /// `NotServed` where there are no bytes, `BadObject` where they have another digest, `BadCatalogue` where they don't decode
    /// at their place or have another size than the entry that names them states; else want of memory.
    pub fn give(&mut self, alloc: Global, bytes: Option<Bytes>) -> Result<(), CheckoutFault>
        requires { IsSome (next_of self.old.wanted) }
        ensures gives { Gives self.old bytes self.new result }

        // In a tree of that root, with whose catalogues no other bytes share a digest, it comes on, and no catalogue is bad.
        ensures on { (t : Nodes) → IsOn t self.old → AreOwn t (option_to_list bytes) → OnOk result (IsOn t self.new) }
        ensures good { (t : Nodes) (id : TheId) → IsOn t self.old → AreOwn t (option_to_list bytes) → IsErrOf result (faults.BadCatalogue id) → ⊥ }
    {
        self.take_next(alloc, bytes)
    }

    /// What is given for the catalogue that is wanted next, where it is that catalogue.
    fn judged(
        &self,
        alloc: Global,
        given: Option<Bytes>,
    ) -> Result<(Bytes, Catalogue), CheckoutFault>
        requires { IsSome (next_of self.now.wanted) }
        ensures { Judges self.now given result }
    {
        let Some(next) = self.wanted.front() else {
            unreachable!("a catalogue is wanted");
        };
        let bytes = served(id_of(next), given)?;
        let catalogue = open(alloc, next, bytes.as_slice())?;
        Ok((bytes, catalogue))
    }

    /// The same, as the one relation that says it all.
    fn take_next(&mut self, alloc: Global, given: Option<Bytes>) -> Result<(), CheckoutFault>
        requires { IsSome (next_of self.old.wanted) }
        ensures { Gives self.old given self.new result }
    {
        let (bytes, catalogue) = self.judged(alloc, given)?;
        let Some(next) = self.wanted.pop_front() else {
            unreachable!("a catalogue is wanted");
        };
        let id = id_of(&next);
        let tree = grown(alloc, self.tree.take(), &catalogue, &self.path)?;
        self.tree = Some(tree);
        put_first(
            &mut self.wanted,
            named_toward(alloc, &catalogue, &self.path)?,
        )?;
        self.objects.push(Object { id, bytes })?;
        Ok(())
    }

    /// What all that was given tells.
    pub fn finish(self, alloc: Global) -> Result<Base, NoMemory>
        requires { next_of self.wanted ≡ None }
        ensures catalogues { IfOk result (λ base. (id : TheId) → standing base.catalogues id ≡ shelf_of self.objects id) }
        ensures calls { IfOk result (λ base. base.catalogues.calls ≡ record { failing = []; count = 0; faults = 0 }) }
        ensures part { IfOk result (λ base. base.part ≡ subtree_of (nodes_of self.tree) self.path) }
        ensures place { IfOk result (λ base. base.has_place ≡ has_place (nodes_of self.tree) self.path) }
        ensures limits { IfOk result (λ base. FitsUnder self.path (nodes_of base.part)) }

        // In a tree of that root it is what the tree has there.
        ensures tree { (t : Nodes) → IsOn t self → IfOk result (IsBase t self.path) }
    {
        let path = self.path;
        let part = part_at(alloc, self.tree.as_ref(), &path)?;
        let has_place = has_place(alloc, self.tree.as_ref(), &path)?;
        Ok(Base {
            catalogues: MemoryShelf::new(alloc, self.objects, Vec::new(alloc))?,
            part,
            has_place,
        })
    }
}

/// What a tree has at a path.
fn part_at(alloc: Global, tree: Option<&Tree>, path: &RepoPath) -> Result<Option<Part>, NoMemory>
    ensures part { IfOk result (λ found. found ≡ subtree_of (nodes_of (option_copied tree.entry)) path.now) }
    ensures limits { IfOk result (λ found. FitsUnder path.now (nodes_of found)) }
{
    match tree {
        Some(tree) => {
            let _ = tree.get(path);
            tree.subtree(alloc, path)
        }
        None => Ok(None),
    }
}

/// Whether a path has a place in a tree: it is the root, or its parent is a directory there.
fn has_place(alloc: Global, tree: Option<&Tree>, path: &RepoPath) -> Result<bool, NoMemory>
    ensures { IfOk result (λ found. found ≡ has_place (nodes_of (option_copied tree.entry)) path.now) }
{
    if path.names().is_empty() {
        return Ok(true);
    }
    match tree {
        Some(tree) => {
            let above = parent(alloc, path)?;
            Ok(matches!(tree.get(&above), Some(Node::Dir(_))))
        }
        None => Ok(false),
    }
}
