//! Grafting.
ghost use Rattle.std.specs.Prelude.{◌≡◌, ◌≢◌, ◌+◌, [], true, false, length, IfOk, IfErr, IsTrue, IsErrOf};
ghost use Rattle.cv_base.specs.Counts.{HasCause};
ghost use Rattle.cv_base.specs.Marker.{marker, ends_in};
ghost use Rattle.cv_base.specs.Path.{covers};
ghost use Rattle.cv_base.specs.Told.{WhereTold};
ghost use Rattle.cv_base.specs.declared.id.Kind.TheVariants as id_kind;
ghost use Rattle.cv_ports.specs.Shelf.{Shelf as Shelf_};
ghost use Rattle.cv_rows.specs.Catalogue.{IsCatalogue};
ghost use Rattle.cv_tree.specs.Tree.{Nodes};
ghost use Rattle.cv_tree.specs.Changes.{has_place};
ghost use Rattle.cv_ports.specs.Calls.{RaisedAtMost};
ghost use Rattle.cv_cut.specs.Above.{cuts_above, replaced};
ghost use Rattle.cv_cut.specs.declared.load_fault.LoadFault.TheVariants as load_faults;
ghost use Rattle.cv_graft.specs.Directories.{IsHolder};
ghost use Rattle.cv_graft.specs.Both.{GivesOffered, GraftsBoth, MakesNothing};
ghost use Rattle.cv_base.specs.Objects.{AreNamed};
ghost use Rattle.cv_graft.specs.Graft.{Grafts, HasWay, HasWays};
ghost use Rattle.cv_graft.specs.Placed.{HasCuts};
ghost use Rattle.cv_graft.specs.Way.{BlamesWay, IsOfEither, TellsDamage};
ghost use Rattle.cv_graft.specs.WayInner.{Finds};
ghost use Rattle.cv_graft.specs.declared.graft_fault.GraftFault.TheVariants as faults;

use crate::graft_fault::GraftFault;
use crate::grafted::Grafted;
use crate::rebuilding::from_root;
use crate::way::holder_from;
use cv_base::{Items, ObjectId, RepoPath};
use cv_cut::{LoadFault, catalogue_at};
use cv_ports::{Shelf, ShelfFault};
use cv_rows::Catalogue;
use std::alloc::Global;

/// The catalogue under a root that directly holds a path below it.
pub(crate) fn holder<S: Shelf>(
    alloc: Global,
    shelf: &mut S,
    root: &ObjectId,
    path: &RepoPath,
) -> Result<Catalogue, LoadFault>
    requires kind { root.now.kind ≡ id_kind.Catalogue }
    requires path { path.now ≢ [] }
    ensures told { WhereTold (S.shelf shelf.old) (λ standing. (n : Nodes) → HasCuts standing root.now.hash n path.now → Finds n path.now result) }
    ensures holder { WhereTold (S.shelf shelf.old) (λ standing. IfOk result (IsHolder standing root.now.hash path.now)) }
    ensures rules { IfOk result IsCatalogue }
    ensures covered { IfOk result (λ c. (covers c.at path.now ≡ true) × (path.now ≢ c.at)) }
    ensures fault { WhereTold (S.shelf shelf.old) (λ standing. IfErr result (BlamesWay standing root.now.hash path.now)) }
    ensures reads { S.reads shelf.old shelf.new }
    ensures unchanged { S.shelf shelf.new ≡ S.shelf shelf.old }
    ensures cause { HasCause (S.faults shelf.old) (S.faults shelf.new) (IsErrOf result load_faults.Failed) }
    ensures taken { WhereTold (S.shelf shelf.old) (λ standing. (n : Nodes) → HasCuts standing root.now.hash n path.now → RaisedAtMost (length (cuts_above n path.now)) (S.taken shelf.old) (S.taken shelf.new)) }
    ensures most { RaisedAtMost (length path.now) (S.taken shelf.old) (S.taken shelf.new) }
{
    let top = RepoPath::root(alloc);
    let catalogue = catalogue_at(alloc, shelf, root, &top, None)?;
    holder_from(alloc, shelf, root, catalogue, path)
}

/// The offered tree as it is.
fn whole<S: Shelf>(alloc: Global, shelf: &mut S, offered: &ObjectId) -> Result<Grafted, GraftFault>
    requires { offered.now.kind ≡ id_kind.Catalogue }
    ensures gives { WhereTold (S.shelf shelf.old) (λ standing. GivesOffered standing offered.now result) }
    ensures own { IfOk result (λ g. AreNamed g.added) }
    ensures undamaged { (standing : Shelf_) → TellsDamage standing (λ id. ⊥) result }
    ensures reads { S.reads shelf.old shelf.new }
    ensures unchanged { S.shelf shelf.new ≡ S.shelf shelf.old }
    ensures cause { HasCause (S.faults shelf.old) (S.faults shelf.new) (IsErrOf result faults.Failed) }
    ensures taken { S.taken shelf.new ≡ S.taken shelf.old }
{
    match shelf.length(alloc, offered) {
        Ok(Some(size)) => Ok(Grafted {
            root: *offered,
            size,
            added: Items::new(Vec::new(alloc)),
        }),
        Ok(None) => Err(GraftFault::NoMemory),
        Err(ShelfFault::Failed) => Err(GraftFault::Failed),
        Err(ShelfFault::Damaged { .. }) => unreachable!(),
        Err(ShelfFault::NoMemory) => Err(GraftFault::NoMemory),
    }
}

/// The offered subtree in the place of the newest tree's, at a path below the root.
fn below_root<S: Shelf>(
    alloc: Global,
    shelf: &mut S,
    newest: &ObjectId,
    offered: &ObjectId,
    path: &RepoPath,
) -> Result<Grafted, GraftFault>
    requires newest { newest.now.kind ≡ id_kind.Catalogue }
    requires offered { offered.now.kind ≡ id_kind.Catalogue }
    requires path { path.now ≢ [] }
    requires unmarked { ends_in marker path.now ≡ false }
    ensures way { WhereTold (S.shelf shelf.old) (λ standing. GraftsBoth standing newest.now.hash offered.now.hash path.now result) }
    ensures own { IfOk result (λ g. AreNamed g.added) }
    ensures damaged { WhereTold (S.shelf shelf.old) (λ standing. TellsDamage standing (IsOfEither standing newest.now.hash offered.now.hash path.now) result) }
    ensures reads { S.reads shelf.old shelf.new }
    ensures unchanged { S.shelf shelf.new ≡ S.shelf shelf.old }
    ensures cause { HasCause (S.faults shelf.old) (S.faults shelf.new) (IsErrOf result faults.Failed) }
    ensures taken { WhereTold (S.shelf shelf.old) (λ standing. (t n : Nodes) → HasWay standing newest.now.hash t path.now → HasWay standing offered.now.hash n path.now → RaisedAtMost (length (cuts_above n path.now) + length (cuts_above t path.now)) (S.taken shelf.old) (S.taken shelf.new)) }
    ensures most { RaisedAtMost (length path.now + length path.now) (S.taken shelf.old) (S.taken shelf.new) }
{
    let other = holder(alloc, shelf, offered, path)?;
    from_root(alloc, shelf, newest, &other, path)
}

/// The newest tree with the subtree at a path replaced by the offered tree's, or taken out where the offered tree lacks the
/// path. Only the catalogues on the way to the path are read, in each tree at most as many as the path has names, and only those
/// properly above it are made. What is answered is so by these catalogues alone, whatever else there is, and whether or not the
/// roots mean trees. At the root nothing is read, and the offered root is answered as it is.
///
/// A catalogue on the way that isn't there or doesn't decode, and a path whose parent is no directory of the newest tree, are
/// answered as want of memory.
pub fn graft<S: Shelf>(
    alloc: Global,
    shelf: &mut S,
    newest: &ObjectId,
    offered: &ObjectId,
    path: &RepoPath,
) -> Result<Grafted, GraftFault>
    requires newest { newest.now.kind ≡ id_kind.Catalogue }
    requires offered { offered.now.kind ≡ id_kind.Catalogue }
    requires unmarked { ends_in marker path.now ≡ false }
    ensures told { WhereTold (S.shelf shelf.old) (λ standing. (t n : Nodes) → HasWays standing newest.now.hash offered.now.hash t n path.now → IsTrue (has_place t path.now) → Grafts (replaced t n path.now) path.now result) }
    ensures way { WhereTold (S.shelf shelf.old) (λ standing. path.now ≢ [] → GraftsBoth standing newest.now.hash offered.now.hash path.now result) }
    ensures whole { WhereTold (S.shelf shelf.old) (λ standing. path.now ≡ [] → GivesOffered standing offered.now result) }
    ensures parentless { WhereTold (S.shelf shelf.old) (λ standing. (t : Nodes) → HasWay standing newest.now.hash t path.now → has_place t path.now ≡ false → MakesNothing result) }
    ensures own { IfOk result (λ g. AreNamed g.added) }
    ensures damaged { WhereTold (S.shelf shelf.old) (λ standing. TellsDamage standing (IsOfEither standing newest.now.hash offered.now.hash path.now) result) }
    ensures reads { S.reads shelf.old shelf.new }
    ensures unchanged { S.shelf shelf.new ≡ S.shelf shelf.old }
    ensures cause { HasCause (S.faults shelf.old) (S.faults shelf.new) (IsErrOf result faults.Failed) }
    ensures taken { WhereTold (S.shelf shelf.old) (λ standing. (t n : Nodes) → HasWay standing newest.now.hash t path.now → HasWay standing offered.now.hash n path.now → RaisedAtMost (length (cuts_above n path.now) + length (cuts_above t path.now)) (S.taken shelf.old) (S.taken shelf.new)) }
    ensures most { RaisedAtMost (length path.now + length path.now) (S.taken shelf.old) (S.taken shelf.new) }
{
    if path.names().is_empty() {
        return whole(alloc, shelf, offered);
    }
    below_root(alloc, shelf, newest, offered, path)
}
