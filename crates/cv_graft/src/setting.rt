//! Setting a part at a path of a published tree.
ghost use Rattle.std.specs.Prelude.{◌≡◌, ◌≢◌, [], false, length, IfOk, IsTrue, IsErrOf};
ghost use Rattle.std.specs.FinMap as map;
ghost use Rattle.std.specs.Option.{option_copied};
ghost use Rattle.cv_base.specs.Counts.{HasCause};
ghost use Rattle.cv_base.specs.Marker.{marker, ends_in};
ghost use Rattle.cv_base.specs.Told.{WhereTold};
ghost use Rattle.cv_base.specs.declared.id.Kind.TheVariants as id_kind;
ghost use Rattle.cv_ports.specs.Calls.{RaisedAtMost};
ghost use Rattle.cv_tree.specs.Changes.{FitsUnder, IsTreeAtRoot, has_place, nodes_of};
ghost use Rattle.cv_tree.specs.Tree.{Nodes, is_directory, put};
ghost use Rattle.cv_ports.specs.Shelf.{Shelf as Shelf_};
ghost use Rattle.cv_cut.specs.Above.{cuts_above};
ghost use Rattle.cv_base.specs.Objects.{AreNamed};
ghost use Rattle.cv_graft.specs.Placed.{HasCuts, Places, PlacesNothing};
ghost use Rattle.cv_graft.specs.PlacedWay.{PlacesOnWay};
ghost use Rattle.cv_graft.specs.Way.{IsOfWay, TellsDamage};
ghost use Rattle.cv_graft.specs.declared.graft_fault.GraftFault.TheVariants as faults;

use crate::graft_fault::GraftFault;
use crate::grafted::Grafted;
use crate::rebuilding::from_root;
use cv_base::{ObjectId, RepoPath};
use cv_cut::{alone, cut, piece_at, whole};
use cv_ports::Shelf;
use cv_tree::Part;
use std::alloc::Global;

/// A part, as a whole tree.
fn whole_part(alloc: Global, part: &Part) -> Result<Grafted, GraftFault>
    requires { IsTrue (is_directory (map.get part.now [])) }
    ensures placed { Places part.now [] result }
    ensures own { IfOk result (λ g. AreNamed g.added) }
    ensures unread { IsErrOf result faults.Failed → ⊥ }
    ensures undamaged { (standing : Shelf_) → TellsDamage standing (λ id. ⊥) result }
{
    let tree = whole(alloc, part)?;
    match cut(alloc, &tree) {
        Ok(made) => Ok(Grafted {
            root: made.root,
            size: made.size,
            added: made.catalogues,
        }),
        Err(fault) => Err(GraftFault::from(fault)),
    }
}

/// The part that there is at the root.
fn at_root(alloc: Global, path: &RepoPath, part: Option<&Part>) -> Result<Grafted, GraftFault>
    requires path { path.now ≡ [] }
    requires root { IsTreeAtRoot path.now (nodes_of (option_copied part)) }
    ensures placed { Places (nodes_of (option_copied part.entry)) [] result }
    ensures own { IfOk result (λ g. AreNamed g.added) }
    ensures unread { IsErrOf result faults.Failed → ⊥ }
    ensures undamaged { (standing : Shelf_) → TellsDamage standing (λ id. ⊥) result }
{
    let Some(whole) = part else {
        unreachable!("at the root there is a part");
    };
    whole_part(alloc, whole)
}

/// A part, or nothing, in the place of what a tree has at a path below the root.
fn below_root_with<S: Shelf>(
    alloc: Global,
    shelf: &mut S,
    base: &ObjectId,
    path: &RepoPath,
    part: Option<&Part>,
) -> Result<Grafted, GraftFault>
    requires base { base.now.kind ≡ id_kind.Catalogue }
    requires path { path.now ≢ [] }
    requires unmarked { ends_in marker path.now ≡ false }
    requires limits { FitsUnder path.now (nodes_of (option_copied part)) }
    ensures way { WhereTold (S.shelf shelf.old) (λ standing. PlacesOnWay standing base.now.hash path.now (nodes_of (option_copied part.entry)) result) }
    ensures own { IfOk result (λ g. AreNamed g.added) }
    ensures damaged { WhereTold (S.shelf shelf.old) (λ standing. TellsDamage standing (IsOfWay standing base.now.hash path.now) result) }
    ensures reads { S.reads shelf.old shelf.new }
    ensures unchanged { S.shelf shelf.new ≡ S.shelf shelf.old }
    ensures cause { HasCause (S.faults shelf.old) (S.faults shelf.new) (IsErrOf result faults.Failed) }
    ensures taken { WhereTold (S.shelf shelf.old) (λ standing. (t : Nodes) → HasCuts standing base.now.hash t path.now → RaisedAtMost (length (cuts_above t path.now)) (S.taken shelf.old) (S.taken shelf.new)) }
    ensures most { RaisedAtMost (length path.now) (S.taken shelf.old) (S.taken shelf.new) }
{
    let tree = alone(alloc, path, part)?;
    let piece = piece_at(alloc, tree, path)?;
    from_root(alloc, shelf, base, &piece, path)
}

/// A tree with a part set at a path, or with what it has there taken out, by the catalogues on the way alone. A file or a link
/// there goes like a directory with all below it, and the part may begin with any of the three; at the root alone it begins
/// with a directory. Made are the catalogues of the cuts properly above the path, and the part's own. Below the root only the
/// former are read, as the tree has them, and at most as many as the path has names; at the root nothing is, and the part is
/// the tree. What is answered below the root is so by the part and these catalogues alone, whatever else there is, and whether or
/// not the root means a tree.
///
/// A catalogue on the way that isn't there or doesn't decode is answered as want of memory. So is a path whose parent is no
/// directory, but for a part of which two paths share a key: that is looked for first.
pub fn place<S: Shelf>(
    alloc: Global,
    shelf: &mut S,
    base: &ObjectId,
    path: &RepoPath,
    part: Option<&Part>,
) -> Result<Grafted, GraftFault>
    requires base { base.now.kind ≡ id_kind.Catalogue }
    requires unmarked { ends_in marker path.now ≡ false }
    requires root { IsTreeAtRoot path.now (nodes_of (option_copied part)) }
    requires limits { FitsUnder path.now (nodes_of (option_copied part)) }
    ensures told { WhereTold (S.shelf shelf.old) (λ standing. (t : Nodes) → HasCuts standing base.now.hash t path.now → IsTrue (has_place t path.now) → Places (put t path.now (nodes_of (option_copied part.entry))) path.now result) }
    ensures way { WhereTold (S.shelf shelf.old) (λ standing. path.now ≢ [] → PlacesOnWay standing base.now.hash path.now (nodes_of (option_copied part.entry)) result) }
    ensures whole { path.now ≡ [] → Places (nodes_of (option_copied part.entry)) [] result }
    ensures parentless { WhereTold (S.shelf shelf.old) (λ standing. (t : Nodes) → HasCuts standing base.now.hash t path.now → has_place t path.now ≡ false → PlacesNothing (nodes_of (option_copied part.entry)) path.now result) }
    ensures own { IfOk result (λ g. AreNamed g.added) }
    ensures damaged { WhereTold (S.shelf shelf.old) (λ standing. TellsDamage standing (IsOfWay standing base.now.hash path.now) result) }
    ensures reads { S.reads shelf.old shelf.new }
    ensures unchanged { S.shelf shelf.new ≡ S.shelf shelf.old }
    ensures cause { HasCause (S.faults shelf.old) (S.faults shelf.new) (IsErrOf result faults.Failed) }
    ensures taken { WhereTold (S.shelf shelf.old) (λ standing. (t : Nodes) → HasCuts standing base.now.hash t path.now → RaisedAtMost (length (cuts_above t path.now)) (S.taken shelf.old) (S.taken shelf.new)) }
    ensures most { RaisedAtMost (length path.now) (S.taken shelf.old) (S.taken shelf.new) }
{
    if path.names().is_empty() {
        return at_root(alloc, path, part);
    }
    below_root_with(alloc, shelf, base, path, part)
}
