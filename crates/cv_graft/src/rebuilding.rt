//! The catalogues above a path, made anew from the one that directly holds it upwards.
ghost use Rattle.std.specs.Prelude.{◌≡◌, ◌≢◌, ◌≤◌, ◌+◌, ◌<◌, ◌++◌, ◌∷◌, [], true, false, ℕ, List, length, map, IfOk, OnOk, IsErrOf};
ghost use Rattle.sha1.specs.Sha1.{sha1};
ghost use Rattle.cv_base.specs.Counts.{HasCause};
ghost use Rattle.cv_base.specs.Digest.{IsDigest};
ghost use Rattle.cv_base.specs.Marker.{marker, ends_in};
ghost use Rattle.cv_base.specs.ObjectId.{object_id};
ghost use Rattle.cv_base.specs.Path.{covers};
ghost use Rattle.cv_base.specs.Told.{WhereTold};
ghost use Rattle.cv_base.specs.declared.id.Kind.TheVariants as id_kind;
ghost use Rattle.cv_rows.specs.Catalogue.{catalogue_bytes};
ghost use Rattle.cv_rows.specs.Renewed.{renewed};
ghost use Rattle.cv_tree.specs.Tree.{Nodes, at};
ghost use Rattle.cv_ports.specs.Calls.{RaisedAtMost, raised_by};
ghost use Rattle.cv_cut.specs.Above.{cuts_above, OnWay};
ghost use Rattle.cv_base.specs.Objects.{AreNamed};
ghost use Rattle.cv_graft.specs.MakesInner.{Regrafts, Rejoins, Remakes};
ghost use Rattle.cv_graft.specs.Placed.{HasCuts};
ghost use Rattle.cv_graft.specs.Way.{IsOfWay, TellsDamage};
ghost use Rattle.cv_graft.specs.WayInner.{IsOfWayOf};
ghost use Rattle.cv_cut.specs.Catalogues.{contents_of};
ghost use Rattle.cv_graft.specs.declared.graft_fault.GraftFault.TheVariants as faults;

use crate::coming::Coming;
use crate::graft_fault::GraftFault;
use crate::grafted::Grafted;
use crate::made::Made;
use crate::way::entry_above;
use cv_base::{Bytes, Items, Kind, NoMemory, Object, ObjectId, RepoPath};
use cv_cut::{catalogue_at, nested_catalogue};
use cv_ports::Shelf;
use cv_rows::Catalogue;
use std::alloc::Global;

/// The catalogue with another hash and size in the nested entry of a path.
fn with_entry(mut catalogue: Catalogue, path: &RepoPath, made: &Made) -> Catalogue
    requires { IsDigest made.now.hash }
    ensures { result ≡ record catalogue { nested = map (renewed path.now made.now.hash made.now.size) catalogue.nested } }
{
    let hash = made.hash;
    catalogue.renew(path, hash, made.size);
    catalogue
}

/// Keeps a catalogue as an object.
fn keep(alloc: Global, catalogue: &Catalogue, added: &mut Vec<Object>) -> Result<Made, NoMemory>
    ensures hash { IfOk result (λ made. made.hash ≡ sha1 (catalogue_bytes catalogue.now)) }
    ensures size { IfOk result (λ made. made.size ≡ length (catalogue_bytes catalogue.now)) }
    ensures added { OnOk result (added.new.items ≡ added.old.items ++ record { id = object_id (sha1 (catalogue_bytes catalogue.now)) id_kind.Catalogue; bytes = catalogue_bytes catalogue.now } ∷ []) }
    ensures digest { IfOk result (λ made. IsDigest made.hash) }
    ensures own { OnOk result (AreNamed added.old.items → AreNamed added.new.items) }
{
    let bytes = catalogue.encode(alloc)?;
    let id = ObjectId::of(Kind::Catalogue, &bytes);
    let hash = id.hash;
    let made = Made {
        hash,
        size: bytes.len() as u64,
    };
    let bytes = Bytes::new(bytes);
    added.push(Object { id, bytes })?;
    Ok(made)
}

/// The catalogue that directly holds the path, with what comes there, kept behind what is made of that.
fn rejoined<C: Coming>(
    alloc: Global,
    cut: &RepoPath,
    catalogue: Catalogue,
    coming: &C,
    path: &RepoPath,
    added: &mut Vec<Object>,
) -> Result<Made, GraftFault>
    requires place { catalogue.at ≡ cut.now }
    requires below { covers catalogue.at path.now ≡ true }
    requires apart { path.now ≢ catalogue.at }
    requires unmarked { ends_in marker path.now ≡ false }
    requires ready { C.ready coming.now path.now }
    ensures rejoins { Rejoins (C.outcomes coming.now path.now) catalogue (C.own coming.now) added.old.items added.new.items result }
    ensures digest { IfOk result (λ made. IsDigest made.hash) }
    ensures own { OnOk result (AreNamed added.old.items → AreNamed added.new.items) }
{
    let joined = coming.join(alloc, cut, catalogue, path, added)?;
    Ok(keep(alloc, &joined, added)?)
}

/// Makes the catalogues from one on downwards to the path, those below before it, and tells of this one.
fn rebuilt<S: Shelf, C: Coming>(
    alloc: Global,
    shelf: &mut S,
    id: &ObjectId,
    cut: &RepoPath,
    catalogue: Catalogue,
    coming: &C,
    path: &RepoPath,
    added: &mut Vec<Object>,
) -> Result<Made, GraftFault>
    requires kind { id.now.kind ≡ id_kind.Catalogue }
    requires place { catalogue.at ≡ cut.now }
    requires below { covers catalogue.at path.now ≡ true }
    requires apart { path.now ≢ catalogue.at }
    requires unmarked { ends_in marker path.now ≡ false }
    requires ready { C.ready coming.now path.now }
    ensures way { WhereTold (S.shelf shelf.old) (λ standing. Remakes standing (C.outcomes coming.now path.now) path.now id.now catalogue (C.own coming.now) added.old.items added.new.items result) }
    ensures digest { IfOk result (λ made. IsDigest made.hash) }
    ensures own { OnOk result (AreNamed added.old.items → AreNamed added.new.items) }
    ensures damaged { WhereTold (S.shelf shelf.old) (λ standing. TellsDamage standing (IsOfWayOf standing id.now catalogue path.now) result) }
    ensures reads { S.reads shelf.old shelf.new }
    ensures unchanged { S.shelf shelf.new ≡ S.shelf shelf.old }
    ensures cause { HasCause (S.faults shelf.old) (S.faults shelf.new) (IsErrOf result faults.Failed) }
    ensures taken { WhereTold (S.shelf shelf.old) (λ standing. (hash : List ℕ) (t : Nodes) (r : List (List ℕ)) → HasCuts standing hash t path.now → OnWay t path.now catalogue.at r → catalogue ≡ contents_of t catalogue.at
        → (k : ℕ) × (k + 1 ≤ length (cuts_above (at t catalogue.at) r)) × (S.taken shelf.new ≡ raised_by k (S.taken shelf.old))) }
    ensures most { (k : ℕ) × (k + length catalogue.at < length path.now) × (S.taken shelf.new ≡ raised_by k (S.taken shelf.old)) }
{
    let Some(entry) = entry_above(alloc, &catalogue, path)? else {
        return rejoined(alloc, cut, catalogue, coming, path, added);
    };
    let below = nested_catalogue(alloc, shelf, id, &catalogue, &entry)?;
    let below_id = ObjectId {
        hash: entry.hash,
        kind: Kind::Catalogue,
    };
    let made = rebuilt(
        alloc,
        shelf,
        &below_id,
        &entry.path,
        below,
        coming,
        path,
        added,
    )?;
    let catalogue = with_entry(catalogue, &entry.path, &made);
    Ok(keep(alloc, &catalogue, added)?)
}

/// What comes of the tree of a root, where something comes to a path below it.
pub(crate) fn from_root<S: Shelf, C: Coming>(
    alloc: Global,
    shelf: &mut S,
    root: &ObjectId,
    coming: &C,
    path: &RepoPath,
) -> Result<Grafted, GraftFault>
    requires kind { root.now.kind ≡ id_kind.Catalogue }
    requires path { path.now ≢ [] }
    requires unmarked { ends_in marker path.now ≡ false }
    requires ready { C.ready coming.now path.now }
    ensures way { WhereTold (S.shelf shelf.old) (λ standing. Regrafts standing root.now.hash (C.outcomes coming.now path.now) path.now (C.own coming.now) result) }
    ensures own { IfOk result (λ g. AreNamed g.added) }
    ensures damaged { WhereTold (S.shelf shelf.old) (λ standing. TellsDamage standing (IsOfWay standing root.now.hash path.now) result) }
    ensures reads { S.reads shelf.old shelf.new }
    ensures unchanged { S.shelf shelf.new ≡ S.shelf shelf.old }
    ensures cause { HasCause (S.faults shelf.old) (S.faults shelf.new) (IsErrOf result faults.Failed) }
    ensures taken { WhereTold (S.shelf shelf.old) (λ standing. (t : Nodes) → HasCuts standing root.now.hash t path.now → RaisedAtMost (length (cuts_above t path.now)) (S.taken shelf.old) (S.taken shelf.new)) }
    ensures most { RaisedAtMost (length path.now) (S.taken shelf.old) (S.taken shelf.new) }
{
    let top = RepoPath::root(alloc);
    let catalogue = catalogue_at(alloc, shelf, root, &top, None)?;
    let mut added = Vec::new(alloc);
    let made = rebuilt(
        alloc, shelf, root, &top, catalogue, coming, path, &mut added,
    )?;
    let hash = made.hash;
    let kind = Kind::Catalogue;
    Ok(Grafted {
        root: ObjectId { hash, kind },
        size: made.size,
        added: Items::new(added),
    })
}
