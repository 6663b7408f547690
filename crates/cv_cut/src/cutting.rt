//! Cutting a tree into catalogues.
ghost use Rattle.std.specs.Prelude.{◌≡◌, true, Some, Err, IsSome, IfOk, IfErr, OnOk, map, reverse, ◌++◌, ◌∷◌, []};
ghost use Rattle.std.specs.List.{All};
ghost use Rattle.std.specs.BTreeMap.{Updates, get};
ghost use Rattle.std.specs.FinMap as finmap;
ghost use Rattle.cv_base.specs.Path.{Path, path_cmp};
ghost use Rattle.cv_tree.specs.Tree.{IsTree};
ghost use Rattle.cv_cut.specs.Cuts.{is_cut, cuts_of};
ghost use Rattle.cv_cut.specs.Catalogues.{Fits, SharesKey, IsFull, cat, entry_of};
ghost use Rattle.cv_cut.specs.Cut.{catalogue_object, cut_of, region_at};
ghost use Rattle.cv_cut.specs.CutInner.{HasMade, IsCutFault, IsFirstFault, cuts_below};
ghost use Rattle.cv_cut.specs.PieceInner.{AreCutsWithin, IsFaultAmong};
ghost use Rattle.cv_cut.specs.Region.{KeysApart};
ghost use Rattle.cv_tree.specs.Tree.{at};
ghost use Rattle.sha1.specs.Sha1.{sha1};
ghost use Rattle.cv_base.specs.ObjectId.{object_id};
ghost use Rattle.cv_base.specs.declared.id.Kind.TheVariants as kinds;
ghost use Rattle.cv_cut.specs.declared.cut_fault.CutFault.TheVariants as fault;

use crate::collision::{check_keys, check_region};
use crate::cut_fault::CutFault;
use crate::nested::nested;
use crate::region::{cuts, region};
use crate::rows::rows;
use crate::tree_cut::Cut;
use cv_base::{Bytes, Items, Kind, NoMemory, Object, ObjectId, RepoPath};
use cv_rows::{Catalogue, Nested, WithFault};
use cv_tree::{Node, Tree};
use std::alloc::Global;
use std::collections::BTreeMap;

/// The bytes of the catalogue of a cut, where those nested in it are made. Two paths of its region may share a key: then the
/// fault names them.
fn catalogue(
    alloc: Global,
    tree: &Tree,
    cut: &RepoPath,
    region: &[(RepoPath, Node)],
    made: &BTreeMap<RepoPath, Nested>,
) -> Result<Vec<u8>, CutFault>
    requires tree { IsTree tree.now }
    requires cut { is_cut tree.now cut.now ≡ true }
    requires region { region.now ≡ region_at tree.now cut.now }
    requires made { HasMade tree.now (cuts_below tree.now cut.now) made.now }
    ensures bytes { IfOk result (λ bytes. bytes.items ≡ cat tree.now cut.now) }
    ensures apart { OnOk result (KeysApart cut.now (at tree.now cut.now)) }
    ensures fits { OnOk result (IsFull tree.now cut.now → ⊥) }
    ensures fault { IfErr result (IsFaultAmong tree.now (cut.now ∷ [])) }
{
    let rows = rows(alloc, tree, cut, region)?;
    let nested = nested(alloc, tree, cut, region, made)?;
    match Catalogue::of(alloc, cut, rows, nested) {
        Ok(catalogue) => Ok(catalogue.encode(alloc)?),
        Err(WithFault::Full) => Err(CutFault::CatalogueFull(cut.copy(alloc)?)),
        Err(WithFault::Collision { first: _ }) => {
            check_region(alloc, region)?;
            unreachable!("two paths have the key that two rows have")
        }
        Err(WithFault::NoMemory) => Err(CutFault::NoMemory),
    }
}

/// Keeps the catalogue of a cut: its nested entry, and the object.
fn keep(
    alloc: Global,
    made: &mut BTreeMap<RepoPath, Nested>,
    objects: &mut Vec<Object>,
    cut: &RepoPath,
    bytes: Vec<u8>,
) -> Result<(), NoMemory>
    ensures made { OnOk result (Updates path_cmp made.old made.new cut.now (Some (entry_of cut.now bytes.items))) }
    ensures objects { OnOk result (objects.new.items ≡ objects.old.items ++ record { id = object_id (sha1 bytes.items) kinds.Catalogue; bytes = bytes.items } ∷ []) }
{
    let id = ObjectId::of(Kind::Catalogue, &bytes);
    let entry = Nested {
        path: cut.copy(alloc)?,
        hash: id.hash,
        size: bytes.len() as u64,
    };
    let bytes = Bytes::new(bytes);
    objects.push(Object { id, bytes })?;
    made.insert(cut.copy(alloc)?, entry)?;
    Ok(())
}

/// Makes the catalogue of each of these cuts, which are those of a tree at a path and below.
pub(crate) fn catalogues(
    alloc: Global,
    tree: &Tree,
    entries: &[(RepoPath, Node)],
    cuts: &[RepoPath],
    made: &mut BTreeMap<RepoPath, Nested>,
) -> Result<Vec<Object>, CutFault>
    requires tree { IsTree tree.now }
    requires entries { entries.now ≡ finmap.entries tree.now }
    requires cuts { AreCutsWithin tree.now cuts.now }
    requires made { HasMade tree.now [] made.old }
    ensures objects { IfOk result (λ objects. objects.items ≡ map (catalogue_object tree.now) cuts.now) }
    ensures apart { OnOk result (All (λ c. KeysApart c (at tree.now c)) cuts.now) }
    ensures fits { OnOk result (All (λ c. IsFull tree.now c → ⊥) cuts.now) }
    ensures made { OnOk result (HasMade tree.now cuts.now made.new) }
    ensures fault { IfErr result (IsFaultAmong tree.now cuts.now) }
{
    let mut objects = Vec::new(alloc);
    for cut in cuts {
        let region = region(alloc, tree, entries, cut)?;
        let bytes = catalogue(alloc, tree, cut, &region, made)?;
        keep(alloc, made, &mut objects, cut, bytes)?;
    }
    Ok(objects)
}

/// The entry of the root's catalogue, which was made.
fn root_entry(alloc: Global, made: &BTreeMap<RepoPath, Nested>) -> Result<Nested, NoMemory>
    requires { IsSome (get path_cmp made.now []) }
    ensures { IfOk result (λ entry. get path_cmp made.now [] ≡ Some entry) }
{
    match made.get(&RepoPath::root(alloc)) {
        Some(entry) => entry.copy(alloc),
        None => unreachable!(),
    }
}

/// The fault of a cut where this one came. A full catalogue is named only where no two paths share a key, also in regions
/// whose turn hadn't come.
fn first_fault(
    alloc: Global,
    tree: &Tree,
    entries: &[(RepoPath, Node)],
    cuts: &[RepoPath],
    fault: CutFault,
) -> CutFault
    requires tree { IsTree tree.now }
    requires entries { entries.now ≡ finmap.entries tree.now }
    requires cuts { cuts.now ≡ reverse (cuts_of tree.now) }
    requires fault { IsCutFault tree.now fault }
    ensures { IsFirstFault tree.now result }
{
    let CutFault::CatalogueFull(cut) = fault else {
        return fault;
    };
    match check_keys(alloc, tree, entries, cuts) {
        Ok(()) => CutFault::CatalogueFull(cut),
        Err(shared) => shared,
    }
}

/// Cuts a tree into its catalogues, one for the root and one for each directory that holds a regular file
/// `.cvmfscatalog`. The bytes of each are those of its row file.
pub fn cut(alloc: Global, tree: &Tree) -> Result<Cut, CutFault>
    ensures fits { OnOk result (Fits tree.now) }
    ensures made { IfOk result (λ made. made ≡ cut_of tree.now) }
    ensures collision { (p q : Path) → result ≡ Err (fault.PathCollision p q) → SharesKey tree.now p q }

    // No catalogue is full where two paths share a key.
    ensures full { (c : Path) → result ≡ Err (fault.CatalogueFull c) → IsFull tree.now c × ((p q : Path) → SharesKey tree.now p q → ⊥) }
{
    let entries = tree.entries(alloc)?;
    let cuts = cuts(alloc, tree, &entries)?;
    let mut made = BTreeMap::new(alloc);
    let objects = match catalogues(alloc, tree, &entries, &cuts, &mut made) {
        Ok(objects) => objects,
        Err(fault) => return Err(first_fault(alloc, tree, &entries, &cuts, fault)),
    };
    let root = root_entry(alloc, &made)?;
    let hash = root.hash;
    let kind = Kind::Catalogue;
    Ok(Cut {
        root: ObjectId { hash, kind },
        size: root.size,
        catalogues: Items::new(objects),
    })
}
