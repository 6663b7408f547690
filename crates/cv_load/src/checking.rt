//! Checking that a root is whole.
ghost use Rattle.std.specs.Prelude.{◌≡◌, IfOk, ◌++◌, ◌∷◌, [], OnOk, IsErrOf, MatchResult};
ghost use Rattle.cv_base.specs.Counts.{HasCause};
ghost use Rattle.cv_base.specs.Told.{WhereTold};
ghost use Rattle.cv_base.specs.declared.id.Kind.TheVariants as id_kind;
ghost use Rattle.cv_rows.specs.Catalogue.{IsCatalogue};
ghost use Rattle.cv_load.specs.NewFetches.{FetchesNew, HasNew, IsNewList};
ghost use Rattle.cv_load.specs.NewFetchesInner.{AddsBelow, ChecksBelow, HasAll, ListsFrom};
ghost use Rattle.cv_load.specs.Known.{AreKnown, AreWhole};
ghost use Rattle.cv_load.specs.KnownInner.{ChecksFrom};
ghost use Rattle.cv_cut.specs.Reached.{root_place};
ghost use Rattle.cv_cut.specs.declared.load_fault.LoadFault.TheVariants as faults;
ghost use Rattle.cv_cut.specs.Good.{IsGood};
ghost use Rattle.cv_cut.specs.Opening.{MayFail};

use crate::files::check_files;
use crate::known_set::KnownSet;
use cv_base::{Kind, NoMemory, ObjectId, RepoPath};
use cv_cut::{LoadFault, catalogue_at, nested_catalogue};
use cv_ports::Shelf;
use cv_rows::Catalogue;
use std::alloc::Global;

/// Checks what is reached from the catalogue under an id, but for what stands below known pairs, and adds what was checked.
fn check<S: Shelf>(
    alloc: Global,
    shelf: &mut S,
    known: &KnownSet,
    id: &ObjectId,
    catalogue: &Catalogue,
    pairs: &mut Vec<(ObjectId, RepoPath)>,
) -> Result<(), LoadFault>
    requires kind { id.now.kind ≡ id_kind.Catalogue }
    requires rules { IsCatalogue catalogue.now }
    ensures told { WhereTold (S.shelf shelf.old) (λ standing. AreKnown standing known.now → ChecksFrom standing id.now catalogue.now pairs.old.items pairs.new.items result) }
    ensures reads { S.reads shelf.old shelf.new }
    ensures unchanged { S.shelf shelf.new ≡ S.shelf shelf.old }
    ensures cause { HasCause (S.faults shelf.old) (S.faults shelf.new) (IsErrOf result faults.Failed) }
    ensures fetches { WhereTold (S.shelf shelf.old) (λ standing. ChecksBelow standing known.now id.now catalogue.now (S.taken shelf.old) (S.taken shelf.new)) }
    ensures keeps { OnOk result (HasAll pairs.old.items pairs.new.items) }
    ensures given { WhereTold (S.shelf shelf.old) (λ standing. OnOk result (ListsFrom standing known.now id.now catalogue.now pairs.new.items)) }
    ensures only { WhereTold (S.shelf shelf.old) (λ standing. OnOk result (AddsBelow standing known.now id.now catalogue.now pairs.old.items pairs.new.items)) }
{
    check_files(alloc, shelf, id, catalogue)?;
    for nested in catalogue.nested() {
        let below = nested_catalogue(alloc, shelf, id, catalogue, nested)?;
        if known.is_known(&nested.hash, &nested.path) {
            continue;
        }
        let below_id = ObjectId {
            hash: nested.hash,
            kind: Kind::Catalogue,
        };
        check(alloc, shelf, known, &below_id, &below, pairs)?;
    }
    let path = catalogue.at().copy(alloc)?;
    add_pair(pairs, id, path)?;
    Ok(())
}

/// Adds a pair.
fn add_pair(
    pairs: &mut Vec<(ObjectId, RepoPath)>,
    id: &ObjectId,
    path: RepoPath,
) -> Result<(), NoMemory>
    ensures { OnOk result (pairs.new.items ≡ pairs.old.items ++ (id.now, path) ∷ []) }
{
    pairs.push((*id, path))?;
    Ok(())
}

/// The catalogues that are reached from a root, where each is as it should be. There are at most as many fetches as catalogues
/// that are reached without passing a known pair.
pub fn whole<S: Shelf>(
    alloc: Global,
    shelf: &mut S,
    root: &ObjectId,
    known: &KnownSet,
) -> Result<Vec<(ObjectId, RepoPath)>, LoadFault>
    requires { root.now.kind ≡ id_kind.Catalogue }
    ensures told { WhereTold (S.shelf shelf.old) (λ standing. AreKnown standing known.now → MatchResult result (λ pairs. IsGood standing root.now.hash root_place × AreWhole standing pairs.items) (MayFail standing root.now.hash)) }
    ensures reads { S.reads shelf.old shelf.new }
    ensures unchanged { S.shelf shelf.new ≡ S.shelf shelf.old }
    ensures cause { HasCause (S.faults shelf.old) (S.faults shelf.new) (IsErrOf result faults.Failed) }
    ensures fetches { WhereTold (S.shelf shelf.old) (λ standing. FetchesNew standing known.now root.now.hash (S.taken shelf.old) (S.taken shelf.new)) }
    ensures given { WhereTold (S.shelf shelf.old) (λ standing. IfOk result (λ pairs. HasNew standing known.now root.now.hash pairs.items)) }
    ensures only { WhereTold (S.shelf shelf.old) (λ standing. IfOk result (λ pairs. IsNewList standing known.now root.now.hash pairs.items)) }
{
    let mut pairs = Vec::new(alloc);
    let at = RepoPath::root(alloc);
    if known.is_known(&root.hash, &at) {
        return Ok(pairs);
    }
    let catalogue = catalogue_at(alloc, shelf, root, &at, None)?;
    check(alloc, shelf, known, root, &catalogue, &mut pairs)?;
    Ok(pairs)
}
