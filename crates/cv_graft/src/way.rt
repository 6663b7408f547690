//! The catalogues on the way to a path.
ghost use Rattle.std.specs.Prelude.{◌≡◌, ◌≢◌, ◌≤◌, ◌+◌, ◌<◌, true, ℕ, List, length, IfOk, IfSome, IsErrOf, MatchOption, MatchBool};
ghost use Rattle.cv_base.specs.Counts.{HasCause};
ghost use Rattle.cv_base.specs.Path.{covers};
ghost use Rattle.cv_base.specs.Told.{WhereTold};
ghost use Rattle.cv_base.specs.declared.id.Kind.TheVariants as id_kind;
ghost use Rattle.cv_ports.specs.Calls.{raised_by};
ghost use Rattle.cv_rows.specs.Catalogue.{IsCatalogue};
ghost use Rattle.cv_tree.specs.Tree.{Nodes, at};
ghost use Rattle.cv_cut.specs.Above.{cuts_above, OnWay};
ghost use Rattle.cv_cut.specs.Catalogues.{contents_of};
ghost use Rattle.cv_cut.specs.declared.load_fault.LoadFault.TheVariants as faults;
ghost use Rattle.cv_graft.specs.Placed.{HasCuts};
ghost use Rattle.cv_graft.specs.DirectoriesInner.{HoldsFrom};
ghost use Rattle.cv_graft.specs.Way.{IsNext, HasNone};
ghost use Rattle.cv_graft.specs.WayInner.{Finds, FailsFrom};

use cv_base::{Kind, NoMemory, ObjectId, RepoPath};
use cv_cut::{LoadFault, nested_catalogue};
use cv_ports::Shelf;
use cv_rows::{Catalogue, Nested};
use std::alloc::Global;

/// The nested entry of a catalogue whose path is properly above this one.
pub(crate) fn entry_above(
    alloc: Global,
    catalogue: &Catalogue,
    path: &RepoPath,
) -> Result<Option<Nested>, NoMemory>
    requires { IsCatalogue catalogue.now }
    ensures found { IfOk result (λ found. MatchOption found (HasNone catalogue.now path.now) (IsNext catalogue.now path.now)) }
    ensures deeper { IfOk result (λ found. IfSome found (λ n. length catalogue.now.at < length n.path)) }
    ensures shorter { IfOk result (λ found. IfSome found (λ n. length n.path < length path.now)) }
{
    for entry in catalogue.nested() {
        if is_above(&entry.path, path) {
            return Ok(Some(entry.copy(alloc)?));
        }
    }
    Ok(None)
}

/// Whether a path is properly above another.
fn is_above(above: &RepoPath, path: &RepoPath) -> bool
    ensures { MatchBool result ((covers above.now path.now ≡ true) × (path.now ≢ above.now)) (covers above.now path.now ≡ true → path.now ≡ above.now) }
{
    above.covers(path) && *path != *above
}

/// The catalogue that directly holds a path, from the one under an id, further above, on.
pub(crate) fn holder_from<S: Shelf>(
    alloc: Global,
    shelf: &mut S,
    id: &ObjectId,
    catalogue: Catalogue,
    path: &RepoPath,
) -> Result<Catalogue, LoadFault>
    requires kind { id.now.kind ≡ id_kind.Catalogue }
    requires rules { IsCatalogue catalogue }
    requires covered { covers catalogue.at path.now ≡ true }
    requires apart { path.now ≢ catalogue.at }
    ensures told { WhereTold (S.shelf shelf.old) (λ standing. (hash : List ℕ) (n : Nodes) (r : List (List ℕ)) → HasCuts standing hash n path.now → OnWay n path.now catalogue.at r → catalogue ≡ contents_of n catalogue.at → Finds n path.now result) }
    ensures rules { IfOk result IsCatalogue }
    ensures covered { IfOk result (λ c. (covers c.at path.now ≡ true) × (path.now ≢ c.at)) }
    ensures holder { WhereTold (S.shelf shelf.old) (λ standing. HoldsFrom standing id.now catalogue path.now result) }
    ensures fault { WhereTold (S.shelf shelf.old) (λ standing. FailsFrom standing id.now catalogue path.now result) }
    ensures reads { S.reads shelf.old shelf.new }
    ensures unchanged { S.shelf shelf.new ≡ S.shelf shelf.old }
    ensures cause { HasCause (S.faults shelf.old) (S.faults shelf.new) (IsErrOf result faults.Failed) }
    ensures taken { WhereTold (S.shelf shelf.old) (λ standing. (hash : List ℕ) (n : Nodes) (r : List (List ℕ)) → HasCuts standing hash n path.now → OnWay n path.now catalogue.at r → catalogue ≡ contents_of n catalogue.at
        → (k : ℕ) × (k + 1 ≤ length (cuts_above (at n catalogue.at) r)) × (S.taken shelf.new ≡ raised_by k (S.taken shelf.old))) }
    ensures most { (k : ℕ) × (k + length catalogue.at < length path.now) × (S.taken shelf.new ≡ raised_by k (S.taken shelf.old)) }
{
    let Some(entry) = entry_above(alloc, &catalogue, path)? else {
        return Ok(catalogue);
    };
    let below = nested_catalogue(alloc, shelf, id, &catalogue, &entry)?;
    let below_id = ObjectId {
        hash: entry.hash,
        kind: Kind::Catalogue,
    };
    holder_from(alloc, shelf, &below_id, below, path)
}
