//! Catalogues at the places at which they are named.
ghost use Rattle.std.specs.Prelude.{◌≡◌, ◌<◌, length, IfOk, IsErrOf, Contains};
ghost use Rattle.std.specs.Option.{option_copied};
ghost use Rattle.cv_base.specs.Counts.{HasCause, raised};
ghost use Rattle.cv_base.specs.Told.{WhereTold};
ghost use Rattle.cv_base.specs.declared.id.Kind.TheVariants as id_kind;
ghost use Rattle.cv_rows.specs.Catalogue.{IsCatalogue};
ghost use Rattle.cv_cut.specs.Opening.{Opens, OpensNested, FetchesOne};
ghost use Rattle.cv_cut.specs.OpeningInner.{Decoded};
ghost use Rattle.cv_cut.specs.declared.load_fault.LoadFault.TheVariants as faults;

use crate::load_fault::LoadFault;
use crate::objects::{check_size, fetched};
use crate::open::opened;
use cv_base::{Kind, ObjectId, RepoPath};
use cv_ports::Shelf;
use cv_rows::{Catalogue, Nested, Row};
use std::alloc::Global;

/// The catalogue that the bytes under an id are, at its place.
fn decoded(
    alloc: Global,
    id: &ObjectId,
    bytes: &[u8],
    at: &RepoPath,
    row: Option<&Row>,
) -> Result<Catalogue, LoadFault>
    ensures { Decoded (record { path = at.now; row = option_copied row.entry }) bytes.now id.now result }
{
    match opened(alloc, bytes, at, row)? {
        Some(catalogue) => Ok(catalogue),
        None => Err(LoadFault::Bad(*id)),
    }
}

/// The catalogue under an id of a shelf, at a place: at a path, and with the fields of the Transition row that names it,
/// if one does.
pub fn catalogue_at<S: Shelf>(
    alloc: Global,
    shelf: &mut S,
    id: &ObjectId,
    at: &RepoPath,
    row: Option<&Row>,
) -> Result<Catalogue, LoadFault>
    requires { id.now.kind ≡ id_kind.Catalogue }
    ensures told { WhereTold (S.shelf shelf.old) (λ standing. Opens standing id.now (record { path = at.now; row = option_copied row.entry }) result) }
    ensures rules { IfOk result IsCatalogue }
    ensures place { IfOk result (λ catalogue. catalogue.at ≡ at.now) }
    ensures reads { S.reads shelf.old shelf.new }
    ensures unchanged { S.shelf shelf.new ≡ S.shelf shelf.old }
    ensures cause { HasCause (S.faults shelf.old) (S.faults shelf.new) (IsErrOf result faults.Failed) }
    ensures taken { S.taken shelf.new ≡ raised (S.taken shelf.old) }
{
    let bytes = fetched(alloc, shelf, id)?;
    decoded(alloc, id, bytes.as_slice(), at, row)
}

/// The catalogue that a nested entry of the catalogue under `id` names, in bytes of the length that the entry states.
///
/// Where they have another length, the catalogue under `id` is answered as bad, and nothing is fetched.
pub fn nested_catalogue<S: Shelf>(
    alloc: Global,
    shelf: &mut S,
    id: &ObjectId,
    catalogue: &Catalogue,
    nested: &Nested,
) -> Result<Catalogue, LoadFault>
    requires kind { id.now.kind ≡ id_kind.Catalogue }
    requires rules { IsCatalogue catalogue.now }
    requires entry { Contains catalogue.now.nested nested.now }
    ensures told { WhereTold (S.shelf shelf.old) (λ standing. OpensNested standing id.now catalogue.now nested.now result) }
    ensures rules { IfOk result IsCatalogue }
    ensures place { IfOk result (λ below. below.at ≡ nested.now.path) }
    ensures deeper { length catalogue.now.at < length nested.now.path }
    ensures reads { S.reads shelf.old shelf.new }
    ensures unchanged { S.shelf shelf.new ≡ S.shelf shelf.old }
    ensures cause { HasCause (S.faults shelf.old) (S.faults shelf.new) (IsErrOf result faults.Failed) }
    ensures taken { FetchesOne (S.taken shelf.old) (S.taken shelf.new) result }
{
    let below = ObjectId {
        hash: nested.hash,
        kind: Kind::Catalogue,
    };
    check_size(alloc, shelf, &below, nested.size, id)?;
    let row = catalogue.row_at(&nested.path);
    catalogue_at(alloc, shelf, &below, &nested.path, row)
}
