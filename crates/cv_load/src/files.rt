//! The contents of the files of a catalogue.
ghost use Rattle.std.specs.Prelude.{◌≡◌, IsErrOf};
ghost use Rattle.cv_base.specs.Counts.{HasCause};
ghost use Rattle.cv_base.specs.Told.{WhereTold};
ghost use Rattle.cv_base.specs.declared.id.Kind.TheVariants as id_kind;
ghost use Rattle.cv_load.specs.GrowthInner.{FileSizes, HasFiles};
ghost use Rattle.cv_cut.specs.declared.load_fault.LoadFault.TheVariants as faults;

use cv_base::{Kind, ObjectId};
use cv_cut::{LoadFault, check_size};
use cv_ports::Shelf;
use cv_rows::{Catalogue, Row, RowKind};
use std::alloc::Global;

/// Checks that the content of a row of the catalogue under `owner`, if the row is a file, has the row's size. It isn't read.
fn check_file<S: Shelf>(
    alloc: Global,
    shelf: &mut S,
    owner: &ObjectId,
    row: &Row,
) -> Result<(), LoadFault>
    ensures told { WhereTold (S.shelf shelf.old) (λ standing. FileSizes standing owner.now row.now result) }
    ensures reads { S.reads shelf.old shelf.new }
    ensures unchanged { S.shelf shelf.new ≡ S.shelf shelf.old }
    ensures cause { HasCause (S.faults shelf.old) (S.faults shelf.new) (IsErrOf result faults.Failed) }
    ensures taken { S.taken shelf.new ≡ S.taken shelf.old }
{
    match (row.kind, row.hash) {
        (RowKind::File, Some(hash)) => {
            let content = ObjectId {
                hash,
                kind: Kind::Plain,
            };
            check_size(alloc, shelf, &content, row.size, owner)
        }
        (_, _) => Ok(()),
    }
}

/// Checks that the contents of all files of the catalogue under an id have their sizes.
pub fn check_files<S: Shelf>(
    alloc: Global,
    shelf: &mut S,
    id: &ObjectId,
    catalogue: &Catalogue,
) -> Result<(), LoadFault>
    requires { id.now.kind ≡ id_kind.Catalogue }
    ensures told { WhereTold (S.shelf shelf.old) (λ standing. HasFiles standing id.now catalogue.now result) }
    ensures reads { S.reads shelf.old shelf.new }
    ensures unchanged { S.shelf shelf.new ≡ S.shelf shelf.old }
    ensures cause { HasCause (S.faults shelf.old) (S.faults shelf.new) (IsErrOf result faults.Failed) }
    ensures taken { S.taken shelf.new ≡ S.taken shelf.old }
{
    for row in catalogue.rows() {
        check_file(alloc, shelf, id, row)?;
    }
    Ok(())
}
