//! Single objects of a shelf.
ghost use Rattle.std.specs.Prelude.{◌≡◌, IsErrOf};
ghost use Rattle.cv_base.specs.Counts.{HasCause, raised};
ghost use Rattle.cv_base.specs.Told.{WhereTold};
ghost use Rattle.cv_cut.specs.Opening.{Sizes};
ghost use Rattle.cv_cut.specs.OpeningInner.{Fetched};
ghost use Rattle.cv_cut.specs.declared.load_fault.LoadFault.TheVariants as faults;

use crate::load_fault::LoadFault;
use cv_base::{Bytes, ObjectId};
use cv_ports::{Shelf, ShelfFault};
use std::alloc::Global;

/// The bytes of an object.
pub(crate) fn fetched<S: Shelf>(
    alloc: Global,
    shelf: &mut S,
    id: &ObjectId,
) -> Result<Bytes, LoadFault>
    ensures told { WhereTold (S.shelf shelf.old) (λ standing. Fetched standing id.now result) }
    ensures reads { S.reads shelf.old shelf.new }
    ensures unchanged { S.shelf shelf.new ≡ S.shelf shelf.old }
    ensures cause { HasCause (S.faults shelf.old) (S.faults shelf.new) (IsErrOf result faults.Failed) }
    ensures taken { S.taken shelf.new ≡ raised (S.taken shelf.old) }
{
    match shelf.fetch(alloc, id) {
        Ok(Some(bytes)) => Ok(bytes),
        Ok(None) => Err(LoadFault::Missing(*id)),
        Err(ShelfFault::Failed) => Err(LoadFault::Failed),
        Err(ShelfFault::Damaged { id, found }) => Err(LoadFault::Damaged { id, found }),
        Err(ShelfFault::NoMemory) => Err(LoadFault::NoMemory),
    }
}

/// Checks that an object is there and has the size that the catalogue under `owner` states.
pub fn check_size<S: Shelf>(
    alloc: Global,
    shelf: &mut S,
    id: &ObjectId,
    size: u64,
    owner: &ObjectId,
) -> Result<(), LoadFault>
    ensures told { WhereTold (S.shelf shelf.old) (λ standing. Sizes standing id.now size owner.now result) }
    ensures reads { S.reads shelf.old shelf.new }
    ensures unchanged { S.shelf shelf.new ≡ S.shelf shelf.old }
    ensures cause { HasCause (S.faults shelf.old) (S.faults shelf.new) (IsErrOf result faults.Failed) }
    ensures taken { S.taken shelf.new ≡ S.taken shelf.old }
{
    match shelf.length(alloc, id) {
        Ok(Some(length)) if length == size => Ok(()),
        Ok(Some(_)) => Err(LoadFault::Bad(*owner)),
        Ok(None) => Err(LoadFault::Missing(*id)),
        Err(ShelfFault::Failed) => Err(LoadFault::Failed),
        Err(ShelfFault::Damaged { .. }) => unreachable!(),
        Err(ShelfFault::NoMemory) => Err(LoadFault::NoMemory),
    }
}
