//! The ids that a batch brings.
ghost use Rattle.std.specs.Prelude.{◌≡◌, OnOk, IfErr, IsErrOf};
ghost use Rattle.cv_base.specs.Counts.{HasCause};
ghost use Rattle.cv_base.specs.Told.{WhereTold};
ghost use Rattle.cv_vault.specs.Names.{on_way};
ghost use Rattle.cv_vault.specs.Moments.{OnlyReads};
ghost use Rattle.cv_vault.specs.Walks.{Walks, Nothing};
ghost use Rattle.cv_objects.specs.Batches.{GivesFresh, IsOne};
ghost use Rattle.cv_objects.specs.BatchesInner.{Notes, NotesOne};
ghost use Rattle.cv_objects.specs.declared.store_fault.StoreFault.TheVariants as fault;

use crate::places::{Places, no_places, note_place, place_of};
use crate::store_fault::StoreFault;
use crate::storing::stands;
use cv_base::{Object, ObjectId};
use cv_vault::Vault;
use std::alloc::Global;

/// Notes an id, once.
fn note_once(ids: &mut Vec<ObjectId>, noted: &mut Places, id: ObjectId) -> Result<(), StoreFault>
    ensures notes { OnOk result (Notes ids.old.items noted.old id ids.new.items noted.new) }
    ensures memory { IfErr result (λ e. e ≡ fault.NoMemory) }
{
    if place_of(noted, id).is_some() {
        return Ok(());
    }
    note_place(noted, id, ids.len())?;
    ids.push(id)?;
    Ok(())
}

/// Notes the id of an object, if it has no file.
fn note_fresh<V: Vault>(
    vault: &mut V,
    alloc: Global,
    ids: &mut Vec<ObjectId>,
    noted: &mut Places,
    object: &Object,
) -> Result<(), StoreFault>
    ensures walks { WhereTold (V.disk vault.old) (λ d.
        Walks V.disk V.count V.left on_way Nothing (NotesOne d object.now ids.old.items noted.old ids.new.items noted.new result) d vault.old vault.new) }
    ensures reads { OnlyReads V.disk V.count V.left vault.old vault.new }
    ensures cause { HasCause (V.faults vault.old) (V.faults vault.new) (IsErrOf result fault.Failed) }
{
    if stands(vault, alloc, object)? {
        return Ok(());
    }
    note_once(ids, noted, object.id)
}

/// The ids of the batch that have no file, each once.
pub fn fresh_ids<V: Vault>(
    vault: &mut V,
    alloc: Global,
    batch: &[Object],
) -> Result<Vec<ObjectId>, StoreFault>
    requires one { IsOne batch.now }
    ensures walks { WhereTold (V.disk vault.old) (λ d. Walks V.disk V.count V.left on_way Nothing (GivesFresh d batch.now result) d vault.old vault.new) }
    ensures reads { OnlyReads V.disk V.count V.left vault.old vault.new }
    ensures cause { HasCause (V.faults vault.old) (V.faults vault.new) (IsErrOf result fault.Failed) }
{
    let mut ids = Vec::new(alloc);
    let mut noted = no_places(alloc);
    for object in batch {
        note_fresh(vault, alloc, &mut ids, &mut noted, object)?;
    }
    Ok(ids)
}
