//! Objects are stored whole or not at all.
ghost use Rattle.std.specs.Prelude.{◌≡◌, true, IsErrOf, OnOk};
ghost use Rattle.sha1.specs.Sha1.{sha1};
ghost use Rattle.cv_base.specs.Counts.{HasCause};
ghost use Rattle.cv_base.specs.Digest.{IsDigest};
ghost use Rattle.cv_base.specs.Told.{WhereTold};
ghost use Rattle.cv_vault.specs.Names.{on_way};
ghost use Rattle.cv_vault.specs.Disk.{IsCalm, Syncs};
ghost use Rattle.cv_vault.specs.Moments.{Calls, OnlyReads};
ghost use Rattle.cv_vault.specs.declared.vault.VaultFault.TheVariants as vault_fault;
ghost use Rattle.cv_vault.specs.Walks.{Walks, Nothing, SparesIn, BringsNothing};
ghost use Rattle.cv_base.specs.Objects.{AreNamed};
ghost use Rattle.cv_objects.specs.Batches.{IsApart, WroteAll, Brought, Stored, Brings, BringsOne, IsRefusal, RefusesSettled, AreReady, IsOne};
ghost use Rattle.cv_objects.specs.BatchesInner.{Compares, IsApartFrom, Looked, Wrote, WroteAbsent, Placed, PlacedAll, Waits, AllWait};
ghost use Rattle.cv_objects.specs.declared.store_fault.StoreFault.TheVariants as fault;

use crate::names::{name_of, way_of};
use crate::store_fault::StoreFault;
use cv_base::{Bytes, Object, ObjectId};
use cv_vault::{Vault, VaultFault};
use std::alloc::Global;

/// What bytes that stand under an object's name are against it.
fn compare(object: &Object, found: &Bytes) -> Result<bool, StoreFault>
    ensures { Compares object.now found.now result }
{
    if found.as_slice() == object.bytes.as_slice() {
        return Ok(true);
    }
    let other = ObjectId::of(object.id.kind, found.as_slice());
    if other.hash == object.id.hash {
        Err(StoreFault::Collision(object.id))
    } else {
        Err(StoreFault::Damaged {
            id: object.id,
            found: other.hash,
        })
    }
}

/// Whether an object stands under its name.
pub fn stands<V: Vault>(vault: &mut V, alloc: Global, object: &Object) -> Result<bool, StoreFault>
    ensures walks { WhereTold (V.disk vault.old) (λ d. Walks V.disk V.count V.left on_way Nothing (Looked d object.now result) d vault.old vault.new) }
    ensures reads { OnlyReads V.disk V.count V.left vault.old vault.new }
    ensures cause { HasCause (V.faults vault.old) (V.faults vault.new) (IsErrOf result fault.Failed) }
    ensures digest { IsDigest object.now.id.hash }
{
    let name = name_of(alloc, object.id)?;
    match vault.read(name.as_str())? {
        None => Ok(false),
        Some(found) => compare(object, &found),
    }
}

/// Puts an absent object on its way.
fn write_one<V: Vault>(vault: &mut V, alloc: Global, object: &Object) -> Result<(), StoreFault>
    ensures walks { WhereTold (V.disk vault.old) (λ d. Walks V.disk V.count V.left on_way Nothing (Wrote d object.now result) d vault.old vault.new) }
    ensures others { SparesIn V.disk (IsApartFrom object.now) vault.old vault.new }
    ensures cause { HasCause (V.faults vault.old) (V.faults vault.new) (IsErrOf result fault.Failed) }
{
    if stands(vault, alloc, object)? {
        return Ok(());
    }
    let way = way_of(alloc, object.id)?;
    vault.write(way.as_str(), object.bytes.as_slice())?;
    Ok(())
}

/// Brings an object that is on its way, unless it is there.
fn place_one<V: Vault>(vault: &mut V, alloc: Global, object: &Object) -> Result<(), StoreFault>
    requires named { object.now.id.hash ≡ sha1 object.now.bytes }
    ensures walks { WhereTold (V.disk vault.old) (λ d. Waits d object.now → Walks V.disk V.count V.left on_way (BringsOne d object.now) (Placed d object.now result) d vault.old vault.new) }
    ensures others { SparesIn V.disk (IsApartFrom object.now) vault.old vault.new }
    ensures cause { HasCause (V.faults vault.old) (V.faults vault.new) (IsErrOf result fault.Failed) }
{
    if stands(vault, alloc, object)? {
        return Ok(());
    }
    let way = way_of(alloc, object.id)?;
    let name = name_of(alloc, object.id)?;
    if vault.rename(way.as_str(), name.as_str())? {
        Ok(())
    } else {
        // It can't be, where the vault tells.
        Err(StoreFault::NoMemory)
    }
}

/// Puts the absent objects of a batch on their way.
fn write_absent<V: Vault>(vault: &mut V, alloc: Global, batch: &[Object]) -> Result<(), StoreFault>
    requires named { AreNamed batch.now }
    requires one { IsOne batch.now }
    ensures walks { WhereTold (V.disk vault.old) (λ d. Walks V.disk V.count V.left on_way Nothing (WroteAbsent d batch.now result) d vault.old vault.new) }
    ensures others { SparesIn V.disk (IsApart batch.now) vault.old vault.new }
    ensures cause { HasCause (V.faults vault.old) (V.faults vault.new) (IsErrOf result fault.Failed) }
{
    for object in batch {
        write_one(vault, alloc, object)?;
    }
    Ok(())
}

/// Brings those that are on their way.
fn place_absent<V: Vault>(vault: &mut V, alloc: Global, batch: &[Object]) -> Result<(), StoreFault>
    requires named { AreNamed batch.now }
    requires one { IsOne batch.now }
    ensures walks { WhereTold (V.disk vault.old) (λ d. AllWait d batch.now → Walks V.disk V.count V.left on_way (Brings d batch.now) (PlacedAll d batch.now result) d vault.old vault.new) }
    ensures others { SparesIn V.disk (IsApart batch.now) vault.old vault.new }
    ensures cause { HasCause (V.faults vault.old) (V.faults vault.new) (IsErrOf result fault.Failed) }
{
    for object in batch {
        place_one(vault, alloc, object)?;
    }
    Ok(())
}

/// Settles every name, where it isn't known that all is settled.
fn settle_unless<V: Vault>(vault: &mut V, settled: bool) -> Result<(), VaultFault>
    requires calm { settled ≡ true → WhereTold (V.disk vault.old) IsCalm }
    ensures call { Calls V.disk V.count V.left (Syncs result) vault.old vault.new }
    ensures cause { HasCause (V.faults vault.old) (V.faults vault.new) (IsErrOf result vault_fault.Failed) }
{
    if settled { Ok(()) } else { vault.sync() }
}

/// Puts the objects of a batch that the vault lacks on their way, where the next sync settles them. It settles first,
/// unless it is known that all is settled.
pub fn put_all<V: Vault>(
    vault: &mut V,
    alloc: Global,
    batch: &[Object],
    settled: bool,
) -> Result<(), StoreFault>
    requires named { AreNamed batch.now }
    requires one { IsOne batch.now }
    requires calm { settled ≡ true → WhereTold (V.disk vault.old) IsCalm }
    ensures walks { WhereTold (V.disk vault.old) (λ d. Walks V.disk V.count V.left on_way Nothing (WroteAll d batch.now result) d vault.old vault.new) }
    ensures others { SparesIn V.disk (IsApart batch.now) vault.old vault.new }
    ensures cause { HasCause (V.faults vault.old) (V.faults vault.new) (IsErrOf result fault.Failed) }
{
    settle_unless(vault, settled)?;
    write_absent(vault, alloc, batch)
}

/// Settles what is on its way, and brings the objects of a batch to their names, where the next sync settles them.
pub fn bring_all<V: Vault>(vault: &mut V, alloc: Global, batch: &[Object]) -> Result<(), StoreFault>
    requires named { AreNamed batch.now }
    requires one { IsOne batch.now }
    ensures walks { WhereTold (V.disk vault.old) (λ d. AreReady d batch.now → Walks V.disk V.count V.left on_way (Brings d batch.now) (Brought d batch.now result) d vault.old vault.new) }
    ensures others { SparesIn V.disk (IsApart batch.now) vault.old vault.new }
    ensures cause { HasCause (V.faults vault.old) (V.faults vault.new) (IsErrOf result fault.Failed) }
{
    vault.sync()?;
    place_absent(vault, alloc, batch)
}

/// Stores the objects of a batch that the vault lacks. It settles first, unless it is known that all is settled.
pub fn store_all<V: Vault>(
    vault: &mut V,
    alloc: Global,
    batch: &[Object],
    settled: bool,
) -> Result<(), StoreFault>
    requires named { AreNamed batch.now }
    requires one { IsOne batch.now }
    requires calm { settled ≡ true → WhereTold (V.disk vault.old) IsCalm }
    ensures walks { WhereTold (V.disk vault.old) (λ d. Walks V.disk V.count V.left on_way (Brings d batch.now) (Stored d batch.now result) d vault.old vault.new) }
    ensures refused { IsRefusal result → BringsNothing V.disk V.count V.left vault.old vault.new }
    ensures settled { WhereTold (V.disk vault.old) (λ d. WhereTold (V.disk vault.new) (RefusesSettled d batch.now result)) }
    ensures others { SparesIn V.disk (IsApart batch.now) vault.old vault.new }
    ensures calm { OnOk result (WhereTold (V.disk vault.new) IsCalm) }
    ensures cause { HasCause (V.faults vault.old) (V.faults vault.new) (IsErrOf result fault.Failed) }
{
    put_all(vault, alloc, batch, settled)?;
    bring_all(vault, alloc, batch)?;
    Ok(vault.sync()?)
}
