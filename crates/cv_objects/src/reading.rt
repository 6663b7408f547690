//! Objects that are read.
ghost use Rattle.std.specs.Prelude.{◌≡◌, ◌≢◌, IfErr, IsErrOf};
ghost use Rattle.cv_base.specs.Counts.{HasCause};
ghost use Rattle.cv_base.specs.Told.{WhereTold};
ghost use Rattle.cv_ports.specs.Shelf.{fetched, Fetches, Suits, Measures, IsUnread};
ghost use Rattle.cv_ports.specs.declared.shelf.ShelfFault.TheVariants as fault;
ghost use Rattle.cv_vault.specs.Moments.{OnlyReads};
ghost use Rattle.cv_objects.specs.Names.{standing_on};

use crate::names::name_of;
use cv_base::{Bytes, ObjectId};
use cv_ports::ShelfFault;
use cv_vault::{Vault, VaultFault};
use std::alloc::Global;

/// The bytes that stand under an id.
pub fn read_object<V: Vault>(
    vault: &mut V,
    alloc: Global,
    id: &ObjectId,
) -> Result<Option<Bytes>, ShelfFault>
    ensures told { WhereTold (V.disk vault.old) (λ d. Fetches id.now result (standing_on d)) }
    ensures suits { Suits id.now result }
    ensures reads { OnlyReads V.disk V.count V.left vault.old vault.new }
    ensures cause { HasCause (V.faults vault.old) (V.faults vault.new) (IsErrOf result fault.Failed) }
{
    let name = name_of(alloc, *id)?;
    match vault.read(name.as_str()) {
        Ok(found) => check(id, found),
        Err(VaultFault::Failed) => Err(ShelfFault::Failed),
        Err(VaultFault::NoMemory) => Err(ShelfFault::NoMemory),
    }
}

/// What stands under an id, unless it is damaged.
fn check(id: &ObjectId, stands: Option<Bytes>) -> Result<Option<Bytes>, ShelfFault>
    ensures gives { result ≡ fetched id.now stands }
    ensures suits { Suits id.now result }
    ensures whole { result ≢ Err fault.Failed }
{
    let Some(bytes) = stands else {
        return Ok(None);
    };
    let found = ObjectId::of(id.kind, bytes.as_slice());
    if found.hash != id.hash {
        return Err(ShelfFault::Damaged {
            id: *id,
            found: found.hash,
        });
    }
    Ok(Some(bytes))
}

/// How many bytes stand under an id.
pub fn measure_object<V: Vault>(
    vault: &mut V,
    alloc: Global,
    id: &ObjectId,
) -> Result<Option<u64>, ShelfFault>
    ensures told { WhereTold (V.disk vault.old) (λ d. Measures id.now result (standing_on d)) }
    ensures unread { IfErr result IsUnread }
    ensures reads { OnlyReads V.disk V.count V.left vault.old vault.new }
    ensures cause { HasCause (V.faults vault.old) (V.faults vault.new) (IsErrOf result fault.Failed) }
{
    let name = name_of(alloc, *id)?;
    match vault.length(name.as_str()) {
        Ok(len) => Ok(len),
        Err(VaultFault::Failed) => Err(ShelfFault::Failed),
        Err(VaultFault::NoMemory) => Err(ShelfFault::NoMemory),
    }
}
