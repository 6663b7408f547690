//! Single files that come whole to their names.
ghost use Rattle.std.specs.Prelude.{◌≡◌, ◌≢◌, ⊤, ℕ, List, None, Some, Err, true, false, IsErrOf, IsSome, OnOk};
ghost use Rattle.cv_base.specs.Counts.{HasCause};
ghost use Rattle.cv_base.specs.Told.{WhereTold};
ghost use Rattle.cv_vault.specs.Disk.{IsCalm};
ghost use Rattle.cv_vault.specs.Names.{on_way};
ghost use Rattle.cv_vault.specs.Moments.{OnlyReads};
ghost use Rattle.cv_vault.specs.Walks.{Walks, Nothing, ComesTo, BringsNothing, SparesIn, IsNeither};
ghost use Rattle.cv_vault.specs.Replace.{IsWaiting, PutOnWay, Came, MovedIn, Replaced, Found};
ghost use Rattle.cv_vault.specs.declared.vault.VaultFault.TheVariants as fault;

use crate::vault::{Vault, VaultFault};

/// Writes a file on its way, and settles it. Every other name, also one that is on the way, has the file that it had, and
/// is settled where it was.
pub fn put_on_way<V: Vault>(vault: &mut V, way: &str, bytes: &[u8]) -> Result<(), VaultFault>
    requires way { on_way way.now ≡ true }
    ensures walks { WhereTold (V.disk vault.old) (λ d. Walks V.disk V.count V.left on_way Nothing (PutOnWay d way.now bytes.now result) d vault.old vault.new) }
    ensures others { SparesIn V.disk (λ n. n ≢ way.now) vault.old vault.new }
    ensures cause { HasCause (V.faults vault.old) (V.faults vault.new) (IsErrOf result fault.Failed) }
{
    vault.write(way, bytes)?;
    vault.sync()?;
    Ok(())
}

/// Brings a file that waits on its way to its name, where the next sync settles it. Where none stands there it isn't `Ok`,
/// and it only reads.
pub fn bring_file<V: Vault>(vault: &mut V, way: &str, name: &str) -> Result<(), VaultFault>
    requires way { on_way way.now ≡ true }
    requires name { on_way name.now ≡ false }
    ensures walks { WhereTold (V.disk vault.old) (λ d. (bytes : List ℕ) → IsWaiting way.now name.now bytes d
        → Walks V.disk V.count V.left on_way (ComesTo name.now (Some bytes)) (Came d way.now name.now bytes result) d vault.old vault.new) }
    ensures there { WhereTold (V.disk vault.old) (λ d. OnOk result (IsSome (d way.now).now)) }
    ensures absent { WhereTold (V.disk vault.old) (λ d. (d way.now).now ≡ None → OnlyReads V.disk V.count V.left vault.old vault.new) }
    ensures memory { result ≡ Err fault.NoMemory → OnlyReads V.disk V.count V.left vault.old vault.new }
    ensures others { SparesIn V.disk (IsNeither way.now name.now) vault.old vault.new }
    ensures cause { HasCause (V.faults vault.old) (V.faults vault.new) (IsErrOf result fault.Failed) }
{
    if vault.rename(way, name)? {
        Ok(())
    } else {
        // It can't be, where the vault tells.
        Err(VaultFault::NoMemory)
    }
}

/// Brings a file that waits on its way to its name, for sure. After `Failed` it may be there or not. After `NoMemory` it
/// isn't, and no crash leaves it. Where none stands on the way it isn't `Ok`, and it only reads. After `Ok` all is settled.
pub fn move_in<V: Vault>(vault: &mut V, way: &str, name: &str) -> Result<(), VaultFault>
    requires way { on_way way.now ≡ true }
    requires name { on_way name.now ≡ false }
    ensures walks { WhereTold (V.disk vault.old) (λ d. (bytes : List ℕ) → IsWaiting way.now name.now bytes d
        → Walks V.disk V.count V.left on_way (ComesTo name.now (Some bytes)) (MovedIn d name.now bytes result) d vault.old vault.new) }
    ensures there { WhereTold (V.disk vault.old) (λ d. OnOk result (IsSome (d way.now).now)) }
    ensures absent { WhereTold (V.disk vault.old) (λ d. (d way.now).now ≡ None → OnlyReads V.disk V.count V.left vault.old vault.new) }
    ensures memory { result ≡ Err fault.NoMemory → OnlyReads V.disk V.count V.left vault.old vault.new }
    ensures others { SparesIn V.disk (IsNeither way.now name.now) vault.old vault.new }
    ensures calm { OnOk result (WhereTold (V.disk vault.new) IsCalm) }
    ensures cause { HasCause (V.faults vault.old) (V.faults vault.new) (IsErrOf result fault.Failed) }
{
    bring_file(vault, way, name)?;
    vault.sync()?;
    Ok(())
}

/// Brings a file whole to its name, by way of another name. The first sync makes the file whole before it gets the
/// name, and the second makes the name sure.
///
/// A crash at any moment leaves under the name the file that it might have left before, or the new one, and under every
/// other name that isn't on the way what it might have left. After `Failed` the new file may have come to its name.
/// After `NoMemory` it hasn't, and no crash leaves it. After `Ok` all is settled.
pub fn replace<V: Vault>(
    vault: &mut V,
    way: &str,
    name: &str,
    bytes: &[u8],
) -> Result<(), VaultFault>
    requires way { on_way way.now ≡ true }
    requires name { on_way name.now ≡ false }
    ensures walks { WhereTold (V.disk vault.old) (λ d.
        Walks V.disk V.count V.left on_way (ComesTo name.now (Some bytes.now)) (Replaced d name.now bytes.now result) d vault.old vault.new) }
    ensures memory { result ≡ Err fault.NoMemory → BringsNothing V.disk V.count V.left vault.old vault.new }
    ensures others { SparesIn V.disk (IsNeither way.now name.now) vault.old vault.new }
    ensures calm { OnOk result (WhereTold (V.disk vault.new) IsCalm) }
    ensures cause { HasCause (V.faults vault.old) (V.faults vault.new) (IsErrOf result fault.Failed) }
{
    put_on_way(vault, way, bytes)?;
    move_in(vault, way, name)
}

/// Whether a file stands under a name for sure. It settles first, so after `Ok` all is settled.
pub fn is_sure<V: Vault>(vault: &mut V, name: &str, bytes: &[u8]) -> Result<bool, VaultFault>
    ensures walks { WhereTold (V.disk vault.old) (λ d. Walks V.disk V.count V.left on_way Nothing (Found name.now bytes.now result) d vault.old vault.new) }
    ensures others { SparesIn V.disk (λ n. ⊤) vault.old vault.new }
    ensures calm { OnOk result (WhereTold (V.disk vault.new) IsCalm) }
    ensures cause { HasCause (V.faults vault.old) (V.faults vault.new) (IsErrOf result fault.Failed) }
{
    vault.sync()?;
    match vault.read(name)? {
        None => Ok(false),
        Some(found) => Ok(found.as_slice() == bytes),
    }
}
