//! Revisions that come to the vault: first what they reach, then their head.
ghost use Rattle.std.specs.Prelude.{◌≡◌, ℕ, List, None, Some, Err, OnOk, IsErrOf};
ghost use Rattle.cv_base.specs.Counts.{HasCause};
ghost use Rattle.cv_base.specs.Told.{WhereTold};
ghost use Rattle.cv_vault.specs.Names.{on_way};
ghost use Rattle.cv_vault.specs.Moments.{OnlyReads};
ghost use Rattle.cv_vault.specs.Walks.{Walks, Nothing, ComesTo, BringsNothing};
ghost use Rattle.cv_vault.specs.Replace.{MovedIn, Found, IsWaiting};
ghost use Rattle.cv_vault.specs.declared.vault.VaultFault.TheVariants as vault_fault;
ghost use Rattle.cv_base.specs.Objects.{AreNamed};
ghost use Rattle.cv_objects.specs.Batches.{Brings, Has, IsOne, IsRefusal};
ghost use Rattle.cv_objects.specs.declared.store_fault.StoreFault.TheVariants as fault;
ghost use Rattle.cv_swap.specs.Stands.{head_name, head_way};
ghost use Rattle.cv_swap.specs.Publishing.{Prepared, Shelved, OnlyPutsHead, BringsFirst};
ghost use Rattle.cv_swap.specs.PublishingInner.{PutBeside, Built, Inits};

use crate::opening::{EPOCH_NAME, EPOCH_WAY, epoch_text_of};
use cv_base::Object;
use cv_manifest::MANIFEST_NAME;
use cv_objects::{Objects, StoreFault};
use cv_vault::{Vault, VaultFault};
use std::alloc::Global;

/// The name by which a manifest comes.
const HEAD_WAY: &str = "txn/manifest";

/// Brings the objects of a batch that the shelf lacks, where the next sync settles them.
pub fn shelve_on<V: Vault + Drop>(
    objects: &mut Objects<V>,
    alloc: Global,
    batch: &[Object],
) -> Result<(), StoreFault>
    requires named { AreNamed batch.now }
    ensures walks { WhereTold (V.disk objects.old.vault) (λ d.
        Walks V.disk V.count V.left on_way (Brings d batch.now) (Shelved d batch.now result) d objects.old.vault objects.new.vault) }
    ensures refused { IsRefusal result → BringsNothing V.disk V.count V.left objects.old.vault objects.new.vault }
    ensures silent { V.disk objects.old.vault ≡ None → V.disk objects.new.vault ≡ None }
    ensures cause { HasCause (V.faults objects.old.vault) (V.faults objects.new.vault) (IsErrOf result fault.Failed) }
    ensures taken { objects.new.taken ≡ objects.old.taken }
{
    objects.put(alloc, batch)?;
    objects.bring(alloc, batch)
}

/// The same where not all of the batch stands on the shelf. Where all does, the vault is only read.
fn shelve_absent<V: Vault + Drop>(
    objects: &mut Objects<V>,
    alloc: Global,
    batch: &[Object],
) -> Result<(), StoreFault>
    requires named { AreNamed batch.now }
    requires one { IsOne batch.now }
    ensures walks { WhereTold (V.disk objects.old.vault) (λ d.
        Walks V.disk V.count V.left on_way (Brings d batch.now) (Shelved d batch.now result) d objects.old.vault objects.new.vault) }
    ensures reads { WhereTold (V.disk objects.old.vault) (λ d.
        Has d batch.now → OnlyReads V.disk V.count V.left objects.old.vault objects.new.vault) }
    ensures refused { IsRefusal result → BringsNothing V.disk V.count V.left objects.old.vault objects.new.vault }
    ensures silent { V.disk objects.old.vault ≡ None → V.disk objects.new.vault ≡ None }
    ensures cause { HasCause (V.faults objects.old.vault) (V.faults objects.new.vault) (IsErrOf result fault.Failed) }
    ensures taken { objects.new.taken ≡ objects.old.taken }
{
    if objects.fresh(alloc, batch)?.is_empty() {
        return Ok(());
    }
    shelve_on(objects, alloc, batch)
}

/// Puts a manifest on its way, for sure, with a batch on the shelf, which costs no write and no sync more where all of it
/// stands there.
pub fn prepare_on<V: Vault + Drop>(
    objects: &mut Objects<V>,
    alloc: Global,
    batch: &[Object],
    manifest: &[u8],
) -> Result<(), StoreFault>
    requires named { AreNamed batch.now }
    requires one { IsOne batch.now }
    ensures walks { WhereTold (V.disk objects.old.vault) (λ d.
        Walks V.disk V.count V.left on_way (Brings d batch.now) (Prepared d batch.now manifest.now result) d objects.old.vault objects.new.vault) }
    ensures free { OnOk result (WhereTold (V.disk objects.old.vault) (λ d.
        Has d batch.now → OnlyPutsHead V.disk V.count V.left manifest.now objects.old.vault objects.new.vault)) }
    ensures refused { IsRefusal result → BringsNothing V.disk V.count V.left objects.old.vault objects.new.vault }
    ensures silent { V.disk objects.old.vault ≡ None → V.disk objects.new.vault ≡ None }
    ensures cause { HasCause (V.faults objects.old.vault) (V.faults objects.new.vault) (IsErrOf result fault.Failed) }
    ensures taken { objects.new.taken ≡ objects.old.taken }
{
    shelve_absent(objects, alloc, batch)?;
    objects.write_file(HEAD_WAY, manifest)?;
    Ok(objects.settle()?)
}

/// Brings the manifest that waits on its way to its name, for sure.
pub fn swap_on<V: Vault + Drop>(objects: &mut Objects<V>) -> Result<(), VaultFault>
    ensures walks { WhereTold (V.disk objects.old.vault) (λ d. (manifest : List ℕ) → IsWaiting head_way head_name manifest d
        → Walks V.disk V.count V.left on_way (ComesTo head_name (Some manifest)) (MovedIn d head_name manifest result) d objects.old.vault objects.new.vault) }
    ensures memory { result ≡ Err vault_fault.NoMemory → OnlyReads V.disk V.count V.left objects.old.vault objects.new.vault }
    ensures silent { V.disk objects.old.vault ≡ None → V.disk objects.new.vault ≡ None }
    ensures cause { HasCause (V.faults objects.old.vault) (V.faults objects.new.vault) (IsErrOf result vault_fault.Failed) }
    ensures taken { objects.new.taken ≡ objects.old.taken }
{
    objects.move_in(HEAD_WAY, MANIFEST_NAME)
}

/// Whether the manifest came to its name. It settles first.
pub fn was_swapped<V: Vault + Drop>(
    objects: &mut Objects<V>,
    manifest: &[u8],
) -> Result<bool, VaultFault>
    ensures walks { WhereTold (V.disk objects.old.vault) (λ d.
        Walks V.disk V.count V.left on_way Nothing (Found head_name manifest.now result) d objects.old.vault objects.new.vault) }
    ensures silent { V.disk objects.old.vault ≡ None → V.disk objects.new.vault ≡ None }
    ensures cause { HasCause (V.faults objects.old.vault) (V.faults objects.new.vault) (IsErrOf result vault_fault.Failed) }
    ensures taken { objects.new.taken ≡ objects.old.taken }
{
    objects.is_sure(MANIFEST_NAME, manifest)
}

/// Puts the first epoch and a manifest on their way, where the next sync settles them.
fn put_beside<V: Vault + Drop>(
    objects: &mut Objects<V>,
    alloc: Global,
    manifest: &[u8],
) -> Result<(), VaultFault>
    ensures walks { WhereTold (V.disk objects.old.vault) (λ d.
        Walks V.disk V.count V.left on_way Nothing (PutBeside d manifest.now result) d objects.old.vault objects.new.vault) }
    ensures silent { V.disk objects.old.vault ≡ None → V.disk objects.new.vault ≡ None }
    ensures cause { HasCause (V.faults objects.old.vault) (V.faults objects.new.vault) (IsErrOf result vault_fault.Failed) }
{
    let text = epoch_text_of(alloc, 0)?;
    objects.write_file(EPOCH_WAY, text.as_bytes())?;
    objects.write_file(HEAD_WAY, manifest)
}

/// Brings all of a first revision but its head, whose manifest is put on its way: its objects, and the first epoch. One sync
/// settles the four texts on their way, and one the three names.
pub fn build_first<V: Vault + Drop>(
    objects: &mut Objects<V>,
    alloc: Global,
    batch: &[Object],
    manifest: &[u8],
) -> Result<(), StoreFault>
    requires named { AreNamed batch.now }
    ensures walks { WhereTold (V.disk objects.old.vault) (λ d.
        Walks V.disk V.count V.left on_way (BringsFirst d batch.now) (Built d batch.now manifest.now result) d objects.old.vault objects.new.vault) }
    ensures refused { IsRefusal result → BringsNothing V.disk V.count V.left objects.old.vault objects.new.vault }
    ensures silent { V.disk objects.old.vault ≡ None → V.disk objects.new.vault ≡ None }
    ensures cause { HasCause (V.faults objects.old.vault) (V.faults objects.new.vault) (IsErrOf result fault.Failed) }
{
    objects.put(alloc, batch)?;
    put_beside(objects, alloc, manifest)?;
    objects.bring(alloc, batch)?;
    objects.bring_file(EPOCH_WAY, EPOCH_NAME)?;
    Ok(objects.settle()?)
}

/// Makes a first revision of its objects and its manifest.
pub fn init_on<V: Vault + Drop>(
    objects: &mut Objects<V>,
    alloc: Global,
    batch: &[Object],
    manifest: &[u8],
) -> Result<(), StoreFault>
    requires named { AreNamed batch.now }
    ensures inits { WhereTold (V.disk objects.old.vault) (λ d. Inits V.disk V.count V.left d batch.now manifest.now result objects.old.vault objects.new.vault) }
    ensures silent { V.disk objects.old.vault ≡ None → V.disk objects.new.vault ≡ None }
    ensures cause { HasCause (V.faults objects.old.vault) (V.faults objects.new.vault) (IsErrOf result fault.Failed) }
{
    build_first(objects, alloc, batch, manifest)?;
    swap_on(objects)?;
    Ok(())
}
