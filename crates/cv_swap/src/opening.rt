//! What stands in the vault of a repository is read, and its epoch is raised.
ghost use Rattle.std.specs.Prelude.{◌≡◌, ◌+◌, ◌<◌, ◌^◌, ℕ, None, Some, Err, IfOk, IfSome, IsErrOf, string_bytes};
ghost use Rattle.cv_base.specs.Counts.{HasCause};
ghost use Rattle.cv_base.specs.Told.{WhereTold};
ghost use Rattle.cv_base.specs.Token.{last_number};
ghost use Rattle.cv_vault.specs.Disk.{files_now};
ghost use Rattle.cv_vault.specs.Names.{on_way};
ghost use Rattle.cv_vault.specs.Moments.{OnlyReads};
ghost use Rattle.cv_vault.specs.Walks.{Walks, ComesTo, BringsNothing};
ghost use Rattle.cv_vault.specs.Replace.{Replaced};
ghost use Rattle.cv_vault.specs.declared.vault.VaultFault.TheVariants as vault_fault;
ghost use Rattle.cv_manifest.specs.Manifest.{IsHead};
ghost use Rattle.cv_swap.specs.Stands.{epoch_name, epoch_text};
ghost use Rattle.cv_swap.specs.Opening.{Finds, Opens};
ghost use Rattle.cv_swap.specs.OpeningInner.{FindsHead, FindsEpoch, FindsRecords, IsRead};
ghost use Rattle.cv_swap.specs.declared.open_fault.OpenFault.TheVariants as fault;

use crate::found::Found;
use crate::open_fault::OpenFault;
use cv_base::{Bytes, Items, Kind, Name, NoMemory, ObjectId, read_decimal};
use cv_history::{ChainFault, Record, chain};
use cv_manifest::{Head, MANIFEST_NAME, Manifest, ManifestFault};
use cv_objects::Objects;
use cv_seal::Signer;
use cv_vault::{Vault, VaultFault};
use std::alloc::Global;

/// The name of the epoch's file.
pub const EPOCH_NAME: &str = "gateway.epoch";

/// The name by which the epoch's file comes.
pub const EPOCH_WAY: &str = "txn/epoch";

/// The head that a file says, if it is a manifest of this name.
fn read_manifest<S: Signer>(
    alloc: Global,
    bytes: &Bytes,
    name: &Name,
    signer: &S,
) -> Result<Head, OpenFault>
    ensures { IsRead name.now (S.is_seal signer.now) bytes.now result }
{
    match Manifest::read(alloc, bytes.as_slice(), signer) {
        Ok(manifest) => if manifest.name.text() == name.text() {
            Ok(manifest.head)
        } else {
            Err(OpenFault::OtherName)
        },
        Err(ManifestFault::NoMemory) => Err(OpenFault::NoMemory),
        Err(fault) => Err(OpenFault::BadManifest(fault)),
    }
}

/// The head that stands in the vault.
fn read_head<V: Vault + Drop, S: Signer>(
    objects: &mut Objects<V>,
    alloc: Global,
    name: &Name,
    signer: &S,
) -> Result<Head, OpenFault>
    ensures told { WhereTold (V.disk objects.old.vault) (λ d. FindsHead name.now (S.is_seal signer.now) (files_now d) result) }
    ensures head { IfOk result IsHead }
    ensures reads { OnlyReads V.disk V.count V.left objects.old.vault objects.new.vault }
    ensures cause { HasCause (V.faults objects.old.vault) (V.faults objects.new.vault) (IsErrOf result fault.Failed) }
{
    match objects.read_file(MANIFEST_NAME)? {
        Some(bytes) => read_manifest(alloc, &bytes, name, signer),
        None => Err(OpenFault::NoRepository),
    }
}

/// The number that a text says as its decimal digits and a newline.
fn parse_epoch(bytes: &[u8]) -> Option<u64>
    ensures value { IfSome result (λ n. bytes.now ≡ epoch_text n) }
    ensures found { (n : ℕ) → n < 2 ^ 64 → bytes.now ≡ epoch_text n → result ≡ Some n }
{
    let (last, digits) = bytes.split_last()?;
    if *last == b'\n' {
        read_decimal(digits)
    } else {
        None
    }
}

/// The epoch that stands in the vault.
fn read_epoch<V: Vault + Drop>(objects: &mut Objects<V>) -> Result<u64, OpenFault>
    ensures told { WhereTold (V.disk objects.old.vault) (λ d. FindsEpoch (files_now d epoch_name) result) }
    ensures reads { OnlyReads V.disk V.count V.left objects.old.vault objects.new.vault }
    ensures cause { HasCause (V.faults objects.old.vault) (V.faults objects.new.vault) (IsErrOf result fault.Failed) }
{
    let Some(bytes) = objects.read_file(EPOCH_NAME)? else {
        return Err(OpenFault::BadEpoch);
    };
    match parse_epoch(bytes.as_slice()) {
        Some(epoch) => Ok(epoch),
        None => Err(OpenFault::BadEpoch),
    }
}

/// The records of a head.
fn read_records<V: Vault + Drop>(
    objects: &mut Objects<V>,
    alloc: Global,
    head: Head,
) -> Result<Vec<Record>, OpenFault>
    ensures told { WhereTold (V.disk objects.old.vault) (λ d. FindsRecords (files_now d) head result) }
    ensures reads { OnlyReads V.disk V.count V.left objects.old.vault objects.new.vault }
    ensures cause { HasCause (V.faults objects.old.vault) (V.faults objects.new.vault) (IsErrOf result fault.Failed) }
{
    let hash = head.history;
    let last = ObjectId {
        hash,
        kind: Kind::History,
    };
    match chain(alloc, objects, &last, head.revision) {
        Ok(records) => Ok(records),
        Err(ChainFault::Failed) => Err(OpenFault::Failed),
        Err(ChainFault::NoMemory) => Err(OpenFault::NoMemory),
        Err(fault) => Err(OpenFault::BadHistory(fault)),
    }
}

/// What stands in the vault of a repository.
pub fn read_line<V: Vault + Drop, S: Signer>(
    objects: &mut Objects<V>,
    alloc: Global,
    name: &Name,
    signer: &S,
) -> Result<Found, OpenFault>
    ensures told { WhereTold (V.disk objects.old.vault) (λ d. Finds name.now (S.is_seal signer.now) (files_now d) result) }
    ensures reads { OnlyReads V.disk V.count V.left objects.old.vault objects.new.vault }
    ensures cause { HasCause (V.faults objects.old.vault) (V.faults objects.new.vault) (IsErrOf result fault.Failed) }
    ensures room { IfOk result (λ found. found.epoch < last_number) }
    ensures head { IfOk result (λ found. IsHead found.head) }
{
    let head = read_head(objects, alloc, name, signer)?;
    let records = read_records(objects, alloc, head)?;
    let epoch = read_epoch(objects)?;
    if epoch == u64::MAX {
        return Err(OpenFault::EpochsSpent);
    }
    Ok(Found {
        head,
        records: Items::new(records),
        epoch,
    })
}

/// The text of the epoch's file.
pub fn epoch_text_of(alloc: Global, epoch: u64) -> Result<String, NoMemory>
    ensures { IfOk result (λ text. string_bytes text ≡ epoch_text epoch) }
{
    Ok(format!(in alloc; "{epoch}\n")?)
}

/// Sets the epoch, for sure. After `NoMemory` it isn't set, and no crash leaves it.
fn set_epoch<V: Vault + Drop>(
    objects: &mut Objects<V>,
    alloc: Global,
    epoch: u64,
) -> Result<(), VaultFault>
    ensures walks { WhereTold (V.disk objects.old.vault) (λ d.
        Walks V.disk V.count V.left on_way (ComesTo epoch_name (Some (epoch_text epoch))) (Replaced d epoch_name (epoch_text epoch) result) d objects.old.vault objects.new.vault) }
    ensures memory { result ≡ Err vault_fault.NoMemory → BringsNothing V.disk V.count V.left objects.old.vault objects.new.vault }
    ensures silent { V.disk objects.old.vault ≡ None → V.disk objects.new.vault ≡ None }
    ensures cause { HasCause (V.faults objects.old.vault) (V.faults objects.new.vault) (IsErrOf result vault_fault.Failed) }
{
    let text = epoch_text_of(alloc, epoch)?;
    objects.replace(EPOCH_WAY, EPOCH_NAME, text.as_bytes())
}

/// Reads what stands in the vault of a repository, for sure, and raises its epoch by one, for sure.
pub fn open_on<V: Vault + Drop, S: Signer>(
    objects: &mut Objects<V>,
    alloc: Global,
    name: &Name,
    signer: &S,
) -> Result<Found, OpenFault>
    ensures opens { WhereTold (V.disk objects.old.vault) (λ d. Opens V.disk V.count V.left name.now (S.is_seal signer.now) d result objects.old.vault objects.new.vault) }
    ensures silent { V.disk objects.old.vault ≡ None → V.disk objects.new.vault ≡ None }
    ensures cause { HasCause (V.faults objects.old.vault) (V.faults objects.new.vault) (IsErrOf result fault.Failed) }
    ensures room { IfOk result (λ found. found.epoch < last_number) }
    ensures head { IfOk result (λ found. IsHead found.head) }
{
    objects.settle()?;
    let found = read_line(objects, alloc, name, signer)?;
    set_epoch(objects, alloc, found.epoch + 1)?;
    Ok(found)
}
