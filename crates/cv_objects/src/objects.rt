//! Objects over a vault.
ghost use Rattle.std.proofs.Common.{ap};
ghost use Rattle.std.specs.Prelude.{◌≡◌, ◌≢◌, ⊤, ℕ, List, Option, None, Some, IsSome, Err, true, false, IsErrOf, OnOk};
ghost use Rattle.std.specs.Option.{option_map};
ghost use Rattle.cv_base.specs.Counts.{HasCause};
ghost use Rattle.cv_base.specs.Told.{WhereTold};
ghost use Rattle.cv_vault.specs.Names.{on_way};
ghost use Rattle.cv_vault.specs.Disk.{Reads, Measures, Writes, Syncs};
ghost use Rattle.cv_vault.specs.Moments.{Calls, OnlyReads};
ghost use Rattle.cv_vault.specs.Walks.{Walks, Nothing, ComesTo, BringsNothing, SparesIn, IsNeither};
ghost use Rattle.cv_vault.specs.Replace.{IsWaiting, Came, MovedIn, Replaced, Found};
ghost use Rattle.cv_vault.specs.declared.vault.VaultFault.TheVariants as vault_fault;
ghost use Rattle.cv_vault.proofs.Laws.{quiet_none, quiet_then, quiet_same};
ghost use Rattle.cv_objects.specs.Names.{IsNoObject, standing_on};
ghost use Rattle.cv_base.specs.Objects.{AreNamed};
ghost use Rattle.cv_objects.specs.Batches.{AreReady, Brings, Brought, GivesFresh, IsApart, IsOne, IsRefusal, RefusesSettled, Stored, WroteAll};
ghost use Rattle.cv_objects.specs.declared.store_fault.StoreFault.TheVariants as fault;

use crate::batch::clash_in;
use crate::fresh::fresh_ids;
use crate::reading::{measure_object, read_object};
use crate::store_fault::StoreFault;
use crate::storing::{bring_all, put_all, store_all};
use cv_base::{Bytes, Object, ObjectId};
use cv_ports::{Shelf, ShelfFault};
use cv_vault::{Vault, VaultFault, bring_file, is_sure, move_in, replace};
use std::alloc::Global;
use std::marker::Model;

/// The objects that stand under the names of their ids in a vault, and the files beside them that are no objects.
///
/// It keeps where it knows that all of the vault is settled, so that a store begins with a sync only where something may wait
/// for one.
#[derive(Drop)]
pub struct Objects<V: Vault + Drop> {
    vault: V,
    taken: u64,
    settled: bool,
}

impl<V: Vault + Drop> Model for Objects<V> {
    ghost use Rattle.std.specs.Prelude.{◌≡◌, true};
    ghost use Rattle.cv_base.specs.Told.{WhereTold};
    ghost use Rattle.cv_vault.specs.Disk.{IsCalm};
    ghost use Rattle.cv_objects.specs.Objects.{ObjectsView};

    ghost Value = { ObjectsView V };

    ghost view = { λ o. record { vault = o.vault; taken = o.taken } };

    ghost invariant = { λ o. o.settled ≡ true → WhereTold (V.disk o.vault) IsCalm };
}

impl<V: Vault + Drop> Objects<V> {
    /// The objects of a vault, of which it isn't known whether it is settled.
    pub fn new(vault: V) -> Objects<V>
        ensures vault { result.vault ≡ vault }
        ensures taken { result.taken ≡ 0 }
    {
        Objects {
            vault,
            taken: 0,
            settled: false,
        }
    }

    /// The vault, given back.
    pub fn into_vault(self) -> V
        ensures { result ≡ self.vault }
    {
        self.vault
    }

    /// Counts the objects that are fetched from now on.
    pub fn count_anew(&mut self)
        ensures { self.new ≡ record self.old { taken = 0 } }
    {
        self.taken = 0;
    }

    /// Settles every name of the vault, and answers what its sync answers.
    pub fn settle(&mut self) -> Result<(), VaultFault>
        ensures call { Calls V.disk V.count V.left (Syncs result) self.old.vault self.new.vault }
        ensures cause { HasCause (V.faults self.old.vault) (V.faults self.new.vault) (IsErrOf result vault_fault.Failed) }
        ensures memory { result ≢ Err vault_fault.NoMemory }
        ensures taken { self.new.taken ≡ self.old.taken }
    {
        let result = self.vault.sync();
        self.settled = result.is_ok();
        result
    }

    /// The file under a name of the vault, if there is one.
    pub fn read_file(&mut self, name: &str) -> Result<Option<Bytes>, VaultFault>
        ensures call { Calls V.disk V.count V.left (Reads name.now result) self.old.vault self.new.vault }
        ensures cause { HasCause (V.faults self.old.vault) (V.faults self.new.vault) (IsErrOf result vault_fault.Failed) }
        ensures taken { self.new.taken ≡ self.old.taken }
    {
        self.vault.read(name)
    }

    /// How many bytes the file under a name of the vault has, if there is one.
    pub fn measure_file(&mut self, name: &str) -> Result<Option<u64>, VaultFault>
        ensures call { Calls V.disk V.count V.left (Measures name.now result) self.old.vault self.new.vault }
        ensures cause { HasCause (V.faults self.old.vault) (V.faults self.new.vault) (IsErrOf result vault_fault.Failed) }
        ensures taken { self.new.taken ≡ self.old.taken }
    {
        self.vault.length(name)
    }

    /// Sets a whole file of the vault that is no object, whose name is torn until the next sync.
    pub fn write_file(&mut self, name: &str, bytes: &[u8]) -> Result<(), VaultFault>
        requires plain { IsNoObject name.now }
        ensures call { Calls V.disk V.count V.left (Writes name.now bytes.now result) self.old.vault self.new.vault }
        ensures cause { HasCause (V.faults self.old.vault) (V.faults self.new.vault) (IsErrOf result vault_fault.Failed) }
        ensures taken { self.new.taken ≡ self.old.taken }
    {
        self.settled = false;
        self.vault.write(name, bytes)
    }

    /// Brings a file that waits on its way to its name, where the next sync settles it, as the vault's `bring_file` does.
    pub fn bring_file(&mut self, way: &str, name: &str) -> Result<(), VaultFault>
        requires way { on_way way.now ≡ true }
        requires name { on_way name.now ≡ false }
        requires plain { IsNoObject name.now }
        ensures walks { WhereTold (V.disk self.old.vault) (λ d. (bytes : List ℕ) → IsWaiting way.now name.now bytes d
            → Walks V.disk V.count V.left on_way (ComesTo name.now (Some bytes)) (Came d way.now name.now bytes result) d self.old.vault self.new.vault) }
        ensures there { WhereTold (V.disk self.old.vault) (λ d. OnOk result (IsSome (d way.now).now)) }
        ensures absent { WhereTold (V.disk self.old.vault) (λ d. (d way.now).now ≡ None → OnlyReads V.disk V.count V.left self.old.vault self.new.vault) }
        ensures memory { result ≡ Err vault_fault.NoMemory → OnlyReads V.disk V.count V.left self.old.vault self.new.vault }
        ensures others { SparesIn V.disk (IsNeither way.now name.now) self.old.vault self.new.vault }
        ensures cause { HasCause (V.faults self.old.vault) (V.faults self.new.vault) (IsErrOf result vault_fault.Failed) }
        ensures taken { self.new.taken ≡ self.old.taken }
    {
        self.settled = false;
        bring_file(&mut self.vault, way, name)
    }

    /// Brings a file that waits on its way to its name, for sure, as the vault's `move_in` does.
    pub fn move_in(&mut self, way: &str, name: &str) -> Result<(), VaultFault>
        requires way { on_way way.now ≡ true }
        requires name { on_way name.now ≡ false }
        requires plain { IsNoObject name.now }
        ensures walks { WhereTold (V.disk self.old.vault) (λ d. (bytes : List ℕ) → IsWaiting way.now name.now bytes d
            → Walks V.disk V.count V.left on_way (ComesTo name.now (Some bytes)) (MovedIn d name.now bytes result) d self.old.vault self.new.vault) }
        ensures there { WhereTold (V.disk self.old.vault) (λ d. OnOk result (IsSome (d way.now).now)) }
        ensures absent { WhereTold (V.disk self.old.vault) (λ d. (d way.now).now ≡ None → OnlyReads V.disk V.count V.left self.old.vault self.new.vault) }
        ensures memory { result ≡ Err vault_fault.NoMemory → OnlyReads V.disk V.count V.left self.old.vault self.new.vault }
        ensures others { SparesIn V.disk (IsNeither way.now name.now) self.old.vault self.new.vault }
        ensures cause { HasCause (V.faults self.old.vault) (V.faults self.new.vault) (IsErrOf result vault_fault.Failed) }
        ensures taken { self.new.taken ≡ self.old.taken }
    {
        let result = move_in(&mut self.vault, way, name);
        self.settled = result.is_ok();
        result
    }

    /// Brings a file whole to its name, by way of another name, for sure, as the vault's `replace` does.
    pub fn replace(&mut self, way: &str, name: &str, bytes: &[u8]) -> Result<(), VaultFault>
        requires way { on_way way.now ≡ true }
        requires name { on_way name.now ≡ false }
        requires plain { IsNoObject name.now }
        ensures walks { WhereTold (V.disk self.old.vault) (λ d.
            Walks V.disk V.count V.left on_way (ComesTo name.now (Some bytes.now)) (Replaced d name.now bytes.now result) d self.old.vault self.new.vault) }
        ensures memory { result ≡ Err vault_fault.NoMemory → BringsNothing V.disk V.count V.left self.old.vault self.new.vault }
        ensures others { SparesIn V.disk (IsNeither way.now name.now) self.old.vault self.new.vault }
        ensures cause { HasCause (V.faults self.old.vault) (V.faults self.new.vault) (IsErrOf result vault_fault.Failed) }
        ensures taken { self.new.taken ≡ self.old.taken }
    {
        let result = replace(&mut self.vault, way, name, bytes);
        self.settled = result.is_ok();
        result
    }

    /// Whether a file stands under a name for sure, as the vault's `is_sure` says. It settles first.
    pub fn is_sure(&mut self, name: &str, bytes: &[u8]) -> Result<bool, VaultFault>
        ensures walks { WhereTold (V.disk self.old.vault) (λ d.
            Walks V.disk V.count V.left on_way Nothing (Found name.now bytes.now result) d self.old.vault self.new.vault) }
        ensures others { SparesIn V.disk (λ n. ⊤) self.old.vault self.new.vault }
        ensures cause { HasCause (V.faults self.old.vault) (V.faults self.new.vault) (IsErrOf result vault_fault.Failed) }
        ensures taken { self.new.taken ≡ self.old.taken }
    {
        let result = is_sure(&mut self.vault, name, bytes);
        self.settled = result.is_ok();
        result
    }

    /// The ids of the batch that the shelf lacks, each once, in the order of the batch. Nothing changes in the vault.
    ///
    /// `Collision` and `Damaged` come where a store of the batch would be refused so.
    pub fn fresh(&mut self, alloc: Global, batch: &[Object]) -> Result<Vec<ObjectId>, StoreFault>
        ensures walks { WhereTold (V.disk self.old.vault) (λ d.
            Walks V.disk V.count V.left on_way Nothing (GivesFresh d batch.now result) d self.old.vault self.new.vault) }
        ensures reads { OnlyReads V.disk V.count V.left self.old.vault self.new.vault }
        ensures cause { HasCause (V.faults self.old.vault) (V.faults self.new.vault) (IsErrOf result fault.Failed) }
        ensures taken { self.new.taken ≡ self.old.taken }
    {
        if let Some(id) = clash_in(alloc, batch)? {
            return Err(StoreFault::Collision(id));
        }
        fresh_ids(&mut self.vault, alloc, batch)
    }

    /// Stores the objects of a batch that the shelf lacks: all of them, or, where it fails, some, whole. It settles
    /// first what may wait for a sync.
    ///
    /// A crash at any moment leaves under each name what it might have left before, or the object of the batch that comes
    /// to a name without a file. After `Collision` and `Damaged` nothing came. Whatever it answers, every other name, also one
    /// that is on the way, has the file that it had, and is settled where it was.
    pub fn store(&mut self, alloc: Global, batch: &[Object]) -> Result<(), StoreFault>
        requires named { AreNamed batch.now }
        ensures walks { WhereTold (V.disk self.old.vault) (λ d.
            Walks V.disk V.count V.left on_way (Brings d batch.now) (Stored d batch.now result) d self.old.vault self.new.vault) }
        ensures refused { IsRefusal result → BringsNothing V.disk V.count V.left self.old.vault self.new.vault }
        ensures settled { WhereTold (V.disk self.old.vault) (λ d. WhereTold (V.disk self.new.vault) (RefusesSettled d batch.now result)) }
        ensures others { SparesIn V.disk (IsApart batch.now) self.old.vault self.new.vault }
        ensures cause { HasCause (V.faults self.old.vault) (V.faults self.new.vault) (IsErrOf result fault.Failed) }
        ensures taken { self.new.taken ≡ self.old.taken }
    {
        if let Some(id) = clash_in(alloc, batch)? {
            return Err(StoreFault::Collision(id));
        }
        let settled = self.settled;
        let result = store_all(&mut self.vault, alloc, batch, settled);
        self.settled = result.is_ok();
        result
    }

    /// Puts the objects of a batch that the shelf lacks on their way, where the next sync settles them: the first half of a
    /// store. It settles first what may wait for a sync. Nothing comes to any name of an object.
    ///
    /// `Collision` and `Damaged` come where a store of the batch would be refused so.
    pub fn put(&mut self, alloc: Global, batch: &[Object]) -> Result<(), StoreFault>
        requires named { AreNamed batch.now }
        ensures walks { WhereTold (V.disk self.old.vault) (λ d.
            Walks V.disk V.count V.left on_way Nothing (WroteAll d batch.now result) d self.old.vault self.new.vault) }
        ensures one { OnOk result (IsOne batch.now) }
        ensures failed { result ≡ Err fault.Failed → IsOne batch.now }
        ensures others { SparesIn V.disk (IsApart batch.now) self.old.vault self.new.vault }
        ensures cause { HasCause (V.faults self.old.vault) (V.faults self.new.vault) (IsErrOf result fault.Failed) }
        ensures taken { self.new.taken ≡ self.old.taken }
    {
        if let Some(id) = clash_in(alloc, batch)? {
            return Err(StoreFault::Collision(id));
        }
        let settled = self.settled;
        self.settled = false;
        put_all(&mut self.vault, alloc, batch, settled)
    }

    /// Settles what is on its way, and brings the objects of a batch to their names, where the next sync settles them: the
    /// second half of a store, after `put`.
    pub fn bring(&mut self, alloc: Global, batch: &[Object]) -> Result<(), StoreFault>
        requires named { AreNamed batch.now }
        requires one { IsOne batch.now }
        requires ready { WhereTold (V.disk self.old.vault) (λ d. AreReady d batch.now) }
        ensures walks { WhereTold (V.disk self.old.vault) (λ d.
            Walks V.disk V.count V.left on_way (Brings d batch.now) (Brought d batch.now result) d self.old.vault self.new.vault) }
        ensures others { SparesIn V.disk (IsApart batch.now) self.old.vault self.new.vault }
        ensures cause { HasCause (V.faults self.old.vault) (V.faults self.new.vault) (IsErrOf result fault.Failed) }
        ensures taken { self.new.taken ≡ self.old.taken }
    {
        self.settled = false;
        bring_all(&mut self.vault, alloc, batch)
    }
}

impl<V: Vault + Drop> Shelf for Objects<V> {
    ghost shelf = { λ o. option_map standing_on (V.disk o.vault) };

    ghost faults = { λ o. V.faults o.vault };

    ghost taken = { λ o. o.taken };

    ghost reads = { λ a b. OnlyReads V.disk V.count V.left a.vault b.vault };

    fn fetch(&mut self, alloc: Global, id: &ObjectId) -> Result<Option<Bytes>, ShelfFault> {
        self.taken = self.taken.saturating_add(1);
        read_object(&mut self.vault, alloc, id)
    }

    fn length(&mut self, alloc: Global, id: &ObjectId) -> Result<Option<u64>, ShelfFault> {
        measure_object(&mut self.vault, alloc, id)
    }

    ghost reads_none = { λ a. quiet_none a.vault };

    ghost reads_then = { λ a b c ab bc. quiet_then ab bc };

    ghost reads_same = { λ a b ab. ap (option_map standing_on) (quiet_same ab) };
}
