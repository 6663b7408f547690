//! A vault in memory.
ghost use Rattle.std.specs.Prelude.{◌≡◌, ◌≢◌, ◌++◌, ◌∷◌, [], IfOk, IfErr, IsErrOf, length, option_copied, IsSome, nat_lt};
ghost use Rattle.std.specs.Option.{option_map};
ghost use Rattle.cv_base.specs.Counts.{HasCause};
ghost use Rattle.cv_vault.specs.Crash.{CrashesTo};
ghost use Rattle.cv_vault.specs.Disk.{Reads, Measures, Lists, Writes, Renames, Removes, Syncs};
ghost use Rattle.cv_vault.specs.Events.{write_of, rename_of, removal_of};
ghost use Rattle.cv_vault.specs.Memory.{memory_disk, memory_told, memory_count, memory_left, times, MemoryCalls, Numbered, Kept, Makes, Counted};
ghost use Rattle.cv_vault.specs.declared.vault.VaultFault.TheVariants as fault;

use crate::mortal::Mortal;
use crate::schedule::Schedule;
use crate::table::Table;
use crate::vault::{Vault, VaultFault};
use cv_base::{Bytes, NoMemory, Text};
use std::alloc::Global;
use std::marker::Model;

/// A vault in memory.
///
/// It keeps a record of its changes, so that what a crash could have left at each earlier moment is a function of what it
/// holds. A call that leaves every name and its state as they were adds nothing to the record. The contents of all files
/// that were ever written stay in memory until the vault is dropped.
#[derive(Drop)]
pub struct MemoryVault {
    alloc: Global,
    table: Table,
    schedule: Schedule,
    owed: usize,
}

impl Model for MemoryVault {
    ghost use Rattle.cv_vault.specs.Memory.{Memory};

    ghost Value = { Memory };

    ghost use Rattle.cv_vault.specs.MemoryVault.{memory_of, IsMemory};

    ghost view = { memory_of };

    ghost invariant = { IsMemory };
}

impl MemoryVault {
    /// A vault without files. Its calls are numbered from 1, and a call whose number stands in `failing` answers `Failed`.
    /// Where the number stands there once, the call makes no change. Where it stands there twice or more, a write, rename
    /// or removal is made all the same.
    pub fn new(alloc: Global, failing: Vec<u64>) -> Result<MemoryVault, NoMemory>
        ensures empty { IfOk result (λ v. v.first ≡ []) }
        ensures past { IfOk result (λ v. v.past ≡ []) }
        ensures failing { IfOk result (λ v. v.failing ≡ failing.items) }
        ensures calls { IfOk result (λ v. v.calls ≡ 0) }
        ensures faults { IfOk result (λ v. v.faults ≡ 0) }
    {
        let owed = failing.len().checked_mul(2).ok_or(NoMemory)?;
        Ok(MemoryVault {
            alloc,
            table: Table::new(alloc, owed)?,
            schedule: Schedule {
                failing,
                calls: 0,
                faults: 0,
            },
            owed,
        })
    }
}

// A file of its own.
fn copy_of(alloc: Global, file: Option<&Bytes>) -> Result<Option<Bytes>, VaultFault>
    ensures copy { IfOk result (λ copy. copy ≡ option_copied file.entry) }
    ensures err { IfErr result (λ e. e ≡ fault.NoMemory) }
{
    match file {
        Some(file) => Ok(Some(Bytes::from_slice(alloc, file.as_slice())?)),
        None => Ok(None),
    }
}

// How many bytes a file has.
fn length_of(file: Option<&Bytes>) -> Option<u64>
    ensures { result ≡ option_map length (option_copied file.entry) }
{
    match file {
        Some(file) => Some(file.as_slice().len() as u64),
        None => None,
    }
}

impl Vault for MemoryVault {
    ghost disk = { memory_told };

    ghost faults = { λ v. v.faults };

    ghost count = { memory_count };

    ghost left = { memory_left };

    fn read(&mut self, name: &str) -> Result<Option<Bytes>, VaultFault>
        ensures call { MemoryCalls (Reads name.now result) self.old self.new }
        ensures cause { HasCause self.old.faults self.new.faults (IsErrOf result fault.Failed) }
        ensures numbered { Numbered self.old self.new result }
        ensures kept { Kept self.old self.new }
    {
        if self.schedule.next().fails() {
            return Err(VaultFault::Failed);
        }
        copy_of(self.alloc, self.table.file(name))
    }

    fn length(&mut self, name: &str) -> Result<Option<u64>, VaultFault>
        ensures call { MemoryCalls (Measures name.now result) self.old self.new }
        ensures cause { HasCause self.old.faults self.new.faults (IsErrOf result fault.Failed) }
        ensures numbered { Numbered self.old self.new result }
        ensures kept { Kept self.old self.new }
        ensures memory { result ≢ Err fault.NoMemory }
    {
        if self.schedule.next().fails() {
            return Err(VaultFault::Failed);
        }
        Ok(length_of(self.table.file(name)))
    }

    fn list(&mut self, prefix: &str) -> Result<Vec<Text>, VaultFault>
        ensures call { MemoryCalls (Lists prefix.now result) self.old self.new }
        ensures cause { HasCause self.old.faults self.new.faults (IsErrOf result fault.Failed) }
        ensures numbered { Numbered self.old self.new result }
        ensures kept { Kept self.old self.new }
    {
        if self.schedule.next().fails() {
            return Err(VaultFault::Failed);
        }
        Ok(self.table.list(self.alloc, prefix)?)
    }

    fn write(&mut self, name: &str, bytes: &[u8]) -> Result<(), VaultFault>
        ensures call { MemoryCalls (Writes name.now bytes.now result) self.old self.new }
        ensures cause { HasCause self.old.faults self.new.faults (IsErrOf result fault.Failed) }
        ensures numbered { Numbered self.old self.new result }
        ensures counted { Counted self.old self.new }
        ensures failed { result ≡ Err fault.Failed → Makes (write_of (memory_disk self.old) name.now bytes.now (nat_lt 1 (times self.old))) self.old self.new }
    {
        let fate = self.schedule.next();
        let more = self.owed.checked_add(4).ok_or(NoMemory)?;
        self.table.reserve(more)?;
        self.owed += 3;
        self.table.write(self.alloc, name, bytes, fate.makes())?;
        fate.answer(())
    }

    fn rename(&mut self, from: &str, to: &str) -> Result<bool, VaultFault>
        requires { from.now ≢ to.now }
        ensures call { MemoryCalls (Renames from.now to.now result) self.old self.new }
        ensures cause { HasCause self.old.faults self.new.faults (IsErrOf result fault.Failed) }
        ensures numbered { Numbered self.old self.new result }
        ensures counted { Counted self.old self.new }
        ensures failed { result ≡ Err fault.Failed → IsSome (memory_disk self.old from.now).now → Makes (rename_of (memory_disk self.old) from.now to.now (nat_lt 1 (times self.old))) self.old self.new }
    {
        let fate = self.schedule.next();
        let more = self.owed.checked_add(4).ok_or(NoMemory)?;
        self.table.reserve(more)?;
        self.owed += 3;
        let there = self.table.rename(self.alloc, from, to, fate.makes())?;
        fate.answer(there)
    }

    fn remove(&mut self, name: &str) -> Result<bool, VaultFault>
        ensures call { MemoryCalls (Removes name.now result) self.old self.new }
        ensures cause { HasCause self.old.faults self.new.faults (IsErrOf result fault.Failed) }
        ensures numbered { Numbered self.old self.new result }
        ensures counted { Counted self.old self.new }
        ensures failed { result ≡ Err fault.Failed → IsSome (memory_disk self.old name.now).now → Makes (removal_of (memory_disk self.old) name.now (nat_lt 1 (times self.old))) self.old self.new }
        ensures memory { result ≢ Err fault.NoMemory }
    {
        let fate = self.schedule.next();
        let there = self.table.remove(name, fate.makes());
        self.owed -= usize::from(there);
        fate.answer(there)
    }

    fn sync(&mut self) -> Result<(), VaultFault>
        ensures call { MemoryCalls (Syncs result) self.old self.new }
        ensures cause { HasCause self.old.faults self.new.faults (IsErrOf result fault.Failed) }
        ensures numbered { Numbered self.old self.new result }
        ensures counted { Counted self.old self.new }
        ensures memory { result ≢ Err fault.NoMemory }
    {
        if self.schedule.next().fails() {
            return Err(VaultFault::Failed);
        }
        let changed = self.table.sync();
        self.owed -= usize::from(changed);
        Ok(())
    }

    ghost use Rattle.cv_vault.specs.MemoryLaws.{memory_counts_now, memory_only_now};

    ghost counts_now = { memory_counts_now };

    ghost only_now = { memory_only_now };
}

impl Mortal for MemoryVault {
    fn crash(self, pick: u64) -> Self
        ensures left { CrashesTo pick (memory_told self) (memory_told result) }
        ensures faults { result.faults ≡ self.faults }
        ensures count { memory_count result ≡ 0 }
        ensures failing { result.failing ≡ self.failing }
        ensures calls { result.calls ≡ self.calls }
    {
        let MemoryVault {
            alloc,
            mut table,
            schedule,
            owed,
        } = self;
        let owed = owed + table.change_count();
        table.crash(pick);
        MemoryVault {
            alloc,
            table,
            schedule,
            owed,
        }
    }
}
