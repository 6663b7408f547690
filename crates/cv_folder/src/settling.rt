//! How a vault over a folder makes durable what it changed, and what was there before it.
ghost use Rattle.std.specs.Prelude.{◌≡◌, ◌≢◌, ◌↔◌, [], false, IfErr, IsOk, OnErr, OnOk, map, string_bytes};
ghost use Rattle.cv_folder.specs.FolderVault.{Clears, Fails, Holds, HoldsFirst, IsUncalled, Stays, SyncsDone};
ghost use Rattle.cv_folder.specs.FolderVaultInner.{broken_by};
ghost use Rattle.cv_folder.specs.Syncs.{SettlesFirst, SyncsAll};
ghost use Rattle.cv_folder.specs.Unsynced.{FailsFirst, FailsSync, SyncsNotAll};

use crate::folder_vault::FolderVault;
use crate::hold::{Hold, refused};
use cv_system::{System, Unsynced, end_begun, folder_of, sync_folder, sync_folders};
use std::io;

impl<S: System + Drop> FolderVault<S> {
    /// Makes durable what an earlier process may have left, where there may be such: the files on their way first, then the
    /// folder above the root, and then all folders.
    pub(crate) fn settle(&mut self) -> Result<(), Unsynced>
        ensures stays { Stays self.old self.new }
        ensures faults { self.new.faults ≡ self.old.faults }
        ensures calls { OnOk result (SettlesFirst (string_bytes self.old.root) self.old.is_unsettled
            (S.log self.old.system) (S.log self.new.system)) }
        ensures fails { IfErr result (λ unsynced. FailsFirst (string_bytes self.old.root)
            self.old.is_unsettled unsynced (S.log self.old.system) (S.log self.new.system)) }
        ensures hold { self.new.hold ≡ self.old.hold }
    {
        if !self.is_unsettled {
            return Ok(());
        }
        self.walk.sync_ways(&mut self.system, self.root.as_str())?;
        sync_folder(&mut self.system, folder_of(self.root.as_str()))?;
        self.walk.sync_all(&mut self.system, self.root.as_str())
    }

    /// Ends the syncs of files that were begun, and makes the folders durable that changed, or all that an earlier process may
    /// have left.
    pub(crate) fn sync_changed(&mut self) -> Result<(), Unsynced>
        ensures stays { Stays self.old self.new }
        ensures faults { self.new.faults ≡ self.old.faults }
        ensures calls { OnOk result (SyncsAll (string_bytes self.old.root) self.old.is_unsettled
            (map string_bytes self.old.folders.items) (S.log self.old.system) (S.log self.new.system)) }
        ensures fails { IfErr result (λ unsynced. SyncsNotAll (string_bytes self.old.root)
            self.old.is_unsettled (map string_bytes self.old.folders.items) unsynced
            (S.log self.old.system) (S.log self.new.system)) }
        ensures hold { self.new.hold ≡ self.old.hold }
    {
        end_begun(&mut self.system)?;
        self.settle()?;
        sync_folders(&mut self.system, &self.folders)
    }

    /// Ends a sync: what it made durable is done, and what the system lost is so from now on.
    pub(crate) fn end_sync(&mut self, done: Result<(), Unsynced>) -> io::Result<()>
        ensures ok { IsOk result ↔ IsOk done }
        ensures done { OnOk result ((self.new.folders.items ≡ []) × (self.new.is_unsettled ≡ false)) }
        ensures broken { self.new.broken ≡ broken_by done self.old.broken }
        ensures fails { OnErr result (Fails self.old self.new) }
        ensures root { self.new.root ≡ self.old.root }
        ensures faults { self.new.faults ≡ self.old.faults }
        ensures hold { self.new.hold ≡ self.old.hold }
        ensures calls { IsUncalled S.log self.old self.new }
    {
        match done {
            Ok(()) => {
                self.is_unsettled = false;
                self.folders.clear();
                Ok(())
            }
            Err(Unsynced::NotOpened) => Err(refused()),
            Err(Unsynced::Lost) => {
                self.broken = true;
                Err(refused())
            }
        }
    }

    /// Nothing is to be synced where no folder is there.
    pub(crate) fn sync_now(&mut self) -> io::Result<()>
        ensures lost { OnOk result ((self.old.broken ≡ false) × (self.new.broken ≡ false)) }
        ensures refused { OnOk result (self.old.hold ≢ Hold.Refused) }
        ensures fails { OnErr result (Fails self.old self.new × HoldsFirst self.old self.new) }
        ensures vain { OnErr result (FailsSync S.log self.old self.new) }
        ensures root { (self.new.root ≡ self.old.root) × Holds self.old.hold self.new.hold }
        ensures faults { self.new.faults ≡ self.old.faults }
        ensures calls { OnOk result (SyncsDone S.log self.old self.new) }
        ensures cleared { OnOk result (Clears self.old self.new) }
    {
        if self.broken {
            return Err(refused());
        }
        if !self.is_held()? {
            return Ok(());
        }
        let done = self.sync_changed();
        self.end_sync(done)
    }
}
