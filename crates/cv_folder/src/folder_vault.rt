//! A vault over a folder.
ghost use Rattle.std.specs.Prelude.{◌≡◌, ◌≢◌, ◌⊎◌, [], true, false, None, Ok, Err, IfErr, IfOk, IsErrOf, IsTrue, OnErr, OnOk, is_ok, string_bytes, ⊤};
ghost use Rattle.cv_base.specs.Counts.{HasCause};
ghost use Rattle.cv_vault.specs.Disk.{Reads, Measures, Lists, Writes, Renames, Removes, Syncs};
ghost use Rattle.cv_vault.specs.declared.vault.VaultFault.TheVariants.{Failed, NoMemory};
ghost use Rattle.cv_folder.specs.Causes.{FailsBy, FailsToMove, FailsToRead, FailsToWrite, Tells, WantsMemory};
ghost use Rattle.cv_folder.specs.FolderVault.{Acts, Adds, AsksAlone, Clears, Fails, Holds, HoldsFirst, HoldsOrMakes, IsAboveName, Notes, Rests, Serves, Stays, SyncsDone, Untold, faults_after};
ghost use Rattle.cv_folder.specs.Hold.{IsHeld};
ghost use Rattle.cv_folder.specs.Listed.{FailsToList, IsListed, ListsNamed};
ghost use Rattle.cv_system.specs.Calls.{Cause};
ghost use Rattle.cv_system.specs.Names.{folder_of, is_name, next_of, path_of};
ghost use Rattle.cv_folder.specs.Noted.{is_noted};
ghost use Rattle.cv_folder.specs.Reads.{MeasuresNamed, ReadsNamed};
ghost use Rattle.cv_folder.specs.Unsynced.{FailsSync};
ghost use Rattle.cv_folder.specs.Within.{NamesWhole, StaysWithin};
ghost use Rattle.cv_folder.specs.Writes.{MovesNamed, RemovesNamed, WritesFile};

use crate::hold::Hold;
use cv_base::{Bytes, Text};
use cv_system::{PathBuffer, System, Walk};
use cv_vault::{Vault, VaultFault};
use std::alloc::{AllocError, Global};

/// A vault over a folder of regular files, in which each name is the path below the folder, but for a way: a name `txn/<part>`
/// of one part stands at the file `.cvkit-txn-<part>` of the folder itself.
///
/// A name has parts between slashes, none of which is empty, `.`, `..` or begins with `.cvkit-`, and no byte of it is NUL.
/// Each call with another text fails. A name is there exactly where a regular file stands at it and folders stand above it
/// up to the vault's own. Links, special files and what stands behind a link to a folder aren't names: no call opens
/// or removes one, but a write or a rename takes the place of one at its last part. It tells nothing of content.
///
/// A write makes a new file beside the name, makes its bytes durable and then gives it the name, so that a name has whole
/// files at all times, and a file that others have under another name isn't changed. Only a way is made anew at its own
/// path, and the sync of its bytes is begun: what stood there is removed first, and gone also where the write fails behind
/// that, and a crash before the next sync is done may leave a part of the bytes under the way, or others, as of each name
/// that was written since the last one. A way that is renamed by then leaves that to its new name, which no later process
/// makes durable. A sync ends the syncs that were begun, and then makes the folders durable that changed since the last one.
/// The first sync of a process makes all durable that a process before it may have left in the system's memory: each regular
/// file that stands at a way, the folder above the vault's, the vault's own and each one below it. It passes over a folder
/// that this process may not read only where it may look nothing up in it: each call of a name there fails too. Where the
/// system lost what was written to a file or a folder it says so once, so each later sync fails until the process ends. The
/// constructor takes the memory that a sync wants, however many folders there are: no sync takes any.
///
/// One vault at a time holds a folder, by the system's lock on it. Over a network the lock keeps out the vaults of the same
/// machine alone. Nobody else may change the folder meanwhile.
#[derive(Drop)]
pub struct FolderVault<S: System + Drop> {
    pub(crate) system: S,
    pub(crate) alloc: Global,
    /// The folder's path, without a slash at its end.
    pub(crate) root: String,
    /// The path of the name that a call is about.
    pub(crate) path: PathBuffer,
    /// The path of the adapter's own file beside that name.
    pub(crate) next: PathBuffer,
    /// The folders to be synced.
    pub(crate) folders: Vec<String>,
    /// Whether all folders are to be synced, also those that an earlier process changed.
    pub(crate) is_unsettled: bool,
    /// The room of the sync that goes over all folders.
    pub(crate) walk: Walk,
    pub(crate) hold: Hold<S::File>,
    /// Whether the system lost what was written to a file or a folder.
    pub(crate) broken: bool,
    /// How many calls failed. The count stays at its last value.
    pub(crate) faults: u64,
}

impl<S: System + Drop> FolderVault<S> {
    /// The vault over the folder at this path, which need not be there yet. It takes the memory of each later sync, and opens
    /// nothing: the first call holds the folder. Where another vault holds it then, each call fails. Where it can't be opened
    /// or locked that call fails, and the next one tries again.
    pub fn new(alloc: Global, system: S, root: &str) -> Result<FolderVault<S>, AllocError>
        ensures faults { IfOk result (λ vault. vault.faults ≡ 0) }
        ensures root { IfOk result (λ vault. string_bytes vault.root ≡ root.now) }
        ensures system { IfOk result (λ vault. vault.system ≡ system) }
        ensures fresh { IfOk result (λ vault. (vault.folders.items ≡ [])
            × (vault.is_unsettled ≡ false)
            × (vault.hold ≡ Hold.Unasked) × (vault.broken ≡ false)) }
    {
        Ok(FolderVault {
            system,
            alloc,
            root: String::from_str(alloc, root)?,
            path: PathBuffer::new(alloc)?,
            next: PathBuffer::new(alloc)?,
            folders: Vec::new(alloc),
            is_unsettled: false,
            walk: Walk::new(alloc)?,
            hold: Hold::Unasked,
            broken: false,
            faults: 0,
        })
    }

    /// The system, once the vault is done with. Its hold of the folder ends.
    pub fn into_system(self) -> S
        ensures { result ≡ self.system }
    {
        self.system
    }
}

impl<S: System + Drop> Vault for FolderVault<S> {
    ghost disk = { λ v. None };

    ghost faults = { λ v. v.faults };

    ghost count = { λ v. 0 };

    ghost left = { λ v m f. ⊤ };

    ghost counts_now = { λ v m f before image. tt };

    ghost only_now = { λ v f left. tt };

    fn read(&mut self, name: &str) -> Result<Option<Bytes>, VaultFault>
        ensures call { Untold (Reads name.now result) self.old self.new }
        ensures cause { HasCause self.old.faults self.new.faults (IsErrOf result Failed) }
        ensures faults { self.new.faults ≡ faults_after result self.old.faults }
        ensures refused { OnOk result (Serves self.old name.now) }
        ensures stays { Stays self.old self.new }
        ensures holds { HoldsFirst self.old self.new }
        ensures calls { Acts S.log (ReadsNamed (string_bytes self.old.root) name.now self.new.hold
            result) self.old self.new }
        ensures why { IfErr result (λ fault. Tells fault (λ cause. FailsToRead
            (string_bytes self.old.root) name.now self.new.hold cause
            (S.log self.old.system) (S.log self.new.system))) }
        ensures within { StaysWithin (string_bytes self.old.root)
            (S.log self.old.system) (S.log self.new.system) }
    {
        match self.read_now(name) {
            Ok(bytes) => Ok(bytes),
            Err(error) => Err(self.fault_of(&error)),
        }
    }

    fn length(&mut self, name: &str) -> Result<Option<u64>, VaultFault>
        ensures call { Untold (Measures name.now result) self.old self.new }
        ensures cause { HasCause self.old.faults self.new.faults (IsErrOf result Failed) }
        ensures faults { self.new.faults ≡ faults_after result self.old.faults }
        ensures refused { OnOk result (Serves self.old name.now) }
        ensures stays { Stays self.old self.new }
        ensures holds { HoldsFirst self.old self.new }
        ensures calls { Acts S.log (MeasuresNamed (string_bytes self.old.root) name.now
            self.new.hold result) self.old self.new }
        ensures why { IfErr result (λ fault. Tells fault (λ cause. FailsBy
            (string_bytes self.old.root) name.now self.new.hold cause
            (S.log self.old.system) (S.log self.new.system))) }
        ensures within { StaysWithin (string_bytes self.old.root)
            (S.log self.old.system) (S.log self.new.system) }
    {
        match self.length_now(name) {
            Ok(length) => Ok(length),
            Err(error) => Err(self.fault_of(&error)),
        }
    }

    fn list(&mut self, prefix: &str) -> Result<Vec<Text>, VaultFault>
        ensures call { Untold (Lists prefix.now result) self.old self.new }
        ensures listed { IfOk result (λ names. IsListed prefix.now names.items) }
        ensures refused { OnOk result (self.old.hold ≢ Hold.Refused) }
        ensures cause { HasCause self.old.faults self.new.faults (IsErrOf result Failed) }
        ensures faults { self.new.faults ≡ faults_after result self.old.faults }
        ensures stays { Stays self.old self.new }
        ensures holds { HoldsFirst self.old self.new }
        ensures calls { Acts S.log (ListsNamed (string_bytes self.old.root) self.new.hold result)
            self.old self.new }
        ensures within { StaysWithin (string_bytes self.old.root)
            (S.log self.old.system) (S.log self.new.system) }
        ensures why { IfErr result (λ fault. Tells fault (λ cause. FailsToList self.new.hold cause
            (S.log self.old.system) (S.log self.new.system))) }
    {
        match self.list_now(prefix) {
            Ok(names) => Ok(names),
            Err(error) => Err(self.fault_of(&error)),
        }
    }

    fn write(&mut self, name: &str, bytes: &[u8]) -> Result<(), VaultFault>
        ensures call { Untold (Writes name.now bytes.now result) self.old self.new }
        ensures cause { HasCause self.old.faults self.new.faults (IsErrOf result Failed) }
        ensures faults { self.new.faults ≡ faults_after result self.old.faults }
        ensures refused { OnOk result (Serves self.old name.now × IsHeld self.new.hold) }
        ensures noted { OnOk result (Notes self.new name.now) }
        ensures adds { Adds (λ folder. (folder ≡ folder_of (string_bytes self.old.root))
            ⊎ IsAboveName self.old name.now folder) self.old self.new }
        ensures holds { HoldsOrMakes self.old.hold self.new.hold }
        ensures calls { WritesFile (string_bytes self.old.root) name.now bytes.now self.old.hold
            self.new.hold self.new.is_unsettled (is_noted self.new.folders.items) (is_ok result)
            (S.log self.old.system) (S.log self.new.system) }
        ensures why { IfErr result (λ fault. Tells fault (λ cause. WantsMemory cause
            (S.log self.old.system) (S.log self.new.system)
            ⊎ FailsToWrite (string_bytes self.old.root) name.now self.new.hold cause
            (S.log self.old.system) (S.log self.new.system))) }
        ensures no_name { is_name name.now ≡ false → AsksAlone S.log self.old self.new }
        ensures within { StaysWithin (string_bytes self.old.root)
            (S.log self.old.system) (S.log self.new.system) }
        ensures whole { NamesWhole (next_of (string_bytes self.old.root) name.now)
            (path_of (string_bytes self.old.root) name.now) bytes.now
            (S.log self.old.system) (S.log self.new.system) }
    {
        match self.write_now(name, bytes) {
            Ok(()) => Ok(()),
            Err(error) => Err(self.fault_of(&error)),
        }
    }

    fn rename(&mut self, from: &str, to: &str) -> Result<bool, VaultFault>
        ensures call { Untold (Renames from.now to.now result) self.old self.new }
        ensures cause { HasCause self.old.faults self.new.faults (IsErrOf result Failed) }
        ensures faults { self.new.faults ≡ faults_after result self.old.faults }
        ensures refused { OnOk result (Serves self.old from.now × Serves self.old to.now) }
        ensures other { OnOk result (from.now ≢ to.now) }
        ensures left { result ≡ Ok true → Notes self.new from.now }
        ensures noted { result ≡ Ok true → Notes self.new to.now }
        ensures adds { Adds (λ folder. (folder
            ≡ folder_of (path_of (string_bytes self.old.root) from.now))
            ⊎ IsAboveName self.old to.now folder) self.old self.new }
        ensures holds { HoldsFirst self.old self.new }
        ensures calls { from.now ≢ to.now → IsTrue (is_name to.now)
            → Acts S.log (MovesNamed (string_bytes self.old.root) from.now to.now self.new.hold
            (is_noted self.new.folders.items) result) self.old self.new }
        ensures rests { (from.now ≡ to.now) ⊎ (is_name to.now ≡ false)
            → Rests S.log self.old self.new }
        ensures why { IfErr result (λ fault. Tells fault (λ cause. WantsMemory cause
            (S.log self.old.system) (S.log self.new.system)
            ⊎ FailsToMove (string_bytes self.old.root) from.now to.now self.new.hold cause
            (S.log self.old.system) (S.log self.new.system))) }
        ensures within { StaysWithin (string_bytes self.old.root)
            (S.log self.old.system) (S.log self.new.system) }
    {
        match self.rename_now(from, to) {
            Ok(found) => Ok(found),
            Err(error) => Err(self.fault_of(&error)),
        }
    }

    fn remove(&mut self, name: &str) -> Result<bool, VaultFault>
        ensures call { Untold (Removes name.now result) self.old self.new }
        ensures cause { HasCause self.old.faults self.new.faults (IsErrOf result Failed) }
        ensures faults { self.new.faults ≡ faults_after result self.old.faults }
        ensures memory { result ≢ Err NoMemory }
        ensures refused { OnOk result (Serves self.old name.now) }
        ensures noted { result ≡ Ok true → Notes self.new name.now ⊎ IsTrue self.new.is_unsettled }
        ensures adds { Adds (λ folder. folder
            ≡ folder_of (path_of (string_bytes self.old.root) name.now)) self.old self.new }
        ensures holds { HoldsFirst self.old self.new }
        ensures calls { Acts S.log (RemovesNamed (string_bytes self.old.root) name.now self.new.hold
            (is_noted self.new.folders.items) self.new.is_unsettled result) self.old self.new }
        ensures why { OnErr result ((cause : Cause) × FailsBy
            (string_bytes self.old.root) name.now self.new.hold cause
            (S.log self.old.system) (S.log self.new.system)) }
        ensures within { StaysWithin (string_bytes self.old.root)
            (S.log self.old.system) (S.log self.new.system) }
    {
        match self.remove_now(name) {
            Ok(found) => Ok(found),
            Err(_) => Err(self.fault()),
        }
    }

    fn sync(&mut self) -> Result<(), VaultFault>
        ensures call { Untold (Syncs result) self.old self.new }
        ensures cause { HasCause self.old.faults self.new.faults (IsErrOf result Failed) }
        ensures faults { self.new.faults ≡ faults_after result self.old.faults }
        ensures memory { result ≢ Err NoMemory }
        ensures lost { OnOk result ((self.old.broken ≡ false) × (self.new.broken ≡ false)) }
        ensures refused { OnOk result (self.old.hold ≢ Hold.Refused) }
        ensures fails { OnErr result (Fails self.old self.new × HoldsFirst self.old self.new) }
        ensures vain { OnErr result (FailsSync S.log self.old self.new) }
        ensures root { (self.new.root ≡ self.old.root) × Holds self.old.hold self.new.hold }
        ensures calls { OnOk result (SyncsDone S.log self.old self.new) }
        ensures cleared { OnOk result (Clears self.old self.new) }
        ensures within { StaysWithin (string_bytes self.old.root)
            (S.log self.old.system) (S.log self.new.system) }
    {
        match self.sync_now() {
            Ok(()) => Ok(()),
            Err(_) => Err(self.fault()),
        }
    }
}
