//! The trait of a vault of whole files.
ghost use Rattle.std.specs.Prelude.{◌≡◌, ◌≢◌, ◌≤◌, ℕ, IsErrOf};
ghost use Rattle.std.specs.declared.option.Option.{Option};
ghost use Rattle.cv_base.specs.Counts.{HasCause};
ghost use Rattle.cv_vault.specs.Disk.{Disk, Files, ImageOf, Reads, Measures, Lists, Writes, Renames, Removes, Syncs};
ghost use Rattle.cv_vault.specs.Moments.{Calls};
ghost use Rattle.cv_vault.specs.declared.vault.VaultFault.TheVariants as fault;

use cv_base::{Bytes, NoMemory, Text};
use std::alloc::AllocError;

/// Why a call of a vault did nothing, or may have done half.
#[derive(Clone, Copy, Debug, PartialEq, Eq)]
pub enum VaultFault {
    /// The disk failed. The count of faults rose in this call.
    Failed,
    /// There was no memory, and nothing changed.
    NoMemory,
}

impl From<NoMemory> for VaultFault {
    ghost from_gives = { λ _ e. e ≡ fault.NoMemory };

    fn from(_fault: NoMemory) -> VaultFault {
        VaultFault::NoMemory
    }
}

impl From<AllocError> for VaultFault {
    ghost from_gives = { λ _ e. e ≡ fault.NoMemory };

    fn from(_fault: AllocError) -> VaultFault {
        VaultFault::NoMemory
    }
}

/// A vault of whole files under names.
///
/// Each name is settled, torn or moved. A settled name is left by a crash as it is. A torn name was written since the
/// last sync that succeeded: a crash leaves it absent or with any bytes. A moved name was renamed or removed since
/// then: a crash leaves it as it was before or as it is now, each moved name by itself.
///
/// A vault tells its disk or it doesn't. One over real files tells nothing of content.
///
/// Each call has a clause `call` for every answer: what it answers, what it makes of the disk, and that a crash inside
/// it leaves what it might have left before the call or after it. Its clause `cause` says that the count of faults never
/// falls, and that the call answers `Failed` only where it rose.
pub trait Vault {
    /// The disk, where the vault tells.
    ghost disk: { Self → Option Disk };

    /// How many faults there were. The count stands still at the last value of a `u64`.
    ghost faults: { Self → ℕ };

    /// How many changes there were.
    ghost count: { Self → ℕ };

    /// A crash at some moment since the count had that value might have left these files.
    ghost left: { Self → ℕ → Files → Type 0 };

    /// The file under a name, if there is one.
    fn read(&mut self, name: &str) -> Result<Option<Bytes>, VaultFault>
        ensures call { Calls disk count left (Reads name.now result) self.old self.new }
        ensures cause { HasCause (faults self.old) (faults self.new) (IsErrOf result fault.Failed) };

    /// How many bytes the file under a name has, if there is one.
    fn length(&mut self, name: &str) -> Result<Option<u64>, VaultFault>
        ensures call { Calls disk count left (Measures name.now result) self.old self.new }
        ensures cause { HasCause (faults self.old) (faults self.new) (IsErrOf result fault.Failed) };

    /// The names that have a file and begin with the prefix, in ascending order of their bytes.
    fn list(&mut self, prefix: &str) -> Result<Vec<Text>, VaultFault>
        ensures call { Calls disk count left (Lists prefix.now result) self.old self.new }
        ensures cause { HasCause (faults self.old) (faults self.new) (IsErrOf result fault.Failed) };

    /// Sets a whole file, whose name is torn until the next sync. After `Failed` the name holds any bytes, or none.
    fn write(&mut self, name: &str, bytes: &[u8]) -> Result<(), VaultFault>
        ensures call { Calls disk count left (Writes name.now bytes.now result) self.old self.new }
        ensures cause { HasCause (faults self.old) (faults self.new) (IsErrOf result fault.Failed) };

    /// Moves a file to another name, and answers false where there is none. Where both names were settled both are moved
    /// until the next sync, and else both are torn. After `Failed` the change was made or it wasn't.
    fn rename(&mut self, from: &str, to: &str) -> Result<bool, VaultFault>
        requires { from.now ≢ to.now }
        ensures call { Calls disk count left (Renames from.now to.now result) self.old self.new }
        ensures cause { HasCause (faults self.old) (faults self.new) (IsErrOf result fault.Failed) };

    /// Removes a file, and answers false where there is none. A settled name is moved until the next sync, and any other
    /// is torn. After `Failed` the change was made or it wasn't. It needs no memory.
    fn remove(&mut self, name: &str) -> Result<bool, VaultFault>
        ensures call { Calls disk count left (Removes name.now result) self.old self.new }
        ensures cause { HasCause (faults self.old) (faults self.new) (IsErrOf result fault.Failed) }
        ensures memory { result ≢ Err fault.NoMemory };

    /// Settles every name. After `Failed` no name is newly settled. It needs no memory.
    fn sync(&mut self) -> Result<(), VaultFault>
        ensures call { Calls disk count left (Syncs result) self.old self.new }
        ensures cause { HasCause (faults self.old) (faults self.new) (IsErrOf result fault.Failed) }
        ensures memory { result ≢ Err fault.NoMemory };

    /// A crash at this moment leaves an image of the disk, which counts among what it might have left since an earlier moment.
    ghost counts_now: { (v : Self) (m : ℕ) (f : Files) → m ≤ count v → ImageOf (disk v) f → left v m f };

    /// Since this moment there is nothing else.
    ghost only_now: { (v : Self) (f : Files) → left v (count v) f → ImageOf (disk v) f };
}
