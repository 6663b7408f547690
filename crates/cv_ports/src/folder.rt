//! Where a folder of changes stands.
ghost use Rattle.std.specs.Prelude.{◌≡◌, ℕ, List, Option, Some, IfOk, OnOk, OnErr, IsErrOf, is_some, length, ◌≤◌};
ghost use Rattle.sha1.specs.Sha1.{sha1};
ghost use Rattle.cv_base.specs.Counts.{HasCause};
ghost use Rattle.cv_base.specs.ObjectId.{object_id};
ghost use Rattle.cv_base.specs.Told.{WhereTold};
ghost use Rattle.cv_base.specs.declared.id.Kind.TheVariants.{Plain};
ghost use Rattle.cv_ports.specs.Folder.{FolderView, Folders, Ascend, IsOrdered, read_front};
ghost use Rattle.cv_ports.specs.declared.folder.FolderFault.TheVariants as fault;
ghost use Rattle.cv_ports.specs.declared.folder.TheConstants.{FOLDER_READ_LIMIT};

use cv_base::{Items, NoMemory, OBJECT_LIMIT, Object, RepoPath, Text};
use std::alloc::Global;

/// The most bytes that are read of a file: one more than an object may have, so that a longer file shows.
pub const FOLDER_READ_LIMIT: usize = OBJECT_LIMIT + 1;

/// What stands under a name.
#[derive(Debug, Drop)]
pub enum FoundKind {
    /// A directory.
    Dir,
    /// A regular file.
    File,
    /// A symbolic link, with the text that it leads to.
    Link(Text),
    /// Anything else, as a pipe or a device.
    Special,
}

impl FoundKind {
    /// An equal kind.
    pub fn copy(&self, alloc: Global) -> Result<FoundKind, NoMemory>
        ensures { IfOk result (λ made. made ≡ self.now) }
    {
        match self {
            FoundKind::Dir => Ok(FoundKind::Dir),
            FoundKind::File => Ok(FoundKind::File),
            FoundKind::Link(target) => Ok(FoundKind::Link(target.copy(alloc)?)),
            FoundKind::Special => Ok(FoundKind::Special),
        }
    }
}

/// One item of a directory.
#[derive(Debug, Drop)]
pub struct FolderItem {
    /// Its name, which may be any text.
    pub name: Text,
    /// What it is.
    pub kind: FoundKind,
    /// The mode as the system gives it.
    pub mode: u32,
    /// The time of the last change of content, in seconds since 1970.
    pub mtime: u64,
}

impl FolderItem {
    /// An equal item.
    pub fn copy(&self, alloc: Global) -> Result<FolderItem, NoMemory>
        ensures { IfOk result (λ made. made ≡ self.now) }
    {
        Ok(FolderItem {
            name: self.name.copy(alloc)?,
            kind: self.kind.copy(alloc)?,
            mode: self.mode,
            mtime: self.mtime,
        })
    }
}

/// Why a folder gave no answer.
#[derive(Clone, Copy, Debug, PartialEq, Eq)]
pub enum FolderFault {
    /// The folder failed. The count of faults rose in this call.
    Failed,
    /// There was no memory.
    NoMemory,
}

impl From<NoMemory> for FolderFault {
    ghost from_gives = { λ _ e. e ≡ fault.NoMemory };

    fn from(_fault: NoMemory) -> FolderFault {
        FolderFault::NoMemory
    }
}

/// Folders by their names, of which one is open. They tell what they hold or they don't. Only `root` changes which one is open,
/// and no call changes what one of them holds.
pub trait Folder {
    /// What the folder of each name holds, where it tells.
    ghost holds: { Self → Option Folders };

    /// What the open one holds, where it tells.
    ghost folder: { Self → Option FolderView };

    /// The name of the folder at which paths begin, as it was given, once one was given.
    ghost named: { Self → Option (List ℕ) };

    /// How many of its calls failed, so far as 64 bits can count.
    ghost faults: { Self → ℕ };

    /// Opens the folder of a name, at which the paths of the later calls begin. What it holds is told where that of each name is,
    /// and where it was told before. A call that failed opens none.
    fn root(&mut self, alloc: Global, name: &str) -> Result<(), FolderFault>
        ensures opens { WhereTold (holds self.old) (λ of. OnOk result (folder self.new ≡ Some (of name.now))) }
        ensures lasts { holds self.new ≡ holds self.old }
        ensures named { OnOk result (named self.new ≡ Some name.now) }
        ensures tells { is_some (folder self.new) ≡ is_some (folder self.old) }
        ensures unchanged { OnErr result (folder self.new ≡ folder self.old) }
        ensures unnamed { OnErr result (named self.new ≡ named self.old) }
        ensures cause { HasCause (faults self.old) (faults self.new) (IsErrOf result fault.Failed) };

    /// The items of the directory at a path, in the order of the bytes of their names.
    fn list(&mut self, alloc: Global, path: &RepoPath) -> Result<Items<FolderItem>, FolderFault>
        ensures told { WhereTold (folder self.old) (λ holds. IfOk result (λ items. items ≡ holds.items path.now)) }
        ensures ascend { IfOk result (λ items. Ascend items) }
        ensures ordered { WhereTold (folder self.old) IsOrdered }
        ensures unchanged { folder self.new ≡ folder self.old }
        ensures stays { named self.new ≡ named self.old }
        ensures lasts { holds self.new ≡ holds self.old }
        ensures cause { HasCause (faults self.old) (faults self.new) (IsErrOf result fault.Failed) };

    /// The content of the file at a path, of which it gives at most the first `FOLDER_READ_LIMIT` bytes, under the id that they
    /// have. The folder makes the id, since it may hash in other threads than the caller's.
    fn read(&mut self, alloc: Global, path: &RepoPath) -> Result<Object, FolderFault>
        ensures told { WhereTold (folder self.old) (λ holds. IfOk result (λ object. object.bytes ≡ read_front (holds.content path.now))) }
        ensures limit { IfOk result (λ object. length object.bytes ≤ FOLDER_READ_LIMIT) }
        ensures named { IfOk result (λ object. object.id ≡ object_id (sha1 object.bytes) Plain) }
        ensures unchanged { folder self.new ≡ folder self.old }
        ensures stays { named self.new ≡ named self.old }
        ensures lasts { holds self.new ≡ holds self.old }
        ensures cause { HasCause (faults self.old) (faults self.new) (IsErrOf result fault.Failed) };
}
