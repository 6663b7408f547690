//! A folder in memory.
ghost use Rattle.std.specs.Prelude.{◌≡◌, ◌≤◌, ◌↔◌, [], length, unwrap_or, None, Some, IfOk, IfSome, IsSome, IsErrOf, IsTrue, OnOk, OnErr, is_some, option_copied};
ghost use Rattle.std.specs.FinMap.{find};
ghost use Rattle.sha1.specs.Sha1.{sha1};
ghost use Rattle.cv_base.specs.Counts.{HasCause};
ghost use Rattle.cv_base.specs.ObjectId.{object_id};
ghost use Rattle.cv_base.specs.Path.{path_cmp};
ghost use Rattle.cv_base.specs.Told.{WhereTold};
ghost use Rattle.cv_base.specs.declared.id.Kind.TheVariants.{Plain};
ghost use Rattle.cv_ports.specs.Calls.{fails, called};
ghost use Rattle.cv_ports.specs.Folder.{Ascend, IsOrdered, read_front};
ghost use Rattle.cv_ports.specs.MemoryFolder.{AllAscend, holding, under_each};
ghost use Rattle.cv_ports.specs.MemoryFolderInner.{all_ascend};
ghost use Rattle.cv_ports.specs.declared.folder.FolderFault.TheVariants as fault;
ghost use Rattle.cv_ports.specs.declared.folder.TheConstants.{FOLDER_READ_LIMIT};

use crate::ascending::ascend;
use crate::failing_calls::FailingCalls;
use crate::folder::{FOLDER_READ_LIMIT, Folder, FolderFault, FolderItem};
use cv_base::{Bytes, Items, Kind, NoMemory, Object, ObjectId, RepoPath, Text};
use std::alloc::Global;
use std::marker::Model;

/// Holds stated directories and files. A directory or a file that isn't among them is empty.
#[derive(Drop)]
pub struct MemoryFolder {
    directories: Vec<(RepoPath, Items<FolderItem>)>,
    files: Vec<(RepoPath, Bytes)>,
    named: Option<Text>,
    calls: FailingCalls,
}

impl Model for MemoryFolder {
    ghost use Rattle.cv_ports.specs.MemoryFolder.{MemoryFolderView, AllAscend};

    ghost Value = { MemoryFolderView };

    ghost view = { λ m. record { directories = m.directories.items; files = m.files.items; named = m.named; calls = m.calls } };

    ghost invariant = { λ m. AllAscend m.directories.items };
}

impl MemoryFolder {
    /// Holds these directories and files, of those at one path the first. Its calls are numbered from 1, and those of the
    /// numbers in `failing` fail. None where the names of a directory's items don't ascend by their bytes.
    #[tactic(auto, using(crate::proofs::Folders::all_passed, crate::proofs::Folders::all_pass))]
    pub fn new(
        directories: Vec<(RepoPath, Items<FolderItem>)>,
        files: Vec<(RepoPath, Bytes)>,
        failing: Vec<u64>,
    ) -> Option<MemoryFolder>
        ensures holds { IfSome result (λ made. made ≡ record { directories = directories.items; files = files.items; named = None; calls = record { failing = failing.items; count = 0; faults = 0 } }) }
        ensures some { AllAscend directories.items ↔ IsSome result }
    {
        if !all_ascend(&directories) {
            return None;
        }
        Some(MemoryFolder {
            directories,
            files,
            named: None,
            calls: FailingCalls::new(failing),
        })
    }
}

/// Whether those of each directory do.
fn all_ascend(directories: &[(RepoPath, Items<FolderItem>)]) -> bool
    ensures { result ≡ all_ascend directories.now }
{
    for directory in directories {
        if !ascend(directory.1.as_slice()) {
            return false;
        }
    }
    true
}

/// What stands first at a path.
fn first_at<'a, T>(entries: &'a [(RepoPath, T)], path: &RepoPath) -> Option<&'a T>
    ensures { option_copied result ≡ find path_cmp path.now entries.now }
{
    for entry in entries {
        if *path == entry.0 {
            return Some(&entry.1);
        }
    }
    None
}

/// Equal items.
fn copies(alloc: Global, items: &[FolderItem]) -> Result<Items<FolderItem>, NoMemory>
    ensures { IfOk result (λ made. made ≡ items.now) }
{
    let mut copies = Vec::new(alloc);
    for item in items {
        copies.push(item.copy(alloc)?)?;
    }
    Ok(Items::new(copies))
}

/// The items of the directory at a path.
fn listing(
    alloc: Global,
    directories: &[(RepoPath, Items<FolderItem>)],
    path: &RepoPath,
) -> Result<Items<FolderItem>, NoMemory>
    ensures { IfOk result (λ items. items ≡ unwrap_or (find path_cmp path.now directories.now) []) }
{
    match first_at(directories, path) {
        Some(items) => copies(alloc, items.as_slice()),
        None => Ok(Items::new(Vec::new(alloc))),
    }
}

/// The first of these bytes, so far as a file is read.
#[tactic(auto, using(std::proofs::lemmas::List::take_min))]
fn front(alloc: Global, bytes: &[u8]) -> Result<Bytes, NoMemory>
    ensures front { IfOk result (λ made. made ≡ read_front bytes.now) }
    ensures limit { IfOk result (λ made. length made ≤ FOLDER_READ_LIMIT) }
{
    let count = FOLDER_READ_LIMIT.min(bytes.len());
    Bytes::from_slice(alloc, &bytes[..count])
}

/// What is read of the content of the file at a path.
fn content(alloc: Global, files: &[(RepoPath, Bytes)], path: &RepoPath) -> Result<Bytes, NoMemory>
    ensures front { IfOk result (λ bytes. bytes ≡ read_front (unwrap_or (find path_cmp path.now files.now) [])) }
    ensures limit { IfOk result (λ bytes. length bytes ≤ FOLDER_READ_LIMIT) }
{
    match first_at(files, path) {
        Some(bytes) => front(alloc, bytes.as_slice()),
        None => Ok(Bytes::new(Vec::new(alloc))),
    }
}

impl Folder for MemoryFolder {
    ghost holds = { λ m. Some (under_each m) };

    ghost folder = { λ m. Some (holding m) };

    ghost named = { λ m. m.named };

    ghost faults = { λ m. m.calls.faults };

    /// Any name is taken: the folder of each holds the same.
    fn root(&mut self, alloc: Global, name: &str) -> Result<(), FolderFault>
        ensures opens { WhereTold (Some (under_each self.old)) (λ of. OnOk result (Some (holding self.new) ≡ Some (of name.now))) }
        ensures lasts { Some (under_each self.new) ≡ Some (under_each self.old) }
        ensures named { OnOk result (self.new.named ≡ Some name.now) }
        ensures tells { is_some (Some (holding self.new)) ≡ is_some (Some (holding self.old)) }
        ensures unchanged { OnErr result (Some (holding self.new) ≡ Some (holding self.old)) }
        ensures unnamed { OnErr result (self.new.named ≡ self.old.named) }
        ensures cause { HasCause self.old.calls.faults self.new.calls.faults (IsErrOf result fault.Failed) }
        ensures failing { IsErrOf result fault.Failed ↔ IsTrue (fails self.old.calls) }
        ensures after { self.new ≡ record self.old { named = self.new.named; calls = called self.old.calls } }
    {
        if self.calls.next_fails() {
            return Err(FolderFault::Failed);
        }
        self.named = Some(Text::from_str(alloc, name)?);
        Ok(())
    }

    #[tactic(auto, using(crate::proofs::Folders::ordered, crate::proofs::Folders::found_ascend))]
    fn list(&mut self, alloc: Global, path: &RepoPath) -> Result<Items<FolderItem>, FolderFault>
        ensures told { WhereTold (Some (holding self.old)) (λ holds. IfOk result (λ items. items ≡ holds.items path.now)) }
        ensures ascend { IfOk result (λ items. Ascend items) }
        ensures ordered { WhereTold (Some (holding self.old)) IsOrdered }
        ensures unchanged { Some (holding self.new) ≡ Some (holding self.old) }
        ensures stays { self.new.named ≡ self.old.named }
        ensures lasts { Some (under_each self.new) ≡ Some (under_each self.old) }
        ensures cause { HasCause self.old.calls.faults self.new.calls.faults (IsErrOf result fault.Failed) }
        ensures failing { IsErrOf result fault.Failed ↔ IsTrue (fails self.old.calls) }
        ensures after { self.new ≡ record self.old { calls = called self.old.calls } }
    {
        if self.calls.next_fails() {
            return Err(FolderFault::Failed);
        }
        let items = listing(alloc, &self.directories, path)?;
        Ok(items)
    }

    fn read(&mut self, alloc: Global, path: &RepoPath) -> Result<Object, FolderFault>
        ensures told { WhereTold (Some (holding self.old)) (λ holds. IfOk result (λ object. object.bytes ≡ read_front (holds.content path.now))) }
        ensures limit { IfOk result (λ object. length object.bytes ≤ FOLDER_READ_LIMIT) }
        ensures named { IfOk result (λ object. object.id ≡ object_id (sha1 object.bytes) Plain) }
        ensures unchanged { Some (holding self.new) ≡ Some (holding self.old) }
        ensures stays { self.new.named ≡ self.old.named }
        ensures lasts { Some (under_each self.new) ≡ Some (under_each self.old) }
        ensures cause { HasCause self.old.calls.faults self.new.calls.faults (IsErrOf result fault.Failed) }
        ensures failing { IsErrOf result fault.Failed ↔ IsTrue (fails self.old.calls) }
        ensures after { self.new ≡ record self.old { calls = called self.old.calls } }
    {
        if self.calls.next_fails() {
            return Err(FolderFault::Failed);
        }
        let bytes = content(alloc, &self.files, path)?;
        let id = ObjectId::of(Kind::Plain, bytes.as_slice());
        Ok(Object { id, bytes })
    }
}
