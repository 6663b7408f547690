//! A folder of changes over a real folder.
ghost use Rattle.std.specs.Prelude.{◌≡◌, ◌≤◌, ◌↔◌, ◌++◌, [], ◌∷◌, length, IfOk, IfSome, IsOk, IsSome, OnErr, None, string_bytes};
ghost use Rattle.std.specs.IoError.{error_kind, raw_os_error};
ghost use Rattle.sha1.specs.Sha1.{sha1};
ghost use Rattle.cv_base.specs.Counts.{HasCause};
ghost use Rattle.cv_base.specs.ObjectId.{object_id};
ghost use Rattle.cv_base.specs.declared.id.Kind.TheVariants.{Plain};
ghost use Rattle.cv_ports.specs.Folder.{Ascend};
ghost use Rattle.cv_ports.specs.declared.folder.FolderFault.TheVariants.{Failed, NoMemory};
ghost use Rattle.cv_ports.specs.declared.folder.TheConstants.{FOLDER_READ_LIMIT};
ghost use Rattle.cv_real.specs.ListingInner.{below};

use crate::ahead::{FileAhead, ReadAhead};
use crate::count::FaultCount;
use crate::front::{named, read_front};
use crate::listing::items_of;
use crate::system_calls::SystemCalls;
use cv_base::{Items, Object, PathName, RepoPath, Text};
use cv_ports::{FOLDER_READ_LIMIT, Folder, FolderFault, FolderItem};
use cv_system::looks::{find_file, has_folders, is_memory};
use std::alloc::Global;
use std::fs::File;
use std::io;
use std::io::ErrorKind;
use std::rt::Files;
use std::thread::Threads;

/// A real folder, which may be given by a link. What is behind a link below it is neither listed nor read, and nothing but
/// folders and regular files is opened. It tells the name, and nothing of content.
///
/// A call fails where the path isn't, through folders alone, that of a folder to list or of a regular file to read; where the
/// folder or file can't be read; and where no folder was named. A listing fails where a name or the text of a link isn't
/// UTF-8. Of a mode it gives the twelve permission bits, and of a time the whole seconds, or 0 before 1970.
///
/// Behind a listing threads read the small files of the directory ahead, as `ReadAhead` says. A file that couldn't be read so is
/// read when it is asked for, so each fault is of the call that asked. And where that call fails while files are open for threads,
/// it waits for these, which closes the files, and tries once more: so no fault is of the open files either.
///
/// Nobody else may change the folder meanwhile. A file that took another's place is not read, but a pipe that takes one's
/// place in the moment in which it is opened blocks the call that opens it, which may be the listing, or the read of a file
/// before it.
#[derive(Drop)]
pub struct SystemFolder<R: Files<File = File> + AllocGlobal + Threads + Clone + Drop> {
    system: SystemCalls<R>,
    /// The folder's path as it was given, once one was.
    name: Option<Text>,
    faults: FaultCount,
    ahead: ReadAhead<R>,
}

/// The path of the folder of this name, with a slash at its end.
fn root_path(alloc: Global, name: &str) -> io::Result<String>
    ensures { IfOk result (λ path. string_bytes path ≡ name.now ++ 47 ∷ []) }
{
    let mut path = String::from_str(alloc, name)?;
    path.push('/')?;
    Ok(path)
}

/// The path of the folder behind these names, from a folder on whose path ends in a slash.
fn folder_path(alloc: Global, root: &str, names: &[PathName]) -> io::Result<String>
    ensures { IfOk result (λ path. string_bytes path ≡ below root.now names.now) }
{
    let mut path = String::from_str(alloc, root)?;
    for name in names {
        path.push_str(name.as_str())?;
        path.push('/')?;
    }
    Ok(path)
}

/// The items of the directory at a path with a slash at its end. The first `from` bytes of the path aren't looked at.
fn items_at<R: Files<File = File> + AllocGlobal + Threads + Clone + Drop>(
    system: &mut SystemCalls<R>,
    alloc: Global,
    folder: &str,
    from: usize,
) -> io::Result<Items<FolderItem>>
    ensures { IfOk result (λ items. Ascend items) }
{
    if !has_folders(system, folder, from)? {
        return Err(io::Error::from(ErrorKind::NotADirectory));
    }
    items_of(system.rt(), alloc, folder)
}

/// The content of the file at a path. The first `from` bytes of the path aren't looked at.
fn content_at<R: Files<File = File> + AllocGlobal + Threads + Drop>(
    system: &mut SystemCalls<R>,
    alloc: Global,
    path: &str,
    from: usize,
) -> io::Result<Object>
    ensures named { IfOk result (λ object. object.id ≡ object_id (sha1 object.bytes) Plain) }
    ensures length { IfOk result (λ object. length object.bytes ≤ FOLDER_READ_LIMIT) }
{
    let Some(found) = find_file(system, path, from)? else {
        return Err(io::Error::from(ErrorKind::NotFound));
    };
    let bytes = read_front(system, alloc, path, &found, FOLDER_READ_LIMIT)?;
    Ok(named(bytes))
}

impl<R: Files<File = File> + AllocGlobal + Threads + Clone + Drop> SystemFolder<R> {
    /// A folder that isn't named yet: until then no path leads to anything.
    pub fn new(rt: R) -> SystemFolder<R>
        ensures faults { result.faults.number ≡ 0 }
        ensures name { result.name ≡ None }
        ensures runtime { result.system.rt ≡ rt }
    {
        let ahead = ReadAhead::new(rt.alloc());
        SystemFolder {
            system: SystemCalls::new(rt),
            name: None,
            faults: FaultCount::new(),
            ahead,
        }
    }

    /// The path of the folder, with a slash at its end.
    fn root_now(&self, alloc: Global) -> io::Result<String>
        ensures named { IsOk result → IsSome self.now.name }
        ensures path { IfOk result (λ path. IfSome self.now.name
            (λ name. string_bytes path ≡ name ++ 47 ∷ [])) }
    {
        match &self.name {
            Some(name) => root_path(alloc, name.as_str()),
            None => Err(io::Error::from(ErrorKind::InvalidInput)),
        }
    }

    /// The items of the directory at a path, as `items_at`: where that fails, while no file is open for a thread.
    fn items_apart(
        &mut self,
        alloc: Global,
        folder: &str,
        from: usize,
    ) -> io::Result<Items<FolderItem>>
        ensures ascend { IfOk result (λ items. Ascend items) }
        ensures closed { OnErr result (self.new.ahead.readers.items ≡ []) }
        ensures name { self.new.name ≡ self.old.name }
        ensures faults { self.new.faults ≡ self.old.faults }
    {
        let items = items_at(&mut self.system, alloc, folder, from);
        if items.is_err() && self.ahead.end_all() {
            return items_at(&mut self.system, alloc, folder, from);
        }
        items
    }

    /// The content of the file at a path, as `content_at`: where that fails, while no file is open for a thread.
    fn content_apart(&mut self, alloc: Global, path: &str, from: usize) -> io::Result<Object>
        ensures named { IfOk result (λ object. object.id ≡ object_id (sha1 object.bytes) Plain) }
        ensures length { IfOk result (λ object. length object.bytes ≤ FOLDER_READ_LIMIT) }
        ensures closed { OnErr result (self.new.ahead.readers.items ≡ []) }
        ensures name { self.new.name ≡ self.old.name }
        ensures faults { self.new.faults ≡ self.old.faults }
    {
        let object = content_at(&mut self.system, alloc, path, from);
        if object.is_err() && self.ahead.end_all() {
            return content_at(&mut self.system, alloc, path, from);
        }
        object
    }

    fn list_now(&mut self, alloc: Global, path: &RepoPath) -> io::Result<Items<FolderItem>>
        ensures ascend { IfOk result (λ items. Ascend items) }
        ensures name { self.new.name ≡ self.old.name }
        ensures faults { self.new.faults ≡ self.old.faults }
    {
        let root = self.root_now(alloc)?;
        let folder = folder_path(alloc, root.as_str(), path.names())?;
        let from = root.len();
        let items = self.items_apart(alloc, folder.as_str(), from)?;
        self.ahead
            .begin(&mut self.system, folder, from, items.as_slice());
        Ok(items)
    }

    fn read_now(&mut self, alloc: Global, path: &RepoPath) -> io::Result<Object>
        ensures named { IfOk result (λ object. object.id ≡ object_id (sha1 object.bytes) Plain) }
        ensures length { IfOk result (λ object. length object.bytes ≤ FOLDER_READ_LIMIT) }
        ensures name { self.new.name ≡ self.old.name }
        ensures faults { self.new.faults ≡ self.old.faults }
    {
        let Some((last, above)) = path.names().split_last() else {
            return Err(io::Error::from(ErrorKind::IsADirectory));
        };
        let root = self.root_now(alloc)?;
        let mut file = folder_path(alloc, root.as_str(), above)?;
        let ahead = self
            .ahead
            .take(&mut self.system, file.as_str(), last.as_str());
        if let Some(object) = ahead.and_then(FileAhead::into_object) {
            return Ok(object);
        }
        file.push_str(last.as_str())?;
        self.content_apart(alloc, file.as_str(), root.len())
    }

    /// Want of memory, or one more fault.
    fn fault_of(&mut self, error: &io::Error) -> FolderFault
        ensures memory { (result ≡ NoMemory)
            ↔ (error_kind error.now ≡ ErrorKind.OutOfMemory) × (raw_os_error error.now ≡ None) }
        ensures cause { HasCause self.old.faults.number self.new.faults.number (result ≡ Failed) }
        ensures name { self.new.name ≡ self.old.name }
    {
        if is_memory(error) {
            return FolderFault::NoMemory;
        }
        self.faults.raise();
        FolderFault::Failed
    }
}

impl<R: Files<File = File> + AllocGlobal + Threads + Clone + Drop> Folder for SystemFolder<R> {
    ghost holds = { λ f. None };

    ghost folder = { λ f. None };

    ghost named = { λ f. f.name };

    ghost faults = { λ f. f.faults.number };

    /// Takes the name alone: what stands there is looked at by the later calls. The empty name fails.
    fn root(&mut self, alloc: Global, name: &str) -> Result<(), FolderFault> {
        self.ahead.forget();
        if name.is_empty() {
            self.faults.raise();
            return Err(FolderFault::Failed);
        }
        self.name = Some(Text::from_str(alloc, name)?);
        Ok(())
    }

    fn list(&mut self, alloc: Global, path: &RepoPath) -> Result<Items<FolderItem>, FolderFault> {
        match self.list_now(alloc, path) {
            Ok(items) => Ok(items),
            Err(error) => Err(self.fault_of(&error)),
        }
    }

    fn read(&mut self, alloc: Global, path: &RepoPath) -> Result<Object, FolderFault> {
        match self.read_now(alloc, path) {
            Ok(object) => Ok(object),
            Err(error) => Err(self.fault_of(&error)),
        }
    }
}
