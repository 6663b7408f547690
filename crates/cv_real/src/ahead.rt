//! Files that threads read ahead, while the program goes on.
ghost use Rattle.std.specs.Prelude.{◌≡◌, ◌≢◌, ◌↔◌, ◌<◌, ◌≤◌, [], All, length, string_bytes, IfOk, IfSome, IsSome, IsTrue};
ghost use Rattle.sha1.specs.Sha1.{sha1};
ghost use Rattle.cv_base.specs.ObjectId.{object_id};
ghost use Rattle.cv_base.specs.declared.id.Kind.TheVariants.{Plain};
ghost use Rattle.cv_real.specs.AheadInner.{InnermostIs, NothingHeld, TakesNext, folders, held, names};
ghost use Rattle.cv_real.specs.declared.ahead.TheConstants.{SMALL_LIMIT, THREAD_LIMIT};

use crate::front::{front_of, named};
use crate::system_calls::SystemCalls;
use cv_base::{NoMemory, Object, Text};
use cv_ports::{FolderItem, FoundKind};
use cv_system::looks::{find_file, open_found};
use std::alloc::Global;
use std::collections::VecDeque;
use std::fs::File;
use std::marker::Model;
use std::mem;
use std::rt::Files;
use std::snapshot::Snapshot;
use std::thread::{Promise, PromisedHandle, Threads, spawn_with};

/// How many files a thread reads, one after another.
pub const GROUP_SIZE: usize = 16;

/// How many threads are at it at most.
pub const THREAD_LIMIT: usize = 4;

/// How many directories are begun at most: the one that is read, and those above it.
pub const DIRECTORY_LIMIT: usize = 6;

/// The most bytes of a file that is kept, 64 KiB.
pub const SMALL_LIMIT: usize = 65_536;

/// How many bytes of a file are read at most: one more, so that a longer file shows.
pub const AHEAD_LIMIT: usize = SMALL_LIMIT + 1;

/// A small file that was read, under the id that its bytes have.
#[derive(Drop)]
struct SmallFile {
    object: Object,
}

impl Model for SmallFile {
    ghost use Rattle.std.specs.Prelude.{◌≡◌, ◌≤◌, length};
    ghost use Rattle.sha1.specs.Sha1.{sha1};
    ghost use Rattle.cv_base.specs.ObjectId.{object_id};
    ghost use Rattle.cv_base.specs.declared.id.Kind.TheVariants.{Plain};
    ghost use Rattle.cv_base.specs.declared.object.Object.{Object};
    ghost use Rattle.cv_real.specs.declared.ahead.TheConstants.{SMALL_LIMIT};

    ghost Value = { Object };

    ghost view = { λ f. f.object };

    ghost invariant = { λ f. (f.object.id ≡ object_id (sha1 f.object.bytes) Plain) × (length f.object.bytes ≤ SMALL_LIMIT) };
}

impl SmallFile {
    /// This object, unless it is too long.
    fn of(object: Object) -> Option<SmallFile>
        requires { object.id ≡ object_id (sha1 object.bytes) Plain }
    {
        if object.bytes.as_slice().len() > SMALL_LIMIT {
            return None;
        }
        Some(SmallFile { object })
    }

    /// The object.
    fn into_object(self) -> Object
        ensures object { result ≡ self }
        ensures named { result.id ≡ object_id (sha1 result.bytes) Plain }
        ensures limit { length result.bytes ≤ SMALL_LIMIT }
    {
        self.object
    }
}

/// A file that was found and opened, and how long it was then.
#[derive(Drop)]
struct Opened {
    file: File,
    size: u64,
}

/// A file of a directory: opened for a thread, and then what the thread has read of it, if it could.
#[derive(Drop)]
pub struct FileAhead {
    name: Text,
    opened: Option<Opened>,
    read: Option<SmallFile>,
}

impl FileAhead {
    /// The file of this name, which isn't opened yet.
    fn new(name: Text) -> FileAhead
        ensures { result.name ≡ name }
    {
        FileAhead {
            name,
            opened: None,
            read: None,
        }
    }

    /// What was read of it, if it could be read and is small.
    pub fn into_object(self) -> Option<Object>
        ensures object { result ≡ self.read }
        ensures named { IfSome result (λ object. object.id ≡ object_id (sha1 object.bytes) Plain) }
        ensures limit { IfSome result (λ object. length object.bytes ≤ SMALL_LIMIT) }
    {
        Some(self.read?.into_object())
    }
}

/// A directory whose files are read ahead, in the order of its listing.
#[derive(Drop)]
struct Directory {
    /// Its path, with a slash at its end.
    folder: String,
    /// How many bytes of the path aren't looked at.
    from: usize,
    /// The groups of files that no thread has yet.
    waiting: VecDeque<Vec<FileAhead>>,
    /// The files that threads have read and nobody has taken.
    ready: VecDeque<FileAhead>,
}

/// The regular files among these items, in groups.
fn groups_of(alloc: Global, items: &[FolderItem]) -> Result<VecDeque<Vec<FileAhead>>, NoMemory> {
    let mut groups = VecDeque::new(alloc);
    let mut group = Vec::new(alloc);
    for item in items {
        if matches!(item.kind, FoundKind::File) {
            group.push(FileAhead::new(item.name.copy(alloc)?))?;
        }
        if group.len() >= GROUP_SIZE {
            groups.push_back(mem::replace(&mut group, Vec::new(alloc)))?;
        }
    }
    if !group.is_empty() {
        groups.push_back(group)?;
    }
    Ok(groups)
}

impl Directory {
    /// The directory at a path with these items, of which nothing was read yet.
    fn new(
        alloc: Global,
        folder: String,
        from: usize,
        items: &[FolderItem],
    ) -> Result<Directory, NoMemory>
        ensures folder { IfOk result (λ directory. directory.folder ≡ folder) }
        ensures ready { IfOk result (λ directory. directory.ready.items ≡ []) }
    {
        Ok(Directory {
            folder,
            from,
            waiting: groups_of(alloc, items)?,
            ready: VecDeque::new(alloc),
        })
    }

    /// Keeps files that were read. One for which there is no memory is read again.
    fn keep(&mut self, files: Vec<FileAhead>)
        ensures { self.new.folder ≡ self.old.folder }
    {
        for file in files {
            let _ = self.ready.push_back(file);
        }
    }

    /// The file of this name, where it is the next one that was read.
    fn take(&mut self, name: &str) -> Option<FileAhead>
        ensures next { TakesNext name.now result self.old.ready.items self.new.ready.items }
        ensures folder { self.new.folder ≡ self.old.folder }
    {
        if self.ready.front()?.name.as_str() != name {
            return None;
        }
        self.ready.pop_front()
    }
}

/// The file of a name in a folder, opened, if it can be and is small: any other is looked for once more, when it is asked for. The
/// first `from` bytes of the folder's path aren't looked at.
fn open_small<R: Files<File = File> + AllocGlobal + Threads + Drop>(
    system: &mut SystemCalls<R>,
    folder: &str,
    from: usize,
    name: &str,
) -> Option<Opened> {
    let mut path = String::from_str(system.rt().alloc(), folder).ok()?;
    path.push_str(name).ok()?;
    let found = find_file(system, path.as_str(), from).ok()??;
    if found.length > SMALL_LIMIT as u64 {
        return None;
    }
    let file = open_found(system, path.as_str(), &found).ok()?;
    Some(Opened {
        file,
        size: found.length,
    })
}

/// Opens each of these files of a folder.
fn open_each<R: Files<File = File> + AllocGlobal + Threads + Drop>(
    system: &mut SystemCalls<R>,
    folder: &str,
    from: usize,
    files: Vec<FileAhead>,
) -> Vec<FileAhead>
    ensures { names result.items ≡ names files.items }
{
    let mut files = files;
    for file in files.iter_mut() {
        file.opened = open_small(system, folder, from, file.name.as_str());
    }
    files
}

/// What a file has, if it can be read and is small.
fn read_small(alloc: Global, opened: Opened) -> Option<SmallFile> {
    let Opened { file, size } = opened;
    SmallFile::of(named(front_of(alloc, file, size, AHEAD_LIMIT).ok()?))
}

/// Reads each of these files that is open, and closes it.
fn read_each(alloc: Global, files: Vec<FileAhead>) -> Vec<FileAhead>
    ensures { names result.items ≡ names files.items }
{
    let mut files = files;
    for file in files.iter_mut() {
        if let Some(opened) = file.opened.take() {
            file.read = read_small(alloc, opened);
        }
    }
    files
}

/// The files that a thread is given: it gives back files of the same names, each in its place.
#[derive(Drop)]
struct SameNames(Snapshot<Vec<FileAhead>>);

impl Promise<Vec<FileAhead>> for SameNames {
    ghost kept_by = { λ given files. names files.items ≡ names given.0.value.items };
}

/// A thread that reads a group of files. Where it is let go it is waited for.
struct Reader<R: Threads + Drop> {
    rt: R,
    thread: PromisedHandle<Vec<FileAhead>, SameNames>,
}

impl<R: Threads + Drop> Drop for Reader<R> {
    fn drop(self) {
        let Reader { rt, thread } = self;
        let _ = thread.join(&rt);
    }
}

impl<R: Threads + Drop> Reader<R> {
    /// Waits for the files.
    fn end(self) -> Vec<FileAhead>
        ensures { names result.items ≡ names self.thread.promise.0.value.items }
    {
        let Reader { rt, thread } = self;
        thread.join(&rt)
    }
}

impl<R: Files<File = File> + AllocGlobal + Threads + Clone + Drop> Reader<R> {
    /// Opens these files of a directory, and has a thread read them. None where none can be started: then each of them is opened
    /// once more, when it is asked for.
    fn start(
        system: &mut SystemCalls<R>,
        directory: &Directory,
        files: Vec<FileAhead>,
    ) -> Option<Reader<R>>
        ensures { IfSome result (λ reader. names reader.thread.promise.0.value.items
            ≡ names files.items) }
    {
        let rt = system.rt().clone().ok()?;
        let alloc = rt.alloc();
        let files = open_each(system, directory.folder.as_str(), directory.from, files);
        let given = SameNames(Snapshot::of(&files));
        let thread = spawn_with(&rt, given, move || read_each(alloc, files)).ok()?;
        Some(Reader { rt, thread })
    }
}

/// The directories whose files are read ahead, each in the one before it, and the threads that read.
///
/// The files of a group are opened before its thread is started, so no more than 64 that are read ahead are open. Of the innermost
/// directory up to `THREAD_LIMIT` groups are at work, and the rest of one waits that was read; of each of the others as much was
/// read, and waits. So beside a record of some hundred bytes for each file of these directories no more than `DIRECTORY_LIMIT`
/// times `THREAD_LIMIT + 1` groups of files of at most 64 KiB are kept, 30 MiB. Where more directories than `DIRECTORY_LIMIT` are
/// in one another the outermost is forgotten, and what wasn't read of it isn't read ahead. Each thread is waited for in the end.
#[derive(Drop)]
pub struct ReadAhead<R: Threads + Drop> {
    /// The innermost one is the last.
    directories: Vec<Directory>,
    /// Those that read the innermost directory's files, in the order of the files.
    readers: VecDeque<Reader<R>>,
}

impl<R: Threads + Drop> ReadAhead<R> {
    /// Nothing is read ahead.
    pub fn new(alloc: Global) -> ReadAhead<R>
        ensures readers { result.readers.items ≡ [] }
        ensures directories { result.directories.items ≡ [] }
    {
        ReadAhead {
            directories: Vec::new(alloc),
            readers: VecDeque::new(alloc),
        }
    }

    /// Forgets all that was begun.
    pub fn forget(&mut self)
        ensures readers { self.new.readers.items ≡ [] }
        ensures directories { self.new.directories.items ≡ [] }
    {
        self.readers.clear();
        self.directories.clear();
    }

    /// Lets go the directories in which this folder isn't.
    fn leave(&mut self, folder: &str)
        ensures { length self.new.readers.items ≤ length self.old.readers.items }
    {
        while let Some(directory) = self.directories.last() {
            if folder.starts_with(directory.folder.as_str()) {
                return;
            }
            self.readers.clear();
            let _ = self.directories.pop();
        }
    }

    /// Forgets what was begun of a folder, and makes room for one more.
    fn make_room(&mut self, folder: &str)
        ensures readers { self.new.readers ≡ self.old.readers }
        ensures others { All (λ directory. string_bytes directory.folder ≢ folder.now)
            self.new.directories.items }
    {
        self.directories
            .retain(|directory| directory.folder.as_str() != folder);
        if self.directories.len() >= DIRECTORY_LIMIT {
            let _ = self.directories.remove(0);
        }
    }

    /// Keeps files that were read of the innermost directory.
    fn keep(&mut self, files: Vec<FileAhead>)
        ensures readers { self.new.readers ≡ self.old.readers }
        ensures folders { folders self.new.directories.items ≡ folders self.old.directories.items }
    {
        if let Some(directory) = self.directories.last_mut() {
            directory.keep(files);
        }
    }

    /// Waits for the threads that are at work, and keeps what they read: then no file is open any more. Whether any was at work.
    pub fn end_all(&mut self) -> bool
        ensures readers { self.new.readers.items ≡ [] }
        ensures worked { IsTrue result ↔ (0 < length self.old.readers.items) }
    {
        let worked = !self.readers.is_empty();
        while let Some(reader) = self.readers.pop_front() {
            self.keep(reader.end());
        }
        worked
    }

    /// Whether the innermost directory is this folder.
    fn is_at(&self, folder: &str) -> bool
        ensures { IsTrue result → InnermostIs folder.now (folders self.now.directories.items) }
    {
        match self.directories.last() {
            Some(directory) => directory.folder.as_str() == folder,
            None => false,
        }
    }

    /// Whether a file of the innermost directory was read and not taken.
    fn is_ready(&self) -> bool {
        match self.directories.last() {
            Some(directory) => !directory.ready.is_empty(),
            None => false,
        }
    }
}

impl<R: Files<File = File> + AllocGlobal + Threads + Clone + Drop> ReadAhead<R> {
    /// Has a thread read the next group of the innermost directory, if there is one, unless all threads are at work.
    fn start_next(&mut self, system: &mut SystemCalls<R>)
        ensures threads { length self.old.readers.items ≤ THREAD_LIMIT
            → length self.new.readers.items ≤ THREAD_LIMIT }
        ensures held { held self.new.directories.items ≡ held self.old.directories.items }
    {
        if self.readers.len() >= THREAD_LIMIT {
            return;
        }
        let Some(directory) = self.directories.last_mut() else {
            return;
        };
        let Some(files) = directory.waiting.pop_front() else {
            return;
        };
        if let Some(reader) = Reader::start(system, directory, files) {
            let _ = self.readers.push_back(reader);
        }
    }

    /// Has threads read the next groups of the innermost directory.
    fn start_all(&mut self, system: &mut SystemCalls<R>)
        ensures threads { length self.old.readers.items ≤ THREAD_LIMIT
            → length self.new.readers.items ≤ THREAD_LIMIT }
        ensures held { held self.new.directories.items ≡ held self.old.directories.items }
    {
        for _ in 0..THREAD_LIMIT {
            self.start_next(system);
        }
    }

    /// Begins to read the regular files among the items of a folder, whose path ends in a slash. The first `from` bytes of the
    /// path aren't looked at. What was begun of this folder before is forgotten, and where memory is wanting nothing is begun.
    pub fn begin(
        &mut self,
        system: &mut SystemCalls<R>,
        folder: String,
        from: usize,
        items: &[FolderItem],
    )
        ensures threads { length self.new.readers.items ≤ THREAD_LIMIT }
        ensures anew { NothingHeld (string_bytes folder) (held self.new.directories.items) }
    {
        self.leave(folder.as_str());
        let _ = self.end_all();
        self.make_room(folder.as_str());
        let Ok(directory) = Directory::new(system.rt().alloc(), folder, from, items) else {
            return;
        };
        if self.directories.push(directory).is_ok() {
            self.start_all(system);
        }
    }

    /// Waits for the next group of the innermost directory where nothing is ready, and begins the one behind those at work.
    fn refill(&mut self, system: &mut SystemCalls<R>)
        ensures threads { length self.old.readers.items ≤ THREAD_LIMIT
            → length self.new.readers.items ≤ THREAD_LIMIT }
        ensures folders { folders self.new.directories.items ≡ folders self.old.directories.items }
    {
        if self.is_ready() {
            return;
        }
        self.start_all(system);
        if let Some(reader) = self.readers.pop_front() {
            self.keep(reader.end());
            self.start_next(system);
        }
    }

    /// The file of a name in a folder, whose path ends in a slash: where it is the next one of the innermost directory.
    pub fn take(
        &mut self,
        system: &mut SystemCalls<R>,
        folder: &str,
        name: &str,
    ) -> Option<FileAhead>
        ensures name { IfSome result (λ file. file.name ≡ name.now) }
        ensures folder { IsSome result
            → InnermostIs folder.now (folders self.new.directories.items) }
        ensures threads { length self.old.readers.items ≤ THREAD_LIMIT
            → length self.new.readers.items ≤ THREAD_LIMIT }
    {
        self.leave(folder);
        if !self.is_at(folder) {
            return None;
        }
        self.refill(system);
        self.directories.last_mut()?.take(name)
    }
}
