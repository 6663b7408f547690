//! The system's own calls, as a vault over a folder asks for them.
#![tactic(auto, unfolding(cv_system::specs::Calls::and_call))]

ghost use Rattle.std.specs.Prelude.{◌≡◌, [], None};
ghost use Rattle.std.specs.Fs.{file_type, metadata_len};
ghost use Rattle.cv_real.specs.SeenInner.{IsKind};

use crate::begun::BegunSyncs;
use cv_system::{Kind, Seen, System};
use std::alloc::Global;
use std::fs::{File, Metadata, TryLockError};
use std::io::{Read, Write};
use std::os::unix::fs::MetadataExt;
use std::rt::Files;
use std::thread::Threads;
use std::{fs, io};

/// The calls of the system that this runtime has. They tell nothing: that each does what it says is trusted.
#[derive(Drop)]
pub struct SystemCalls<R: Files<File = File> + AllocGlobal + Drop> {
    rt: R,
    begun: BegunSyncs,
}

/// What kind of thing has this metadata.
fn kind_of(found: &Metadata) -> Kind
    ensures { IsKind (file_type found.now) result }
{
    if found.is_dir() {
        Kind::Folder
    } else if found.is_file() {
        Kind::File
    } else {
        Kind::Other
    }
}

/// What is seen of what has this metadata.
pub fn seen_of(found: &Metadata) -> Seen
    ensures kind { IsKind (file_type found.now) result.kind }
    ensures length { result.length ≡ metadata_len found.now }
{
    Seen {
        kind: kind_of(found),
        device: found.dev(),
        inode: found.ino(),
        links: found.nlink(),
        length: found.len(),
    }
}

impl<R: Files<File = File> + AllocGlobal + Drop> SystemCalls<R> {
    /// The calls of this runtime.
    pub fn new(rt: R) -> SystemCalls<R>
        ensures { result.rt ≡ rt }
    {
        let begun = BegunSyncs::new(rt.alloc());
        SystemCalls { rt, begun }
    }

    /// The runtime.
    pub(crate) fn rt(&self) -> &R
        ensures { result.now ≡ self.now.rt }
    {
        &self.rt
    }
}

impl<R: Files<File = File> + AllocGlobal + Threads + Drop> System for SystemCalls<R> {
    type File = File;

    type Names = R::Dir;

    ghost log = { λ s. None };

    ghost place = { λ f. [] };

    ghost folder = { λ n. [] };

    fn look(&mut self, path: &str) -> io::Result<Seen> {
        let found = fs::symlink_metadata(&self.rt, path)?;
        Ok(seen_of(&found))
    }

    fn open(&mut self, path: &str) -> io::Result<File> {
        fs::open(&self.rt, path)
    }

    fn create_new(&mut self, path: &str) -> io::Result<File> {
        File::create_new(&self.rt, path)
    }

    fn write_all(&mut self, file: &mut File, bytes: &[u8]) -> io::Result<()> {
        file.write_all(bytes)
    }

    fn sync(&mut self, file: &File) -> io::Result<()> {
        file.sync_all()
    }

    fn begin_sync(&mut self, file: File) -> io::Result<()> {
        self.begun.begin(&self.rt, file)
    }

    fn end_syncs(&mut self) -> io::Result<()> {
        self.begun.end(&self.rt)
    }

    fn check(&mut self, file: &File) -> io::Result<Seen> {
        let found = file.metadata()?;
        Ok(seen_of(&found))
    }

    fn read_to_end(&mut self, alloc: Global, file: File, room: usize) -> io::Result<Vec<u8>> {
        let mut file = file;
        let mut bytes = Vec::with_capacity(alloc, room)?;
        file.read_to_end(&mut bytes)?;
        Ok(bytes)
    }

    fn lock(&mut self, file: &File) -> io::Result<bool> {
        match file.try_lock() {
            Ok(()) => Ok(true),
            Err(TryLockError::WouldBlock) => Ok(false),
            Err(TryLockError::Error(error)) => Err(error),
        }
    }

    fn rename(&mut self, from: &str, to: &str) -> io::Result<()> {
        fs::rename(&self.rt, from, to)
    }

    fn remove_file(&mut self, path: &str) -> io::Result<()> {
        fs::remove_file(&self.rt, path)
    }

    fn make_folder(&mut self, path: &str) -> io::Result<()> {
        fs::create_dir(&self.rt, path)
    }

    fn remove_folder(&mut self, path: &str) -> io::Result<()> {
        fs::remove_dir(&self.rt, path)
    }

    fn open_names(&mut self, path: &str) -> io::Result<R::Dir> {
        self.rt.open_dir(path)
    }

    fn read_names(&mut self, names: &mut R::Dir, buffer: &mut [u8]) -> io::Result<usize> {
        names.read(buffer)
    }
}
