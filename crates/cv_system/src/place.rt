//! Where a walk over folders is.
ghost use Rattle.std.specs.Prelude.{◌≡◌, ◌↔◌, ◌⊎◌, ◌+◌, ◌≤◌, ◌<◌, ◌++◌, [], ◌∷◌, All, drop, length, map, IfOk, IfErr, IfSome, IsOk, IsErr, IsSome, IsTrue, OnErr, OnOk, true, false, if◌then◌else◌};
ghost use Rattle.std.specs.IoError.{error_kind};
ghost use Rattle.cv_system.specs.Calls.{cause_of};
ghost use Rattle.cv_system.specs.declared.path_buffer.TheConstants.{PATH_ROOM};
ghost use Rattle.cv_system.specs.Passed.{IsOpen, IsShut, Passes, StopsAt};
ghost use Rattle.cv_system.specs.Syncs.{ClearsFolder, FailsFolder, FailsTop, PassesFolder, SettlesFolder};
ghost use Rattle.cv_system.specs.Walks.{FailsToLook, IsNext, LooksAt, LooksFor, comes_next, first_of, folder_in, is_inside, with_path};

use crate::ahead::Ahead;
use crate::looks::{hides_no_name, seen, seen_entry};
use crate::names::{NEXT, is_part};
use crate::path_buffer::PathBuffer;
use crate::seen::{Kind, Seen};
use crate::syncing::{Unsynced, sync_at, sync_folder, told};
use crate::system::System;
use std::alloc::{AllocError, Global};
use std::io;
use std::io::ErrorKind;

/// Whether this process may not do what it asked for.
fn is_refused(error: &io::Error) -> bool
    ensures { IsTrue result ↔ (error_kind error.now ≡ ErrorKind.PermissionDenied) }
{
    matches!(error.kind(), ErrorKind::PermissionDenied)
}

/// Whether this process may look nothing up in a folder, by what was seen at the path of `.` in it.
fn tells_shut(seen: &io::Result<Option<Seen>>) -> bool
    ensures { IsTrue result ↔ IsErr seen.now
        × IfErr seen.now (λ error. error_kind error ≡ ErrorKind.PermissionDenied) }
{
    match seen {
        Ok(_) => false,
        Err(error) => is_refused(error),
    }
}

/// Whether a folder was seen.
fn is_folder(seen: &Option<Seen>) -> bool
    ensures { IsTrue result ↔ IsSome seen.now × IfSome seen.now (λ found. found.kind ≡ Kind.Folder) }
{
    match seen {
        Some(found) => found.is_folder(),
        None => false,
    }
}

/// Whether a path comes next: behind the last one, and before the end of what is kept, if there is no room for more.
fn comes_next(path: &str, last: &str, end: &str) -> bool
    ensures { result ≡ comes_next path.now last.now end.now }
{
    last < path && (end.is_empty() || path < end)
}

/// Where a walk over folders is. Each folder's path ends in a slash, and they come in the order of the bytes of these paths:
/// so all that stands in a folder comes behind it, and before what comes behind that.
#[derive(Drop)]
pub struct Place {
    /// The folder that is read.
    pub folder: PathBuffer,
    /// The folder that was gone into last. Each one before it was gone into too.
    pub last: PathBuffer,
    /// The folders behind it that are known. None is left out before one that is kept.
    pub ahead: Ahead,
    /// What is looked at.
    pub entry: PathBuffer,
    /// The same as a folder.
    found: PathBuffer,
}

impl Place {
    /// Nowhere yet.
    pub fn new(alloc: Global) -> Result<Place, AllocError>
        ensures folder { IfOk result (λ place. place.folder ≡ []) }
        ensures last { IfOk result (λ place. place.last ≡ []) }
        ensures ahead { IfOk result (λ place. All (λ path. path ≡ []) place.ahead) }
    {
        Ok(Place {
            folder: PathBuffer::new(alloc)?,
            last: PathBuffer::new(alloc)?,
            ahead: Ahead::new(alloc)?,
            entry: PathBuffer::new(alloc)?,
            found: PathBuffer::new(alloc)?,
        })
    }

    /// Comes to the folder at the top of a walk, whose path has no slash at its end.
    pub fn begin(&mut self, top: &str) -> Result<(), Unsynced>
        ensures fits { IsOk result ↔ (length top.now + 1 < PATH_ROOM) }
        ensures long { OnErr result (PATH_ROOM ≤ length top.now + 1) }
        ensures folder { OnOk result (self.new.folder ≡ top.now ++ 47 ∷ []) }
        ensures last { OnOk result (self.new.last ≡ top.now ++ 47 ∷ []) }
        ensures ahead { self.new.ahead ≡ map (λ _. []) self.old.ahead }
        ensures ends { IfErr result (λ unsynced. unsynced ≡ Unsynced.NotOpened) }
    {
        self.ahead.clear();
        if !self.folder.set(top, "/") || !self.last.set(top, "/") {
            return Err(Unsynced::NotOpened);
        }
        Ok(())
    }

    /// Whether this process may look nothing up in the folder, so that no call of the vault tells of a name there. Nothing
    /// stands at a path that is longer than the system takes.
    fn is_shut<S: System>(&mut self, system: &mut S) -> bool
        ensures folder { self.new.folder ≡ self.old.folder }
        ensures last { self.new.last ≡ self.old.last }
        ensures ahead { self.new.ahead ≡ self.old.ahead }
        ensures found { self.new.found ≡ self.old.found }
        ensures shut { IsTrue result → IsShut self.old.folder (S.log system.old) (S.log system.new) }
        ensures open { result ≡ false → IsOpen self.old.folder (S.log system.old) (S.log system.new) }
    {
        if !self.entry.set(self.folder.as_str(), ".") {
            return true;
        }
        tells_shut(&seen(system, self.entry.as_str()))
    }

    /// Passes over an error in the folder where no name of the vault is behind it. Any other ends the sync.
    pub fn pass_over<S: System>(
        &mut self,
        system: &mut S,
        error: &io::Error,
    ) -> Result<(), Unsynced>
        ensures folder { self.new.folder ≡ self.old.folder }
        ensures last { self.new.last ≡ self.old.last }
        ensures ahead { self.new.ahead ≡ self.old.ahead }
        ensures found { self.new.found ≡ self.old.found }
        ensures passes { OnOk result (Passes self.old.folder (cause_of error.now) (S.log system.old)
            (S.log system.new)) }
        ensures stops { OnErr result (StopsAt self.old.folder (cause_of error.now) (S.log system.old)
            (S.log system.new)) }
        ensures ends { IfErr result (λ unsynced. unsynced ≡ Unsynced.NotOpened) }
    {
        if hides_no_name(error) {
            return Ok(());
        }
        if !is_refused(error) {
            return Err(Unsynced::NotOpened);
        }
        if !self.is_shut(system) {
            return Err(Unsynced::NotOpened);
        }
        Ok(())
    }

    /// Whether what has this name comes next, if it is a folder. Its paths are then set. Nothing stands in a folder whose path
    /// is longer than the system takes.
    fn is_next(&mut self, name: &str) -> bool
        ensures next { IsTrue result ↔ IsNext self.old.folder self.old.last name.now self.old.ahead }
        ensures folder { self.new.folder ≡ self.old.folder }
        ensures last { self.new.last ≡ self.old.last }
        ensures ahead { self.new.ahead ≡ self.old.ahead }
        ensures entry { IsTrue result → self.new.entry ≡ self.old.folder ++ name.now }
        ensures found { IsTrue result → self.new.found ≡ folder_in self.old.folder name.now }
    {
        if !is_part(name) || !self.entry.set(self.folder.as_str(), name) {
            return false;
        }
        if !self.found.set(self.entry.as_str(), "/") {
            return false;
        }
        comes_next(self.found.as_str(), self.last.as_str(), self.ahead.end())
    }

    /// Whether a folder stands at what is looked at. What this process may not look at is passed over where it may look
    /// nothing up in the folder.
    fn is_folder<S: System>(&mut self, system: &mut S) -> Result<bool, Unsynced>
        ensures folder { self.new.folder ≡ self.old.folder }
        ensures last { self.new.last ≡ self.old.last }
        ensures ahead { self.new.ahead ≡ self.old.ahead }
        ensures found { self.new.found ≡ self.old.found }
        ensures looks { IfOk result (λ is. LooksFor self.old.folder self.old.entry is
            (S.log system.old) (S.log system.new)) }
        ensures fails { OnErr result (FailsToLook self.old.folder self.old.entry
            (S.log system.old) (S.log system.new)) }
        ensures ends { IfErr result (λ unsynced. unsynced ≡ Unsynced.NotOpened) }
    {
        match seen_entry(system, self.entry.as_str()) {
            Ok(seen) => Ok(is_folder(&seen)),
            Err(error) => {
                self.pass_over(system, &error)?;
                Ok(false)
            }
        }
    }

    /// Keeps the path that was found, if a folder stands there.
    fn keep_if(&mut self, is_folder: bool)
        ensures folder { self.new.folder ≡ self.old.folder }
        ensures last { self.new.last ≡ self.old.last }
        ensures ahead { self.new.ahead
            ≡ (if is_folder then with_path self.old.found self.old.ahead else self.old.ahead) }
    {
        if is_folder {
            self.ahead.keep(&mut self.found);
        }
    }

    /// Looks at what has this name, and keeps its path if it is a folder that comes next. No text that isn't UTF-8 is a name of
    /// the vault.
    pub fn look<S: System>(&mut self, system: &mut S, bytes: &[u8]) -> Result<(), Unsynced>
        ensures folder { self.new.folder ≡ self.old.folder }
        ensures last { self.new.last ≡ self.old.last }
        ensures looks { OnOk result (LooksAt self.old.folder self.old.last bytes.now self.old.ahead
            self.new.ahead (S.log system.old) (S.log system.new)) }
        ensures fails { OnErr result (FailsToLook self.old.folder (self.old.folder ++ bytes.now)
            (S.log system.old) (S.log system.new)) }
        ensures ends { IfErr result (λ unsynced. unsynced ≡ Unsynced.NotOpened) }
    {
        let Ok(name) = str::from_utf8(bytes) else {
            return Ok(());
        };
        if !self.is_next(name) {
            return Ok(());
        }
        let is_folder = self.is_folder(system)?;
        self.keep_if(is_folder);
        Ok(())
    }

    /// Whether the first folder that is kept stands in this one.
    pub fn is_above_next(&self) -> bool
        ensures { result ≡ is_inside self.now.folder self.now.ahead }
    {
        self.ahead
            .first()
            .as_bytes()
            .starts_with(self.folder.as_str().as_bytes())
    }

    /// Goes into the folder that comes next, which stands in this one.
    pub fn enter(&mut self)
        requires { IsTrue (is_inside self.old.folder self.old.ahead) }
        ensures folder { self.new.folder ≡ first_of self.old.ahead }
        ensures last { self.new.last ≡ first_of self.old.ahead }
        ensures ahead { self.new.ahead ≡ drop 1 self.old.ahead ++ [] ∷ [] }
    {
        self.ahead.take_first(&mut self.folder);
        self.last.copy(self.folder.as_str());
    }

    /// Removes what an earlier process left in the folder.
    fn remove_left<S: System>(&mut self, system: &mut S)
        ensures folder { self.new.folder ≡ self.old.folder }
        ensures last { self.new.last ≡ self.old.last }
        ensures ahead { self.new.ahead ≡ self.old.ahead }
        ensures calls { ClearsFolder self.old.folder (S.log system.old) (S.log system.new) }
    {
        if !self.entry.set(self.folder.as_str(), NEXT) {
            return;
        }
        let _ = system.remove_file(self.entry.as_str());
    }

    /// Removes what an earlier process left in the folder at the top of the walk, and makes it durable. It isn't passed over.
    pub fn settle_top<S: System>(&mut self, system: &mut S) -> Result<(), Unsynced>
        ensures folder { self.new.folder ≡ self.old.folder }
        ensures last { self.new.last ≡ self.old.last }
        ensures ahead { self.new.ahead ≡ self.old.ahead }
        ensures settles { OnOk result (SettlesFolder self.old.folder (S.log system.old)
            (S.log system.new)) }
        ensures fails { IfErr result (λ unsynced. FailsTop self.old.folder unsynced
            (S.log system.old) (S.log system.new)) }
    {
        self.remove_left(system);
        sync_folder(system, self.folder.as_str())
    }

    /// Removes what an earlier process left in the folder, and makes the folder durable. One in which this process may look
    /// nothing up is passed over, if it may not read it.
    pub fn settle<S: System>(&mut self, system: &mut S) -> Result<(), Unsynced>
        ensures folder { self.new.folder ≡ self.old.folder }
        ensures last { self.new.last ≡ self.old.last }
        ensures ahead { self.new.ahead ≡ self.old.ahead }
        ensures settles { OnOk result (SettlesFolder self.old.folder (S.log system.old) (S.log system.new)
            ⊎ PassesFolder self.old.folder (S.log system.old) (S.log system.new)) }
        ensures fails { IfErr result (λ unsynced. FailsFolder self.old.folder unsynced
            (S.log system.old) (S.log system.new)) }
    {
        self.remove_left(system);
        match sync_at(system, self.folder.as_str()) {
            Ok(synced) => told(&synced),
            Err(error) => self.pass_over(system, &error),
        }
    }
}
