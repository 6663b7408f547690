//! What stands at a path: a link at its end is told as a link. A folder's path ends in a slash: the system then opens nothing
//! but a folder there.
ghost use Rattle.std.specs.Prelude.{◌≡◌, ◌≢◌, ◌↔◌, ◌<◌, Ok, IfErr, IfOk, OnOk, IsSome, IfSome, IfNone, IsTrue, length, slice_index, take, true, false};
ghost use Rattle.cv_system.specs.Calls.{IsWant, cause_of};
ghost use Rattle.cv_system.specs.Looks.{FailsToOpen, FailsToReadFile, Finds, Looks, LooksAtEntry, MissesFolder, OpensFile, ReadsFile, SeesFolders, folders_at, folders_past};
ghost use Rattle.cv_system.specs.LooksInner.{LooksForFolder};
ghost use Rattle.cv_system.specs.Passed.{HidesNoName};
ghost use Rattle.cv_system.specs.Steps.{EndsFailed, IsLook, IsNothing, Makes};

use crate::seen::Seen;
use crate::system::System;
use std::alloc::Global;
use std::io;
use std::io::ErrorKind;

/// Whether the error is want of memory in this process, and not an error that the system gave.
pub fn is_memory(error: &io::Error) -> bool
    ensures { IsTrue result ↔ IsWant (cause_of error.now) }
{
    matches!(error.kind(), ErrorKind::OutOfMemory) && error.raw_os_error().is_none()
}

/// Whether no name of a vault is behind an error: a path is longer than the system takes, or nothing is there.
pub fn hides_no_name(error: &io::Error) -> bool
    ensures { IsTrue result ↔ HidesNoName (cause_of error.now) }
{
    matches!(
        error.kind(),
        ErrorKind::InvalidFilename | ErrorKind::NotFound
    )
}

/// Whether an error says that nothing stands at a path.
fn is_nothing(error: &io::Error) -> bool
    ensures { IsTrue result ↔ IsNothing (cause_of error.now) }
{
    matches!(error.kind(), ErrorKind::NotFound | ErrorKind::NotADirectory)
}

/// What stands at a path, where something does. Of a link this tells the link itself.
pub fn seen<S: System>(system: &mut S, path: &str) -> io::Result<Option<Seen>>
    ensures { Looks path.now result (S.log system.old) (S.log system.new) }
{
    match system.look(path) {
        Ok(found) => Ok(Some(found)),
        Err(error) if is_nothing(&error) => Ok(None),
        Err(error) => Err(error),
    }
}

/// What stands at an entry of a folder. Nothing stands at one whose path is longer than the system takes.
pub fn seen_entry<S: System>(system: &mut S, path: &str) -> io::Result<Option<Seen>>
    ensures { LooksAtEntry path.now result (S.log system.old) (S.log system.new) }
{
    match seen(system, path) {
        Ok(found) => Ok(found),
        Err(error) if hides_no_name(&error) => Ok(None),
        Err(error) => Err(error),
    }
}

/// The folder whose path ends at this place of a path, if a slash stands there.
pub fn folder_at(path: &str, end: usize) -> Option<&str>
    requires { end < length path.now }
    ensures folder { IfSome result (λ folder. (folder.now ≡ take end path.now)
        × (slice_index path.now end ≡ 47)) }
    ensures none { IfNone result (slice_index path.now end ≢ 47) }
{
    if path.as_bytes()[end] != b'/' {
        return None;
    }
    let (folder, _rest) = path.split_at_checked(end)?;
    Some(folder)
}

/// Whether a folder stands at a path, and no link to one.
fn is_folder<S: System>(system: &mut S, path: &str) -> io::Result<bool>
    ensures { LooksForFolder path.now result (S.log system.old) (S.log system.new) }
{
    match seen(system, path)? {
        Some(found) => Ok(found.is_folder()),
        None => Ok(false),
    }
}

/// Whether a path leads on at this place of it: where a slash stands there, what is before it is a folder, and no link to one.
fn leads_on<S: System>(system: &mut S, path: &str, end: usize) -> io::Result<bool>
    requires { end < length path.now }
    ensures looks { Makes IsLook (S.log system.old) (S.log system.new) }
    ensures through { result ≡ Ok true
        → SeesFolders (folders_at path.now end) (S.log system.old) (S.log system.new) }
    ensures ends { result ≡ Ok false
        → MissesFolder (folders_at path.now end) (S.log system.old) (S.log system.new) }
    ensures fails { IfErr result (λ error. EndsFailed (cause_of error) (S.log system.old)
        (S.log system.new)) }
{
    match folder_at(path, end) {
        Some(folder) => is_folder(system, folder),
        None => Ok(true),
    }
}

/// Whether each folder of the path that stands past the first `from` bytes is a folder, and no link to one.
pub fn has_folders<S: System>(system: &mut S, path: &str, from: usize) -> io::Result<bool>
    ensures looks { Makes IsLook (S.log system.old) (S.log system.new) }
    ensures through { result ≡ Ok true
        → SeesFolders (folders_past from path.now) (S.log system.old) (S.log system.new) }
    ensures ends { result ≡ Ok false
        → MissesFolder (folders_past from path.now) (S.log system.old) (S.log system.new) }
    ensures fails { IfErr result (λ error. EndsFailed (cause_of error) (S.log system.old)
        (S.log system.new)) }
{
    for end in from..path.len() {
        if !leads_on(system, path, end)? {
            return Ok(false);
        }
    }
    Ok(true)
}

/// The regular file at a path, if one is there. The first `from` bytes of the path aren't looked at. Where no file is at the
/// path, whatever leads there, one look is enough. That look may go through a link on the way: a file that it sees counts only
/// where folders alone are on the way, as the looks behind it tell.
pub fn find_file<S: System>(system: &mut S, path: &str, from: usize) -> io::Result<Option<Seen>>
    ensures finds { Finds from path.now result (S.log system.old) (S.log system.new) }
    ensures fails { IfErr result (λ error. EndsFailed (cause_of error) (S.log system.old)
        (S.log system.new)) }
{
    let Some(found) = seen(system, path)?.filter(|found| found.is_file()) else {
        return Ok(None);
    };
    if has_folders(system, path, from)? {
        Ok(Some(found))
    } else {
        Ok(None)
    }
}

/// Opens a file that was found. What has come into its place since then is not read.
pub fn open_found<S: System>(system: &mut S, path: &str, found: &Seen) -> io::Result<S::File>
    ensures place { IfOk result (λ file. IsSome (S.log system.new) → S.place file ≡ path.now) }
    ensures opens { OnOk result (OpensFile path.now found.now (S.log system.old) (S.log system.new)) }
    ensures fails { IfErr result (λ error. FailsToOpen path.now found.now (cause_of error)
        (S.log system.old) (S.log system.new)) }
{
    let file = system.open(path)?;
    let opened = system.check(&file)?;
    if !opened.is_file() || !found.is_same(&opened) {
        return Err(io::Error::from(ErrorKind::InvalidData));
    }
    Ok(file)
}

/// The bytes of a file that was found.
pub fn read_found<S: System>(
    system: &mut S,
    alloc: Global,
    path: &str,
    found: &Seen,
) -> io::Result<Vec<u8>>
    ensures whole { IfOk result (λ bytes. ReadsFile path.now found.now bytes.items
        (S.log system.old) (S.log system.new)) }
    ensures fails { IfErr result (λ error. FailsToReadFile path.now found.now (cause_of error)
        (S.log system.old) (S.log system.new)) }
{
    let file = open_found(system, path, found)?;
    let length = system.check(&file)?.length;
    let room = usize::try_from(length).unwrap_or(0).saturating_add(1);
    system.read_to_end(alloc, file, room)
}
