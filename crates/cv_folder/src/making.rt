//! The folders that a name stands in, made where they are missing.
ghost use Rattle.std.specs.Prelude.{◌≡◌, ◌⊎◌, ◌<◌, IfErr, IsTrue, OnErr, OnOk, length};
ghost use Rattle.cv_system.specs.Calls.{Done, Made, Outcome, and_call, cause_of};
ghost use Rattle.cv_system.specs.Names.{folder_of};
ghost use Rattle.cv_folder.specs.Causes.{FailsOnWay, WantsMemory};
ghost use Rattle.cv_folder.specs.FolderVaultInner.{MakesNot};
ghost use Rattle.cv_folder.specs.Noted.{Keeps, NotesOnly, is_noted};
ghost use Rattle.cv_system.specs.Steps.{EndsFailed, IsLook, Makes};
ghost use Rattle.cv_system.specs.Looks.{folders_at, folders_past};
ghost use Rattle.cv_folder.specs.Writes.{EndsOnWay, FailsToLead, IsAbove, Leads, LeadsOn, MakesMissing, Prepares, StopsOn};

use crate::noting::note;
use cv_system::looks::{folder_at, seen};
use cv_system::{System, folder_of};
use std::io;
use std::io::ErrorKind;

/// Makes a folder where nothing stands, once the one that it comes into is noted.
fn make_noted<S: System>(system: &mut S, folder: &str, notes: &mut Vec<String>) -> io::Result<()>
    ensures kept { Keeps notes.old.items notes.new.items }
    ensures only { NotesOnly (λ other. other ≡ folder_of folder.now) notes.old.items
        notes.new.items }
    ensures calls { (S.log system.new ≡ S.log system.old)
        ⊎ (IsTrue (is_noted notes.new.items (folder_of folder.now))
        × (made : Outcome)
        × (S.log system.new ≡ and_call (Made folder.now made) (S.log system.old))) }
    ensures made { OnOk result
        (S.log system.new ≡ and_call (Made folder.now Done) (S.log system.old)) }
    ensures stops { OnErr result (MakesNot folder.now (S.log system.old) (S.log system.new)) }
    ensures why { IfErr result (λ error. WantsMemory (cause_of error)
        (S.log system.old) (S.log system.new)
        ⊎ EndsFailed (cause_of error) (S.log system.old) (S.log system.new)) }
{
    note(notes, folder_of(folder))?;
    system.make_folder(folder)
}

/// Makes a folder where nothing stands, and notes the one that it comes into.
fn make_folder<S: System>(system: &mut S, folder: &str, notes: &mut Vec<String>) -> io::Result<()>
    ensures kept { Keeps notes.old.items notes.new.items }
    ensures only { NotesOnly (λ other. other ≡ folder_of folder.now) notes.old.items
        notes.new.items }
    ensures calls { Makes IsLook (S.log system.old) (S.log system.new)
        ⊎ (IsTrue (is_noted notes.new.items (folder_of folder.now))
        × MakesMissing folder.now (S.log system.old) (S.log system.new)) }
    ensures leads { OnOk result (LeadsOn folder.now (S.log system.old) (S.log system.new)) }
    ensures stops { OnErr result (StopsOn folder.now (S.log system.old) (S.log system.new)) }
    ensures why { IfErr result (λ error. WantsMemory (cause_of error)
        (S.log system.old) (S.log system.new)
        ⊎ FailsOnWay (cause_of error) (S.log system.old) (S.log system.new)) }
{
    match seen(system, folder)? {
        Some(found) if found.is_folder() => Ok(()),
        Some(_) => Err(io::Error::from(ErrorKind::NotADirectory)),
        None => make_noted(system, folder, notes),
    }
}

/// Makes the folder whose path ends at this place of a path, if a slash stands there and nothing at the folder's path.
fn make_folder_at<S: System>(
    system: &mut S,
    path: &str,
    end: usize,
    notes: &mut Vec<String>,
) -> io::Result<()>
    requires { end < length path.now }
    ensures kept { Keeps notes.old.items notes.new.items }
    ensures only { NotesOnly (IsAbove end path.now) notes.old.items notes.new.items }
    ensures calls { Prepares end path.now (is_noted notes.new.items)
        (S.log system.old) (S.log system.new) }
    ensures leads { OnOk result
        (Leads (folders_at path.now end) (S.log system.old) (S.log system.new)) }
    ensures stops { OnErr result
        (FailsToLead (folders_at path.now end) (S.log system.old) (S.log system.new)) }
    ensures why { IfErr result (λ error. WantsMemory (cause_of error)
        (S.log system.old) (S.log system.new)
        ⊎ FailsOnWay (cause_of error) (S.log system.old) (S.log system.new)) }
{
    match folder_at(path, end) {
        Some(folder) => make_folder(system, folder, notes),
        None => Ok(()),
    }
}

/// Makes the folders of the path that are missing past its first `from` bytes, and notes each folder that changes and the
/// one that the path stands in.
pub fn make_folders<S: System>(
    system: &mut S,
    path: &str,
    from: usize,
    notes: &mut Vec<String>,
) -> io::Result<()>
    ensures noted { OnOk result (IsTrue (is_noted notes.new.items (folder_of path.now))) }
    ensures kept { Keeps notes.old.items notes.new.items }
    ensures only { NotesOnly (IsAbove from path.now) notes.old.items notes.new.items }
    ensures calls { Prepares from path.now (is_noted notes.new.items)
        (S.log system.old) (S.log system.new) }
    ensures leads { OnOk result
        (Leads (folders_past from path.now) (S.log system.old) (S.log system.new)) }
    ensures stops { OnErr result
        (EndsOnWay from path.now (S.log system.old) (S.log system.new)) }
    ensures why { IfErr result (λ error. WantsMemory (cause_of error)
        (S.log system.old) (S.log system.new)
        ⊎ FailsOnWay (cause_of error) (S.log system.old) (S.log system.new)) }
{
    for end in from..path.len() {
        make_folder_at(system, path, end, notes)?;
    }
    note(notes, folder_of(path))
}
