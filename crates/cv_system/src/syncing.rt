//! Folders made durable, and files whose syncs were begun.
ghost use Rattle.std.specs.Prelude.{◌≡◌, ◌↔◌, [], ◌∷◌, IfErr, IsOk, is_ok, map, string_bytes};
ghost use Rattle.cv_system.specs.Calls.{Ended};
ghost use Rattle.cv_system.specs.Steps.{Tries};
ghost use Rattle.cv_system.specs.Syncs.{EndsBy, FailsToSync, syncs};
ghost use Rattle.cv_system.specs.SyncsInner.{SyncsAt};

use crate::system::System;
use std::io;

/// A sync that didn't come to its end.
#[derive(Clone, Copy)]
pub enum Unsynced {
    /// A folder couldn't be opened or gone through, or a file couldn't be looked at or opened. The system told nothing of what
    /// was written, and a later try is as good as this one.
    NotOpened,
    /// The system said that it lost what was written. It says so once.
    Lost,
}

/// What the system gives as a folder is opened and, where it was, synced.
pub fn sync_at<S: System>(system: &mut S, folder: &str) -> io::Result<io::Result<()>>
    ensures { SyncsAt folder.now result (S.log system.old) (S.log system.new) }
{
    match system.open(folder) {
        Ok(open) => Ok(system.sync(&open)),
        Err(error) => Err(error),
    }
}

/// Whether what the system gave says that what was written is durable.
pub fn told(synced: &io::Result<()>) -> Result<(), Unsynced>
    ensures ok { IsOk result ↔ IsOk synced.now }
    ensures lost { IfErr result (λ unsynced. unsynced ≡ Unsynced.Lost) }
{
    match synced {
        Ok(()) => Ok(()),
        Err(_) => Err(Unsynced::Lost),
    }
}

/// Makes a folder durable.
pub fn sync_folder<S: System>(system: &mut S, folder: &str) -> Result<(), Unsynced>
    ensures tries { Tries (syncs (folder.now ∷ [])) (is_ok result) (S.log system.old) (S.log system.new) }
    ensures fails { IfErr result (λ unsynced. FailsToSync folder.now unsynced (S.log system.old)
        (S.log system.new)) }
{
    match sync_at(system, folder) {
        Ok(synced) => told(&synced),
        Err(_) => Err(Unsynced::NotOpened),
    }
}

/// Makes durable each file whose sync was begun.
pub fn end_begun<S: System>(system: &mut S) -> Result<(), Unsynced>
    ensures tries { Tries (Ended ∷ []) (is_ok result) (S.log system.old) (S.log system.new) }
    ensures lost { IfErr result (λ unsynced. unsynced ≡ Unsynced.Lost) }
{
    told(&system.end_syncs())
}

/// Makes each folder durable.
pub fn sync_folders<S: System>(system: &mut S, folders: &Vec<String>) -> Result<(), Unsynced>
    ensures tries { Tries (syncs (map string_bytes folders.now.items)) (is_ok result) (S.log system.old)
        (S.log system.new) }
    ensures fails { IfErr result (λ unsynced. EndsBy unsynced (S.log system.new)) }
{
    for folder in folders {
        sync_folder(system, folder.as_str())?;
    }
    Ok(())
}
