//! The hold that a vault has of its folder.
ghost use Rattle.std.specs.Prelude.{◌≡◌, ◌≢◌, ◌⊎◌, ◌↔◌, Ok, Err, IfOk, IfErr, IfSome, IsTrue, is_some};
ghost use Rattle.std.specs.IoError.{error_kind};
ghost use Rattle.cv_system.specs.Calls.{Locked, and_call, cause_of};
ghost use Rattle.cv_folder.specs.FolderVaultInner.{MakesHeld};
ghost use Rattle.cv_folder.specs.Hold.{AskedAt, AsksInVain, Locks, LocksAndLeaves, LocksNot, OpensNot};
ghost use Rattle.cv_base.specs.Path.{with_slash};

use cv_system::System;
use std::io;
use std::io::ErrorKind;

/// What a vault has of its folder.
#[derive(Drop)]
pub enum Hold<F: Drop> {
    /// Nothing was asked of the vault yet, or the folder couldn't be opened or locked: the next call tries it.
    Unasked,
    /// The folder is open and locked: no other vault holds it, in this process or another.
    Held(F),
    /// No folder is there. The first write makes it.
    Absent,
    /// Another vault holds the folder or has made it, or its path is none that a vault's folder may have. Each call fails.
    Refused,
}

impl<F: Drop> Hold<F> {
    /// Whether nothing was asked yet.
    pub fn is_unasked(&self) -> bool
        ensures { IsTrue result ↔ (self.now ≡ Hold.Unasked) }
    {
        matches!(self, Hold::Unasked)
    }
}

/// Whether an error says that nothing stands at a path.
fn is_absent(error: &io::Error) -> bool
    ensures { IsTrue result ↔ (error_kind error.now ≡ ErrorKind.NotFound) }
{
    matches!(error.kind(), ErrorKind::NotFound)
}

/// Whether an error says that something stands at a path.
fn is_taken(error: &io::Error) -> bool
    ensures { IsTrue result ↔ (error_kind error.now ≡ ErrorKind.AlreadyExists) }
{
    matches!(error.kind(), ErrorKind::AlreadyExists)
}

/// The error of a call that isn't made.
pub fn refused() -> io::Error
    ensures { error_kind result ≡ ErrorKind.InvalidInput }
{
    io::Error::from(ErrorKind::InvalidInput)
}

/// Locks a folder that is open. None where another vault holds it.
fn lock_open<S: System>(system: &mut S, file: S::File) -> io::Result<Option<S::File>>
    ensures given { IfOk result (λ held. S.log system.new
        ≡ and_call (Locked (S.place file) (Ok (is_some held))) (S.log system.old)) }
    ensures same { IfOk result (λ held. IfSome held (λ held. held ≡ file)) }
    ensures fails { IfErr result (λ error. S.log system.new
        ≡ and_call (Locked (S.place file) (Err (cause_of error))) (S.log system.old)) }
{
    if system.lock(&file)? {
        Ok(Some(file))
    } else {
        Ok(None)
    }
}

/// Opens and locks a folder whose path ends in a slash. None where another vault holds it.
fn lock_folder<S: System>(system: &mut S, folder: &str) -> io::Result<Option<S::File>>
    ensures given { IfOk result (λ held. Locks folder.now (is_some held) (S.log system.old)
        (S.log system.new)) }
    ensures fails { IfErr result (λ error.
        OpensNot folder.now (cause_of error) (S.log system.old) (S.log system.new)
        ⊎ LocksNot folder.now (cause_of error) (S.log system.old) (S.log system.new)) }
{
    let open = system.open(folder)?;
    lock_open(system, open)
}

/// What a vault has of the folder at this path, which ends in a slash: it holds it, if it is there.
pub fn hold_of<S: System>(system: &mut S, folder: &str) -> io::Result<Hold<S::File>>
    ensures asked { IfOk result (λ hold. AskedAt folder.now hold (S.log system.old)
        (S.log system.new)) }
    ensures known { IfOk result (λ hold. hold ≢ Hold.Unasked) }
    ensures fails { IfErr result (λ error. AsksInVain folder.now (cause_of error)
        (S.log system.old) (S.log system.new)) }
{
    let open = match system.open(folder) {
        Ok(open) => open,
        Err(error) if is_absent(&error) => return Ok(Hold::Absent),
        Err(error) => return Err(error),
    };
    match lock_open(system, open)? {
        Some(held) => Ok(Hold::Held(held)),
        None => Ok(Hold::Refused),
    }
}

/// Opens and locks a folder that was just made, by its path with a slash at the end. None where another vault holds it. Where it
/// can't be opened or locked it goes again, so that a later try may make it.
fn hold_made<S: System>(system: &mut S, folder: &str, slashed: &str) -> io::Result<Option<S::File>>
    ensures given { IfOk result (λ held. Locks slashed.now (is_some held) (S.log system.old)
        (S.log system.new)) }
    ensures fails { IfErr result (λ error. LocksAndLeaves folder.now slashed.now (cause_of error)
        (S.log system.old) (S.log system.new)) }
{
    match lock_folder(system, slashed) {
        Ok(held) => Ok(held),
        Err(error) => {
            let _ = system.remove_folder(folder);
            Err(error)
        }
    }
}

/// Makes a folder, and opens and locks it by its path with a slash at the end. None where something stands there by now, or
/// another vault holds it.
pub fn make_held<S: System>(
    system: &mut S,
    folder: &str,
    slashed: &str,
) -> io::Result<Option<S::File>>
    requires { slashed.now ≡ with_slash folder.now }
    ensures { MakesHeld folder.now result (S.log system.old) (S.log system.new) }
{
    match system.make_folder(folder) {
        Ok(()) => hold_made(system, folder, slashed),
        Err(error) if is_taken(&error) => Ok(None),
        Err(error) => Err(error),
    }
}
