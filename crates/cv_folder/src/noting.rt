//! The folders that were noted, to be synced.
ghost use Rattle.std.specs.Prelude.{◌≡◌, ◌⊎◌, IfErr, IfOk, IsTrue, OnOk, string_bytes};
ghost use Rattle.cv_system.specs.Calls.{IsWant, cause_of};
ghost use Rattle.cv_folder.specs.Noted.{Keeps, NotesOnly, is_noted};

use std::alloc::{AllocError, Global};
use std::io;
use std::io::ErrorKind;

/// Whether a folder is noted.
fn is_noted(notes: &[String], folder: &str) -> bool
    ensures { result ≡ is_noted notes.now folder.now }
{
    notes.iter().any(|known| known.as_str() == folder)
}

/// Want of memory in this process.
pub fn no_memory() -> io::Error
    ensures { IsWant (cause_of result) }
{
    io::Error::new(ErrorKind::OutOfMemory, "no memory in this process")
}

/// A text of its own.
pub fn own_text(alloc: Global, text: &str) -> io::Result<String>
    ensures ok { IfOk result (λ own. string_bytes own ≡ text.now) }
    ensures memory { IfErr result (λ error. IsWant (cause_of error)) }
{
    match String::from_str(alloc, text) {
        Ok(own) => Ok(own),
        Err(_) => Err(no_memory()),
    }
}

/// Notes a folder once, where there is memory for that. What was noted stays.
fn add_note(notes: &mut Vec<String>, folder: &str) -> Result<(), AllocError>
    ensures noted { OnOk result (IsTrue (is_noted notes.new.items folder.now)) }
    ensures kept { Keeps notes.old.items notes.new.items }
    ensures only { NotesOnly (λ other. other ≡ folder.now) notes.old.items notes.new.items }
{
    if is_noted(notes.as_slice(), folder) {
        return Ok(());
    }
    let alloc: Global = *notes.allocator();
    notes.push(String::from_str(alloc, folder)?)?;
    Ok(())
}

/// Notes a folder once. What was noted stays.
pub fn note(notes: &mut Vec<String>, folder: &str) -> io::Result<()>
    ensures noted { OnOk result (IsTrue (is_noted notes.new.items folder.now)) }
    ensures kept { Keeps notes.old.items notes.new.items }
    ensures only { NotesOnly (λ other. other ≡ folder.now) notes.old.items notes.new.items }
    ensures memory { IfErr result (λ error. IsWant (cause_of error)) }
{
    match add_note(notes, folder) {
        Ok(()) => Ok(()),
        Err(_) => Err(no_memory()),
    }
}

/// Notes a folder. Where there is no room for that, all are unsettled.
pub fn note_or_all(notes: &mut Vec<String>, folder: &str, is_unsettled: &mut bool)
    ensures noted { IsTrue (is_noted notes.new.items folder.now) ⊎ IsTrue is_unsettled.new }
    ensures kept { Keeps notes.old.items notes.new.items }
    ensures only { NotesOnly (λ other. other ≡ folder.now) notes.old.items notes.new.items }
    ensures unsettled { IsTrue is_unsettled.old → IsTrue is_unsettled.new }
{
    if add_note(notes, folder).is_err() {
        *is_unsettled = true;
    }
}
