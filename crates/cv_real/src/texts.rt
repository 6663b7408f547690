//! Words and small texts of the environment.
ghost use Rattle.std.specs.Prelude.{◌≡◌, ◌≤◌, None, IfErr, IfOk, IsSomeAnd, MatchResult, drop, string_len};
ghost use Rattle.std.specs.IoError.{error_kind, raw_os_error};
ghost use Rattle.std.specs.Vec.Iter.{into_iter_items};
ghost use Rattle.cv_real.specs.declared.texts.TheConstants.{TEXT_LIMIT};

use crate::front::read_front;
use crate::system_calls::{SystemCalls, seen_of};
use cv_base::NoMemory;
use cv_system::looks::is_memory;
use std::alloc::{AllocError, Global};
use std::env::Args;
use std::fs::File;
use std::io::ErrorKind;
use std::rt::Files;
use std::thread::Threads;
use std::{fs, io};

/// The most bytes that a text is read of. More than each text of the product may have.
pub const TEXT_LIMIT: usize = 16_777_216;

/// The arguments but the first.
fn behind_first(alloc: Global, arguments: Args) -> Result<Vec<String>, AllocError>
    ensures { IfOk result (λ words. words.items ≡ drop 1 (into_iter_items arguments)) }
{
    arguments.skip(1).collect(alloc)
}

/// The words after the program's name, of the arguments that std gives. None where the words can't be had, since one of them
/// isn't UTF-8.
pub fn program_words(
    alloc: Global,
    arguments: io::Result<Args>,
) -> Result<Option<Vec<String>>, NoMemory>
    ensures words { IfOk arguments (λ given. IfOk result
        (λ found. IsSomeAnd found (λ words. words.items ≡ drop 1 (into_iter_items given)))) }
    ensures fails { IfErr arguments (λ error.
        let IsMemory = (error_kind error ≡ ErrorKind.OutOfMemory) × (raw_os_error error ≡ None) in
        MatchResult result (λ found. (found ≡ None) × ¬ IsMemory) (λ _. IsMemory)) }
{
    match arguments {
        Ok(arguments) => Ok(Some(behind_first(alloc, arguments)?)),
        Err(error) if is_memory(&error) => Err(NoMemory),
        Err(_) => Ok(None),
    }
}

/// The text of a regular file of at most `TEXT_LIMIT` bytes, and else an empty one. A pipe or a device, which may have no end, isn't opened, and no more
/// is read of a file that grows meanwhile.
fn regular_text<R: Files<File = File> + AllocGlobal + Threads + Clone + Drop>(
    rt: &R,
    name: &str,
) -> io::Result<String>
    ensures { IfOk result (λ text. string_len text ≤ TEXT_LIMIT) }
{
    let none = String::new(rt.alloc());
    let found = seen_of(&fs::metadata(rt, name)?);
    if !found.is_file() || found.length > TEXT_LIMIT as u64 {
        return Ok(none);
    }
    let mut system = SystemCalls::new(rt.clone()?);
    let bytes = read_front(&mut system, rt.alloc(), name, &found, TEXT_LIMIT + 1)?;
    if bytes.len() > TEXT_LIMIT {
        return Ok(none);
    }
    match String::from_utf8(bytes) {
        Ok(text) => Ok(text),
        Err(_) => Ok(none),
    }
}

/// The text of a regular file. Empty where no such file is there, it has more than `TEXT_LIMIT` bytes, can't be read or
/// isn't UTF-8.
pub fn text_or_empty<R: Files<File = File> + AllocGlobal + Threads + Clone + Drop>(
    rt: &R,
    name: &str,
) -> Result<String, NoMemory>
    ensures { IfOk result (λ text. string_len text ≤ TEXT_LIMIT) }
{
    match regular_text(rt, name) {
        Ok(text) => Ok(text),
        Err(error) if is_memory(&error) => Err(NoMemory),
        Err(_) => Ok(String::new(rt.alloc())),
    }
}
