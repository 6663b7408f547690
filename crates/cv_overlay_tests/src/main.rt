//! The tests of cv_overlay, as a table: each line of standard input is a folder of changes over a base, and prints the part that
//! comes of them, or the first fault.
//!
//! A row is the published path, the number of the folder's call that fails (0 for none), the base and the folder, with a bar
//! between each two. A published path of only digits is that many names `n`. `parts` says how a base and a part are written,
//! and `folders` how a folder is.
#![tactic(auto)]

mod folders;
mod parts;

use cv_base::RepoPath;
use cv_overlay::{OverlayFault, ReadFault, overlay, read_folder};
use cv_ports::MemoryFolder;
use cv_tree::Part;
use std::alloc::Global;
use std::test::Fail;

/// The published path: a text, or how many names it has.
fn published(alloc: Global, word: &str) -> Result<RepoPath, Fail> {
    if word.starts_with('/') {
        return Ok(RepoPath::read(alloc, word)?);
    }
    let count: u8 = word.parse()?;
    let mut path = RepoPath::root(alloc);
    for _ in 0..count {
        path = path.with_name(alloc, "n")?;
    }
    Ok(path)
}

/// The text of a fault with its path, of which the root is a slash.
fn named(alloc: Global, word: &str, path: &RepoPath) -> Result<String, Fail> {
    let mut text = String::from_str(alloc, word)?;
    text.push(' ')?;
    if path.names().is_empty() {
        text.push('/')?;
    }
    text.push_str(path.text(alloc)?.as_str())?;
    Ok(text)
}

/// The text of a fault of reading.
fn fault_text(alloc: Global, fault: ReadFault) -> Result<String, Fail> {
    match fault {
        ReadFault::Special(path) => named(alloc, "special", &path),
        ReadFault::BadName(path) => named(alloc, "bad name", &path),
        ReadFault::TooLarge(path) => named(alloc, "too large", &path),
        ReadFault::Failed => Ok(String::from_str(alloc, "failed")?),
        ReadFault::NoMemory => Ok(String::from_str(alloc, "no memory")?),
    }
}

/// The text of what a folder makes of a base.
fn made(
    alloc: Global,
    at: &RepoPath,
    base: Option<&Part>,
    folder: &mut MemoryFolder,
) -> Result<String, Fail> {
    let changes = match read_folder(alloc, folder, at) {
        Ok(changes) => changes,
        Err(fault) => return fault_text(alloc, fault),
    };
    match overlay(alloc, base, &changes, 5) {
        Ok(part) => parts::text_of(alloc, &part, changes.objects()),
        Err(OverlayFault::BadWhiteout(path)) => named(alloc, "bad whiteout", &path),
        Err(OverlayFault::NoMemory) => Ok(String::from_str(alloc, "no memory")?),
    }
}

/// What a row prints.
fn answer(alloc: Global, row: &str) -> Result<String, Fail> {
    let mut words = row.split('|');
    let (Some(at), Some(failing), Some(base), Some(lines)) = (
        words.next(),
        words.next(),
        words.next(),
        words.next(),
    ) else {
        return Err(Fail::new("no row"));
    };
    let failing: u64 = failing.parse()?;
    let mut folder = folders::folder(alloc, lines, Vec::from_slice(alloc, &[failing])?)?;
    let base = parts::base(alloc, base)?;
    made(alloc, &published(alloc, at)?, base.as_ref(), &mut folder)
}

fn main(rt: HostRuntime) -> Result<(), Fail> {
    let alloc = rt.alloc();
    for line in rt.lines(alloc) {
        let text = answer(alloc, line?.as_str())?;
        rt.println(text)?;
    }
    Ok(())
}
