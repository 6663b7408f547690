//! Folders of changes by the items of a row.
//!
//! An item is a word for what it is, its path, and what it has: `dir /d`, `file /d/f CONTENT`, `link /l TARGET`, and `special /p`
//! for anything else. The items of a directory stand in the order of their names. Modes are told without the bits of the type, as
//! the folder of a real system tells them. A row fails whose directory or file has a path that no repository has.

use crate::folder::{Content, Entry, Kind, folder_of};
use crate::words::first_word;
use cv_ports::MemoryFolder;
use std::alloc::Global;
use std::test::Fail;

/// The entry of an item.
fn entry_of(text: &str) -> Result<Entry<'_>, Fail> {
    let (word, rest) = first_word(text);
    let (path, more) = first_word(rest);
    let (kind, mode) = match word {
        "dir" => (Kind::Dir, 0o755),
        "file" => (Kind::File(Content::Line(more)), 0o644),
        "link" => (Kind::Link(more), 0o777),
        "special" => (Kind::Special, 0o644),
        _ => return Err(Fail::new("no kind of an item")),
    };
    Entry::new(path, kind, mode)
}

/// The folder of these items. The calls of these numbers fail.
pub(crate) fn folder_of_items(
    alloc: Global,
    items: &[String],
    failing: Vec<u64>,
) -> Result<MemoryFolder, Fail> {
    let mut entries = Vec::new(alloc);
    for text in items {
        entries.push(entry_of(text.as_str())?)?;
    }
    folder_of(alloc, entries.as_slice(), failing)
}
