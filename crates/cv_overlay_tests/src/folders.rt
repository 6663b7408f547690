//! Folders in memory, by the words of a row: each item as its directory, a colon, its name and what it is, directory by directory
//! and in the order of their names.
//!
//! Behind a name `/` is a directory, `=` and a text a file with that content, `*` and a number a file of that many zero bytes,
//! `>` and a text a link to it, and `!` anything else.

use cv_base::{Bytes, Items, RepoPath, Text};
use cv_ports::{FolderItem, FoundKind, MemoryFolder};
use std::alloc::Global;
use std::test::Fail;

/// The content of a file of a row: none where the item is no file.
fn content(alloc: Global, rest: &str) -> Result<Option<Bytes>, Fail> {
    if let Some((_, text)) = rest.split_once('=') {
        return Ok(Some(Bytes::from_slice(alloc, text.as_bytes())?));
    }
    if let Some((_, size)) = rest.split_once('*') {
        let size: u32 = size.parse()?;
        let mut bytes = Vec::new(alloc);
        bytes.resize(size as usize, 0)?;
        return Ok(Some(Bytes::new(bytes)));
    }
    Ok(None)
}

/// The name of an item of a row, before what it is.
fn name(rest: &str) -> &str {
    for mark in ['=', '*', '>'] {
        if let Some((name, _)) = rest.split_once(mark) {
            return name;
        }
    }
    rest.strip_suffix('/')
        .or(rest.strip_suffix('!'))
        .unwrap_or(rest)
}

/// What an item of a row is.
fn kind(alloc: Global, rest: &str) -> Result<FoundKind, Fail> {
    if rest.contains('=') || rest.contains('*') {
        return Ok(FoundKind::File);
    }
    if let Some((_, target)) = rest.split_once('>') {
        return Ok(FoundKind::Link(Text::from_str(alloc, target)?));
    }
    if rest.ends_with('/') {
        return Ok(FoundKind::Dir);
    }
    Ok(FoundKind::Special)
}

/// The item of a row.
fn item(alloc: Global, rest: &str) -> Result<FolderItem, Fail> {
    Ok(FolderItem {
        name: Text::from_str(alloc, name(rest))?,
        kind: kind(alloc, rest)?,
        mode: 0o100_644,
        mtime: 7,
    })
}

/// The items of one directory of a row.
fn items(alloc: Global, lines: &str, above: &str) -> Result<Vec<FolderItem>, Fail> {
    let mut items = Vec::new(alloc);
    for line in lines.split(' ') {
        if let Some((directory, rest)) = line.split_once(':') {
            if directory == above {
                items.push(item(alloc, rest)?)?;
            }
        }
    }
    Ok(items)
}

/// The contents of the files of a row.
fn files(alloc: Global, lines: &str) -> Result<Vec<(RepoPath, Bytes)>, Fail> {
    let mut files = Vec::new(alloc);
    for line in lines.split(' ') {
        if let Some((directory, rest)) = line.split_once(':') {
            let path = RepoPath::read(alloc, directory)?.with_name(alloc, name(rest));
            if let (Ok(path), Some(bytes)) = (path, content(alloc, rest)?) {
                files.push((path, bytes))?;
            }
        }
    }
    Ok(files)
}

/// The folder of a row, of which the calls of these numbers fail.
pub(crate) fn folder(alloc: Global, lines: &str, failing: Vec<u64>) -> Result<MemoryFolder, Fail> {
    let mut directories = Vec::new(alloc);
    for line in lines.split(' ') {
        if let Some((directory, _)) = line.split_once(':') {
            let listed = Items::new(items(alloc, lines, directory)?);
            directories.push((RepoPath::read(alloc, directory)?, listed))?;
        }
    }
    let made = MemoryFolder::new(directories, files(alloc, lines)?, failing);
    Ok(made.ok_or("a row out of order")?)
}
