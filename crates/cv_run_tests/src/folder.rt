//! Folders of changes in memory, by their entries: those of a directory in the order of their names.

use crate::outside::START;
use cv_base::{Bytes, Items, NoMemory, RepoPath, Text};
use cv_lines::bytes_of;
use cv_ports::{FolderItem, FoundKind, MemoryFolder};
use std::alloc::Global;
use std::test::Fail;

/// What a file holds.
#[derive(Clone, Copy)]
pub(crate) enum Content<'a> {
    /// These bytes, as a line has them.
    Line(&'a str),
    /// This text.
    Text(&'a str),
    /// So many zero bytes.
    Zeros(u32),
}

/// What an entry is.
#[derive(Clone, Copy)]
pub(crate) enum Kind<'a> {
    Dir,
    /// A file that holds this.
    File(Content<'a>),
    /// A file that is listed, and holds nothing.
    Listed,
    /// A link to this.
    Link(&'a str),
    Special,
}

/// An entry, of which the directory above is named by its path, and the root's by nothing.
#[derive(Clone, Copy)]
pub(crate) struct Entry<'a> {
    path: &'a str,
    above: &'a str,
    name: &'a str,
    kind: Kind<'a>,
    mode: u32,
}

impl<'a> Entry<'a> {
    /// The entry at a path, of which the folder says this mode.
    pub(crate) fn new(path: &'a str, kind: Kind<'a>, mode: u32) -> Result<Entry<'a>, Fail> {
        let Some((above, name)) = path.rsplit_once('/') else {
            return Err(Fail::new("no path of an entry"));
        };
        Ok(Entry {
            path,
            above,
            name,
            kind,
            mode,
        })
    }
}

/// What a folder says of an entry.
fn listed(alloc: Global, entry: &Entry<'_>) -> Result<FolderItem, NoMemory> {
    let kind = match entry.kind {
        Kind::Dir => FoundKind::Dir,
        Kind::File(_) | Kind::Listed => FoundKind::File,
        Kind::Link(target) => FoundKind::Link(Text::from_str(alloc, target)?),
        Kind::Special => FoundKind::Special,
    };
    Ok(FolderItem {
        name: Text::from_str(alloc, entry.name)?,
        kind,
        mode: entry.mode,
        mtime: START,
    })
}

/// The items of a directory.
fn items_in(
    alloc: Global,
    entries: &[Entry<'_>],
    directory: &str,
) -> Result<Items<FolderItem>, NoMemory> {
    let mut items = Vec::new(alloc);
    for entry in entries {
        if entry.above == directory {
            items.push(listed(alloc, entry)?)?;
        }
    }
    Ok(Items::new(items))
}

/// The directories of these entries.
fn directories(
    alloc: Global,
    entries: &[Entry<'_>],
) -> Result<Vec<(RepoPath, Items<FolderItem>)>, Fail> {
    let mut directories = Vec::new(alloc);
    directories.push((RepoPath::root(alloc), items_in(alloc, entries, "")?))?;
    for entry in entries {
        if matches!(entry.kind, Kind::Dir) {
            let path = RepoPath::read(alloc, entry.path)?;
            directories.push((path, items_in(alloc, entries, entry.path)?))?;
        }
    }
    Ok(directories)
}

/// The bytes that a file holds.
fn held(alloc: Global, content: Content<'_>) -> Result<Bytes, Fail> {
    match content {
        Content::Line(line) => Ok(Bytes::new(bytes_of(alloc, line)?)),
        Content::Text(text) => Ok(Bytes::from_slice(alloc, text.as_bytes())?),
        Content::Zeros(size) => {
            let mut zeros = Vec::new(alloc);
            zeros.resize(size as usize, 0)?;
            Ok(Bytes::new(zeros))
        }
    }
}

/// The files of these entries that hold something, and what each holds.
fn files(alloc: Global, entries: &[Entry<'_>]) -> Result<Vec<(RepoPath, Bytes)>, Fail> {
    let mut files = Vec::new(alloc);
    for entry in entries {
        if let Kind::File(content) = entry.kind {
            let path = RepoPath::read(alloc, entry.path)?;
            files.push((path, held(alloc, content)?))?;
        }
    }
    Ok(files)
}

/// The folder of these entries, of which directories and files that hold something stand at paths of a repository. The calls of
/// these numbers fail.
pub(crate) fn folder_of(
    alloc: Global,
    entries: &[Entry<'_>],
    failing: Vec<u64>,
) -> Result<MemoryFolder, Fail> {
    let directories = directories(alloc, entries)?;
    let files = files(alloc, entries)?;
    let made = MemoryFolder::new(directories, files, failing);
    Ok(made.ok_or("a folder out of order")?)
}

/// A folder without any entry.
pub(crate) fn no_change(alloc: Global) -> Result<MemoryFolder, Fail> {
    folder_of(alloc, &[], Vec::new(alloc))
}
