//! Folders of changes by the words of a row: directory by directory, and in the order of their names.
//!
//! A word is a path: `/d/` is a directory, `/l=t` a link to `t`, `/p!` a pipe, `/z*9` a file of nine zero bytes, and anything else
//! a file whose content is the word. A file at a path that no repository has is listed, and holds nothing. Modes are told with the
//! bits of the type. `!2` says that the folder's second call fails.

use crate::folder::{Content, Entry, Kind, folder_of};
use cv_base::RepoPath;
use cv_ports::MemoryFolder;
use std::alloc::Global;
use std::test::Fail;

/// The file at a path, with this content where a repository has such a path.
fn file_at<'a>(alloc: Global, path: &'a str, content: Content<'a>) -> Result<Entry<'a>, Fail> {
    let kind = match RepoPath::read(alloc, path) {
        Ok(_) => Kind::File(content),
        Err(_) => Kind::Listed,
    };
    Entry::new(path, kind, 0o100_644)
}

/// The entry of a word.
fn entry_of(alloc: Global, word: &str) -> Result<Entry<'_>, Fail> {
    if let Some((path, target)) = word.split_once('=') {
        return Entry::new(path, Kind::Link(target), 0o120_777);
    }
    if let Some((path, size)) = word.split_once('*') {
        return file_at(alloc, path, Content::Zeros(size.parse()?));
    }
    if let Some(path) = word.strip_suffix('/') {
        return Entry::new(path, Kind::Dir, 0o040_755);
    }
    if let Some(path) = word.strip_suffix('!') {
        return Entry::new(path, Kind::Special, 0o010_644);
    }
    file_at(alloc, word, Content::Text(word))
}

/// The folder of these words.
pub(crate) fn folder_of_words(alloc: Global, words: &str) -> Result<MemoryFolder, Fail> {
    let mut entries = Vec::new(alloc);
    let mut failing = Vec::new(alloc);
    for word in words.split(' ') {
        if let Some(call) = word.strip_prefix('!') {
            let call: u64 = call.parse()?;
            failing.push(call)?;
        } else if !word.is_empty() {
            entries.push(entry_of(alloc, word)?)?;
        }
    }
    folder_of(alloc, entries.as_slice(), failing)
}
