//! What is found in catalogues.

use crate::made::catalogue;
use cv_base::{RepoPath, digest_text};
use cv_rows::{Nested, Row};
use std::alloc::Global;
use std::test::Fail;

/// A row that was found, and how many have its key above them.
fn row_text(alloc: Global, row: Option<&Row>, below: usize) -> Result<String, Fail> {
    match row {
        Some(row) => {
            let name = row.name.text();
            Ok(format!(in alloc; "'{name}', {below} below")?)
        }
        None => Ok(format!(in alloc; "none, {below} below")?),
    }
}

/// The row of a path's key, and how many have it above them.
pub(crate) fn row(alloc: Global, digits: &str, path: &RepoPath) -> Result<String, Fail> {
    let catalogue = catalogue(alloc, digits)?;
    let below = catalogue.children(alloc, path.key())?.len();
    row_text(alloc, catalogue.find(path.key()), below)
}

/// The names of rows, each with a space behind it.
fn names_of(alloc: Global, rows: &[Row]) -> Result<String, Fail> {
    let mut text = String::new(alloc);
    for row in rows {
        text.push_str(row.name.text())?;
        text.push(' ')?;
    }
    Ok(text)
}

/// The names in the directory at a path, in ascending order of key.
pub(crate) fn names(alloc: Global, digits: &str, path: &RepoPath) -> Result<String, Fail> {
    let catalogue = catalogue(alloc, digits)?;
    let rows = catalogue.rows_in(alloc, path)?;
    names_of(alloc, rows.as_slice())
}

/// Paths, each with a space behind it.
fn paths_text(alloc: Global, paths: &[RepoPath]) -> Result<String, Fail> {
    let mut text = String::new(alloc);
    for path in paths {
        text.push_str(path.text(alloc)?.as_str())?;
        text.push(' ')?;
    }
    Ok(text)
}

/// The path of each row, in ascending order of key, each with a space behind it.
pub(crate) fn places(alloc: Global, digits: &str) -> Result<String, Fail> {
    let places = catalogue(alloc, digits)?.places(alloc)?;
    paths_text(alloc, places.as_slice())
}

/// A nested entry, with a semicolon behind it.
fn entry_text(alloc: Global, entry: &Nested) -> Result<String, Fail> {
    let path = entry.path.text(alloc)?;
    let hash = digest_text(alloc, &entry.hash)?;
    let size = entry.size;
    Ok(format!(in alloc; "{path} {hash} {size};")?)
}

/// Nested entries, by their copies.
fn entries_text(alloc: Global, entries: &[Nested]) -> Result<String, Fail> {
    let mut text = String::new(alloc);
    for entry in entries {
        let copy = entry.copy(alloc)?;
        text.push_str(entry_text(alloc, &copy)?.as_str())?;
    }
    Ok(text)
}

/// The nested entries, each with a semicolon behind it.
pub(crate) fn nested(alloc: Global, digits: &str) -> Result<String, Fail> {
    let catalogue = catalogue(alloc, digits)?;
    entries_text(alloc, catalogue.nested())
}
