//! Markers of nested catalogues.
ghost use Rattle.std.specs.Prelude.{◌≡◌, ℕ, List, ◌&&◌, ◌||◌, bytes_eq, IfOk, OnOk, MatchOption};
ghost use Rattle.std.specs.BTreeSet.{contains};
ghost use Rattle.std.specs.List.{All};
ghost use Rattle.cv_base.specs.BytesOrder.{bytes_cmp};
ghost use Rattle.cv_rows.specs.Catalogue.{is_marker, has_marker, IsMarkedWell};
ghost use Rattle.cv_rows.specs.Faults.{IsFirst};
ghost use Rattle.cv_rows.specs.MarkersInner.{MarksWell};

use crate::keys::add;
use crate::places::is_root;
use crate::row::Row;
use crate::row_kind::RowKind;
use cv_base::{MARKER, NoMemory, RepoPath};
use std::alloc::Global;
use std::collections::BTreeSet;

/// Whether a row is a marker.
fn is_marker(row: &Row) -> bool
    ensures { result ≡ is_marker row.now }
{
    match row.kind {
        RowKind::File => row.name.text() == MARKER,
        _ => false,
    }
}

/// Adds the parent key of a row that is a marker.
fn mark(keys: &mut BTreeSet<[u8; 16]>, row: &Row) -> Result<(), NoMemory>
    ensures { OnOk result ((key : List ℕ) → contains bytes_cmp keys.new key ≡ (contains bytes_cmp keys.old key || is_marker row.now && bytes_eq row.now.parent.0 key)) }
{
    if !is_marker(row) {
        return Ok(());
    }
    add(keys, row.parent.0)?;
    Ok(())
}

/// The keys of the directories that have a marker.
fn marked(alloc: Global, rows: &[Row]) -> Result<BTreeSet<[u8; 16]>, NoMemory>
    ensures { IfOk result (λ set. (key : List ℕ) → contains bytes_cmp set key ≡ has_marker rows.now key) }
{
    let mut keys = BTreeSet::new(alloc);
    for row in rows {
        mark(&mut keys, row)?;
    }
    Ok(keys)
}

/// Whether a row that has a marker, or none, may have it.
fn is_well(at: &RepoPath, row: &Row, is_marked: bool) -> bool
    ensures { MarksWell at.now row.now is_marked result }
{
    match row.kind {
        RowKind::Directory => !is_marked || is_root(at, row),
        RowKind::NestedRoot => is_marked,
        _ => true,
    }
}

/// The index of the first row that has a marker and may have none, or has none and needs one.
pub fn first_marked_badly(
    alloc: Global,
    at: &RepoPath,
    rows: &[Row],
) -> Result<Option<usize>, NoMemory>
    ensures { IfOk result (λ found. MatchOption found (All (IsMarkedWell at.now rows.now) rows.now) (IsFirst (λ r. IsMarkedWell at.now rows.now r → ⊥) rows.now)) }
{
    let keys = marked(alloc, rows)?;
    for row in 0..rows.len() {
        let is_marked = keys.contains(&rows[row].key.0);
        if !is_well(at, &rows[row], is_marked) {
            return Ok(Some(row));
        }
    }
    Ok(None)
}
