//! The rows and nested entries that a path covers.
ghost use Rattle.std.specs.Prelude.{◌≡◌, ◌≤◌, ℕ, List, not, length, filter, IfOk, Contains};
ghost use Rattle.std.specs.BTreeSet.{contains};
ghost use Rattle.std.specs.List.Sorted.{IsStrictlySortedBy};
ghost use Rattle.cv_base.specs.BytesOrder.{bytes_cmp};
ghost use Rattle.cv_base.specs.Path.{IsPath, covers};
ghost use Rattle.cv_rows.specs.Catalogue.{row_cmp};
ghost use Rattle.cv_rows.specs.Faults.{AllStand, AllFit};
ghost use Rattle.cv_rows.specs.ParentsInner.{is_covered};
ghost use Rattle.cv_rows.specs.Places.{StandsAt};
ghost use Rattle.cv_rows.specs.declared.limits.TheConstants.{ROW_LIMIT};
ghost use Rattle.cv_rows.specs.declared.row.Row.{Row as TheRow};

use crate::keys::add;
use crate::nested::Nested;
use crate::places::{parents, path_of_row, root_position};
use crate::row::Row;
use cv_base::{NoMemory, RepoPath};
use std::alloc::Global;
use std::collections::BTreeSet;

/// Whether a path covers that of a row, if one was found.
fn is_covered(path: &RepoPath, found: &Option<RepoPath>) -> bool
    ensures { result ≡ is_covered path.now found.now }
{
    match found {
        Some(found) => path.covers(found),
        None => false,
    }
}

/// The keys of the rows that stand at paths which this path covers.
pub fn covered_keys(
    alloc: Global,
    at: &RepoPath,
    rows: &[Row],
    path: &RepoPath,
) -> Result<BTreeSet<[u8; 16]>, NoMemory>
    requires place { IsPath at.now }
    requires count { length rows.now ≤ ROW_LIMIT }
    requires ordered { IsStrictlySortedBy row_cmp rows.now }
    requires stand { AllStand at.now rows.now }
    requires fit { AllFit at.now rows.now }
    ensures { IfOk result (λ keys. (r : TheRow) (q : List (List ℕ)) → StandsAt at.now rows.now r q → contains bytes_cmp keys r.key.0 ≡ covers path.now q) }
{
    let Some(root) = root_position(at, rows) else {
        unreachable!("a catalogue has a root row");
    };
    let above = parents(alloc, rows, root)?;
    let mut keys = BTreeSet::new(alloc);
    for row in 0..rows.len() {
        let found = path_of_row(alloc, at, rows, root, &above, row)?;
        if is_covered(path, &found) {
            add(&mut keys, rows[row].key.0)?;
        }
    }
    Ok(keys)
}

/// Drops the rows with these keys.
pub fn drop_rows(rows: &mut Vec<Row>, keys: &BTreeSet<[u8; 16]>)
    ensures { rows.new.items ≡ filter (λ r. not (contains bytes_cmp keys.now r.key.0)) rows.old.items }
{
    rows.retain(|row| !keys.contains(&row.key.0));
}

/// Drops the nested entries that a path covers.
pub fn drop_nested(nested: &mut Vec<Nested>, path: &RepoPath)
    ensures { nested.new.items ≡ filter (λ n. not (covers path.now n.path)) nested.old.items }
{
    nested.retain(|entry| !path.covers(&entry.path));
}

/// Whether the key of a row is among these.
fn is_among(keys: &BTreeSet<[u8; 16]>, row: &Row) -> bool
    ensures { result ≡ contains bytes_cmp keys.now row.now.key.0 }
{
    keys.contains(&row.key.0)
}

/// Equal rows of those with these keys.
pub fn copy_rows(
    alloc: Global,
    rows: &[Row],
    keys: &BTreeSet<[u8; 16]>,
) -> Result<Vec<Row>, NoMemory>
    ensures { IfOk result (λ found. found.items ≡ filter (λ r. contains bytes_cmp keys.now r.key.0) rows.now) }
{
    let mut found = Vec::new(alloc);
    for row in rows {
        if is_among(keys, row) {
            found.push(row.copy(alloc)?)?;
        }
    }
    Ok(found)
}

/// Equal entries of those that a path covers.
pub fn copy_nested(
    alloc: Global,
    nested: &[Nested],
    path: &RepoPath,
) -> Result<Vec<Nested>, NoMemory>
    ensures { IfOk result (λ found. found.items ≡ filter (λ n. covers path.now n.path) nested.now) }
{
    let mut found = Vec::new(alloc);
    for entry in nested {
        if path.covers(&entry.path) {
            found.push(entry.copy(alloc)?)?;
        }
    }
    Ok(found)
}
