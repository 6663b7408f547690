//! The list of nested entries.
ghost use Rattle.std.specs.Prelude.{◌≡◌, ◌≢◌, ◌<◌, ℕ, List, length, Contains, IfOk, MatchBool, MatchOption};
ghost use Rattle.cv_rows.specs.declared.nested.Nested.{Nested as TheNested};
ghost use Rattle.std.specs.BTreeSet.{contains};
ghost use Rattle.std.specs.List.{All, HoldsAt};
ghost use Rattle.cv_base.specs.BytesOrder.{bytes_cmp};
ghost use Rattle.cv_rows.specs.Places.{StandsAt};
ghost use Rattle.cv_rows.specs.ParentsInner.{IsPlacing};
ghost use Rattle.cv_rows.specs.Catalogue.{IsTransitionAt};
ghost use Rattle.cv_rows.specs.Faults.{IsFirst, AllFit};
ghost use Rattle.cv_rows.specs.Toward.{IsAbove};
ghost use Rattle.cv_rows.specs.NestedListInner.{is_transition, has_key, HasNested, IsListedBy};

use crate::keys::add;
use crate::nested::Nested;
use crate::places::{path_of_row, position};
use crate::row::Row;
use crate::row_kind::RowKind;
use cv_base::{NoMemory, RepoPath};
use std::alloc::Global;
use std::collections::BTreeSet;

/// Whether a row, of which this path was found, is the Transition row of a path.
fn is_transition(row: &Row, found: &Option<RepoPath>, path: &RepoPath) -> bool
    ensures { result ≡ is_transition row.now found.now path.now }
{
    match (row.kind, found) {
        (RowKind::Transition, Some(found)) => found == path,
        _ => false,
    }
}

/// Whether a path is that of a Transition row.
fn is_transition_at(
    alloc: Global,
    at: &RepoPath,
    rows: &[Row],
    root: usize,
    parents: &[usize],
    path: &RepoPath,
) -> Result<bool, NoMemory>
    requires placing { IsPlacing at.now rows.now root parents.now }
    requires stand { All (λ r. (q : List (List ℕ)) × StandsAt at.now rows.now r q) rows.now }
    requires fit { AllFit at.now rows.now }
    ensures { IfOk result (λ is. MatchBool is (IsTransitionAt at.now rows.now path.now) (IsTransitionAt at.now rows.now path.now → ⊥)) }
{
    let Some(row) = position(rows, &path.key().0) else {
        return Ok(false);
    };
    let found = path_of_row(alloc, at, rows, root, parents, row)?;
    Ok(is_transition(&rows[row], &found, path))
}

/// The index of the first nested entry whose path isn't that of a Transition row.
pub fn first_unnamed(
    alloc: Global,
    at: &RepoPath,
    rows: &[Row],
    root: usize,
    parents: &[usize],
    nested: &[Nested],
) -> Result<Option<usize>, NoMemory>
    requires placing { IsPlacing at.now rows.now root parents.now }
    requires stand { All (λ r. (q : List (List ℕ)) × StandsAt at.now rows.now r q) rows.now }
    requires fit { AllFit at.now rows.now }
    ensures { IfOk result (λ found. MatchOption found (All (λ n. IsTransitionAt at.now rows.now n.path) nested.now) (IsFirst (λ n. IsTransitionAt at.now rows.now n.path → ⊥) nested.now)) }
{
    for i in 0..nested.len() {
        if !is_transition_at(alloc, at, rows, root, parents, &nested[i].path)? {
            return Ok(Some(i));
        }
    }
    Ok(None)
}

/// The keys of the paths of nested entries.
fn nested_keys(alloc: Global, nested: &[Nested]) -> Result<BTreeSet<[u8; 16]>, NoMemory>
    ensures { IfOk result (λ set. (key : List ℕ) → contains bytes_cmp set key ≡ has_key nested.now key) }
{
    let mut keys = BTreeSet::new(alloc);
    for entry in nested {
        add(&mut keys, entry.path.key().0)?;
    }
    Ok(keys)
}

/// Whether a row isn't a Transition, or its key is one of these.
fn is_listed(keys: &BTreeSet<[u8; 16]>, row: &Row) -> bool
    ensures { IsListedBy keys.now row.now result }
{
    match row.kind {
        RowKind::Transition => keys.contains(&row.key.0),
        _ => true,
    }
}

/// The first Transition row without a nested entry.
pub fn first_unlisted(
    alloc: Global,
    rows: &[Row],
    nested: &[Nested],
) -> Result<Option<usize>, NoMemory>
    ensures { IfOk result (λ found. MatchOption found (All (HasNested nested.now) rows.now) (IsFirst (λ r. HasNested nested.now r → ⊥) rows.now)) }
{
    let keys = nested_keys(alloc, nested)?;
    for row in 0..rows.len() {
        if !is_listed(&keys, &rows[row]) {
            return Ok(Some(row));
        }
    }
    Ok(None)
}

/// The index of the nested entry of a path.
pub fn nested_position(nested: &[Nested], path: &RepoPath) -> Option<usize>
    ensures { MatchOption result ((n : TheNested) → Contains nested.now n → n.path ≢ path.now) (λ i. (i < length nested.now) × HoldsAt (λ n. n.path ≡ path.now) nested.now i) }
{
    for i in 0..nested.len() {
        if nested[i].path == *path {
            return Some(i);
        }
    }
    None
}

/// Whether a path is properly above another.
fn is_above(above: &RepoPath, path: &RepoPath) -> bool
    ensures { MatchBool result (IsAbove above.now path.now) (IsAbove above.now path.now → ⊥) }
{
    above.covers(path) && *path != *above
}

/// The index of the nested entry whose path is properly above this one.
pub fn position_above(nested: &[Nested], path: &RepoPath) -> Option<usize>
    ensures { MatchOption result
        ((n : TheNested) → Contains nested.now n → IsAbove n.path path.now → ⊥)
        (λ i. (i < length nested.now) × HoldsAt (λ n. IsAbove n.path path.now) nested.now i) }
{
    for i in 0..nested.len() {
        if is_above(&nested[i].path, path) {
            return Some(i);
        }
    }
    None
}
