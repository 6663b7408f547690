//! Where the rows of a catalogue stand.
ghost use Rattle.std.specs.Prelude.{◌≡◌, ◌≢◌, ℕ, ◌+◌, ◌^◌, ◌<◌, ◌≤◌, ◌↔◌, false, None, List, length, IsTrue, IfOk, MatchOption, Contains, slice_index_or};
ghost use Rattle.std.specs.List.{HoldsAt, All};
ghost use Rattle.std.specs.List.Sorted.{IsStrictlySortedBy};
ghost use Rattle.cv_base.specs.Path.{IsPath};
ghost use Rattle.cv_rows.specs.Catalogue.{row_cmp};
ghost use Rattle.cv_rows.specs.Places.{IsRoot, IsChild, StandsAt, StandEach};
ghost use Rattle.cv_rows.specs.Parents.{IsBelow};
ghost use Rattle.cv_rows.specs.ParentsInner.{IsParentOf, AreParents, AreAbove, AreInside, IsPlacing, IsPathOf, HasPath};
ghost use Rattle.cv_rows.specs.Faults.{IsFirst, IsOrphan, AllStand, AllFit};
ghost use Rattle.cv_rows.specs.declared.limits.TheConstants.{ROW_LIMIT};
ghost use Rattle.cv_rows.specs.declared.row.Row.{Row as TheRow};

use crate::row::Row;
use crate::row_kind::RowKind;
use cv_base::{NAMES_LIMIT, NoMemory, PathName, RepoPath};
use std::alloc::Global;

/// So many doublings make 65,536 steps, which are more than there are rows.
const DOUBLINGS: u32 = 16;

/// Whether a row has the key, the kind and the parent key of the root row of the catalogue at a place.
pub fn is_root(at: &RepoPath, row: &Row) -> bool
    ensures { IsTrue result ↔ IsRoot at.now row.now }
{
    let is_kind = match row.kind {
        RowKind::Directory => at.names().is_empty(),
        RowKind::NestedRoot => !at.names().is_empty(),
        _ => false,
    };
    is_kind && row.key.0 == at.key().0 && row.parent.0 == at.parent_key().0
}

/// The key of a row.
pub fn key_of_row(row: &Row) -> [u8; 16]
    ensures { result ≡ row.now.key.0 }
{
    row.key.0
}

/// The index of the row with this key.
pub fn position(rows: &[Row], key: &[u8; 16]) -> Option<usize>
    requires { IsStrictlySortedBy row_cmp rows.now }
    ensures { MatchOption result ((r : TheRow) → Contains rows.now r → r.key.0 ≢ key.now) (λ i. (i < length rows.now) × HoldsAt (λ r. r.key.0 ≡ key.now) rows.now i) }
{
    rows.binary_search_by_key(key, key_of_row).ok()
}

/// The index of the root row of the catalogue at a place.
pub fn root_position(at: &RepoPath, rows: &[Row]) -> Option<usize>
    requires { IsStrictlySortedBy row_cmp rows.now }
    ensures { MatchOption result ((r : TheRow) → Contains rows.now r → IsRoot at.now r → ⊥) (λ i. (i < length rows.now) × HoldsAt (IsRoot at.now) rows.now i) }
{
    let Some(i) = position(rows, &at.key().0) else {
        return None;
    };
    if is_root(at, &rows[i]) { Some(i) } else { None }
}

/// Whether a row is a child of another.
fn is_child(row: &Row, parent: &Row) -> bool
    ensures { IsTrue result ↔ IsChild row.now parent.now }
{
    row.kind != RowKind::NestedRoot
        && parent.kind.holds_rows()
        && row.parent.0 == parent.key.0
        && row.key.0 != parent.key.0
}

/// The index of the parent of a row, or the count of rows where it has none.
fn parent_of(rows: &[Row], root: usize, row: usize) -> usize
    requires ordered { IsStrictlySortedBy row_cmp rows.now }
    requires root { root < length rows.now }
    requires row { row < length rows.now }
    ensures { IsParentOf rows.now root row result }
{
    if row == root {
        return root;
    }
    let child = &rows[row];
    let Some(parent) = position(rows, &child.parent.0) else {
        return rows.len();
    };
    if is_child(child, &rows[parent]) {
        parent
    } else {
        rows.len()
    }
}

/// The index of the parent of each row.
pub fn parents(alloc: Global, rows: &[Row], root: usize) -> Result<Vec<usize>, NoMemory>
    requires ordered { IsStrictlySortedBy row_cmp rows.now }
    requires root { root < length rows.now }
    requires count { length rows.now ≤ ROW_LIMIT }
    ensures { IfOk result (λ parents. AreParents rows.now root parents.items) }
{
    let mut parents = Vec::with_capacity(alloc, rows.len() + 1)?;
    for row in 0..rows.len() {
        parents.push(parent_of(rows, root, row))?;
    }
    parents.push(rows.len())?;
    Ok(parents)
}

/// What stands twice as many steps above each.
fn doubled(alloc: Global, far: &[usize]) -> Result<Vec<usize>, NoMemory>
    requires { AreInside far.now }
    ensures { IfOk result (λ farther. AreAbove 2 far.now farther.items) }
{
    let mut farther = Vec::new(alloc);
    for above in far {
        farther.push(far[*above])?;
    }
    Ok(farther)
}

/// What stands `2 ^ DOUBLINGS` steps above each, which is more steps than there are rows.
pub fn far_above(alloc: Global, parents: &[usize]) -> Result<Vec<usize>, NoMemory>
    requires { AreInside parents.now }
    ensures { IfOk result (λ far. AreAbove (2 ^ DOUBLINGS) parents.now far.items) }
{
    let mut far = Vec::from_slice(alloc, parents)?;
    for _ in 0..DOUBLINGS {
        far = doubled(alloc, &far)?;
    }
    Ok(far)
}

/// The index of the first row that stands nowhere.
pub fn first_orphan(
    alloc: Global,
    rows: &[Row],
    root: usize,
    parents: &[usize],
) -> Result<Option<usize>, NoMemory>
    requires count { length rows.now ≤ ROW_LIMIT }
    requires root { root < length rows.now }
    requires parents { AreParents rows.now root parents.now }
    ensures { (at : List (List ℕ)) → IsPlacing at rows.now root parents.now → IfOk result (λ found. MatchOption found (All (λ r. (q : List (List ℕ)) × StandsAt at rows.now r q) rows.now) (IsFirst (IsOrphan at rows.now) rows.now)) }
{
    let far = far_above(alloc, parents)?;
    for row in 0..rows.len() {
        if far[row] != root {
            return Ok(Some(row));
        }
    }
    Ok(None)
}

/// The path at which a row stands, unless it passes the limits of a path. Then it has more than `left`
/// names behind those of the catalogue's place.
fn path_within(
    alloc: Global,
    at: &RepoPath,
    rows: &[Row],
    root: usize,
    parents: &[usize],
    row: usize,
    left: usize,
) -> Result<Option<RepoPath>, NoMemory>
    requires place { IsPath at.now }
    requires placing { IsPlacing at.now rows.now root parents.now }
    requires stand { All (λ r. (q : List (List ℕ)) × StandsAt at.now rows.now r q) rows.now }
    requires row { row < length rows.now }
    ensures { IfOk result (IsPathOf at.now rows.now row left) }
{
    if row == root {
        return Ok(Some(at.copy(alloc)?));
    }
    if left == 0 {
        return Ok(None);
    }
    let above = path_within(alloc, at, rows, root, parents, parents[row], left - 1)?;
    match above {
        Some(above) => further(alloc, above, rows[row].name.text()),
        None => Ok(None),
    }
}

/// The path at which a row stands, unless it passes the limits of a path.
pub fn path_of_row(
    alloc: Global,
    at: &RepoPath,
    rows: &[Row],
    root: usize,
    parents: &[usize],
    row: usize,
) -> Result<Option<RepoPath>, NoMemory>
    requires placing { IsPlacing at.now rows.now root parents.now }
    requires stand { All (λ r. (q : List (List ℕ)) × StandsAt at.now rows.now r q) rows.now }
    requires row { row < length rows.now }
    ensures { IfOk result (HasPath at.now rows.now row) }
{
    let left = NAMES_LIMIT - at.names().len();
    path_within(alloc, at, rows, root, parents, row, left)
}

/// The path at which a row stands, of rows that each fit theirs.
fn path_there(
    alloc: Global,
    at: &RepoPath,
    rows: &[Row],
    root: usize,
    parents: &[usize],
    row: usize,
) -> Result<RepoPath, NoMemory>
    requires placing { IsPlacing at.now rows.now root parents.now }
    requires stand { AllStand at.now rows.now }
    requires fit { AllFit at.now rows.now }
    requires row { row < length rows.now }
    ensures { IfOk result (λ path. (d : TheRow) → StandsAt at.now rows.now (slice_index_or rows.now row d) path) }
{
    match path_of_row(alloc, at, rows, root, parents, row)? {
        Some(path) => Ok(path),
        None => unreachable!("a row of a catalogue fits its path"),
    }
}

/// The path at which the row at an index of a catalogue stands.
pub fn path_at(alloc: Global, at: &RepoPath, rows: &[Row], row: usize) -> Result<RepoPath, NoMemory>
    requires place { IsPath at.now }
    requires count { length rows.now ≤ ROW_LIMIT }
    requires ordered { IsStrictlySortedBy row_cmp rows.now }
    requires stand { AllStand at.now rows.now }
    requires fit { AllFit at.now rows.now }
    requires row { row < length rows.now }
    ensures { IfOk result (λ path. (d : TheRow) → StandsAt at.now rows.now (slice_index_or rows.now row d) path) }
{
    let Some(root) = root_position(at, rows) else {
        unreachable!("a catalogue has a root row");
    };
    let above = parents(alloc, rows, root)?;
    path_there(alloc, at, rows, root, &above, row)
}

/// The path of each row of a catalogue, in their order.
pub fn places_of(alloc: Global, at: &RepoPath, rows: &[Row]) -> Result<Vec<RepoPath>, NoMemory>
    requires place { IsPath at.now }
    requires count { length rows.now ≤ ROW_LIMIT }
    requires ordered { IsStrictlySortedBy row_cmp rows.now }
    requires stand { AllStand at.now rows.now }
    requires fit { AllFit at.now rows.now }
    ensures { IfOk result (λ paths. StandEach at.now rows.now rows.now paths.items) }
{
    let Some(root) = root_position(at, rows) else {
        unreachable!("a catalogue has a root row");
    };
    let above = parents(alloc, rows, root)?;
    let mut paths = Vec::new(alloc);
    for row in 0..rows.len() {
        let path = path_there(alloc, at, rows, root, &above, row)?;
        paths.push(path)?;
    }
    Ok(paths)
}

/// A path with one more name, unless that passes the limits of a path.
pub fn below(alloc: Global, above: &RepoPath, name: &str) -> Result<Option<RepoPath>, NoMemory>
    ensures { IfOk result (IsBelow above.now name.now) }
{
    further(alloc, above.copy(alloc)?, name)
}

/// The same of a path that comes to an end: no name that it has is copied.
fn further(alloc: Global, above: RepoPath, name: &str) -> Result<Option<RepoPath>, NoMemory>
    ensures { IfOk result (IsBelow above name.now) }
{
    match above.with_name(alloc, name) {
        Ok(path) => Ok(Some(path)),
        Err(fault) => {
            fault.unless_memory()?;
            Ok(None)
        }
    }
}

/// Whether a row stands at the path of these names.
pub fn stands_at(at: &RepoPath, rows: &[Row], root: usize, row: usize, names: &[PathName]) -> bool
    requires ordered { IsStrictlySortedBy row_cmp rows.now }
    requires inside { root < length rows.now }
    requires is_root { HoldsAt (IsRoot at.now) rows.now root }
    requires row { row < length rows.now }
    ensures { (d : TheRow) → IsTrue result ↔ StandsAt at.now rows.now (slice_index_or rows.now row d) names.now }
{
    if row == root {
        return names == at.names();
    }
    let [above @ .., last] = names else {
        return false;
    };
    if rows[row].name.text() != last.as_str() {
        return false;
    }
    let parent = parent_of(rows, root, row);
    parent < rows.len() && stands_at(at, rows, root, parent, above)
}
