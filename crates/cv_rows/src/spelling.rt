//! Whether rows fit the paths at which they stand. What is kept of a path serves all rows below it, so that a row costs its own
//! name alone, however deep it stands, and no path is made.
ghost use Rattle.std.specs.Prelude.{◌≡◌, ℕ, ◌+◌, ◌<◌, List, length, map, IfOk, MatchOption};
ghost use Rattle.std.specs.List.{All};
ghost use Rattle.cv_base.specs.Path.{IsPath, is_path_name};
ghost use Rattle.cv_base.specs.declared.repo_path.TheConstants.{NAMES_LIMIT};
ghost use Rattle.cv_rows.specs.Places.{StandsAt};
ghost use Rattle.cv_rows.specs.ParentsInner.{IsPlacing};
ghost use Rattle.cv_rows.specs.DigestsInner.{AreKept, IsFound};
ghost use Rattle.cv_rows.specs.Faults.{IsFirst, IsMisplaced, AllFit};
ghost use Rattle.cv_rows.specs.FaultsInner.{IsPlaced};

use crate::path_digest::PathDigest;
use crate::row::Row;
use cv_base::{NAMES_LIMIT, NoMemory, RepoPath, is_path_name};
use std::alloc::Global;

/// Whether the name of each row is a name in a path.
fn judged_names(alloc: Global, rows: &[Row]) -> Result<Vec<bool>, NoMemory>
    ensures { IfOk result (λ named. named.items ≡ map (λ r. is_path_name r.name) rows.now) }
{
    let mut named = Vec::with_capacity(alloc, rows.len())?;
    for row in rows {
        named.push(is_path_name(row.name.text()))?;
    }
    Ok(named)
}

/// A place for what is kept of each row's path, with nothing yet.
fn nothing_kept(alloc: Global, rows: &[Row]) -> Result<Vec<Option<PathDigest>>, NoMemory>
    ensures { (at : List (List ℕ)) → IfOk result (λ kept. AreKept at rows.now kept.items) }
{
    let mut kept = Vec::with_capacity(alloc, rows.len())?;
    for _ in rows {
        kept.push(None)?;
    }
    Ok(kept)
}

/// Keeps the path at which a row stands, and those above it, where they weren't kept before. `false` where the path passes
/// the limits of one. Then it has more than `left` names behind those of the catalogue's place.
fn spell(
    kept: &mut Vec<Option<PathDigest>>,
    at: &RepoPath,
    rows: &[Row],
    named: &[bool],
    root: usize,
    parents: &[usize],
    row: usize,
    left: usize,
) -> Result<bool, NoMemory>
    requires place { IsPath at.now }
    requires placing { IsPlacing at.now rows.now root parents.now }
    requires stand { All (λ r. (q : List (List ℕ)) × StandsAt at.now rows.now r q) rows.now }
    requires row { row < length rows.now }
    requires named { named.now ≡ map (λ r. is_path_name r.name) rows.now }
    requires kept { AreKept at.now rows.now kept.old.items }
    ensures kept { AreKept at.now rows.now kept.new.items }
    ensures found { IfOk result (IsFound at.now rows.now row left kept.new.items) }
{
    if kept[row].is_some() {
        return Ok(true);
    }
    if row == root {
        kept[row] = Some(PathDigest::of(at));
        return Ok(true);
    }
    if left == 0 {
        return Ok(false);
    }
    if !spell(kept, at, rows, named, root, parents, parents[row], left - 1)? {
        return Ok(false);
    }
    let Some(above) = &kept[parents[row]] else {
        unreachable!("the path above is kept");
    };
    let more = above.with_name(rows[row].name.text(), named[row])?;
    let is_path = more.is_some();
    kept[row] = more;
    Ok(is_path)
}

/// Whether a row stands at a path that it fits, where so many names may stand behind those of the place.
fn is_placed(
    kept: &mut Vec<Option<PathDigest>>,
    at: &RepoPath,
    rows: &[Row],
    named: &[bool],
    root: usize,
    parents: &[usize],
    row: usize,
    left: usize,
) -> Result<bool, NoMemory>
    requires place { IsPath at.now }
    requires left { length at.now + left ≡ NAMES_LIMIT }
    requires placing { IsPlacing at.now rows.now root parents.now }
    requires stand { All (λ r. (q : List (List ℕ)) × StandsAt at.now rows.now r q) rows.now }
    requires row { row < length rows.now }
    requires named { named.now ≡ map (λ r. is_path_name r.name) rows.now }
    requires kept { AreKept at.now rows.now kept.old.items }
    ensures kept { AreKept at.now rows.now kept.new.items }
    ensures placed { IfOk result (IsPlaced at.now rows.now row) }
{
    if !spell(kept, at, rows, named, root, parents, row, left)? {
        return Ok(false);
    }
    let Some(path) = &kept[row] else {
        unreachable!("the path is kept");
    };
    path.fits(at, &rows[row])
}

/// The index of the first row that doesn't fit the path at which it stands.
pub fn first_misplaced(
    alloc: Global,
    at: &RepoPath,
    rows: &[Row],
    root: usize,
    parents: &[usize],
) -> Result<Option<usize>, NoMemory>
    requires placing { IsPlacing at.now rows.now root parents.now }
    requires stand { All (λ r. (q : List (List ℕ)) × StandsAt at.now rows.now r q) rows.now }
    ensures { IfOk result (λ found. MatchOption found (AllFit at.now rows.now) (IsFirst (IsMisplaced at.now rows.now) rows.now)) }
{
    let left = NAMES_LIMIT - at.names().len();
    let named = judged_names(alloc, rows)?;
    let mut kept = nothing_kept(alloc, rows)?;
    for row in 0..rows.len() {
        let fits = is_placed(&mut kept, at, rows, &named, root, parents, row, left)?;
        if !fits {
            return Ok(Some(row));
        }
    }
    Ok(None)
}
