//! Catalogues and their rows and nested entries, of which catalogues can be made again.
ghost use Rattle.std.specs.Prelude.{◌≡◌, ◌++◌, not, bytes_eq, Contains, IfOk};
ghost use Rattle.std.specs.List.{list_any};
ghost use Rattle.std.specs.List.Sorted.{IsPermutation, IsStrictlySortedBy};
ghost use Rattle.cv_rows.specs.Catalogue.{IsCatalogue, row_cmp};
ghost use Rattle.cv_rows.specs.Made.{AreParts};
ghost use Rattle.cv_rows.specs.declared.row.Row.{Row as TheRow};

use crate::made::bytes;
use cv_base::{NoMemory, RepoPath, ends_in_marker};
use cv_rows::{Catalogue, Nested, Row};
use std::alloc::Global;
use std::test::Fail;

/// Rows and nested entries.
pub(crate) type Parts = (Vec<Row>, Vec<Nested>);

/// Equal rows.
fn row_copies(alloc: Global, rows: &[Row]) -> Result<Vec<Row>, NoMemory>
    ensures { IfOk result (λ copies. copies.items ≡ rows.now) }
{
    let mut copies = Vec::new(alloc);
    for row in rows {
        let copy = row.copy(alloc)?;
        copies.push(copy)?;
    }
    Ok(copies)
}

/// Equal nested entries.
fn nested_copies(alloc: Global, nested: &[Nested]) -> Result<Vec<Nested>, NoMemory>
    ensures { IfOk result (λ copies. copies.items ≡ nested.now) }
{
    let mut copies = Vec::new(alloc);
    for entry in nested {
        let copy = entry.copy(alloc)?;
        copies.push(copy)?;
    }
    Ok(copies)
}

/// The catalogue of a text, and its rows and nested entries.
pub(crate) fn opened(alloc: Global, text: &str, at: &RepoPath) -> Result<(Catalogue, Parts), Fail>
    ensures is { IfOk result (λ x. IsCatalogue x.0) }
    ensures parts { IfOk result (λ x. x.0 ≡ record { at = at.now; rows = x.1.0.items; nested = x.1.1.items }) }
{
    let bytes = bytes(alloc, text)?;
    let whole = Catalogue::decode(alloc, bytes.as_slice(), at)?;
    let rows = row_copies(alloc, whole.rows())?;
    let nested = nested_copies(alloc, whole.nested())?;
    Ok((whole, (rows, nested)))
}

/// A list the other way round.
pub(crate) fn reversed<T>(items: Vec<T>) -> Vec<T>
    ensures { IsPermutation items.items result.items }
{
    let mut reversed = items;
    reversed.as_mut_slice().reverse();
    reversed
}

/// Whether a catalogue has no row with the key of a row.
fn lacks(catalogue: &Catalogue, row: &Row) -> bool
    ensures { result ≡ not (list_any (λ r. bytes_eq r.key.0 row.now.key.0) catalogue.now.rows) }
{
    catalogue.find(row.key).is_none()
}

/// Those of all rows that a catalogue lacks.
fn lacking(catalogue: &Catalogue, rows: Vec<Row>) -> Vec<Row>
    requires sorted { IsStrictlySortedBy row_cmp rows.items }
    requires within { (r : TheRow) → Contains catalogue.now.rows r → Contains rows.items r }
    ensures there { (r : TheRow) → Contains rows.items r → Contains (catalogue.now.rows ++ result.items) r }
    ensures back { (r : TheRow) → Contains (catalogue.now.rows ++ result.items) r → Contains rows.items r }
{
    let mut lacking = rows;
    lacking.retain(|row| lacks(catalogue, row));
    lacking
}

/// What is left of the catalogue of a text at the root without what a path below it covers, and the rows and nested entries
/// that were dropped.
pub(crate) fn parted(alloc: Global, text: &str, path: &RepoPath) -> Result<(Catalogue, Parts), Fail>
    ensures { IfOk result (λ x. AreParts x.0.at (x.0.rows ++ x.1.0.items) (x.0.nested ++ x.1.1.items)) }
{
    let at = RepoPath::root(alloc);
    if !at.covers(path) || *path == at || ends_in_marker(path) {
        return Err("a path below the root")?;
    }
    let (whole, (rows, mut nested)) = opened(alloc, text, &at)?;
    let Ok(left) = whole.without(alloc, path) else {
        return Err("memory")?;
    };
    let rows = lacking(&left, rows);
    nested.retain(|entry| path.covers(&entry.path));
    Ok((left, (rows, nested)))
}
