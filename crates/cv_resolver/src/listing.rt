//! The names in a directory.
ghost use Rattle.std.specs.Prelude.{◌≡◌, map, IfOk};
ghost use Rattle.std.specs.List.Sorted.{IsPermutation, IsSortedByKey};
ghost use Rattle.cv_base.specs.BytesOrder.{bytes_cmp};
ghost use Rattle.cv_rows.specs.Catalogue.{IsCatalogue};
ghost use Rattle.cv_resolver.specs.Listing.{AreNames};

use cv_base::{NoMemory, RepoPath, Text};
use cv_rows::{Catalogue, Row};
use std::alloc::Global;
use std::cmp::Ordering;

/// How two rows are ordered by their names.
fn name_order(a: &Row, b: &Row) -> Ordering
    ensures { result ≡ bytes_cmp a.now.name b.now.name }
{
    a.name.text().cmp(b.name.text())
}

/// Rows in ascending order of their names.
fn by_name(rows: Vec<Row>) -> Vec<Row>
    ensures permutation { IsPermutation rows.items result.items }
    ensures sorted { IsSortedByKey (λ r. r.name) bytes_cmp result.items }
{
    let mut sorted = rows;
    sorted.sort_unstable_by(name_order);
    sorted
}

/// The names of rows.
fn names_of(alloc: Global, rows: &[Row]) -> Result<Vec<Text>, NoMemory>
    ensures { IfOk result (λ names. names.items ≡ map (λ r. r.name) rows.now) }
{
    let mut names = Vec::new(alloc);
    for row in rows {
        names.push(Text::from_str(alloc, row.name.text())?)?;
    }
    Ok(names)
}

/// The names in the directory at a path, in ascending order of their bytes.
pub fn listing(alloc: Global, catalogue: &Catalogue, at: &RepoPath) -> Result<Vec<Text>, NoMemory>
    requires { IsCatalogue catalogue.now }
    ensures { IfOk result (λ names. AreNames catalogue.now at.now names.items) }
{
    let rows = by_name(catalogue.rows_in(alloc, at)?);
    names_of(alloc, &rows)
}
