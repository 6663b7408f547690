//! The rows below a directory.
ghost use Rattle.std.specs.Prelude.{◌≡◌, IfOk, filter};
ghost use Rattle.cv_rows.specs.Catalogue.{is_below};
ghost use Rattle.cv_rows.specs.ListingInner.{is_in};

use crate::row::Row;
use cv_base::NoMemory;
use std::alloc::Global;

/// Whether a row has this key as its parent key, and isn't the row of the key.
fn is_below(row: &Row, key: &[u8; 16]) -> bool
    ensures { result ≡ is_below row.now key.now }
{
    row.parent.0 == *key && row.key.0 != *key
}

/// Equal rows of those that have this key as their parent key, but not the row of the key.
pub fn children_of(alloc: Global, rows: &[Row], key: &[u8; 16]) -> Result<Vec<Row>, NoMemory>
    ensures { IfOk result (λ children. children.items ≡ filter (λ r. is_below r key.now) rows.now) }
{
    let mut children = Vec::new(alloc);
    for row in rows {
        if is_below(row, key) {
            children.push(row.copy(alloc)?)?;
        }
    }
    Ok(children)
}

/// Whether a row has this key as its parent key, and is neither the row of the key nor that of the root's key.
fn is_in(row: &Row, key: &[u8; 16], root: &[u8; 16]) -> bool
    ensures { result ≡ is_in root.now key.now row.now }
{
    is_below(row, key) && row.key.0 != *root
}

/// Equal rows of those that have this key as their parent key, but neither the row of the key nor that of the root's key.
pub fn rows_below(
    alloc: Global,
    rows: &[Row],
    key: &[u8; 16],
    root: &[u8; 16],
) -> Result<Vec<Row>, NoMemory>
    ensures { IfOk result (λ found. found.items ≡ filter (is_in root.now key.now) rows.now) }
{
    let mut found = Vec::new(alloc);
    for row in rows {
        if is_in(row, key, root) {
            found.push(row.copy(alloc)?)?;
        }
    }
    Ok(found)
}
