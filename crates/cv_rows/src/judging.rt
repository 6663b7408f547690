//! Whether rows and nested entries in any order are those of a catalogue: whether their keys differ, and whether they pass
//! no limit.
ghost use Rattle.std.specs.Prelude.{◌≡◌, ◌+◌, ◌*◌, ◌<◌, ◌≤◌, ◌↔◌, ◌++◌, take, length, IsTrue, IfOk, OnOk, MatchBool, MatchOption};
ghost use Rattle.std.specs.List.{flat_map, AllByRecursion};
ghost use Rattle.cv_base.specs.declared.limits.TheConstants.{OBJECT_LIMIT};
ghost use Rattle.cv_rows.specs.Row.{IsRow, row_bytes};
ghost use Rattle.cv_rows.specs.Nested.{IsNested, nested_bytes};
ghost use Rattle.cv_rows.specs.Made.{AreApart, IsTwice, PassesLimit, keys_of};
ghost use Rattle.cv_rows.specs.MadeInner.{Judges};
ghost use Rattle.cv_rows.specs.declared.judging.TheConstants.{ROW_ROOM};
ghost use Rattle.cv_rows.specs.declared.limits.TheConstants.{ROW_LIMIT};

use crate::keys::add;
use crate::limits::ROW_LIMIT;
use crate::nested::Nested;
use crate::row::Row;
use crate::with_fault::WithFault;
use cv_base::{NoMemory, OBJECT_LIMIT, PathKey};
use std::alloc::Global;
use std::collections::BTreeSet;

/// A key that two rows have.
fn key_twice(alloc: Global, rows: &[Row]) -> Result<Option<PathKey>, NoMemory>
    ensures { IfOk result (λ found. MatchOption found (AreApart (keys_of rows.now)) (λ key. IsTwice (keys_of rows.now) key.0)) }
{
    let mut keys = BTreeSet::new(alloc);
    for row in rows {
        if !add(&mut keys, row.key.0)? {
            return Ok(Some(row.key));
        }
    }
    Ok(None)
}

/// The most bytes that a row has in a row file: those of its fields, a hash, a name and a target.
const ROW_ROOM: usize = 8279;

/// How many bytes a row has in a row file.
fn row_len(row: &Row) -> usize
    requires { IsRow row.now }
    ensures value { result ≡ length (row_bytes row.now) }
    ensures bound { result ≤ ROW_ROOM }
{
    let hash = match row.hash {
        Some(_) => 20,
        None => 0,
    };
    69 + hash + row.name.text().len() + row.target.text().len()
}

/// How many bytes rows have in a row file.
fn rows_len(rows: &[Row]) -> usize
    requires count { length rows.now ≤ ROW_LIMIT }
    requires spelled { AllByRecursion IsRow rows.now }
    ensures value { result ≡ length (flat_map row_bytes rows.now) }
    ensures bound { result ≤ ROW_LIMIT * ROW_ROOM }
{
    let mut len = 0;
    for row in rows {
        len += row_len(row);
    }
    len
}

/// Whether nested entries, behind so many bytes, pass the limit of a row file.
fn is_too_long(len: usize, nested: &[Nested]) -> bool
    requires len { len ≤ ROW_LIMIT * ROW_ROOM + 12 }
    requires spelled { AllByRecursion IsNested nested.now }
    ensures { IsTrue result ↔ (OBJECT_LIMIT < len + length (flat_map nested_bytes nested.now)) }
{
    let mut total = len;
    for entry in nested {
        if total > OBJECT_LIMIT {
            return true;
        }
        total += 30 + entry.path.text_len();
    }
    total > OBJECT_LIMIT
}

/// Whether rows and nested entries pass a limit of row files.
fn passes_limit(rows: &[Row], nested: &[Nested]) -> bool
    requires spelled { AllByRecursion IsRow rows.now }
    requires nested_spelled { AllByRecursion IsNested nested.now }
    ensures { IsTrue result ↔ PassesLimit rows.now nested.now }
{
    rows.len() > ROW_LIMIT as usize || is_too_long(12 + rows_len(rows), nested)
}

/// Why no catalogue has these rows and nested entries, if none has.
pub fn judge(alloc: Global, rows: &[Row], nested: &[Nested]) -> Result<(), WithFault>
    requires spelled { AreApart (keys_of rows.now) → AllByRecursion IsRow rows.now }
    requires nested_spelled { AreApart (keys_of rows.now) → AllByRecursion IsNested nested.now }
    ensures { Judges rows.now nested.now result }
{
    if let Some(first) = key_twice(alloc, rows)? {
        return Err(WithFault::Collision { first });
    }
    if passes_limit(rows, nested) {
        return Err(WithFault::Full);
    }
    Ok(())
}

/// Adds rows and nested entries behind those that are there, and judges all of them. After a fault those that were there
/// are the first still.
pub fn extend(
    alloc: Global,
    rows: &mut Vec<Row>,
    nested: &mut Vec<Nested>,
    more_rows: Vec<Row>,
    more_nested: Vec<Nested>,
) -> Result<(), WithFault>
    requires spelled { AreApart (keys_of (rows.old.items ++ more_rows.items)) → AllByRecursion IsRow (rows.old.items ++ more_rows.items) }
    requires nested_spelled { AreApart (keys_of (rows.old.items ++ more_rows.items)) → AllByRecursion IsNested (nested.old.items ++ more_nested.items) }
    ensures rows { OnOk result (rows.new.items ≡ rows.old.items ++ more_rows.items) }
    ensures nested { OnOk result (nested.new.items ≡ nested.old.items ++ more_nested.items) }
    ensures judges { Judges (rows.old.items ++ more_rows.items) (nested.old.items ++ more_nested.items) result }
    ensures first_rows { take (length rows.old.items) rows.new.items ≡ rows.old.items }
    ensures first_nested { take (length nested.old.items) nested.new.items ≡ nested.old.items }
{
    let mut more_rows = more_rows;
    let mut more_nested = more_nested;
    rows.append(&mut more_rows)?;
    nested.append(&mut more_nested)?;
    judge(alloc, rows, nested)
}
