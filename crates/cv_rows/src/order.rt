//! The order of rows and nested entries.
ghost use Rattle.std.specs.Prelude.{◌≡◌, MatchOption};
ghost use Rattle.std.specs.List.Sorted.{IsStrictlySortedBy, IsPermutation};
ghost use Rattle.cv_rows.specs.Catalogue.{row_cmp, nested_cmp};
ghost use Rattle.cv_rows.specs.Faults.{IsFirstDisorder};
ghost use Rattle.cv_rows.specs.Made.{AreApart, keys_of, texts_of, by_key, by_text};

use crate::nested::Nested;
use crate::places::key_of_row;
use crate::row::Row;
use cv_base::cmp_texts;
use std::cmp::Ordering;

/// The index of the first row whose key isn't above its predecessor's.
pub fn row_disorder(rows: &[Row]) -> Option<usize>
    ensures { MatchOption result (IsStrictlySortedBy row_cmp rows.now) (IsFirstDisorder row_cmp rows.now) }
{
    for i in 1..rows.len() {
        if rows[i - 1].key.0.cmp(&rows[i].key.0) != Ordering::Less {
            return Some(i);
        }
    }
    None
}

/// How two nested entries are ordered.
fn nested_order(a: &Nested, b: &Nested) -> Ordering
    ensures { result ≡ nested_cmp a.now b.now }
{
    cmp_texts(&a.path, &b.path)
}

/// The index of the first nested entry whose path isn't above its predecessor's.
pub fn nested_disorder(nested: &[Nested]) -> Option<usize>
    ensures { MatchOption result (IsStrictlySortedBy nested_cmp nested.now) (IsFirstDisorder nested_cmp nested.now) }
{
    for i in 1..nested.len() {
        if nested_order(&nested[i - 1], &nested[i]) != Ordering::Less {
            return Some(i);
        }
    }
    None
}

/// Rows in ascending order of key.
pub fn rows_by_key(rows: Vec<Row>) -> Vec<Row>
    requires { AreApart (keys_of rows.items) }
    ensures is { result.items ≡ by_key rows.items }
    ensures sorted { IsStrictlySortedBy row_cmp result.items }
    ensures permutation { IsPermutation rows.items result.items }
{
    let mut sorted = rows;
    sorted.sort_unstable_by_key(key_of_row);
    sorted
}

/// Nested entries in ascending order of the texts of their paths.
pub fn nested_by_text(nested: Vec<Nested>) -> Vec<Nested>
    requires { AreApart (texts_of nested.items) }
    ensures is { result.items ≡ by_text nested.items }
    ensures sorted { IsStrictlySortedBy nested_cmp result.items }
    ensures permutation { IsPermutation nested.items result.items }
{
    let mut sorted = nested;
    sorted.sort_unstable_by(nested_order);
    sorted
}
