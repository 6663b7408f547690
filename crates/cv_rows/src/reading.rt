//! Reading the rows and nested entries of a row file.
ghost use Rattle.std.specs.Prelude.{◌≡◌, ◌+◌, ◌≤◌, length};
ghost use Rattle.cv_rows.specs.Reading.{row_behind, row_at, nested_at, many_at, entries_at, entries_of, number_in, is_too_large};
ghost use Rattle.cv_rows.specs.ReadingInner.{Gives};

use crate::fields::{
    read_attr, read_hash, read_kind, read_name, read_path, read_size, read_target,
};
use crate::limits::ROW_LIMIT;
use crate::nested::Nested;
use crate::row::Row;
use crate::row_fault::RowFault;
use crate::row_kind::RowKind;
use crate::write::MAGIC;
use cv_base::{Attr, OBJECT_LIMIT, PathKey, read_array, read_u64};
use std::alloc::Global;

/// The rows and the nested entries of a row file, in its order.
pub type Entries = (Vec<Row>, Vec<Nested>);

/// The row of these first fields, whose others are at the front of a text.
#[tactic(auto, unfolding(crate::specs::Reading::row_behind))]
fn read_behind(
    alloc: Global,
    all: usize,
    key: PathKey,
    parent: PathKey,
    kind: RowKind,
    attr: Attr,
    text: &[u8],
) -> Result<(Row, &[u8]), RowFault>
    ensures { Gives (λ x. (x.0, x.1.now)) result (row_behind all key.0 parent.0 kind attr text.now) }
{
    let (size, rest) = read_size(all, kind, text)?;
    let (hash, rest) = read_hash(all, kind, rest)?;
    let (name, rest) = read_name(alloc, all, &parent, rest)?;
    let (target, rest) = read_target(alloc, all, kind, size, text, rest)?;
    let row = Row {
        key,
        parent,
        kind,
        attr,
        size,
        hash,
        name,
        target,
    };
    Ok((row, rest))
}

/// A row at the front of a text.
#[tactic(auto, unfolding(crate::specs::Reading::row_at))]
fn read_row(alloc: Global, all: usize, text: &[u8]) -> Result<(Row, &[u8]), RowFault>
    ensures { Gives (λ x. (x.0, x.1.now)) result (row_at all text.now) }
{
    let (key, rest) = read_array(RowFault::Short, text)?;
    let (parent, rest) = read_array(RowFault::Short, rest)?;
    let (kind, rest) = read_kind(all, rest)?;
    let (attr, rest) = read_attr(all, kind, rest)?;
    read_behind(alloc, all, PathKey(key), PathKey(parent), kind, attr, rest)
}

/// A nested entry at the front of a text.
#[tactic(auto, unfolding(crate::specs::Reading::nested_at))]
fn read_nested(alloc: Global, all: usize, text: &[u8]) -> Result<(Nested, &[u8]), RowFault>
    ensures { Gives (λ x. (x.0, x.1.now)) result (nested_at all text.now) }
{
    let (path, rest) = read_path(alloc, all, text)?;
    let (hash, rest) = read_array(RowFault::Short, rest)?;
    let (size, rest) = read_u64(RowFault::Short, rest)?;
    Ok((Nested { path, hash, size }, rest))
}

/// So many rows at the front of a text.
fn read_rows(
    alloc: Global,
    all: usize,
    count: u32,
    text: &[u8],
) -> Result<(Vec<Row>, &[u8]), RowFault>
    ensures { Gives (λ x. (x.0.items, x.1.now)) result (many_at (row_at all) count text.now) }
{
    let mut rows = Vec::new(alloc);
    let mut rest = text;
    for _ in 0..count {
        let (row, after) = read_row(alloc, all, rest)?;
        rows.push(row)?;
        rest = after;
    }
    Ok((rows, rest))
}

/// So many nested entries at the front of a text.
fn read_nesteds(
    alloc: Global,
    all: usize,
    count: u32,
    text: &[u8],
) -> Result<(Vec<Nested>, &[u8]), RowFault>
    ensures { Gives (λ x. (x.0.items, x.1.now)) result (many_at (nested_at all) count text.now) }
{
    let mut nested = Vec::new(alloc);
    let mut rest = text;
    for _ in 0..count {
        let (entry, after) = read_nested(alloc, all, rest)?;
        nested.push(entry)?;
        rest = after;
    }
    Ok((nested, rest))
}

/// The rows and nested entries of a text that has nothing else.
#[tactic(auto, unfolding(crate::specs::Reading::entries_at))]
fn read_entries(
    alloc: Global,
    all: usize,
    row_count: u32,
    nested_count: u32,
    text: &[u8],
) -> Result<Entries, RowFault>
    ensures { Gives (λ x. (x.0.items, x.1.items)) result (entries_at all row_count nested_count text.now) }
{
    let (rows, rest) = read_rows(alloc, all, row_count, text)?;
    let (nested, rest) = read_nesteds(alloc, all, nested_count, rest)?;
    if rest.is_empty() {
        Ok((rows, nested))
    } else {
        Err(RowFault::TrailingBytes)
    }
}

/// The four bytes at this offset, as a number.
fn number_in(bytes: &[u8], offset: usize) -> u32
    requires { offset + 4 ≤ length bytes.now }
    ensures { result ≡ number_in offset bytes.now }
{
    u32::from_be_bytes([
        bytes[offset],
        bytes[offset + 1],
        bytes[offset + 2],
        bytes[offset + 3],
    ])
}

/// Whether the bytes, or the rows that they count, are too many.
fn is_too_large(bytes: &[u8]) -> bool
    ensures { result ≡ is_too_large bytes.now }
{
    if bytes.len() > OBJECT_LIMIT {
        return true;
    }
    bytes.len() >= 8 && number_in(bytes, 4) > ROW_LIMIT
}

/// The rows and nested entries of all these bytes, or the first fault of a field.
#[tactic(auto, unfolding(crate::specs::Reading::entries_of))]
pub fn read_file(alloc: Global, bytes: &[u8]) -> Result<Entries, RowFault>
    ensures { Gives (λ x. (x.0.items, x.1.items)) result (entries_of bytes.now) }
{
    if is_too_large(bytes) {
        return Err(RowFault::TooLarge);
    }
    if bytes.len() >= 4 && bytes[..4] != MAGIC[..] {
        return Err(RowFault::BadMagic);
    }
    if bytes.len() < 12 {
        return Err(RowFault::Short);
    }
    let row_count = number_in(bytes, 4);
    let nested_count = number_in(bytes, 8);
    read_entries(alloc, bytes.len(), row_count, nested_count, &bytes[12..])
}
