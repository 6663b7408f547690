//! The bytes of row files.
ghost use Rattle.std.specs.Prelude.{◌≡◌, ◌+◌, ◌++◌, ◌<◌, ◌^◌, ◌≤◌, length, flat_map, IfOk, OnOk};
ghost use Rattle.std.specs.List.{AllByRecursion};
ghost use Rattle.std.specs.Int.{w32, w64, to_be_bytes};
ghost use Rattle.cv_base.specs.Attr.{IsAttr};
ghost use Rattle.cv_base.specs.Fields.{text_field};
ghost use Rattle.cv_rows.specs.Row.{IsRow, hash_field, row_bytes, type_bits};
ghost use Rattle.cv_rows.specs.Nested.{IsNested, nested_bytes};
ghost use Rattle.cv_rows.specs.Catalogue.{file_of};
ghost use Rattle.cv_rows.specs.declared.limits.TheConstants.{ROW_LIMIT};

use crate::nested::Nested;
use crate::row::Row;
use crate::row_kind::RowKind;
use cv_base::{Attr, NoMemory};
use std::alloc::Global;

/// The four bytes that a row file begins with.
pub const MAGIC: &[u8; 4] = b"CVR1";

/// Adds the field of a hash.
fn put_hash(out: &mut Vec<u8>, hash: &Option<[u8; 20]>) -> Result<(), NoMemory>
    ensures { OnOk result (out.new.items ≡ out.old.items ++ hash_field hash.now) }
{
    match hash {
        None => out.extend_from_slice(&[0])?,
        Some(hash) => {
            out.extend_from_slice(&[20])?;
            out.extend_from_slice(hash)?;
        }
    }
    Ok(())
}

/// Adds the field of a text.
fn put_text(out: &mut Vec<u8>, text: &str) -> Result<(), NoMemory>
    requires { length text.now < 2 ^ 16 }
    ensures { OnOk result (out.new.items ≡ out.old.items ++ text_field text.now) }
{
    out.extend_from_slice(&(text.len() as u16).to_be_bytes())?;
    out.extend_from_slice(text.as_bytes())?;
    Ok(())
}

/// Adds the mode with the bits of this kind, the time, the user and the group.
fn put_attr(out: &mut Vec<u8>, kind: RowKind, attr: &Attr) -> Result<(), NoMemory>
    requires { IsAttr attr.now }
    ensures { OnOk result (out.new.items ≡ out.old.items ++ to_be_bytes w32 (type_bits kind + attr.now.mode) ++ to_be_bytes w64 attr.now.mtime ++ to_be_bytes w32 attr.now.uid ++ to_be_bytes w32 attr.now.gid) }
{
    out.extend_from_slice(&(kind.type_bits() + attr.mode).to_be_bytes())?;
    out.extend_from_slice(&attr.mtime.to_be_bytes())?;
    out.extend_from_slice(&attr.uid.to_be_bytes())?;
    out.extend_from_slice(&attr.gid.to_be_bytes())?;
    Ok(())
}

/// Adds the fields of a row.
fn put_row(out: &mut Vec<u8>, row: &Row) -> Result<(), NoMemory>
    requires { IsRow row.now }
    ensures { OnOk result (out.new.items ≡ out.old.items ++ row_bytes row.now) }
{
    out.extend_from_slice(&row.key.0)?;
    out.extend_from_slice(&row.parent.0)?;
    out.extend_from_slice(&row.kind.flags().to_be_bytes())?;
    put_attr(out, row.kind, &row.attr)?;
    out.extend_from_slice(&row.size.to_be_bytes())?;
    put_hash(out, &row.hash)?;
    put_text(out, row.name.text())?;
    put_text(out, row.target.text())
}

/// Adds the fields of a nested entry.
fn put_nested(alloc: Global, out: &mut Vec<u8>, nested: &Nested) -> Result<(), NoMemory>
    requires { IsNested nested.now }
    ensures { OnOk result (out.new.items ≡ out.old.items ++ nested_bytes nested.now) }
{
    let path = nested.path.text(alloc)?;
    put_text(out, path.as_str())?;
    out.extend_from_slice(&nested.hash)?;
    out.extend_from_slice(&nested.size.to_be_bytes())?;
    Ok(())
}

/// Adds the fields of rows.
fn put_rows(out: &mut Vec<u8>, rows: &[Row]) -> Result<(), NoMemory>
    requires { AllByRecursion IsRow rows.now }
    ensures { OnOk result (out.new.items ≡ out.old.items ++ flat_map row_bytes rows.now) }
{
    for row in rows {
        put_row(out, row)?;
    }
    Ok(())
}

/// Adds the fields of nested entries.
fn put_entries(alloc: Global, out: &mut Vec<u8>, nested: &[Nested]) -> Result<(), NoMemory>
    requires { AllByRecursion IsNested nested.now }
    ensures { OnOk result (out.new.items ≡ out.old.items ++ flat_map nested_bytes nested.now) }
{
    for entry in nested {
        put_nested(alloc, out, entry)?;
    }
    Ok(())
}

/// The bytes of the row file of these rows and nested entries.
pub fn catalogue(alloc: Global, rows: &[Row], nested: &[Nested]) -> Result<Vec<u8>, NoMemory>
    requires rows { length rows.now ≤ ROW_LIMIT }
    requires nested { length nested.now < 2 ^ 32 }
    requires spelled { AllByRecursion IsRow rows.now }
    requires nested_spelled { AllByRecursion IsNested nested.now }
    ensures { IfOk result (λ bytes. bytes.items ≡ file_of rows.now nested.now) }
{
    let mut out = Vec::from_slice(alloc, MAGIC)?;
    out.extend_from_slice(&(rows.len() as u32).to_be_bytes())?;
    out.extend_from_slice(&(nested.len() as u32).to_be_bytes())?;
    put_rows(&mut out, rows)?;
    put_entries(alloc, &mut out, nested)?;
    Ok(out)
}
