//! The fields of row files, read at the front of bytes. `all` is the count of all bytes of the file, by
//! which a fault names the offset of a field. Each function gives what follows its field too.
ghost use Rattle.std.specs.Prelude.{◌≡◌, IfOk};
ghost use Rattle.cv_base.specs.Fields.{bad};
ghost use Rattle.cv_rows.specs.Reading.{kind_of, kind_at, attr_at, permissions, is_size, size_at, hash_at, name_at, target_limit, is_size_of, target_at, path_at};
ghost use Rattle.cv_rows.specs.ReadingInner.{Gives, row_name_of};
ghost use Rattle.cv_rows.specs.Row.{is_row_name};
ghost use Rattle.cv_rows.specs.declared.row_fault.RowFault.TheVariants.{BadField};

use crate::row_fault::RowFault;
use crate::row_kind::RowKind;
use cv_base::{
    Attr, MODE_LIMIT, NoMemory, OBJECT_LIMIT, PATH_LIMIT, PATH_NAME_LIMIT, PathKey, RepoPath,
    TARGET_LIMIT, Target, is_path_name, read_array, read_bytes, read_length, read_u32, read_u64,
};
use std::alloc::Global;

/// The fault that the field which begins with this text isn't as it has to be.
pub fn bad(all: usize, text: &[u8]) -> RowFault
    ensures { result ≡ bad BadField all text.now }
{
    RowFault::BadField(all.saturating_sub(text.len()))
}

/// The kind that these flags stand for.
fn kind_of_flags(flags: u32) -> Option<RowKind>
    ensures { result ≡ kind_of flags }
{
    match flags {
        1 => Some(RowKind::Directory),
        3 => Some(RowKind::Transition),
        33 => Some(RowKind::NestedRoot),
        4 => Some(RowKind::File),
        12 => Some(RowKind::Link),
        _ => None,
    }
}

/// The flags.
#[tactic(auto, unfolding(crate::specs::Reading::kind_at))]
pub fn read_kind(all: usize, text: &[u8]) -> Result<(RowKind, &[u8]), RowFault>
    ensures { Gives (λ x. (x.0, x.1.now)) result (kind_at all text.now) }
{
    let (flags, rest) = read_u32(RowFault::Short, text)?;
    match kind_of_flags(flags) {
        Some(kind) => Ok((kind, rest)),
        None => Err(bad(all, text)),
    }
}

/// The permission bits in a mode of this kind.
fn permissions(kind: RowKind, mode: u32) -> Option<u32>
    ensures { result ≡ permissions kind mode }
{
    let bits = kind.type_bits();
    if bits <= mode && mode < bits + MODE_LIMIT {
        Some(mode - bits)
    } else {
        None
    }
}

/// The mode, the time, the user and the group.
#[tactic(auto, unfolding(crate::specs::Reading::attr_at))]
pub fn read_attr(all: usize, kind: RowKind, text: &[u8]) -> Result<(Attr, &[u8]), RowFault>
    ensures { Gives (λ x. (x.0, x.1.now)) result (attr_at all kind text.now) }
{
    let (mode, rest) = read_u32(RowFault::Short, text)?;
    let Some(mode) = permissions(kind, mode) else {
        return Err(bad(all, text));
    };
    let (mtime, rest) = read_u64(RowFault::Short, rest)?;
    let (uid, rest) = read_u32(RowFault::Short, rest)?;
    let (gid, rest) = read_u32(RowFault::Short, rest)?;
    let attr = Attr {
        mode,
        mtime,
        uid,
        gid,
    };
    Ok((attr, rest))
}

/// Whether a row of this kind may have this size.
fn is_size(kind: RowKind, size: u64) -> bool
    ensures { result ≡ is_size kind size }
{
    match kind {
        RowKind::Directory | RowKind::Transition | RowKind::NestedRoot => size == 0,
        RowKind::File => size <= OBJECT_LIMIT as u64,
        RowKind::Link => 1 <= size && size <= TARGET_LIMIT as u64,
    }
}

/// The size.
#[tactic(auto, unfolding(crate::specs::Reading::size_at))]
pub fn read_size(all: usize, kind: RowKind, text: &[u8]) -> Result<(u64, &[u8]), RowFault>
    ensures { Gives (λ x. (x.0, x.1.now)) result (size_at all kind text.now) }
{
    let (size, rest) = read_u64(RowFault::Short, text)?;
    if is_size(kind, size) {
        Ok((size, rest))
    } else {
        Err(bad(all, text))
    }
}

/// The hash, with its length.
#[tactic(auto, unfolding(crate::specs::Reading::hash_at))]
pub fn read_hash(
    all: usize,
    kind: RowKind,
    text: &[u8],
) -> Result<(Option<[u8; 20]>, &[u8]), RowFault>
    ensures { Gives (λ x. (x.0, x.1.now)) result (hash_at all kind text.now) }
{
    let Some((len, rest)) = text.split_first() else {
        return Err(RowFault::Short);
    };
    match (kind, *len) {
        (RowKind::File, 20) => {
            let (hash, rest) = read_array(RowFault::Short, rest)?;
            Ok((Some(hash), rest))
        }
        (RowKind::File, _) => Err(bad(all, text)),
        (_, 0) => Ok((None, rest)),
        _ => Err(bad(all, text)),
    }
}

/// Whether a text is the name of a row with this parent key.
fn is_row_name(parent: &PathKey, name: &str) -> bool
    ensures { result ≡ is_row_name parent.now.0 name.now }
{
    if name.is_empty() {
        parent.0 == [0; 16]
    } else {
        is_path_name(name)
    }
}

/// The name of a row with this parent key.
#[tactic(auto, unfolding(crate::specs::Reading::name_at))]
pub fn read_name<'a>(
    alloc: Global,
    all: usize,
    parent: &PathKey,
    text: &'a [u8],
) -> Result<(Target, &'a [u8]), RowFault>
    ensures { Gives (λ x. (x.0, x.1.now)) result (name_at all parent.now.0 text.now) }
{
    let (len, rest) = read_length(RowFault::Short, bad(all, text), PATH_NAME_LIMIT, text)?;
    let (name, after) = read_bytes(RowFault::Short, len, rest)?;
    match name_of(alloc, parent, name)? {
        Some(name) => Ok((name, after)),
        None => Err(bad(all, rest)),
    }
}

/// The name that these bytes are, in a row with this parent key.
fn name_of(alloc: Global, parent: &PathKey, name: &[u8]) -> Result<Option<Target>, NoMemory>
    ensures { IfOk result (λ found. found ≡ row_name_of parent.now.0 name.now) }
{
    let Some(name) = Target::of_bytes(alloc, name)? else {
        return Ok(None);
    };
    if is_row_name(parent, name.text()) {
        Ok(Some(name))
    } else {
        Ok(None)
    }
}

/// The most bytes of the target of a row of this kind.
fn target_limit(kind: RowKind) -> usize
    ensures { result ≡ target_limit kind }
{
    match kind {
        RowKind::Link => TARGET_LIMIT,
        _ => 0,
    }
}

/// Whether the size of a row of this kind may stand beside this target.
fn is_size_of(kind: RowKind, size: u64, target: &[u8]) -> bool
    ensures { result ≡ is_size_of kind size target.now }
{
    match kind {
        RowKind::Link => target.len() as u64 == size,
        _ => true,
    }
}

/// The target of a row of this kind. Its size is this, and begins the text `sized`.
#[tactic(auto, unfolding(crate::specs::Reading::target_at))]
pub fn read_target<'a>(
    alloc: Global,
    all: usize,
    kind: RowKind,
    size: u64,
    sized: &[u8],
    text: &'a [u8],
) -> Result<(Target, &'a [u8]), RowFault>
    ensures { Gives (λ x. (x.0, x.1.now)) result (target_at all kind size sized.now text.now) }
{
    let (len, rest) = read_length(RowFault::Short, bad(all, text), target_limit(kind), text)?;
    let (target, after) = read_bytes(RowFault::Short, len, rest)?;
    if !is_size_of(kind, size, target) {
        return Err(bad(all, sized));
    }
    match Target::of_bytes(alloc, target)? {
        Some(target) => Ok((target, after)),
        None => Err(bad(all, rest)),
    }
}

/// The path of a nested entry.
#[tactic(auto, unfolding(crate::specs::Reading::path_at))]
pub fn read_path(alloc: Global, all: usize, text: &[u8]) -> Result<(RepoPath, &[u8]), RowFault>
    ensures { Gives (λ x. (x.0, x.1.now)) result (path_at all text.now) }
{
    let (len, rest) = read_length(RowFault::Short, bad(all, text), PATH_LIMIT, text)?;
    let (name, after) = read_bytes(RowFault::Short, len, rest)?;
    match RepoPath::of_bytes(alloc, name)? {
        Some(path) => Ok((path, after)),
        None => Err(bad(all, rest)),
    }
}
