//! The texts of a record, each behind its length, read as the fields before them.
ghost use Rattle.std.specs.Prelude.{◌≡◌, IfOk};
ghost use Rattle.cv_base.specs.Fields.{seen};
ghost use Rattle.cv_base.specs.Unless.{IsUnless};
ghost use Rattle.cv_history.specs.Reading.{limit_of, path_at, key_at, tag_of, tag_at};
ghost use Rattle.cv_history.specs.declared.record_fault.RecordFault.TheVariants as fault;

use crate::fields::bad;
use crate::record_fault::RecordFault;
use cv_base::{
    KEY_ID_LIMIT, NoMemory, PATH_LIMIT, RepoPath, TAG_LIMIT, Target, are_tag_bytes, read_bytes,
    read_length,
};
use std::alloc::Global;

/// The most bytes of a text, of which the first record has none.
fn limit_of(first: bool, limit: usize) -> usize
    ensures { result ≡ limit_of first limit }
{
    if first { 0 } else { limit }
}

/// The path of the lease.
#[tactic(auto, unfolding(crate::specs::Reading::text_at))]
pub fn read_path(
    alloc: Global,
    all: usize,
    first: bool,
    text: &[u8],
) -> Result<(RepoPath, &[u8]), RecordFault>
    ensures { IsUnless fault.NoMemory (seen result) (path_at all first text.now) }
{
    let short = RecordFault::BadRecord(all);
    let (size, rest) = read_length(short, bad(all, text), limit_of(first, PATH_LIMIT), text)?;
    let (bytes, after) = read_bytes(short, size, rest)?;
    match RepoPath::of_bytes(alloc, bytes)? {
        Some(path) => Ok((path, after)),
        None => Err(bad(all, rest)),
    }
}

/// The id of the publisher's key.
#[tactic(auto, unfolding(crate::specs::Reading::text_at))]
pub fn read_key(
    alloc: Global,
    all: usize,
    first: bool,
    text: &[u8],
) -> Result<(Target, &[u8]), RecordFault>
    ensures { IsUnless fault.NoMemory (seen result) (key_at all first text.now) }
{
    let short = RecordFault::BadRecord(all);
    let (size, rest) = read_length(short, bad(all, text), limit_of(first, KEY_ID_LIMIT), text)?;
    let (bytes, after) = read_bytes(short, size, rest)?;
    match Target::of_bytes(alloc, bytes)? {
        Some(key) => Ok((key, after)),
        None => Err(bad(all, rest)),
    }
}

/// The tag that these bytes are.
fn tag_of(alloc: Global, bytes: &[u8]) -> Result<Option<Target>, NoMemory>
    ensures { IfOk result (λ found. found ≡ tag_of bytes.now) }
{
    if are_tag_bytes(bytes) {
        Target::of_bytes(alloc, bytes)
    } else {
        Ok(None)
    }
}

/// The tag.
#[tactic(auto, unfolding(crate::specs::Reading::text_at))]
pub fn read_tag(
    alloc: Global,
    all: usize,
    first: bool,
    text: &[u8],
) -> Result<(Target, &[u8]), RecordFault>
    ensures { IsUnless fault.NoMemory (seen result) (tag_at all first text.now) }
{
    let short = RecordFault::BadRecord(all);
    let (size, rest) = read_length(short, bad(all, text), limit_of(first, TAG_LIMIT), text)?;
    let (bytes, after) = read_bytes(short, size, rest)?;
    match tag_of(alloc, bytes)? {
        Some(tag) => Ok((tag, after)),
        None => Err(bad(all, rest)),
    }
}
