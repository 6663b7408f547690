//! The fields of a record that are numbers and hashes, read at the front of bytes. `all` is the count of all bytes of
//! the record, by which a fault names the offset of a field. Each function gives what follows its field too.
ghost use Rattle.std.specs.Prelude.{◌≡◌};
ghost use Rattle.cv_base.specs.Fields.{seen};
ghost use Rattle.cv_history.specs.Reading.{where_first, is_revision, revision_at, hash_at, count_at, token_at, time_at};

use crate::fields::bad;
use crate::record_fault::RecordFault;
use cv_base::{LAST_REVISION, LAST_TIME, Token, read_array, read_bytes, read_u64};

/// What is asked of the first record alone.
fn where_first(first: bool, right: bool) -> bool
    ensures { result ≡ where_first first right }
{
    !first || right
}

/// Whether a record may have this revision.
fn is_revision(revision: u64) -> bool
    ensures { result ≡ is_revision revision }
{
    1 <= revision && revision <= LAST_REVISION
}

/// The revision, behind the name of the format.
#[tactic(auto, unfolding(crate::specs::Reading::revision_at))]
pub fn read_revision(all: usize, text: &[u8]) -> Result<(u64, &[u8]), RecordFault>
    ensures { seen result ≡ revision_at all text.now }
{
    let (format, rest) = read_bytes(RecordFault::BadRecord(all), 4, text)?;
    if format != b"CVH1".as_slice() {
        return Err(bad(all, text));
    }
    let (revision, after) = read_u64(RecordFault::BadRecord(all), rest)?;
    if !is_revision(revision) {
        return Err(bad(all, rest));
    }
    Ok((revision, after))
}

/// A hash, which in the first record is the one that is wanted.
#[tactic(auto, unfolding(crate::specs::Reading::hash_at))]
pub fn read_hash_of<'a>(
    all: usize,
    first: bool,
    wanted: &[u8; 20],
    text: &'a [u8],
) -> Result<([u8; 20], &'a [u8]), RecordFault>
    ensures { seen result ≡ hash_at all first wanted.now text.now }
{
    let (hash, rest) = read_array(RecordFault::BadRecord(all), text)?;
    if !where_first(first, hash == *wanted) {
        return Err(bad(all, text));
    }
    Ok((hash, rest))
}

/// A number of a token, which in the first record is zero.
#[tactic(auto, unfolding(crate::specs::Reading::count_at))]
fn read_count(all: usize, first: bool, text: &[u8]) -> Result<(u64, &[u8]), RecordFault>
    ensures { seen result ≡ count_at all first text.now }
{
    let (count, rest) = read_u64(RecordFault::BadRecord(all), text)?;
    if !where_first(first, count == 0) {
        return Err(bad(all, text));
    }
    Ok((count, rest))
}

/// The token of the lease.
#[tactic(auto, unfolding(crate::specs::Reading::token_at))]
pub fn read_token(all: usize, first: bool, text: &[u8]) -> Result<(Token, &[u8]), RecordFault>
    ensures { seen result ≡ token_at all first text.now }
{
    let (epoch, rest) = read_count(all, first, text)?;
    let (number, rest) = read_count(all, first, rest)?;
    Ok((Token { epoch, number }, rest))
}

/// The time.
#[tactic(auto, unfolding(crate::specs::Reading::time_at))]
pub fn read_time(all: usize, text: &[u8]) -> Result<(u64, &[u8]), RecordFault>
    ensures { seen result ≡ time_at all text.now }
{
    let (time, rest) = read_u64(RecordFault::BadRecord(all), text)?;
    if time > LAST_TIME {
        return Err(bad(all, text));
    }
    Ok((time, rest))
}
