//! Fields of binary formats, read one after another: each with what follows it, or with the fault that a
//! format gives where the bytes end inside the field.
ghost use Rattle.std.specs.Prelude.{◌≡◌};
ghost use Rattle.std.specs.Int.{w16, w32, w64};
ghost use Rattle.std.specs.Result.{result_map_both};
ghost use Rattle.cv_base.specs.Fields.{number_at, bytes_at, length_at, seen};

use crate::field::{split_array, split_bytes, split_u16, split_u32, split_u64};

/// A number of two bytes.
pub fn read_u16<F: Drop>(short: F, text: &[u8]) -> Result<(u16, &[u8]), F>
    ensures { seen result ≡ number_at short w16 text.now }
{
    split_u16(text).ok_or(short)
}

/// A number of four bytes.
pub fn read_u32<F: Drop>(short: F, text: &[u8]) -> Result<(u32, &[u8]), F>
    ensures { seen result ≡ number_at short w32 text.now }
{
    split_u32(text).ok_or(short)
}

/// A number of eight bytes.
pub fn read_u64<F: Drop>(short: F, text: &[u8]) -> Result<(u64, &[u8]), F>
    ensures { seen result ≡ number_at short w64 text.now }
{
    split_u64(text).ok_or(short)
}

/// So many bytes.
pub fn read_bytes<F: Drop>(short: F, size: usize, text: &[u8]) -> Result<(&[u8], &[u8]), F>
    ensures { result_map_both (λ x. (x.0.now, x.1.now)) (λ fault. fault) result ≡ bytes_at short size text.now }
{
    split_bytes(text, size).ok_or(short)
}

/// An array of bytes.
pub fn read_array<const N: usize, F: Drop>(short: F, text: &[u8]) -> Result<([u8; N], &[u8]), F>
    ensures { seen result ≡ bytes_at short N text.now }
{
    match split_array::<N>(text) {
        Some(read) => Ok(read),
        None => Err(short),
    }
}

/// The length of a text of at most `limit` bytes, or the fault `long` where it passes the limit.
#[tactic(auto, unfolding(crate::specs::Fields::length_at))]
pub fn read_length<F: Drop>(
    short: F,
    long: F,
    limit: usize,
    text: &[u8],
) -> Result<(usize, &[u8]), F>
    ensures { seen result ≡ length_at short long limit text.now }
{
    let (len, rest) = read_u16(short, text)?;
    let len = usize::from(len);
    if len <= limit {
        Ok((len, rest))
    } else {
        Err(long)
    }
}
