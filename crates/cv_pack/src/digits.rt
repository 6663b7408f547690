//! The digits of a header.
ghost use Rattle.std.specs.Prelude.{◌≡◌};
ghost use Rattle.cv_pack.specs.Reading.{with_digit, limited, ended, is_hash_digit};

use crate::pack_fault::PackFault;

/// A number with one more digit. None where no digit may stand, or the byte is none.
pub fn with_digit(so_far: Option<u32>, byte: u8) -> Option<u64>
    ensures { result ≡ with_digit so_far byte }
{
    if !byte.is_ascii_digit() {
        return None;
    }
    let digit = u64::from(byte - b'0');
    match so_far {
        None => Some(digit),
        Some(0) => None,
        Some(number) => Some(u64::from(number) * 10 + digit),
    }
}

/// A number that is at most the limit, in the line that begins at this offset.
pub fn limited(
    line: u64,
    limit: u32,
    over: PackFault,
    number: Option<u64>,
) -> Result<u32, PackFault>
    ensures { result ≡ limited line limit over number }
{
    match number {
        None => Err(PackFault::BadHeader(line)),
        Some(number) if number <= u64::from(limit) => Ok(number as u32),
        Some(_) => Err(over),
    }
}

/// A number whose line, which begins at this offset, ends.
pub fn ended(line: u64, so_far: Option<u32>) -> Result<u32, PackFault>
    ensures { result ≡ ended line so_far }
{
    so_far.ok_or(PackFault::BadHeader(line))
}

/// Whether a byte is a hex digit in lower case.
pub fn is_hash_digit(byte: u8) -> bool
    ensures { result ≡ is_hash_digit byte }
{
    byte.is_ascii_digit() || (b'a' <= byte && byte <= b'f')
}
