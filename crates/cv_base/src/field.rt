//! Fields of binary formats: unsigned numbers of fixed width, the highest byte first.
ghost use Rattle.std.specs.Prelude.{◌≡◌, ◌<◌, ◌≤◌, ◌++◌, length, take, drop, MatchOption};
ghost use Rattle.std.specs.Int.{w16, w32, w64, to_be_bytes};

/// The field of two bytes that the bytes begin with, and what follows it. None where they are fewer.
pub fn split_u16(bytes: &[u8]) -> Option<(u16, &[u8])>
    ensures { MatchOption result (length bytes.now < 2) (λ read. bytes.now ≡ to_be_bytes w16 read.0 ++ read.1.now) }
{
    let (field, rest) = bytes.split_first_chunk::<2>()?;
    Some((u16::from_be_bytes(*field), rest))
}

/// The field of four bytes that the bytes begin with, and what follows it. None where they are fewer.
pub fn split_u32(bytes: &[u8]) -> Option<(u32, &[u8])>
    ensures { MatchOption result (length bytes.now < 4) (λ read. bytes.now ≡ to_be_bytes w32 read.0 ++ read.1.now) }
{
    let (field, rest) = bytes.split_first_chunk::<4>()?;
    Some((u32::from_be_bytes(*field), rest))
}

/// The field of eight bytes that the bytes begin with, and what follows it. None where they are fewer.
pub fn split_u64(bytes: &[u8]) -> Option<(u64, &[u8])>
    ensures { MatchOption result (length bytes.now < 8) (λ read. bytes.now ≡ to_be_bytes w64 read.0 ++ read.1.now) }
{
    let (field, rest) = bytes.split_first_chunk::<8>()?;
    Some((u64::from_be_bytes(*field), rest))
}

/// So many bytes, which the bytes begin with, and what follows them. None where they are fewer.
pub fn split_bytes(bytes: &[u8], size: usize) -> Option<(&[u8], &[u8])>
    ensures { MatchOption result (length bytes.now < size)
        (λ read. (size ≤ length bytes.now) × (read.0.now ≡ take size bytes.now) × (read.1.now ≡ drop size bytes.now)) }
{
    if bytes.len() < size {
        return None;
    }
    Some(bytes.split_at(size))
}

/// An array of bytes, which the bytes begin with, and what follows it. None where they are fewer.
pub fn split_array<const N: usize>(bytes: &[u8]) -> Option<([u8; N], &[u8])>
    ensures { MatchOption result (length bytes.now < N)
        (λ read. (N ≤ length bytes.now) × (read.0 ≡ take N bytes.now) × (read.1.now ≡ drop N bytes.now)) }
{
    let (array, rest) = bytes.split_first_chunk::<N>()?;
    Some((*array, rest))
}
