//! A comparison whose time tells nothing of where two texts differ.
ghost use Rattle.std.specs.Prelude.{◌≡◌, ℕ, length, ◌==◌};
ghost use Rattle.std.specs.Str.{bytes_eq};

/// The bits in which bytes of the same place differ, over all places. Each byte is looked at, whatever the others are.
fn differing(one: &[u8], other: &[u8]) -> u8
    requires { length one.now ≡ length other.now }
    ensures { bytes_eq one.now other.now ≡ (result == 0) }
{
    let mut found = 0u8;
    for place in 0..one.len() {
        found |= one[place] ^ other[place];
    }
    found
}

/// Whether both have the same bytes. The time depends on the lengths alone.
pub fn same_bytes(one: &[u8], other: &[u8]) -> bool
    ensures { result ≡ bytes_eq one.now other.now }
{
    one.len() == other.len() && differing(one, other) == 0
}
