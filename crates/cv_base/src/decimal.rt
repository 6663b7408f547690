//! Decimals, as all formats write them.
ghost use Rattle.std.specs.Prelude.{◌≡◌, ◌<◌, ◌^◌, ℕ, Some, decimal, IfSome};
ghost use Rattle.cv_base.specs.DecimalInner.{MatchPlain};

/// The number below 2^64 that a text of decimal digits says. The text has no sign, and no leading zero unless it is `0`:
/// it is what `to_string` writes of the number. It takes no memory.
pub fn read_decimal(text: &[u8]) -> Option<u64>
    ensures value { IfSome result (λ n. text.now ≡ decimal n) }
    ensures found { (n : ℕ) → n < 2 ^ 64 → text.now ≡ decimal n → result ≡ Some n }
{
    if !is_plain(text) {
        return None;
    }
    match std::str::from_utf8(text) {
        Ok(digits) => digits.parse().ok(),
        Err(_) => None,
    }
}

/// Whether the text has neither a plus sign nor a leading zero, both of which `parse` takes.
fn is_plain(text: &[u8]) -> bool
    ensures { MatchPlain result text.now }
{
    match text {
        [] => true,
        [only] => *only != b'+',
        [first, ..] => *first != b'+' && *first != b'0',
    }
}
