//! Lines that end with a newline.
ghost use Rattle.std.specs.Prelude.{◌≡◌, ◌++◌, ◌∷◌, false, MatchOption};
ghost use Rattle.cv_manifest.specs.Lines.{has_newline};

use cv_base::newline_at;

/// The first line of the bytes without its newline, and what follows it. None where they have no
/// newline.
pub fn split_line(bytes: &[u8]) -> Option<(&[u8], &[u8])>
    ensures { MatchOption result (has_newline bytes.now ≡ false)
        (λ parts. (has_newline parts.0.now ≡ false) × (bytes.now ≡ parts.0.now ++ 10 ∷ parts.1.now)) }
{
    let end = newline_at(bytes)?;
    Some((&bytes[..end], &bytes[end + 1..]))
}
