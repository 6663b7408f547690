//! Lines of bytes, each of which ends with a newline.
ghost use Rattle.std.specs.Prelude.{◌≡◌, ◌==◌, position};

/// The offset of the first newline. `None` where there is none.
pub fn newline_at(bytes: &[u8]) -> Option<usize>
    ensures { result ≡ position (λ b. b == 10) bytes.now }
{
    bytes.iter().position(|byte| *byte == b'\n')
}
