//! Where the names of a folder are cut, as the system gives them.
ghost use Rattle.std.specs.Prelude.{◌≡◌, ◌==◌, ◌<◌, [], ◌∷◌, length, position, IfSome, MatchOption};
ghost use Rattle.cv_system.specs.Names.{names_in};

/// The room for the names of a folder, as many as the system gives in one call.
pub const NAMES_ROOM: usize = 16_384;

/// Where the first of these names ends, if a NUL stands there.
fn end_of_name(names: &[u8]) -> Option<usize>
    ensures { result ≡ position (λ b. b == 0) names.now }
{
    names.iter().position(|byte| *byte == 0)
}

/// The first of these names, and the others, if a NUL stands between them.
pub fn cut_name(names: &[u8]) -> Option<(&[u8], &[u8])>
    ensures cut { MatchOption result (names_in names.now ≡ names.now ∷ [])
        (λ cut. names_in names.now ≡ cut.0.now ∷ names_in cut.1.now) }
    ensures shorter { IfSome result (λ cut. length cut.1.now < length names.now) }
{
    let end = end_of_name(names)?;
    Some((&names[..end], &names[end + 1..]))
}
