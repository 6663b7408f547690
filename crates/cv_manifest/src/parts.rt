//! The parts of a manifest's text.
ghost use Rattle.std.specs.Prelude.{MatchOption};
ghost use Rattle.cv_manifest.specs.Parts.{HasParts};
ghost use Rattle.cv_manifest.specs.SplitInner.{EndsAt, HasNoEnd, BeginsWith, HasNoDigest, IsSplit};

use crate::line::split_line;
use cv_base::{DIGEST_DIGITS, read_digest};

/// What a manifest's text is made of.
#[derive(Drop)]
pub struct Parts<'a> {
    /// The lines before the end, as they stand.
    pub lines: &'a [u8],
    /// The digest that is stated behind it.
    pub stated: [u8; 20],
    /// The seal.
    pub seal: &'a [u8],
}

/// The bytes before the first line that is `--`, and those behind it.
fn split_end(bytes: &[u8]) -> Option<(&[u8], &[u8])>
    ensures { MatchOption result (HasNoEnd bytes.now) (λ parts. EndsAt bytes.now parts.0.now parts.1.now) }
{
    let mut rest = bytes;
    while let Some((line, after)) = split_line(rest) {
        if line == b"--".as_slice() {
            return Some((&bytes[..bytes.len() - rest.len()], after));
        }
        rest = after;
    }
    None
}

/// The digest whose digits the bytes begin with as a line, and what follows it.
fn split_digest(bytes: &[u8]) -> Option<([u8; 20], &[u8])>
    ensures { MatchOption result (HasNoDigest bytes.now) (λ parts. BeginsWith bytes.now parts.0 parts.1.now) }
{
    if bytes.len() < DIGEST_DIGITS {
        return None;
    }
    let (digits, rest) = bytes.split_at(DIGEST_DIGITS);
    let (newline, seal) = rest.split_first()?;
    if *newline != b'\n' {
        return None;
    }
    let stated = read_digest(digits)?;
    Some((stated, seal))
}

impl Parts<'_> {
    /// The parts of a text.
    pub fn split(text: &[u8]) -> Option<Parts<'_>>
        ensures { MatchOption result ((parts : _) → HasParts text.now parts → ⊥) (λ parts. IsSplit text.now parts.lines.now parts.stated parts.seal.now) }
    {
        let (lines, rest) = split_end(text)?;
        let (stated, seal) = split_digest(rest)?;
        Some(Parts {
            lines,
            stated,
            seal,
        })
    }
}
