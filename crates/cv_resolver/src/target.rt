//! Where targets of links lead.
ghost use Rattle.std.specs.Prelude.{◌≡◌, ◌+◌, ℕ, List, map, length, IfOk};
ghost use Rattle.cv_base.specs.Path.{Path};
ghost use Rattle.cv_base.specs.PathText.{parts_of};
ghost use Rattle.cv_base.specs.declared.target.TheConstants.{TARGET_LIMIT};
ghost use Rattle.cv_resolver.specs.Walk.{is_absolute, lead_of};
ghost use Rattle.cv_resolver.specs.TargetInner.{is_own, start_of, HasNames, IsFrom};

use cv_base::{NoMemory, Target, Text};
use std::alloc::{AllocError, Global};
use std::collections::VecDeque;

/// Where the target of a link leads.
#[derive(Debug, Drop)]
pub enum Lead {
    /// Out of the repository.
    Nowhere,
    /// From the root of the repository on, by these names.
    Root(VecDeque<Text>),
    /// From the link's directory on, by these names.
    Here(VecDeque<Text>),
}

/// The parts of a text between its slashes.
fn pieces(alloc: Global, text: &str) -> Result<Vec<&str>, AllocError>
    ensures { IfOk result (λ pieces. map (λ piece. piece.now) pieces.items ≡ parts_of text.now) }
{
    text.split('/').collect(alloc)
}

/// These texts.
fn texts(alloc: Global, pieces: &[&str]) -> Result<VecDeque<Text>, NoMemory>
    ensures { IfOk result (λ texts. texts.items ≡ map (λ piece. piece.now) pieces.now) }
{
    let mut texts = VecDeque::new(alloc);
    for piece in pieces {
        texts.push_back(Text::from_str(alloc, piece)?)?;
    }
    Ok(texts)
}

/// Whether the text of these parts begins with a slash.
fn is_absolute(pieces: &[&str]) -> bool
    ensures { result ≡ is_absolute (map (λ piece. piece.now) pieces.now) }
{
    match pieces {
        [first, ..] => first.is_empty(),
        [] => false,
    }
}

/// Whether a text of these parts, which begins with a slash, goes on with the repository.
fn is_own(pieces: &[&str], repository: &str) -> bool
    ensures { result ≡ is_own repository.now (map (λ piece. piece.now) pieces.now) }
{
    match pieces {
        [first, folder, name, ..] => {
            first.is_empty() && *folder == "cvmfs" && *name == repository
        }
        _ => false,
    }
}

/// Where these parts of a target lead, in the repository of this name.
fn lead_of_pieces(alloc: Global, repository: &str, pieces: &[&str]) -> Result<Lead, NoMemory>
    ensures lead { (p : Path) → IfOk result
        (λ lead. lead_of repository.now p (map (λ piece. piece.now) pieces.now) ≡ start_of p lead) }
    ensures names { IfOk result (HasNames (length pieces.now)) }
    ensures from { IfOk result (IsFrom (map (λ piece. piece.now) pieces.now)) }
{
    if !is_absolute(pieces) {
        let names = texts(alloc, pieces)?;
        return Ok(Lead::Here(names));
    }
    if !is_own(pieces, repository) {
        return Ok(Lead::Nowhere);
    }
    match pieces {
        [_, _, _, names @ ..] => {
            let names = texts(alloc, names)?;
            Ok(Lead::Root(names))
        }
        _ => Ok(Lead::Nowhere),
    }
}

/// Where the target of a link leads, in the repository of this name.
pub fn lead_of_target(alloc: Global, repository: &str, target: &Target) -> Result<Lead, NoMemory>
    ensures lead { (p : Path) → IfOk result (λ lead. lead_of repository.now p (parts_of target.now) ≡ start_of p lead) }
    ensures names { IfOk result (HasNames (TARGET_LIMIT + 1)) }
    ensures from { IfOk result (IsFrom (parts_of target.now)) }
{
    let pieces = pieces(alloc, target.text())?;
    lead_of_pieces(alloc, repository, pieces.as_slice())
}
