//! What is made of catalogues.

use crate::parts::{opened, parted, reversed};
use cv_base::RepoPath;
use cv_rows::{Catalogue, WithFault};
use std::alloc::Global;
use std::test::Fail;

/// The bytes that digits stand for.
pub(crate) fn bytes(alloc: Global, digits: &str) -> Result<Vec<u8>, Fail> {
    Ok(hex::decode(alloc, digits)?)
}

/// The digits of what is written of a catalogue.
pub(crate) fn digits(alloc: Global, catalogue: &Catalogue) -> Result<String, Fail> {
    let bytes = catalogue.encode(alloc)?;
    Ok(hex::encode(alloc, bytes.as_slice())?)
}

/// The catalogue of the root of these digits.
pub(crate) fn catalogue(alloc: Global, digits: &str) -> Result<Catalogue, Fail> {
    let bytes = bytes(alloc, digits)?;
    Ok(Catalogue::decode(alloc, bytes.as_slice(), &RepoPath::root(alloc))?)
}

/// The text of a fault of making.
fn fault_text(alloc: Global, fault: WithFault) -> Result<String, Fail> {
    match fault {
        WithFault::Collision { first } => {
            let key = hex::encode(alloc, first.0.as_slice())?;
            Ok(format!(in alloc; "collision {key}")?)
        }
        WithFault::Full => Ok(String::from_str(alloc, "full")?),
        WithFault::NoMemory => Ok(String::from_str(alloc, "no memory")?),
    }
}

/// A catalogue that is made, or why not.
fn made_text(alloc: Global, made: Result<Catalogue, WithFault>) -> Result<String, Fail> {
    match made {
        Ok(made) => digits(alloc, &made),
        Err(fault) => fault_text(alloc, fault),
    }
}

/// The catalogue of the rows and nested entries in the other order.
pub(crate) fn of(alloc: Global, text: &str) -> Result<String, Fail> {
    let at = RepoPath::root(alloc);
    let (_, (rows, nested)) = opened(alloc, text, &at)?;
    let made = Catalogue::of(alloc, &at, reversed(rows), reversed(nested));
    made_text(alloc, made)
}

/// Why nothing was added, and the catalogue that comes back.
fn refused_text(alloc: Global, back: &Catalogue, fault: WithFault) -> Result<String, Fail> {
    let fault = fault_text(alloc, fault)?;
    let back = digits(alloc, back)?;
    Ok(format!(in alloc; "{fault} {back}")?)
}

/// Why the rows of the root's directory aren't added once more, and what comes back.
pub(crate) fn with(alloc: Global, text: &str) -> Result<String, Fail> {
    let at = RepoPath::root(alloc);
    let (whole, _) = opened(alloc, text, &at)?;
    let more = whole.children(alloc, at.key())?;
    match whole.with(alloc, more, Vec::new(alloc)) {
        Ok(made) => digits(alloc, &made),
        Err((back, fault)) => refused_text(alloc, &back, fault),
    }
}

/// The catalogue of the rows and, once more, those of the root's directory, or why there is none.
pub(crate) fn twice(alloc: Global, text: &str) -> Result<String, Fail> {
    let at = RepoPath::root(alloc);
    let (whole, (mut rows, nested)) = opened(alloc, text, &at)?;
    let mut more = whole.children(alloc, at.key())?;
    rows.append(&mut more)?;
    let made = Catalogue::of(alloc, &at, rows, nested);
    made_text(alloc, made)
}

/// What is left without what stands at a path and below it.
pub(crate) fn without(alloc: Global, text: &str, path: &RepoPath) -> Result<String, Fail> {
    let (left, _) = parted(alloc, text, path)?;
    digits(alloc, &left)
}

/// The whole, of what is left and of what stood at a path and below it.
pub(crate) fn back(alloc: Global, text: &str, path: &RepoPath) -> Result<String, Fail> {
    let (left, (rows, nested)) = parted(alloc, text, path)?;
    match left.with(alloc, rows, nested) {
        Ok(whole) => digits(alloc, &whole),
        Err((_, fault)) => fault_text(alloc, fault),
    }
}
