//! Answers as texts.

use cv_base::{ObjectId, Text, digest_text};
use cv_resolver::{ClientFault, Found, RenewFault, StatLine};
use cv_rows::RowKind;
use std::alloc::Global;
use std::test::Fail;

/// Names behind a word.
fn names_text(alloc: Global, names: &[Text]) -> Result<String, Fail> {
    let mut text = String::from_str(alloc, "names")?;
    for name in names {
        text.push(' ')?;
        text.push_str(name.as_str())?;
    }
    Ok(text)
}

/// What is told of an entry.
fn line_text(alloc: Global, line: &StatLine) -> Result<String, Fail> {
    let size = line.size;
    let target = line.target.text();
    match line.kind {
        RowKind::File => Ok(format!(in alloc; "file {size}")?),
        RowKind::Link => Ok(format!(in alloc; "link {size} -> {target}")?),
        _ => Ok(format!(in alloc; "dir {size}")?),
    }
}

/// What a question found.
fn found_text(alloc: Global, found: &Found) -> Result<String, Fail> {
    match found {
        Found::Names(names) => names_text(alloc, names.as_slice()),
        Found::Stat(line) => line_text(alloc, line),
        Found::Bytes(bytes) => {
            let text = std::str::from_utf8(bytes.as_slice())?;
            Ok(format!(in alloc; "content {text}")?)
        }
    }
}

/// What blames an object.
fn blame(alloc: Global, word: &str, id: ObjectId) -> Result<String, Fail> {
    let id = id.text(alloc)?;
    let id = id.as_str();
    Ok(format!(in alloc; "{word} {id}")?)
}

/// What blames an object for bytes of another digest.
fn bad_object(alloc: Global, id: ObjectId, found: &[u8; 20]) -> Result<String, Fail> {
    let mut text = blame(alloc, "bad object", id)?;
    text.push(' ')?;
    text.push_str(digest_text(alloc, found)?.as_str())?;
    Ok(text)
}

/// Why nothing was found.
fn fault_text(alloc: Global, fault: &ClientFault) -> Result<String, Fail> {
    match fault {
        ClientFault::NotFound => Ok(String::from_str(alloc, "not found")?),
        ClientFault::NotDirectory => Ok(String::from_str(alloc, "not a directory")?),
        ClientFault::NotFile => Ok(String::from_str(alloc, "not a file")?),
        ClientFault::TooManyLinks => Ok(String::from_str(alloc, "too many links")?),
        ClientFault::BadObject { id, found } => bad_object(alloc, *id, found),
        ClientFault::BadCatalogue(id) => blame(alloc, "bad catalogue", *id),
        ClientFault::NotServed(id) => blame(alloc, "not served", *id),
        ClientFault::NoMemory => Ok(String::from_str(alloc, "no memory")?),
    }
}

/// An answer.
pub(crate) fn answer_text(
    alloc: Global,
    answer: &Option<Result<Found, ClientFault>>,
) -> Result<String, Fail> {
    match answer {
        Some(Ok(found)) => found_text(alloc, found),
        Some(Err(fault)) => fault_text(alloc, fault),
        None => Err(Fail::new("no answer")),
    }
}

/// Two digests behind a word.
fn digests_text(
    alloc: Global,
    word: &str,
    first: &[u8; 20],
    second: &[u8; 20],
) -> Result<String, Fail> {
    let first = digest_text(alloc, first)?;
    let first = first.as_str();
    let second = digest_text(alloc, second)?;
    let second = second.as_str();
    Ok(format!(in alloc; "{word} {first} {second}")?)
}

/// Whether a manifest was taken. What is pinned stands before what was offered.
pub(crate) fn renewal_text(alloc: Global, answer: Result<(), RenewFault>) -> Result<String, Fail> {
    match answer {
        Ok(()) => Ok(String::from_str(alloc, "renewed")?),
        Err(RenewFault::OtherRepository) => Ok(String::from_str(alloc, "other repository")?),
        Err(RenewFault::Older { pinned, offered }) => {
            Ok(format!(in alloc; "older {pinned} {offered}")?)
        }
        Err(RenewFault::Forked { pinned, offered }) => {
            digests_text(alloc, "forked", &pinned, &offered)
        }
    }
}
