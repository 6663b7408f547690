//! What happens to a link, by the words of a row.

use crate::words::first_word;
use cv_lines::bytes_of;
use std::alloc::Global;
use std::test::Fail;

/// What happens to a link.
#[derive(Drop)]
pub(crate) enum Change {
    /// The gateway serves it.
    Nothing,
    /// So many seconds after the first moment others ask this of the gateway, and then it serves the link.
    Others(u32, Vec<u8>),
    /// It isn't opened.
    Undialled,
    /// Its reads fail.
    Failing,
    /// The gateway isn't asked, and these bytes come.
    Says(Vec<u8>),
    /// Of what the gateway replies only so many bytes come.
    Cut(usize),
}

impl Change {
    /// What the words of a link say.
    fn read(alloc: Global, text: &str) -> Result<Change, Fail> {
        let (word, rest) = first_word(text);
        match word {
            "" => Ok(Change::Nothing),
            "undialled" => Ok(Change::Undialled),
            "failing" => Ok(Change::Failing),
            "says" => Ok(Change::Says(bytes_of(alloc, rest)?)),
            "cut" => {
                let most: usize = rest.parse()?;
                Ok(Change::Cut(most))
            }
            "others" => {
                let (seconds, requests) = first_word(rest);
                let seconds: u32 = seconds.parse()?;
                Ok(Change::Others(seconds, bytes_of(alloc, requests)?))
            }
            _ => Err(Fail::new("no change")),
        }
    }
}

/// What happens to links, one after another, by their words with a bar between each two: the last one first.
pub(crate) fn changes(alloc: Global, words: &str) -> Result<Vec<Change>, Fail> {
    let mut changes = Vec::new(alloc);
    for text in words.split('|') {
        changes.push(Change::read(alloc, text)?)?;
    }
    changes.reverse();
    Ok(changes)
}
