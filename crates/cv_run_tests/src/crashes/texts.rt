//! Texts under names.

use std::alloc::Global;
use std::test::Fail;

/// The most texts that are told apart in what a run writes.
const MOST: usize = 100;

/// A text and its name.
#[derive(Drop)]
struct Named {
    name: String,
    bytes: Vec<u8>,
}

/// Texts under names.
#[derive(Drop)]
pub(crate) struct Texts {
    all: Vec<Named>,
}

/// The place of a text among others, to which it is added where it is new.
pub(crate) fn number_of(texts: &mut Vec<String>, text: String) -> Result<usize, Fail> {
    for (place, other) in texts.iter().enumerate() {
        if other.as_str() == text.as_str() {
            return Ok(place);
        }
    }
    let place = texts.len();
    texts.push(text)?;
    Ok(place)
}

/// The first text with which these bytes begin.
fn first_of<'a>(texts: &'a [Named], bytes: &[u8]) -> Option<&'a Named> {
    for text in texts {
        if bytes.starts_with(text.bytes.as_slice()) {
            return Some(text);
        }
    }
    None
}

/// The text of a name.
fn find<'a>(texts: &'a [Named], name: &str) -> Option<&'a Named> {
    for text in texts {
        if text.name.as_str() == name {
            return Some(text);
        }
    }
    None
}

impl Texts {
    /// No text.
    pub(crate) fn new(alloc: Global) -> Texts {
        Texts {
            all: Vec::new(alloc),
        }
    }

    /// Adds a text, as its name and the digits of its bytes.
    pub(crate) fn add(&mut self, alloc: Global, name: &str, digits: &str) -> Result<(), Fail> {
        let name = String::from_str(alloc, name)?;
        let bytes = hex::decode(alloc, digits)?;
        self.all.push(Named { name, bytes })?;
        Ok(())
    }

    /// The bytes of the texts of these names, one behind the other.
    pub(crate) fn joined(&self, alloc: Global, names: &str) -> Result<Vec<u8>, Fail> {
        let mut bytes = Vec::new(alloc);
        for name in names.split_whitespace() {
            let text = find(self.all.as_slice(), name).ok_or("no text of this name")?;
            bytes.extend_from_slice(text.bytes.as_slice())?;
        }
        Ok(bytes)
    }

    /// A status and the names of the texts that these bytes are, and the digits of what is behind them.
    pub(crate) fn line_of(&self, alloc: Global, status: u8, bytes: &[u8]) -> Result<String, Fail> {
        let mut line = format!(in alloc; "{status}")?;
        let mut rest = bytes;
        for _ in 0..MOST {
            let Some(text) = first_of(self.all.as_slice(), rest) else {
                break;
            };
            line.push(' ')?;
            line.push_str(text.name.as_str())?;
            rest = rest.get(text.bytes.len()..).unwrap_or(&[]);
        }
        if !rest.is_empty() {
            line.push_str(" ?")?;
            line.push_str(hex::encode(alloc, rest)?.as_str())?;
        }
        Ok(line)
    }
}
