//! The name of a repository.
ghost use Rattle.std.specs.Prelude.{◌≡◌, ℕ, IfOk, IsTrue};
ghost use Rattle.std.specs.List.{list_all};
ghost use Rattle.cv_base.specs.Name.{is_name, is_name_byte, name_of};

use crate::memory::NoMemory;
use std::alloc::Global;
use std::marker::Model;

/// The most bytes of a repository's name.
pub const NAME_LIMIT: usize = 255;

/// The fully qualified name of a repository, as `sw.example.org`: 1 to 255 ASCII letters, digits,
/// `.`, `-` and `_`. Clauses see its bytes.
#[derive(Debug, Drop)]
pub struct Name {
    text: String,
}

impl Model for Name {
    ghost use Rattle.std.specs.Prelude.{List, ℕ, IsTrue};
    ghost use Rattle.std.specs.String.{string_bytes};
    ghost use Rattle.cv_base.specs.Name.{is_name};

    ghost Value = { List ℕ };

    ghost view = { λ n. string_bytes n.text };

    ghost invariant = { λ n. IsTrue (is_name (string_bytes n.text)) };
}

/// Whether a byte may stand in a name.
fn is_name_byte(byte: u8) -> bool
    ensures { result ≡ is_name_byte byte }
{
    byte.is_ascii_alphanumeric() || byte == b'.' || byte == b'-' || byte == b'_'
}

/// Whether each byte may stand in a name.
fn are_name_bytes(bytes: &[u8]) -> bool
    ensures { result ≡ list_all is_name_byte bytes.now }
{
    bytes.iter().all(|byte| is_name_byte(*byte))
}

/// Whether a text is a name.
fn is_name(text: &str) -> bool
    ensures { result ≡ is_name text.now }
{
    let bytes = text.as_bytes();
    1 <= bytes.len() && bytes.len() <= NAME_LIMIT && are_name_bytes(bytes)
}

impl Name {
    /// The name that this text is. None where it isn't one.
    pub fn read(alloc: Global, text: &str) -> Result<Option<Name>, NoMemory>
        ensures { IfOk result (λ found. found ≡ name_of text.now) }
    {
        if !is_name(text) {
            return Ok(None);
        }
        Ok(Some(Name {
            text: String::from_str(alloc, text)?,
        }))
    }

    /// The name's text.
    pub fn text(&self) -> &str
        ensures text { result.now ≡ self.now }
        ensures grammar { IsTrue (is_name self.now) }
    {
        self.text.as_str()
    }

    /// An equal name.
    pub fn copy(&self, alloc: Global) -> Result<Name, NoMemory>
        ensures { IfOk result (λ made. made ≡ self.now) }
    {
        Ok(Name {
            text: String::from_str(alloc, self.text.as_str())?,
        })
    }
}
