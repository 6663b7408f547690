//! Targets of links, and the other short texts of a repository.
ghost use Rattle.std.specs.Prelude.{◌≡◌, IfOk, IsTrue};
ghost use Rattle.std.specs.List.{list_all};
ghost use Rattle.cv_base.specs.Target.{is_target, is_target_byte, target_of};

use crate::memory::NoMemory;
use crate::utf8::as_text;
use std::alloc::Global;
use std::marker::Model;

/// The most bytes of a target.
pub const TARGET_LIMIT: usize = 4095;

/// The target of a symbolic link: a text of at most 4,095 bytes without NUL. Clauses see its bytes.
#[derive(Debug, Drop)]
pub struct Target {
    text: String,
}

impl Model for Target {
    ghost use Rattle.std.specs.Prelude.{List, ℕ, IsTrue};
    ghost use Rattle.std.specs.String.{string_bytes};
    ghost use Rattle.cv_base.specs.Target.{is_target};

    ghost Value = { List ℕ };

    ghost view = { λ t. string_bytes t.text };

    ghost invariant = { λ t. IsTrue (is_target (string_bytes t.text)) };
}

/// Whether a text has no NUL.
fn has_no_nul(text: &str) -> bool
    ensures { result ≡ list_all is_target_byte text.now }
{
    text.bytes().all(|byte| byte != 0)
}

/// Whether a text is a target.
fn is_target(text: &str) -> bool
    ensures { result ≡ is_target text.now }
{
    text.len() <= TARGET_LIMIT && has_no_nul(text)
}

impl Target {
    /// The target that this text is. None where it isn't one.
    pub fn read(alloc: Global, text: &str) -> Result<Option<Target>, NoMemory>
        ensures { IfOk result (λ found. found ≡ target_of text.now) }
    {
        if !is_target(text) {
            return Ok(None);
        }
        Ok(Some(Target {
            text: String::from_str(alloc, text)?,
        }))
    }

    /// The target whose text these bytes are. None where they are no target's.
    pub fn of_bytes(alloc: Global, bytes: &[u8]) -> Result<Option<Target>, NoMemory>
        ensures { IfOk result (λ found. found ≡ target_of bytes.now) }
    {
        match as_text(bytes) {
            Some(text) => Target::read(alloc, text),
            None => Ok(None),
        }
    }

    /// The target's text.
    pub fn text(&self) -> &str
        ensures text { result.now ≡ self.now }
        ensures limits { IsTrue (is_target self.now) }
    {
        self.text.as_str()
    }

    /// An equal target.
    pub fn copy(&self, alloc: Global) -> Result<Target, NoMemory>
        ensures { IfOk result (λ made. made ≡ self.now) }
    {
        Ok(Target {
            text: String::from_str(alloc, self.text.as_str())?,
        })
    }
}
