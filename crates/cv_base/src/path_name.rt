//! A name in a path.
ghost use Rattle.std.specs.Prelude.{◌≡◌, IfOk, Some, refl};
ghost use Rattle.std.specs.Cmp.{eq_by_cmp_equiv, partial_equiv_from_equiv};
ghost use Rattle.std.specs.Cmp.Lexicographic.{nat_list_cmp_total};
ghost use Rattle.std.specs.List.{list_all};
ghost use Rattle.cv_base.specs.Path.{same_name, is_path_name, is_path_byte, is_dots};
ghost use Rattle.cv_base.specs.PathOrder.{names_ordered};
ghost use Rattle.cv_base.specs.BytesOrder.{bytes_cmp};

use crate::memory::NoMemory;
use std::alloc::Global;
use std::cmp::Ordering;
use std::marker::Model;

/// The most bytes of a name in a path.
pub const PATH_NAME_LIMIT: usize = 255;

/// One name of a path, which clauses see as its bytes. Names are ordered by their bytes.
#[derive(Debug, Drop)]
pub struct PathName {
    text: String,
}

impl Model for PathName {
    ghost use Rattle.std.specs.Prelude.{List, ℕ};
    ghost use Rattle.std.specs.String.{string_bytes};

    ghost Value = { List ℕ };

    ghost view = { λ name. string_bytes name.text };
}

impl PathName {
    /// A name of this text.
    pub(crate) fn from_str(alloc: Global, text: &str) -> Result<PathName, NoMemory>
        ensures { IfOk result (λ made. made ≡ text.now) }
    {
        Ok(PathName {
            text: String::from_str(alloc, text)?,
        })
    }

    /// The name's text.
    pub fn as_str(&self) -> &str
        ensures { result.now ≡ self.now }
    {
        self.text.as_str()
    }
}

/// Whether a text is a name in a path: 1 to 255 bytes without `/` and NUL, and neither `.` nor `..`.
pub fn is_path_name(name: &str) -> bool
    ensures { result ≡ is_path_name name.now }
{
    if name.is_empty() || name.len() > PATH_NAME_LIMIT {
        return false;
    }
    has_path_bytes(name) && !is_dots(name)
}

/// Whether each byte can stand in a name.
fn has_path_bytes(name: &str) -> bool
    ensures { result ≡ list_all is_path_byte name.now }
{
    name.bytes().all(|b| b != b'/' && b != 0)
}

/// Whether the text is `.` or `..`.
fn is_dots(name: &str) -> bool
    ensures { result ≡ is_dots name.now }
{
    matches!(name.as_bytes(), b"." | b"..")
}

impl PartialEq for PathName {
    ghost eq = { λ a b. same_name a b };

    ghost laws = { partial_equiv_from_equiv (eq_by_cmp_equiv nat_list_cmp_total) };

    fn eq(&self, other: &PathName) -> bool {
        self.cmp(other) == Ordering::Equal
    }
}

impl Eq for PathName {
    ghost laws = { eq_by_cmp_equiv nat_list_cmp_total };
}

impl PartialOrd for PathName {
    ghost partial_cmp = { λ a b. Some (bytes_cmp a b) };

    ghost laws = { names_ordered };

    fn partial_cmp(&self, other: &PathName) -> Option<Ordering> {
        Some(self.cmp(other))
    }
}

impl Ord for PathName {
    ghost cmp = { λ a b. bytes_cmp a b };

    ghost total = { nat_list_cmp_total };

    ghost matches_partial_cmp = { λ a b. refl };

    ghost matches_eq = { λ a b. refl };

    fn cmp(&self, other: &PathName) -> Ordering {
        self.text.as_str().cmp(other.text.as_str())
    }
}
