//! The order of the texts of paths.
ghost use Rattle.std.specs.Prelude.{◌≡◌, ◌≢◌, ◌++◌, List, ℕ, true};
ghost use Rattle.std.specs.List.{list_all};
ghost use Rattle.cv_base.specs.Path.{text_of, is_path_byte};
ghost use Rattle.cv_base.specs.TextOrderInner.{Follows};
ghost use Rattle.cv_base.specs.BytesOrder.{bytes_cmp};

use crate::repo_path::RepoPath;
use std::cmp::Ordering;

/// How two texts are ordered that begin with different names, each followed by a slash where the path goes on.
fn name_order(a: &str, a_goes_on: bool, b: &str, b_goes_on: bool) -> Ordering
    requires apart { a.now ≢ b.now }
    requires a_has_no_slash { list_all is_path_byte a.now ≡ true }
    requires b_has_no_slash { list_all is_path_byte b.now ≡ true }
    ensures { (s t : List ℕ) → Follows a_goes_on s → Follows b_goes_on t → result ≡ bytes_cmp (a.now ++ s) (b.now ++ t) }
{
    let a = a.as_bytes();
    let b = b.as_bytes();
    if a_goes_on && b.starts_with(a) {
        return b'/'.cmp(&b[a.len()]);
    }
    if b_goes_on && a.starts_with(b) {
        return a[b.len()].cmp(&b'/');
    }
    a.cmp(b)
}

/// How the texts of two paths are ordered. `/a-b` stands below `/a/x`, since `-` is below `/`.
pub fn cmp_texts(a: &RepoPath, b: &RepoPath) -> Ordering
    ensures { result ≡ bytes_cmp (text_of a.now) (text_of b.now) }
{
    let a = a.names();
    let b = b.names();
    for i in 0..a.len().min(b.len()) {
        let name = &a[i];
        let other = &b[i];
        if name != other {
            return name_order(
                name.as_str(),
                i + 1 < a.len(),
                other.as_str(),
                i + 1 < b.len(),
            );
        }
    }
    a.len().cmp(&b.len())
}
