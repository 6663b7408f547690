//! Which texts are names of a vault over a folder, and the paths of their folders.
ghost use Rattle.std.specs.Prelude.{◌≡◌, ◌≢◌, ◌==◌, ◌<◌, ◌++◌, ℕ, List, IfSome, IsTrue, MatchOption, codes, length, not};
ghost use Rattle.std.specs.List.{list_all};
ghost use Rattle.cv_base.specs.Path.{is_dots};
ghost use Rattle.cv_base.specs.PathText.{parts_of};
ghost use Rattle.cv_system.specs.declared.path_buffer.TheConstants.{PATH_ROOM};
ghost use Rattle.cv_system.specs.Names.{above, is_own, is_part, is_name, is_way, last_part, folder_of, path_of, stands_at};

/// The own file of a folder at which the next file of one of its names is written, until it is whole.
pub const NEXT: &str = ".cvkit-next";

/// Whether a file or folder of this name is the adapter's own, and no part of a name of the vault.
pub fn is_own(name: &str) -> bool
    ensures { result ≡ is_own name.now }
{
    name.as_bytes().starts_with(b".cvkit-")
}

/// Whether a text is `.` or `..`.
fn is_dots(text: &str) -> bool
    ensures { result ≡ is_dots text.now }
{
    matches!(text.as_bytes(), b"." | b"..")
}

/// Whether a text may be one part of a name.
pub fn is_part(part: &str) -> bool
    ensures { result ≡ is_part part.now }
{
    !part.is_empty() && !is_dots(part) && !is_own(part)
}

/// Whether no byte of a text is NUL.
fn has_no_nul(text: &str) -> bool
    ensures { result ≡ list_all (λ b. not (b == 0)) text.now }
{
    text.bytes().all(|byte| byte != 0)
}

/// Whether what stands between a text's slashes are parts of a name.
fn has_parts(text: &str) -> bool
    ensures { result ≡ list_all is_part (parts_of text.now) }
{
    text.split('/').all(|part| is_part(part))
}

/// Whether a text is a name of the vault: its parts stand between slashes, and no byte of it is NUL.
pub fn is_name(name: &str) -> bool
    ensures { result ≡ is_name name.now }
{
    has_no_nul(name) && has_parts(name)
}

/// Whether no byte of a text is a slash.
pub fn has_no_slash(text: &str) -> bool
    ensures { result ≡ list_all (λ b. not (b == 47)) text.now }
{
    text.bytes().all(|byte| byte != b'/')
}

/// Whether a name is a way: one part behind `txn/`.
pub fn is_way(name: &str) -> bool
    ensures { result ≡ is_way name.now }
{
    match name.strip_prefix("txn/") {
        Some(part) => has_no_slash(part),
        None => false,
    }
}

/// What a way has behind `txn/`, if a name is one.
pub fn way_part(name: &str) -> Option<&str>
    ensures { MatchOption result (stands_at name.now ≡ name.now)
        (λ part. stands_at name.now ≡ codes ".cvkit-txn-" ++ part.now) }
{
    let part = name.strip_prefix("txn/")?;
    if has_no_slash(part) { Some(part) } else { None }
}

/// What the way has behind `txn/` that stands at this place below the vault's folder, if one stands there.
pub fn way_at(place: &str) -> Option<&str>
    ensures { IfSome result (λ part. stands_at (codes "txn/" ++ part.now) ≡ place.now) }
{
    let part = place.strip_prefix(".cvkit-txn-")?;
    if has_no_slash(part) { Some(part) } else { None }
}

/// Two names of the vault never stand at one path, and none at the next file of a folder.
pub fn names_stand_apart()
    ensures names { (root one other : List ℕ) → IsTrue (is_name one) → IsTrue (is_name other)
        → path_of root one ≡ path_of root other → one ≡ other }
    ensures next { (root name : List ℕ) → IsTrue (is_name name)
        → last_part (path_of root name) ≢ codes ".cvkit-next" }
{}

/// What follows the last slash of a path, or all of a path without one.
fn last_part(path: &str) -> &str
    ensures { result.now ≡ last_part path.now }
{
    match path.rsplit_once('/') {
        Some((_, last)) => last,
        None => path,
    }
}

/// Whether a text may be the path of a vault's folder: its last part may be one of a name.
pub fn is_root(path: &str) -> bool
    ensures { result ≡ is_part (last_part path.now) }
{
    is_part(last_part(path))
}

/// The folder that a path stands in, with the slash at its end.
pub fn folder_of(path: &str) -> &str
    ensures { result.now ≡ folder_of path.now }
{
    match path.rsplit_once('/') {
        Some((_, last)) => path.strip_suffix(last).unwrap_or("./"),
        None => "./",
    }
}

/// The folder above one, of which each path ends in a slash.
pub fn above(folder: &str) -> &str
    ensures above { result.now ≡ above folder.now }
    ensures fits { length folder.now < PATH_ROOM → length result.now < PATH_ROOM }
{
    folder_of(folder.strip_suffix("/").unwrap_or(folder))
}
