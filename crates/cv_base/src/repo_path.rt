//! Paths of a repository.
ghost use Rattle.std.specs.Prelude.{ℕ, List, Err, MatchOption, ◌≡◌, ◌≤◌, ◌↔◌, ◌∷◌, ◌++◌, [], length, map, Some, refl, IfOk, IfSome, IsTrue, string_bytes, position, not};
ghost use Rattle.std.specs.Cmp.{eq_by_cmp_equiv, partial_equiv_from_equiv};
ghost use Rattle.cv_base.specs.Path.{parent, path_cmp, same_path, covers, overlap, text_of, key_of, parent_key_of, last_name_of, is_path_name, IsPath};
ghost use Rattle.cv_base.specs.PathText.{Spells, path_of, path_of_bare, only_path, path_named, joined, parts_of, names_of, bad_name, without_last_slash};
ghost use Rattle.cv_base.specs.PathTextInner.{Joins};
ghost use Rattle.cv_base.specs.Unless.{IsUnless};
ghost use Rattle.cv_base.specs.declared.path_fault.PathFault.TheVariants as faults;
ghost use Rattle.cv_base.specs.declared.repo_path.TheConstants.{PATH_LIMIT};
ghost use Rattle.cv_base.specs.PathOrder.{path_total, paths_ordered};

use crate::memory::NoMemory;
use crate::path_fault::PathFault;
use crate::path_key::PathKey;
use crate::path_name::{PathName, is_path_name};
use crate::utf8::as_text;
use md5::{Digest, Md5};
use std::alloc::Global;
use std::cmp::Ordering;
use std::marker::Model;

/// The most bytes of a path's text.
pub const PATH_LIMIT: usize = 4095;

/// The most names of a path.
pub const NAMES_LIMIT: usize = 64;

/// A path of a repository, by its names from the root on. It has at most 64 names, and its text at most 4,095 bytes.
/// Paths are ordered by their names, and the names by their bytes.
#[derive(Debug, Drop)]
pub struct RepoPath {
    names: Vec<PathName>,
}

impl Model for RepoPath {
    ghost use Rattle.std.specs.Prelude.{List, ℕ};
    ghost use Rattle.cv_base.specs.Path.{IsPath};

    ghost Value = { List (List ℕ) };

    ghost view = { λ path. path.names.items };

    ghost invariant = { λ path. IsPath path.names.items };
}

impl RepoPath {
    /// The root, which has no name. It takes no memory.
    pub fn root(alloc: Global) -> RepoPath
        ensures { result ≡ [] }
    {
        RepoPath {
            names: Vec::new(alloc),
        }
    }

    /// The path that a text says. One slash at the end is dropped, and the empty text is the root.
    pub fn read(alloc: Global, text: &str) -> Result<RepoPath, PathFault>
        ensures answer { IsUnless faults.NoMemory result (path_of text.now) }

        // A path is read from its own text alone, with or without a slash at the end.
        ensures grammar { IfOk result (λ path. IsPath path × Spells text.now path) }
        ensures found { (path : List (List ℕ)) → IsPath path → Spells text.now path → IsUnless faults.NoMemory result (Ok path) }
    {
        read_bare(alloc, without_last_slash(text))
    }

    /// The path whose own text these bytes are, without a slash at the end. None where they are no path's.
    pub fn of_bytes(alloc: Global, bytes: &[u8]) -> Result<Option<RepoPath>, NoMemory>
        ensures found { IfOk result (λ found. found ≡ path_named bytes.now) }
        ensures own { IfOk result (λ found. IfSome found (λ path. IsPath path × (text_of path ≡ bytes.now))) }
    {
        match as_text(bytes) {
            Some(text) => own_path(alloc, text),
            None => Ok(None),
        }
    }

    /// The path's text: a slash before each name.
    pub fn text(&self, alloc: Global) -> Result<String, NoMemory>
        ensures text { IfOk result (λ text. string_bytes text ≡ text_of self.now) }
        ensures reads_back { IfOk result (λ text. path_of (string_bytes text) ≡ Ok self.now) }
    {
        let mut text = String::new(alloc);
        for name in &self.names {
            text.push('/')?;
            text.push_str(name.as_str())?;
        }
        Ok(text)
    }

    /// How many bytes the path's text has.
    pub fn text_len(&self) -> usize
        ensures value { result ≡ length (text_of self.now) }
        ensures bound { result ≤ PATH_LIMIT }
    {
        let mut len = 0;
        for name in &self.names {
            len += 1 + name.as_str().len();
        }
        len
    }

    /// The path with one more name behind its own.
    ///
    /// # Errors
    ///
    /// `TooLong`, `TooDeep` and `BadName(0)`, in this order, by the limits of a path; else want of memory.
    pub fn join(&self, alloc: Global, name: &str) -> Result<RepoPath, PathFault>
        ensures { IsUnless faults.NoMemory result (joined self.now name.now) }
    {
        if let Some(fault) = self.name_fault(name) {
            return Err(fault);
        }
        let names = names_and(alloc, &self.names, name)?;
        Ok(RepoPath { names })
    }

    /// The path with one more name behind its own, as `join` makes it. No name that it has is copied.
    ///
    /// # Errors
    ///
    /// Those of `join`. The path is gone then.
    pub fn with_name(self, alloc: Global, name: &str) -> Result<RepoPath, PathFault>
        ensures { IsUnless faults.NoMemory result (joined self name.now) }
    {
        if let Some(fault) = self.name_fault(name) {
            return Err(fault);
        }
        let names = with_last(alloc, self.names, name)?;
        Ok(RepoPath { names })
    }

    /// Why the name can't stand behind the path's own.
    fn name_fault(&self, name: &str) -> Option<PathFault>
        ensures fault { MatchOption result (Joins self.now name.now) (λ fault. joined self.now name.now ≡ Err fault) }
    {
        if name.len() >= PATH_LIMIT - self.text_len() {
            return Some(PathFault::TooLong);
        }
        if self.names.len() >= NAMES_LIMIT {
            return Some(PathFault::TooDeep);
        }
        if !is_path_name(name) {
            return Some(PathFault::BadName(0));
        }
        None
    }

    /// An equal path.
    pub fn copy(&self, alloc: Global) -> Result<RepoPath, NoMemory>
        ensures { IfOk result (λ made. made ≡ self.now) }
    {
        let names = copies(alloc, &self.names)?;
        Ok(RepoPath { names })
    }

    /// The names, from the root on.
    pub fn names(&self) -> &[PathName]
        ensures names { result.now ≡ self.now }
        ensures limits { IsPath self.now }
    {
        &self.names
    }

    /// The last name. Empty for the root.
    pub fn last_name(&self) -> &str
        ensures { result.now ≡ last_name_of self.now }
    {
        match self.names.last() {
            Some(last) => last.as_str(),
            None => "",
        }
    }

    /// Whether the other path is this one, or below it.
    pub fn covers(&self, other: &RepoPath) -> bool
        ensures { result ≡ covers self.now other.now }
    {
        other.names.starts_with(&self.names)
    }

    /// Whether one of the paths covers the other.
    pub fn overlaps(&self, other: &RepoPath) -> bool
        ensures { result ≡ overlap self.now other.now }
    {
        self.covers(other) || other.covers(self)
    }

    /// The path of the directory in which the path stands. That of the root is the root. It takes no memory.
    pub fn into_parent(self) -> RepoPath
        ensures { result ≡ parent self }
    {
        let mut names = self.names;
        let count = names.as_slice().len();
        if count == 0 {
            return RepoPath { names };
        }
        names.truncate(count - 1);
        RepoPath { names }
    }

    /// The MD5 of the path's text.
    pub fn key(&self) -> PathKey
        ensures { result.0 ≡ key_of self.now }
    {
        key_of(&self.names)
    }

    /// The key of the directory in which the path stands. Zero bytes for the root.
    pub fn parent_key(&self) -> PathKey
        ensures { result.0 ≡ parent_key_of self.now }
    {
        match self.names.as_slice() {
            [] => PathKey([0; 16]),
            [above @ .., _] => key_of(above),
        }
    }
}

impl PartialEq for RepoPath {
    ghost eq = { λ p q. same_path p q };

    ghost laws = { partial_equiv_from_equiv (eq_by_cmp_equiv path_total) };

    fn eq(&self, other: &RepoPath) -> bool {
        self.cmp(other) == Ordering::Equal
    }
}

impl Eq for RepoPath {
    ghost laws = { eq_by_cmp_equiv path_total };
}

impl PartialOrd for RepoPath {
    ghost partial_cmp = { λ p q. Some (path_cmp p q) };

    ghost laws = { paths_ordered };

    fn partial_cmp(&self, other: &RepoPath) -> Option<Ordering> {
        Some(self.cmp(other))
    }
}

impl Ord for RepoPath {
    ghost cmp = { λ p q. path_cmp p q };

    ghost total = { path_total };

    ghost matches_partial_cmp = { λ p q. refl };

    ghost matches_eq = { λ p q. refl };

    fn cmp(&self, other: &RepoPath) -> Ordering {
        self.names.as_slice().cmp(other.names.as_slice())
    }
}

/// The key of the path of these names.
fn key_of(names: &[PathName]) -> PathKey
    ensures { result.0 ≡ key_of names.now }
{
    let mut hasher = Md5::new();
    for name in names {
        hasher.update("/");
        hasher.update(name.as_str());
    }
    PathKey(hasher.finalize())
}

/// The path whose own text this is.
fn own_path(alloc: Global, text: &str) -> Result<Option<RepoPath>, NoMemory>
    ensures found { IfOk result (λ found. found ≡ only_path text.now (path_of text.now)) }
    ensures own { IfOk result (λ found. IfSome found (λ path. IsPath path × (text_of path ≡ text.now))) }
{
    match RepoPath::read(alloc, text) {
        Ok(path) => {
            let own = path.text(alloc)?;
            Ok(if own.as_str() == text {
                Some(path)
            } else {
                None
            })
        }
        Err(fault) => {
            fault.unless_memory()?;
            Ok(None)
        }
    }
}

/// The path that a text says which has no slash at its end.
fn read_bare(alloc: Global, bare: &str) -> Result<RepoPath, PathFault>
    ensures { IsUnless faults.NoMemory result (path_of_bare bare.now) }
{
    if bare.len() > PATH_LIMIT {
        return Err(PathFault::TooLong);
    }
    let parts = parts_of(alloc, bare)?;
    let names = names_of(&parts);
    if names.len() > NAMES_LIMIT {
        return Err(PathFault::TooDeep);
    }
    if let Some(place) = bad_name(&parts) {
        return Err(PathFault::BadName(place));
    }
    let names = names_from(alloc, names)?;
    Ok(RepoPath { names })
}

/// The text without the one slash at its end.
fn without_last_slash(text: &str) -> &str
    ensures { result.now ≡ without_last_slash text.now }
{
    text.strip_suffix('/').unwrap_or(text)
}

/// The parts of a text between its slashes.
fn parts_of(alloc: Global, text: &str) -> Result<Vec<&str>, NoMemory>
    ensures { IfOk result (λ parts. map (λ part. part.now) parts.items ≡ parts_of text.now) }
{
    Ok(text.split('/').collect(alloc)?)
}

/// The names among the parts: all but the empty part before a leading slash.
fn names_of<'a>(parts: &'a [&'a str]) -> &'a [&'a str]
    ensures { map (λ part. part.now) result.now ≡ names_of (map (λ part. part.now) parts.now) }
{
    match parts {
        [first, names @ ..] if first.is_empty() => names,
        _ => parts,
    }
}

/// The place of the first bad name among the parts. A text that doesn't begin with a slash has a bad name at 0.
fn bad_name(parts: &[&str]) -> Option<usize>
    ensures { result ≡ bad_name (map (λ part. part.now) parts.now) }
{
    match parts {
        [first, names @ ..] if first.is_empty() => first_bad_name(names),
        _ => Some(0),
    }
}

/// The place of the first text that is no name in a path.
fn first_bad_name(texts: &[&str]) -> Option<usize>
    ensures { result ≡ position (λ text. not (is_path_name text.now)) texts.now }
{
    texts.iter().position(|text| !is_path_name(text))
}

/// Names of these texts.
fn names_from(alloc: Global, texts: &[&str]) -> Result<Vec<PathName>, NoMemory>
    ensures { IfOk result (λ names. names.items ≡ map (λ text. text.now) texts.now) }
{
    let mut names = Vec::new(alloc);
    for text in texts {
        names.push(PathName::from_str(alloc, text)?)?;
    }
    Ok(names)
}

/// Equal names.
fn copies(alloc: Global, names: &[PathName]) -> Result<Vec<PathName>, NoMemory>
    ensures { IfOk result (λ copies. copies.items ≡ names.now) }
{
    let mut copies = Vec::new(alloc);
    for name in names {
        let copy = PathName::from_str(alloc, name.as_str())?;
        copies.push(copy)?;
    }
    Ok(copies)
}

/// Equal names, and one more.
fn names_and(alloc: Global, names: &[PathName], last: &str) -> Result<Vec<PathName>, NoMemory>
    ensures { IfOk result (λ longer. longer.items ≡ names.now ++ last.now ∷ []) }
{
    with_last(alloc, copies(alloc, names)?, last)
}

/// These names, and one more behind them.
fn with_last(alloc: Global, mut names: Vec<PathName>, last: &str) -> Result<Vec<PathName>, NoMemory>
    ensures { IfOk result (λ longer. longer.items ≡ names.items ++ last.now ∷ []) }
{
    names.push(PathName::from_str(alloc, last)?)?;
    Ok(names)
}
