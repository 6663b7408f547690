//! What is kept of a path while the rows below it are judged.
ghost use Rattle.std.specs.Prelude.{◌≡◌, ◌≤◌, ◌↔◌, List, ℕ, IsTrue, IfOk};
ghost use Rattle.cv_base.specs.Path.{IsPath, is_path_name};
ghost use Rattle.cv_rows.specs.Catalogue.{FitsAt};
ghost use Rattle.cv_rows.specs.DigestsInner.{IsDigestOf, IsDigestBelow};

use crate::places::is_root;
use crate::row::Row;
use cv_base::{NAMES_LIMIT, NoMemory, PATH_LIMIT, RepoPath};
use md5::{Digest, Md5};

/// The digest of a path's text as far as the text goes, the text's length, and how many names the path has.
#[derive(Drop)]
pub struct PathDigest {
    hasher: Md5,
    size: usize,
    names: usize,
}

impl PathDigest {
    /// What is kept of a path.
    pub fn of(path: &RepoPath) -> PathDigest
        ensures { IsDigestOf path.now result }
    {
        let mut hasher = Md5::new();
        for name in path.names() {
            hasher.update("/");
            hasher.update(name.as_str());
        }
        PathDigest {
            hasher,
            size: path.text_len(),
            names: path.names().len(),
        }
    }

    /// What is kept of the path with one more name, unless it passes the limits of a path. Whether the name is one in a path
    /// was judged before.
    pub fn with_name(&self, name: &str, is_name: bool) -> Result<Option<PathDigest>, NoMemory>
        requires named { is_name ≡ is_path_name name.now }
        ensures { (path : List (List ℕ)) → IsPath path → IsDigestOf path self.now → IfOk result (IsDigestBelow path name.now) }
    {
        let passes_limit = self.size.saturating_add(name.len()) >= PATH_LIMIT
            || self.names >= NAMES_LIMIT;
        if passes_limit || !is_name {
            return Ok(None);
        }
        let mut hasher = self.hasher.clone()?;
        hasher.update("/");
        hasher.update(name);
        Ok(Some(PathDigest {
            hasher,
            size: self.size + 1 + name.len(),
            names: self.names + 1,
        }))
    }

    /// Whether a row fits the path of which this is kept.
    pub fn fits(&self, at: &RepoPath, row: &Row) -> Result<bool, NoMemory>
        ensures { (path : List (List ℕ)) → IsPath path → IsDigestOf path self.now → IfOk result (λ fits. IsTrue fits ↔ FitsAt at.now row.now path) }
    {
        let hasher = self.hasher.clone()?;
        let is_named = !is_root(at, row) || row.name.text() == at.last_name();
        Ok(row.key.0 == hasher.finalize() && is_named)
    }
}
