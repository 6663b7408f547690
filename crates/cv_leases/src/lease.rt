//! A lease.

use cv_base::{RepoPath, Text, Token};

/// The right of one key to replace what stands at a path and below it, until a moment.
#[derive(Debug, Drop)]
pub struct Lease {
    /// By which its holder names it.
    pub token: Token,
    /// The id of the key that it was granted to.
    pub key: Text,
    /// What it covers: this path and all below it.
    pub path: RepoPath,
    /// The moment at which it ends by itself, in whole seconds since the beginning of 1970 (UTC).
    pub deadline: u64,
    /// The newest revision when it was granted.
    pub from_revision: u64,
}
