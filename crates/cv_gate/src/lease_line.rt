//! Lines of a list of leases.
use cv_base::{RepoPath, Text};

/// The seconds for which a lease is granted.
pub const LEASE_TIME: u64 = 7200;

/// What is told of a live lease to everyone: its token is its holder's own.
#[derive(Debug, Drop)]
pub struct LeaseLine {
    /// The id of the key that it was granted to.
    pub key: Text,
    /// What it covers: this path and all below it.
    pub path: RepoPath,
    /// The seconds until it ends by itself.
    pub remaining: u64,
}
