//! What is to be published.

use cv_base::{Name, RepoPath, Text};
use cv_overlay::Changes;

/// What is to be published, and where.
#[derive(Drop)]
pub struct Plan {
    /// The repository's name.
    pub name: Name,
    /// The host of the repository's server, and the port where there is one, as they stand in a URL.
    pub host: Text,
    /// The path at which the changes are published.
    pub path: RepoPath,
    /// The changes.
    pub changes: Changes,
    /// The moment, in Unix seconds: a directory that is made has it for its time.
    pub moment: u64,
}
