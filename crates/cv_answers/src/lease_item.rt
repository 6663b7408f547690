//! Live leases in an answer.

use cv_base::Text;

/// A live lease, as an answer lists it.
#[derive(Debug, Drop)]
pub struct LeaseItem {
    /// The id of the key that it was granted to.
    pub key: Text,
    /// The repository's name and the path's text.
    pub path: Text,
    /// The seconds until it ends.
    pub remaining: u64,
}
