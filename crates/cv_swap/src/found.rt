//! What opening finds.

use cv_base::Items;
use cv_history::Record;
use cv_manifest::Head;

/// The head of a repository, its records from the first on, and its epoch.
#[derive(Debug, Drop)]
pub struct Found {
    /// The head.
    pub head: Head,
    /// The records, from that of the first revision on.
    pub records: Items<Record>,
    /// How often the repository was opened.
    pub epoch: u64,
}
