//! Entries of the journal.

use crate::act::Act;
use crate::reply::Reply;
use cv_base::Text;

/// The most entries of a journal.
pub const JOURNAL_LIMIT: usize = 262_144;

/// What the journal keeps of one step.
#[derive(Debug, Drop)]
pub struct Entry {
    /// The number of the seat from which it was asked.
    pub seat: u32,
    /// The moment at which it was asked, in whole seconds since the beginning of 1970 (UTC).
    pub now: u64,
    /// The id of the key under which it was asked.
    pub key: Text,
    /// What was asked.
    pub act: Act,
    /// What was answered.
    pub reply: Reply,
}
