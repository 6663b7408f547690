//! What a graft gives.

use cv_base::{Items, Object, ObjectId};

/// A tree of which a subtree was replaced.
#[derive(Debug, Drop)]
pub struct Grafted {
    /// The id of the catalogue at the root.
    pub root: ObjectId,
    /// How many bytes that catalogue has.
    pub size: u64,
    /// The catalogues that were made, those nested in another before it: where a part is set, those of its own cuts, and then
    /// those of the cuts properly above the path.
    pub added: Items<Object>,
}
