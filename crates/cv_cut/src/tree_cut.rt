//! What a tree is cut into.

use cv_base::{Items, Object, ObjectId};

/// A tree as catalogues.
#[derive(Debug, Drop)]
pub struct Cut {
    /// The id of the catalogue at the root.
    pub root: ObjectId,
    /// How many bytes that catalogue has.
    pub size: u64,
    /// The catalogue of each cut, behind those nested in it.
    pub catalogues: Items<Object>,
}
