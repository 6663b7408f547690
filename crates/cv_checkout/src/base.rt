//! What a change is made of.

use cv_ports::MemoryShelf;
use cv_tree::Part;

/// The published base of a change at a path.
#[derive(Drop)]
pub struct Base {
    /// The catalogues on the way from the root to the path and those at and below it, each under its id.
    pub catalogues: MemoryShelf,
    /// What the tree has at the path. None where nothing stands there.
    pub part: Option<Part>,
    /// Whether the path is the root, or its parent is a directory of the tree.
    pub has_place: bool,
}
