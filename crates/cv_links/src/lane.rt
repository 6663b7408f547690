//! The lanes of a node.

/// A node can stand in one list of each lane at once.
#[derive(Clone, Copy, Debug, PartialEq, Eq)]
pub enum Lane {
    /// The tree of paths.
    Tree,
    /// The order of deadlines.
    Time,
}
