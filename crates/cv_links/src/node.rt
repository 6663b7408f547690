//! Nodes of an arena.

use crate::links::Links;

/// A value, and where it stands in each lane.
#[derive(Drop)]
pub(crate) struct Node<T> {
    pub(crate) value: T,
    pub(crate) links: Links,
}
