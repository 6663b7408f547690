//! Names of nodes.

/// The name of a node in its arena. Nothing outside this crate sees what it is made of.
#[derive(Clone, Copy, Debug, PartialEq, Eq)]
pub struct Id {
    pub(crate) place: usize,
}
