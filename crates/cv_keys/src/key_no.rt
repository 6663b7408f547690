//! Numbers of keys.

/// The number of a key in its table: its place in the keys text, from 0 on.
#[derive(Clone, Copy, Debug, PartialEq, Eq, PartialOrd, Ord)]
pub struct KeyNo(pub u32);
