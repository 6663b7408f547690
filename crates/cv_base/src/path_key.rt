//! Keys of paths.

/// The key of a path: the MD5 (RFC 1321) of its text.
#[derive(Clone, Copy, Debug, PartialEq, Eq, PartialOrd, Ord)]
pub struct PathKey(pub [u8; 16]);
