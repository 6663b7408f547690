//! The newest head of a repository.

/// What a repository's newest revision is.
#[derive(Clone, Copy, Debug, PartialEq, Eq)]
pub struct Head {
    /// The revision, counted from 1.
    pub revision: u64,
    /// The SHA-1 (FIPS 180-4) of the root catalogue.
    pub root: [u8; 20],
    /// The bytes of the root catalogue.
    pub size: u64,
    /// The SHA-1 of the revision's record of the history.
    pub history: [u8; 20],
    /// The moment of publication in Unix seconds, at most `LAST_TIME`.
    pub time: u64,
}
