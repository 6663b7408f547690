//! Limits that several crates keep.

/// The most bytes of an object: a file's content, a catalogue or a record.
pub const OBJECT_LIMIT: usize = 16_777_216;

/// The last revision that a repository can have.
pub const LAST_REVISION: u64 = 262_144;

/// The most bytes of the id of a publisher's key.
pub const KEY_ID_LIMIT: usize = 255;

/// The most bytes of a revision's tag.
pub const TAG_LIMIT: usize = 255;

/// One more than the greatest mode: the twelve permission bits, as in POSIX.
pub const MODE_LIMIT: u32 = 4096;

/// The mode of a directory that is made without one being asked for: all may read it and go in, its owner may change it.
pub const DIRECTORY_MODE: u32 = 0o755;

/// The last second since 1970 that a moment may have.
pub const LAST_TIME: u64 = (1 << 62) - 1;
