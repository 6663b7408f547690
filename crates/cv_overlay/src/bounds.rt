//! What bounds a folder of changes.

/// The most bytes of all files.
pub const SUM_LIMIT: u64 = 1_073_741_824;
