//! A pack that was read.

use cv_base::{Items, Object};

/// A pack that was read.
#[derive(Debug, Drop)]
pub struct Pack {
    /// The objects, in the order of their lines.
    pub objects: Items<Object>,
    /// The bytes of the header.
    pub header: u64,
    /// The SHA-1 of the header (FIPS 180-4).
    pub digest: [u8; 20],
}
