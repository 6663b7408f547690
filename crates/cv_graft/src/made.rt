//! Catalogues that were made.

/// What the entry of a catalogue in the one above it says.
#[derive(Clone, Copy, Debug)]
pub(crate) struct Made {
    /// The SHA-1 of its row file.
    pub hash: [u8; 20],
    /// How many bytes the row file has.
    pub size: u64,
}
