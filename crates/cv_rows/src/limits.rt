//! Limits of row files.

/// The most rows of a catalogue.
pub const ROW_LIMIT: u32 = 50_000;
