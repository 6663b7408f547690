//! Sources and sinks by the words of a line.

use crate::line::bytes_of;
use cv_ports::{MemorySink, MemorySource};
use std::alloc::Global;
use std::test::Fail;

/// The number of the call that fails, and none where it's 0.
fn failing(alloc: Global, call: &str) -> Result<Vec<u64>, Fail> {
    let call: u64 = call.parse()?;
    Ok(Vec::from_slice(alloc, &[call])?)
}

/// A source of these bytes that gives so many a call. The call of a number fails, and none where it's 0.
pub fn source_of(
    alloc: Global,
    piece: &str,
    call: &str,
    input: &str,
) -> Result<MemorySource, Fail> {
    let piece: usize = piece.parse()?;
    if piece == 0 {
        return Err(Fail::new("no piece"));
    }
    let bytes = bytes_of(alloc, input)?;
    Ok(MemorySource::new(bytes, piece, failing(alloc, call)?))
}

/// A sink with room for so many bytes. The call of a number fails, and none where it's 0.
pub fn sink_of(alloc: Global, room: &str, call: &str) -> Result<MemorySink, Fail> {
    let room: usize = room.parse()?;
    Ok(MemorySink::new(alloc, room, failing(alloc, call)?)?)
}
