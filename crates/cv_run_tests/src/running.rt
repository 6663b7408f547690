//! A run of the program, and how it ends.

use crate::folder::no_change;
use crate::outside::{Outside, Row};
use cv_base::NoMemory;
use cv_ports::{Dial, MemoryClock, MemoryDial, MemoryFolder, MemorySink, MemorySource, NoHold};
use cv_top::{Parts, Status, run};
use cv_vault::MemoryVault;
use std::alloc::Global;
use std::test::Fail;

/// The most bytes of the line on a run's status.
const LINE_ROOM: usize = 100;

/// How a run ends.
#[derive(Drop)]
pub(crate) struct End<N> {
    pub(crate) code: u8,
    pub(crate) output: Vec<u8>,
    pub(crate) errors: Vec<u8>,
    pub(crate) vault: MemoryVault,
    pub(crate) dial: N,
}

/// The parts of a run.
type Memory<N> = Parts<
    MemoryVault,
    MemorySource,
    MemorySink,
    MemorySink,
    MemoryClock,
    MemoryFolder,
    N,
    NoHold,
>;

/// The words of a run as texts of their own.
pub(crate) fn owned(alloc: Global, words: &[&str]) -> Result<Vec<String>, NoMemory> {
    let mut owned = Vec::new(alloc);
    for word in words {
        owned.push(String::from_str(alloc, word)?)?;
    }
    Ok(owned)
}

/// What a run of a row writes to: its output, of which the writes of these numbers fail, and its status.
fn sinks(alloc: Global, row: Row, failing: Vec<u64>) -> Result<(MemorySink, MemorySink), NoMemory> {
    let output = MemorySink::new(alloc, row.room(), failing)?;
    let errors = MemorySink::new(alloc, LINE_ROOM, Vec::new(alloc))?;
    Ok((output, errors))
}

/// The parts of a run that has this.
fn parts_of<N: Dial + Drop>(
    alloc: Global,
    outside: Outside,
    folder: MemoryFolder,
    dial: N,
) -> Result<Memory<N>, NoMemory> {
    let Outside {
        row,
        vault,
        input,
        clock,
        keys,
        seal,
        reads,
        writes,
    } = outside;
    let (output, errors) = sinks(alloc, row, writes)?;
    Ok(Parts {
        vault,
        input: MemorySource::new(input, row.piece(), reads),
        output,
        errors,
        clock,
        keys,
        seal,
        folder,
        dial,
        hold: NoHold,
    })
}

/// Runs the program.
fn run_parts<N: Dial>(alloc: Global, words: &[String], parts: Memory<N>) -> (Status, Memory<N>) {
    run(alloc, words, parts)
}

/// How a run of these words ends.
pub(crate) fn end_of<N: Dial + Drop>(
    alloc: Global,
    words: &[String],
    outside: Outside,
    folder: MemoryFolder,
    dial: N,
) -> Result<End<N>, NoMemory> {
    let parts = parts_of(alloc, outside, folder, dial)?;
    let (status, parts) = run_parts(alloc, words, parts);
    Ok(End {
        code: status.code(),
        output: parts.output.into_vec(),
        errors: parts.errors.into_vec(),
        vault: parts.vault,
        dial: parts.dial,
    })
}

/// How a run of these words ends that has no change and no link.
pub(crate) fn end_alone(
    alloc: Global,
    words: &[String],
    outside: Outside,
) -> Result<End<MemoryDial>, Fail> {
    let folder = no_change(alloc)?;
    let dial = MemoryDial::new(alloc, Vec::new(alloc), Vec::new(alloc))?;
    Ok(end_of(alloc, words, outside, folder, dial)?)
}
