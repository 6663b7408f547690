//! What every run has.
ghost use Rattle.std.specs.Prelude.{◌<◌};

use cv_base::NoMemory;
use cv_ports::MemoryClock;
use cv_vault::MemoryVault;
use std::alloc::Global;

/// The repository of the tables.
pub(crate) const REPOSITORY: &str = "sw.example.org";

/// The keys text of two keys.
pub(crate) const KEYS: &str = r#"{"keys":[{"id":"k1","secret":"s1"},{"id":"k2","secret":"s2"}]}"#;

/// The seal.
pub(crate) const SEAL: &str = "seal";

/// The first moment.
pub(crate) const START: u64 = 1_700_000_000;

/// Of which kind a row is, by which its runs read and may write.
#[derive(Clone, Copy)]
pub(crate) enum Row {
    /// One run.
    Run,
    /// Publications, and what is asked behind them.
    Release,
    /// Runs that are cut.
    Crash,
}

impl Row {
    /// The most bytes of the input that one read gives.
    pub(crate) fn piece(self) -> usize
        ensures { 0 < result }
    {
        match self {
            Row::Run | Row::Release => 100,
            Row::Crash => 4_096,
        }
    }

    /// The most bytes that a run may write on its output.
    pub(crate) fn room(self) -> usize {
        match self {
            Row::Run => 200_000,
            Row::Release => 20_000,
            Row::Crash => 16_384,
        }
    }
}

/// The outside of a run but the folder of changes, the links to servers, and what it writes to. The reads of the input and the
/// writes to the output with these numbers fail.
#[derive(Drop)]
pub(crate) struct Outside {
    pub(crate) row: Row,
    pub(crate) vault: MemoryVault,
    pub(crate) input: Vec<u8>,
    pub(crate) clock: MemoryClock,
    pub(crate) keys: String,
    pub(crate) seal: String,
    pub(crate) reads: Vec<u64>,
    pub(crate) writes: Vec<u64>,
}

/// A clock of three moments, so many seconds after the first one.
pub(crate) fn clock_at(alloc: Global, seconds: [u32; 3]) -> Result<MemoryClock, NoMemory> {
    let [first, second, third] = seconds;
    let moments = [
        START + u64::from(first),
        START + u64::from(second),
        START + u64::from(third),
    ];
    Ok(MemoryClock::new(Vec::from_slice(alloc, &moments)?))
}

impl Outside {
    /// For a row of this kind: no file and no input, two keys, a seal, and one moment. No call fails.
    pub(crate) fn bare(alloc: Global, row: Row) -> Result<Outside, NoMemory> {
        Ok(Outside {
            row,
            vault: MemoryVault::new(alloc, Vec::new(alloc))?,
            input: Vec::new(alloc),
            clock: clock_at(alloc, [0, 0, 0])?,
            keys: String::from_str(alloc, KEYS)?,
            seal: String::from_str(alloc, SEAL)?,
            reads: Vec::new(alloc),
            writes: Vec::new(alloc),
        })
    }
}
