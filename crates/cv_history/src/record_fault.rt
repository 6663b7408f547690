//! Why bytes are no record.
ghost use Rattle.std.specs.Prelude.{◌≡◌};
ghost use Rattle.cv_history.specs.declared.record_fault.RecordFault.TheVariants as fault;

use cv_base::NoMemory;

/// Why bytes weren't read as a record.
#[derive(Clone, Copy, Debug, PartialEq, Eq)]
pub enum RecordFault {
    /// The bytes are no record. The number is the offset of the first field that is wrong; where the bytes end inside a
    /// field their length; and where bytes follow the record the offset of the first of them. A length that passes its
    /// limit is itself wrong.
    BadRecord(usize),
    /// There was no memory.
    NoMemory,
}

impl From<NoMemory> for RecordFault {
    ghost from_gives = { λ _ e. e ≡ fault.NoMemory };

    fn from(_fault: NoMemory) -> RecordFault {
        RecordFault::NoMemory
    }
}
