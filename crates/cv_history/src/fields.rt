//! The fault of a field.
ghost use Rattle.std.specs.Prelude.{◌≡◌};
ghost use Rattle.cv_base.specs.Fields.{bad};
ghost use Rattle.cv_history.specs.declared.record_fault.RecordFault.TheVariants.{BadRecord};

use crate::record_fault::RecordFault;

/// The fault that the field which begins with this text isn't as it has to be, by its offset: `all` is the count of
/// all bytes of the record.
pub fn bad(all: usize, text: &[u8]) -> RecordFault
    ensures { result ≡ bad BadRecord all text.now }
{
    RecordFault::BadRecord(all.saturating_sub(text.len()))
}
