//! Why a message is refused.
ghost use Rattle.std.specs.Prelude.{◌≡◌};
ghost use Rattle.cv_messages.specs.declared.message_fault.MessageFault.TheVariants as faults;

use crate::member::Member;
use cv_base::NoMemory;

/// The first fault of a message: the members are judged in order, and each for being there, for its
/// type and for its value.
#[derive(Clone, Copy, Debug, PartialEq, Eq)]
pub enum MessageFault {
    /// The text is no JSON object, or nests deeper than 127.
    NotJson,
    /// The member is lacking.
    Missing(Member),
    /// The member has another type.
    WrongType(Member),
    /// The member's value is out of its limits.
    BadValue(Member),
    /// There was no memory.
    NoMemory,
}

impl From<NoMemory> for MessageFault {
    ghost from_gives = { λ _ e. e ≡ faults.NoMemory };

    fn from(_fault: NoMemory) -> MessageFault {
        MessageFault::NoMemory
    }
}
