//! Why a keys text is refused.
ghost use Rattle.std.specs.Prelude.{◌≡◌};
ghost use Rattle.cv_keys.specs.declared.key_fault.KeyFault.TheVariants as faults;

use cv_base::NoMemory;

/// The first fault of a keys text. Numbers are places: 0 for the member `keys` itself, and from 1 on
/// for its elements in order.
#[derive(Clone, Copy, Debug, PartialEq, Eq)]
pub enum KeyFault {
    /// The text is no JSON object, or nests deeper than 127.
    NotJson,
    /// A member is lacking.
    Missing(u32),
    /// A value has another type: `keys` is no array, an element no object, or a member no text.
    WrongType(u32),
    /// An id or a secret is out of its limits.
    BadValue(u32),
    /// An earlier key has the same id.
    Repeated(u32),
    /// There are more than 256 keys.
    TooMany,
    /// There is no key.
    NoKey,
    /// There was no memory.
    NoMemory,
}

impl From<NoMemory> for KeyFault {
    ghost from_gives = { λ _ e. e ≡ faults.NoMemory };

    fn from(_fault: NoMemory) -> KeyFault {
        KeyFault::NoMemory
    }
}
