//! Why an Authorization header is refused.
ghost use Rattle.std.specs.Prelude.{◌≡◌};
ghost use Rattle.cv_keys.specs.declared.auth_fault.AuthFault.TheVariants as faults;

use cv_base::NoMemory;

/// Why a header isn't that of a key for a message: the first cause that is so, in this order.
#[derive(Clone, Copy, Debug, PartialEq, Eq)]
pub enum AuthFault {
    /// There is no header.
    NoHeader,
    /// The header has no space, or what follows its first one is not the base64 (RFC 4648) of 40 bytes.
    BadHeader,
    /// No key has the id before the space.
    UnknownKey,
    /// The 40 bytes are not the digits of the HMAC-SHA1 of the message under that key's secret.
    WrongMac,
    /// There was no memory.
    NoMemory,
}

impl From<NoMemory> for AuthFault {
    ghost from_gives = { λ _ e. e ≡ faults.NoMemory };

    fn from(_fault: NoMemory) -> AuthFault {
        AuthFault::NoMemory
    }
}
