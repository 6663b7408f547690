//! Why a checkout doesn't go on.
ghost use Rattle.std.specs.Prelude.{◌≡◌};
ghost use Rattle.cv_checkout.specs.declared.fault.CheckoutFault.TheVariants as faults;

use cv_base::{NoMemory, ObjectId};
use std::alloc::AllocFailed;

/// Why a catalogue isn't taken.
#[derive(Clone, Copy, Debug, PartialEq, Eq)]
pub enum CheckoutFault {
    /// Nothing was given for this id.
    NotServed(ObjectId),
    /// The bytes that were given for this id have another digest.
    BadObject {
        /// The id that was wanted.
        id: ObjectId,
        /// The SHA-1 of the bytes that were given (FIPS 180-4).
        found: [u8; 20],
    },
    /// The bytes under this id have its digest, and don't decode at their place, or have another size than is stated of them.
    BadCatalogue(ObjectId),
    /// There was no memory.
    NoMemory,
}

impl<T: Drop> From<AllocFailed<T>> for CheckoutFault {
    ghost from_gives = { λ _ e. e ≡ faults.NoMemory };

    fn from(_error: AllocFailed<T>) -> CheckoutFault {
        CheckoutFault::NoMemory
    }
}

impl From<NoMemory> for CheckoutFault {
    ghost from_gives = { λ _ e. e ≡ faults.NoMemory };

    fn from(_fault: NoMemory) -> CheckoutFault {
        CheckoutFault::NoMemory
    }
}
