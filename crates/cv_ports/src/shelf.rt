//! Where objects stand.
ghost use Rattle.std.specs.Prelude.{◌≡◌, ℕ, Option, IfErr, IsErrOf};
ghost use Rattle.cv_base.specs.Counts.{HasCause, raised};
ghost use Rattle.cv_base.specs.Told.{WhereTold};
ghost use Rattle.cv_ports.specs.Shelf.{Shelf as Standing, Fetches, Suits, Measures, IsUnread};
ghost use Rattle.cv_ports.specs.declared.shelf.ShelfFault.TheVariants as fault;

use cv_base::{Bytes, NoMemory, ObjectId};
use std::alloc::{AllocError, Global};

/// Why a shelf gave no answer.
#[derive(Clone, Copy, Debug, PartialEq, Eq)]
pub enum ShelfFault {
    /// The shelf failed. The count of faults rose in this call.
    Failed,
    /// The bytes that stand under the id have another digest than its hash.
    Damaged {
        /// The id that was asked for.
        id: ObjectId,
        /// The SHA-1 of the bytes that stand there.
        found: [u8; 20],
    },
    /// There was no memory.
    NoMemory,
}

impl From<NoMemory> for ShelfFault {
    ghost from_gives = { λ _ e. e ≡ fault.NoMemory };

    fn from(_fault: NoMemory) -> ShelfFault {
        ShelfFault::NoMemory
    }
}

impl From<AllocError> for ShelfFault {
    ghost from_gives = { λ _ e. e ≡ fault.NoMemory };

    fn from(_fault: AllocError) -> ShelfFault {
        ShelfFault::NoMemory
    }
}

/// Where objects stand under their ids.
///
/// A shelf tells what stands under each id or it doesn't. No call changes what stands there. What a shelf that doesn't tell
/// gives has the id's hash all the same.
pub trait Shelf {
    /// The bytes that stand under each id, where the shelf tells.
    ghost shelf: { Self → Option Standing };

    /// How many of its calls failed, so far as 64 bits can count.
    ghost faults: { Self → ℕ };

    /// How many objects were fetched from it, or asked for in vain, so far as 64 bits can count.
    ghost taken: { Self → ℕ };

    /// From one value to a later one nothing but reads went by: what stands under the shelf is as it was, beside its objects too.
    ghost reads: { Self → Self → Type 0 };

    /// The object's bytes, if it stands there. Bytes of another digest are never given.
    fn fetch(&mut self, alloc: Global, id: &ObjectId) -> Result<Option<Bytes>, ShelfFault>
        ensures told { WhereTold (shelf self.old) (Fetches id.now result) }
        ensures suits { Suits id.now result }
        ensures reads { reads self.old self.new }
        ensures unchanged { shelf self.new ≡ shelf self.old }
        ensures cause { HasCause (faults self.old) (faults self.new) (IsErrOf result fault.Failed) }
        ensures taken { taken self.new ≡ raised (taken self.old) };

    /// How many bytes stand under an id, if any do. They aren't read, so that their digest may be another one.
    fn length(&mut self, alloc: Global, id: &ObjectId) -> Result<Option<u64>, ShelfFault>
        ensures told { WhereTold (shelf self.old) (Measures id.now result) }
        ensures unread { IfErr result IsUnread }
        ensures reads { reads self.old self.new }
        ensures unchanged { shelf self.new ≡ shelf self.old }
        ensures cause { HasCause (faults self.old) (faults self.new) (IsErrOf result fault.Failed) }
        ensures taken { taken self.new ≡ taken self.old };

    /// Where no call went by, nothing but reads went by.
    ghost reads_none: { (a : Self) → reads a a };

    /// Reads that follow reads are reads.
    ghost reads_then: { (a b c : Self) → reads a b → reads b c → reads a c };

    /// Where nothing but reads went by, the same bytes stand under each id.
    ghost reads_same: { (a b : Self) → reads a b → shelf b ≡ shelf a };
}
