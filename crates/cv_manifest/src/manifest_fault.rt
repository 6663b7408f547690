//! Why bytes are no manifest.
ghost use Rattle.std.specs.Prelude.{◌≡◌};
ghost use Rattle.cv_manifest.specs.declared.manifest_fault.ManifestFault.TheVariants as faults;

use cv_base::NoMemory;

/// Why bytes are no manifest: the first fault, in the order of the variants `NoEnd`, `HashDiffers` and
/// `BadSeal`, then that of the first line that has one, then `Missing`.
#[derive(Clone, Copy, Debug, PartialEq, Eq)]
pub enum ManifestFault {
    /// No line is `--`, or what follows the first one doesn't begin with forty hex digits in lower
    /// case and a newline.
    NoEnd,
    /// The line of this number, from 1 on, is empty, or its letter is that of a field that may not
    /// have its value.
    BadLine(usize),
    /// No line begins with this letter, the first in the order of writing that is lacking.
    Missing(u8),
    /// A second line begins with this letter.
    Repeated(u8),
    /// The SHA-1 (FIPS 180-4) of the bytes before the line `--` isn't the one that is stated behind it.
    HashDiffers {
        /// The digest that the manifest states.
        stated: [u8; 20],
        /// The digest of the bytes.
        computed: [u8; 20],
    },
    /// What follows the digits isn't a seal of them.
    BadSeal,
    /// There was no memory.
    NoMemory,
}

impl From<NoMemory> for ManifestFault {
    ghost from_gives = { λ _ e. e ≡ faults.NoMemory };

    fn from(_fault: NoMemory) -> ManifestFault {
        ManifestFault::NoMemory
    }
}
