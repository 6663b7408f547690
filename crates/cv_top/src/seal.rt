//! The seal of a repository.
ghost use Rattle.std.specs.Prelude.{◌≡◌, ◌≢◌, [], IfOk, Err};
ghost use Rattle.cv_top.specs.declared.seal.SealFault.TheVariants as faults;
ghost use Rattle.cv_top.specs.declared.seal.SealFault.TheVariants.{Empty};

use cv_base::{Name, NoMemory};
use cv_seal::KeyedHash;
use std::alloc::{AllocError, Global};

/// Why there is no seal.
#[derive(Clone, Copy, Debug, PartialEq, Eq)]
pub enum SealFault {
    /// The text is empty.
    Empty,
    /// There was no memory.
    NoMemory,
}

impl From<AllocError> for SealFault {
    ghost from_gives = { λ _ e. e ≡ faults.NoMemory };

    fn from(_error: AllocError) -> SealFault {
        SealFault::NoMemory
    }
}

impl From<NoMemory> for SealFault {
    ghost from_gives = { λ _ e. e ≡ faults.NoMemory };

    fn from(_fault: NoMemory) -> SealFault {
        SealFault::NoMemory
    }
}

/// The signer whose secret is the text of a seal.
pub(crate) fn read_seal(alloc: Global, seal: &str) -> Result<KeyedHash, SealFault>
    ensures signer { IfOk result (λ signer. (signer ≡ seal.now) × (seal.now ≢ [])) }
    ensures empty { result ≡ Err Empty → seal.now ≡ [] }
{
    if seal.is_empty() {
        return Err(SealFault::Empty);
    }
    Ok(KeyedHash::new(String::from_str(alloc, seal)?))
}

/// A repository's name, and what signs its manifests.
#[derive(Drop)]
pub(crate) struct Identity {
    pub(crate) name: Name,
    pub(crate) signer: KeyedHash,
}

impl Identity {
    /// The identity of the repository of this name, with the text of its seal.
    pub(crate) fn read(alloc: Global, name: &Name, seal: &str) -> Result<Identity, SealFault>
        ensures identity { IfOk result (λ i. (i.name ≡ name.now) × (i.signer ≡ seal.now) × (seal.now ≢ [])) }
        ensures empty { result ≡ Err Empty → seal.now ≡ [] }
    {
        let signer = read_seal(alloc, seal)?;
        let name = name.copy(alloc)?;
        Ok(Identity { name, signer })
    }
}
