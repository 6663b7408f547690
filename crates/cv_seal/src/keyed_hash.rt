//! The keyed hash as a signer.
ghost use Rattle.std.specs.Prelude.{◌≡◌, IfOk, string_bytes};
ghost use Rattle.std.specs.Str.{bytes_eq};
ghost use Rattle.cv_base.proofs.Laws.{bytes_eq-own};
ghost use Rattle.cv_seal.specs.Hmac.{hmac_sha1};

use crate::compare::same_bytes;
use crate::hmac::hmac_sha1;
use crate::signer::Signer;
use cv_base::{Bytes, NoMemory};
use std::alloc::Global;
use std::marker::Model;

/// A secret that signs by HMAC-SHA1. It verifies exactly its own seal of a text, which has 20 bytes.
/// Clauses see the secret's bytes.
#[derive(Drop)]
pub struct KeyedHash {
    secret: String,
}

impl Model for KeyedHash {
    ghost use Rattle.std.specs.Prelude.{List, ℕ};
    ghost use Rattle.std.specs.String.{string_bytes};

    ghost Value = { List ℕ };

    ghost view = { λ hash. string_bytes hash.secret };
}

impl KeyedHash {
    /// The signer of this secret.
    pub fn new(secret: String) -> KeyedHash
        ensures { result ≡ string_bytes secret }
    {
        KeyedHash { secret }
    }
}

impl Signer for KeyedHash {
    ghost seal_of = { λ secret text. hmac_sha1 secret text };

    ghost is_seal = { λ secret text seal. bytes_eq seal (hmac_sha1 secret text) };

    ghost signed_verifies = { λ secret text. bytes_eq-own (hmac_sha1 secret text) };

    fn sign(&self, alloc: Global, text: &[u8]) -> Result<Bytes, NoMemory> {
        let seal = hmac_sha1(self.secret.as_bytes(), text);
        Bytes::from_slice(alloc, &seal)
    }

    fn verifies(&self, text: &[u8], seal: &[u8]) -> bool {
        let own = hmac_sha1(self.secret.as_bytes(), text);
        same_bytes(seal, &own)
    }
}
