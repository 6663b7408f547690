//! What signs texts.
ghost use Rattle.std.specs.Prelude.{◌≡◌, ℕ, List, Bool, true, IfOk};

use cv_base::{Bytes, NoMemory};
use std::alloc::Global;

/// What signs texts, and tells which seals of a text are good.
pub trait Signer {
    // the seal of a text, which the signer and the text alone decide
    ghost seal_of: { Self → List ℕ → List ℕ };

    // whether a seal of a text is good
    ghost is_seal: { Self → List ℕ → List ℕ → Bool };

    /// The seal of a text.
    fn sign(&self, alloc: Global, text: &[u8]) -> Result<Bytes, NoMemory>
        ensures { IfOk result (λ seal. seal ≡ seal_of self.now text.now) };

    /// Whether a seal of a text is good. It takes no memory.
    fn verifies(&self, text: &[u8], seal: &[u8]) -> bool
        ensures { result ≡ is_seal self.now text.now seal.now };

    // what was signed verifies
    ghost signed_verifies: { (signer : Self) (text : List ℕ) → is_seal signer text (seal_of signer text) ≡ true };
}
