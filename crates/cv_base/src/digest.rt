//! SHA-1 digests as texts.
ghost use Rattle.std.specs.Prelude.{◌≡◌, ℕ, List, length, Some, IfSome, IfOk, IsSome, string_bytes};
ghost use Rattle.hex.specs.Hex.{IsBytes, encode_lower};
ghost use Rattle.cv_base.specs.Digest.{IsDigest};

use crate::memory::NoMemory;
use hex::FromHex;
use std::alloc::Global;

/// The bytes of a SHA-1 digest (FIPS 180-4).
pub const DIGEST_SIZE: usize = 20;

/// The digits of its text.
pub const DIGEST_DIGITS: usize = 40;

/// The digest that forty hex digits in lower case name. It takes no memory.
pub fn read_digest(text: &[u8]) -> Option<[u8; 20]>
    ensures value { IfSome result (λ hash. text.now ≡ encode_lower hash) }
    ensures found { (hash : List ℕ) → IsDigest hash → text.now ≡ encode_lower hash → result ≡ Some hash }
{
    let Ok(hash) = <[u8; 20] as FromHex>::from_hex(text) else {
        return None;
    };
    if text == digest_digits(&hash).as_slice() {
        Some(hash)
    } else {
        None
    }
}

/// The forty digits of a digest. It takes no memory.
pub fn digest_digits(hash: &[u8; 20]) -> [u8; 40]
    ensures { result ≡ encode_lower hash.now }
{
    let mut digits = [0u8; DIGEST_DIGITS];
    let _ = hex::encode_to_slice(hash, &mut digits);
    digits
}

/// The forty digits of a digest, as a text.
pub fn digest_text(alloc: Global, hash: &[u8; 20]) -> Result<String, NoMemory>
    ensures { IfOk result (λ text. string_bytes text ≡ encode_lower hash.now) }
{
    Ok(hex::encode(alloc, hash)?)
}
