//! Signatures: what signs and verifies, and the keyed hash HMAC-SHA1.
#![tactic(auto)]

mod compare;
mod hmac;
mod keyed_hash;
mod signer;

pub use compare::same_bytes;
pub use hmac::hmac_sha1;
pub use keyed_hash::KeyedHash;
pub use signer::Signer;
