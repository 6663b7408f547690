//! HMAC (RFC 2104) over SHA-1.
ghost use Rattle.std.specs.Prelude.{◌≡◌, ◌-◌, ◌≤◌, ◌++◌, length, replicate};
ghost use Rattle.sha1.specs.Sha1.{Holds};
ghost use Rattle.cv_seal.specs.Hmac.{hmac_sha1, block_key, masked};

use sha1::Sha1;

/// The bytes of a block of SHA-1.
const BLOCK_SIZE: usize = 64;

/// HMAC-SHA1 (RFC 2104) of a text under a key of any length. It takes no memory.
pub fn hmac_sha1(key: &[u8], text: &[u8]) -> [u8; 20]
    ensures { result ≡ hmac_sha1 key.now text.now }
{
    let block = block_key(key);
    let mut inner = masked_hasher(&block, 0x36);
    inner.update(text);
    let mut outer = masked_hasher(&block, 0x5c);
    outer.update(&inner.finalize());
    outer.finalize()
}

/// The key as a block: hashed if it is longer, with zeros behind it if it is shorter.
fn block_key(key: &[u8]) -> [u8; BLOCK_SIZE]
    ensures { result ≡ block_key key.now }
{
    if key.len() > BLOCK_SIZE {
        zero_padded(&Sha1::digest(key))
    } else {
        zero_padded(key)
    }
}

/// The bytes, and zeros up to a block.
fn zero_padded(bytes: &[u8]) -> [u8; BLOCK_SIZE]
    requires { length bytes.now ≤ BLOCK_SIZE }
    ensures { result ≡ bytes.now ++ replicate (BLOCK_SIZE - length bytes.now) 0 }
{
    let mut block = [0u8; BLOCK_SIZE];
    block[..bytes.len()].copy_from_slice(bytes);
    block
}

/// A hasher that was given the block with a pad.
fn masked_hasher(block: &[u8; BLOCK_SIZE], pad: u8) -> Sha1
    ensures { Holds result (masked pad block.now) }
{
    let mut hasher = Sha1::new();
    for byte in block {
        hasher.update(&[*byte ^ pad]);
    }
    hasher
}
