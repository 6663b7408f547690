//! The values of fields.
ghost use Rattle.std.specs.Prelude.{◌≡◌, IfOk, IsTrue, decimal};
ghost use Rattle.hex.specs.Hex.{encode_lower};
ghost use Rattle.cv_base.specs.Name.{is_name};
ghost use Rattle.cv_manifest.specs.Field.{NamesDigest, NamesNumber, root_key};
ghost use Rattle.cv_manifest.specs.PutInner.{Gives};

use cv_base::{Name, NoMemory, read_decimal, read_digest};
use std::alloc::Global;

/// The MD5 (RFC 1321) of no bytes in hex, which is the key of the root path.
pub const ROOT_KEY: &str = "d41d8cd98f00b204e9800998ecf8427e";

/// The digest whose hex digits a text is.
pub fn read_hash(text: &[u8]) -> Option<[u8; 20]>
    ensures { Gives encode_lower (NamesDigest text.now) text.now result }
{
    let hash = read_digest(text)?;
    Some(hash)
}

/// The number in these bounds, both included, whose decimal a text is.
pub fn read_number(text: &[u8], least: u64, most: u64) -> Option<u64>
    ensures { Gives decimal (NamesNumber least most text.now) text.now result }
{
    let number = read_decimal(text)?;
    if least <= number && number <= most {
        Some(number)
    } else {
        None
    }
}

/// Whether a text is the key of the root path: Some where it is.
pub fn read_root_key(text: &[u8]) -> Option<()>
    ensures { Gives (λ _. root_key) (text.now ≡ root_key) text.now result }
{
    if text == ROOT_KEY.as_bytes() {
        Some(())
    } else {
        None
    }
}

/// The repository's name that bytes are.
pub fn read_name(alloc: Global, bytes: &[u8]) -> Result<Option<Name>, NoMemory>
    ensures { IfOk result (λ found. Gives (λ name. name) (IsTrue (is_name bytes.now)) bytes.now found) }
{
    match std::str::from_utf8(bytes) {
        Ok(text) => Name::read(alloc, text),
        Err(_) => Ok(None),
    }
}
