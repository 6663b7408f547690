//! The ids of objects.
ghost use Rattle.std.specs.Prelude.{◌≡◌, ◌++◌, codes, length, ℕ, List, Some, IfSome, IfOk, string_bytes};
ghost use Rattle.sha1.specs.Sha1.{sha1};
ghost use Rattle.hex.specs.Hex.{encode_lower};
ghost use Rattle.cv_base.specs.Digest.{IsDigest};
ghost use Rattle.cv_base.specs.ObjectId.{suffix_of, id_text, file_name};

use crate::digest::{DIGEST_DIGITS, digest_digits, read_digest};
use crate::memory::NoMemory;
use sha1::Sha1;
use std::alloc::Global;

/// The bytes of the name of an object's file without its suffix.
const FILE_NAME_SIZE: usize = 46;

/// What an object is.
#[derive(Clone, Copy, Debug, PartialEq, Eq)]
pub enum Kind {
    /// The content of a file.
    Plain,
    /// A catalogue.
    Catalogue,
    /// A record of the history.
    History,
}

impl Kind {
    /// The suffix of the texts of such ids.
    pub fn suffix(self) -> &'static str
        ensures { result.now ≡ suffix_of self }
    {
        match self {
            Kind::Plain => "",
            Kind::Catalogue => "C",
            Kind::History => "H",
        }
    }

    /// The kind with this suffix.
    fn of_suffix(suffix: &[u8]) -> Option<Kind>
        ensures value { IfSome result (λ kind. suffix.now ≡ suffix_of kind) }
        ensures found { (kind : _) → suffix.now ≡ suffix_of kind → result ≡ Some kind }
    {
        match suffix {
            [] => Some(Kind::Plain),
            [b'C'] => Some(Kind::Catalogue),
            [b'H'] => Some(Kind::History),
            _ => None,
        }
    }
}

/// The id of an object: the SHA-1 of its bytes (FIPS 180-4), and its kind.
#[derive(Clone, Copy, Debug, PartialEq, Eq)]
pub struct ObjectId {
    /// The SHA-1 of the object's own bytes, which are never compressed.
    pub hash: [u8; 20],
    /// What the object is.
    pub kind: Kind,
}

impl ObjectId {
    /// The id of these bytes as an object of this kind. It takes no memory.
    pub fn of(kind: Kind, bytes: &[u8]) -> ObjectId
        ensures hash { result.hash ≡ sha1 bytes.now }
        ensures kind { result.kind ≡ kind }
        ensures digest { IsDigest result.hash }
    {
        ObjectId {
            hash: Sha1::digest(bytes),
            kind,
        }
    }

    /// The id of these digits and this suffix.
    fn of_parts(digits: &[u8], suffix: &[u8]) -> Option<ObjectId>
        ensures digest { IfSome result (λ id. IsDigest id.hash) }
        ensures value { IfSome result (λ id. (digits.now ≡ encode_lower id.hash) × (suffix.now ≡ suffix_of id.kind)) }
        ensures found { (id : _) → IsDigest id.hash → digits.now ≡ encode_lower id.hash → suffix.now ≡ suffix_of id.kind → result ≡ Some id }
    {
        let hash = read_digest(digits)?;
        let kind = Kind::of_suffix(suffix)?;
        Some(ObjectId { hash, kind })
    }

    /// The id that a text is: forty hex digits in lower case, then nothing, `C` for a catalogue or
    /// `H` for history. None for any other text. It takes no memory.
    pub fn read(text: &str) -> Option<ObjectId>
        ensures value { IfSome result (λ id. text.now ≡ id_text id) }
        ensures digest { IfSome result (λ id. IsDigest id.hash) }
        ensures found { (id : _) → IsDigest id.hash → text.now ≡ id_text id → result ≡ Some id }
    {
        let bytes = text.as_bytes();
        if bytes.len() < DIGEST_DIGITS {
            return None;
        }
        let (digits, suffix) = bytes.split_at(DIGEST_DIGITS);
        ObjectId::of_parts(digits, suffix)
    }

    /// The text of an id.
    pub fn text(&self, alloc: Global) -> Result<String, NoMemory>
        ensures { IfOk result (λ text. string_bytes text ≡ id_text self.now) }
    {
        let mut text = hex::encode(alloc, &self.hash)?;
        text.push_str(self.kind.suffix())?;
        Ok(text)
    }

    /// The id of the object whose file has this name. None where there is none. It takes no memory.
    pub fn read_file_name(name: &[u8]) -> Option<ObjectId>
        ensures value { IfSome result (λ id. name.now ≡ file_name id) }
        ensures digest { IfSome result (λ id. IsDigest id.hash) }
        ensures found { (id : _) → IsDigest id.hash → name.now ≡ file_name id → result ≡ Some id }
    {
        if name.len() < FILE_NAME_SIZE {
            return None;
        }
        let (folder, rest) = name.split_at(5);
        let (first, rest) = rest.split_at(2);
        let (slash, rest) = rest.split_at(1);
        let (others, suffix) = rest.split_at(38);
        if folder != b"data/".as_slice() || slash != b"/".as_slice() {
            return None;
        }
        ObjectId::of_parts(&join_digits(first, others), suffix)
    }

    /// The name of an object's file below the folder of the repository.
    pub fn file_name(&self, alloc: Global) -> Result<String, NoMemory>
        ensures { IfOk result (λ name. string_bytes name ≡ file_name self.now) }
    {
        let (first, others) = self.hash.split_at(1);
        let first = hex::encode(alloc, first)?;
        let others = hex::encode(alloc, others)?;
        name_of_parts(alloc, first.as_str(), others.as_str(), self.kind.suffix())
    }
}

/// The name of the file of an object, by its first two digits, the others and the suffix.
fn name_of_parts(alloc: Global, first: &str, others: &str, suffix: &str) -> Result<String, NoMemory>
    ensures { IfOk result (λ name. string_bytes name ≡ codes "data/" ++ first.now ++ codes "/" ++ others.now ++ suffix.now) }
{
    let mut name = String::from_str(alloc, "data/")?;
    name.push_str(first)?;
    name.push_str("/")?;
    name.push_str(others)?;
    name.push_str(suffix)?;
    Ok(name)
}

/// Forty digits, of which two stand apart.
fn join_digits(first: &[u8], others: &[u8]) -> [u8; 40]
    requires first { length first.now ≡ 2 }
    requires others { length others.now ≡ 38 }
    ensures { result ≡ first.now ++ others.now }
{
    let mut digits = [0u8; DIGEST_DIGITS];
    let (front, back) = digits.split_at_mut(2);
    front.copy_from_slice(first);
    back.copy_from_slice(others);
    digits
}
