//! Records of the history.
ghost use Rattle.std.specs.Prelude.{◌≡◌, ◌≤◌, ◌<◌, ◌^◌, ◌++◌, length, Ok, IfOk, OnOk};
ghost use Rattle.std.specs.Int.{w64, to_be_bytes};
ghost use Rattle.cv_base.specs.Digest.{IsDigest};
ghost use Rattle.cv_base.specs.Fields.{text_field};
ghost use Rattle.cv_base.specs.Unless.{IsUnless};
ghost use Rattle.cv_base.specs.declared.repo_path.TheConstants.{PATH_LIMIT};
ghost use Rattle.cv_history.specs.Reading.{record_of};
ghost use Rattle.cv_history.specs.declared.record.Record.{Record as Value};
ghost use Rattle.cv_history.specs.declared.record_fault.RecordFault.TheVariants as fault;

use crate::fields::bad;
use crate::front::{read_hash_of, read_revision, read_time, read_token};
use crate::record_fault::RecordFault;
use crate::texts::{read_key, read_path, read_tag};
use cv_base::{NoMemory, RepoPath, Target, Token, read_array};
use std::alloc::{AllocError, Global};

/// What the history keeps of one revision. An object of the history is the bytes of one record.
#[derive(Debug, Drop)]
pub struct Record {
    /// The revision, from 1 to 262,144.
    pub revision: u64,
    /// The SHA-1 of the bytes of the record before. Zero bytes in the first.
    pub previous: [u8; 20],
    /// The root hash of the revision.
    pub root: [u8; 20],
    /// The root hash that the publisher offered. In the first record it is the root itself.
    pub offered: [u8; 20],
    /// The token of the lease under which it was published. Zeros in the first record.
    pub token: Token,
    /// The path of that lease. The root in the first record.
    pub path: RepoPath,
    /// The id of the publisher's key, at most 255 bytes. Empty in the first record.
    pub key: Target,
    /// The moment of publication in seconds since the beginning of 1970 (UTC), below 2 to the 62nd.
    pub time: u64,
    /// The revision's tag, at most 255 bytes and no control bytes. Empty where there is none, and in the first record.
    pub tag: Target,
}

/// Writes a number of eight bytes.
fn push_u64(bytes: &mut Vec<u8>, number: u64) -> Result<(), AllocError>
    ensures { OnOk result (bytes.new.items ≡ bytes.old.items ++ to_be_bytes w64 number) }
{
    bytes.extend_from_slice(&number.to_be_bytes())?;
    Ok(())
}

/// Writes a hash.
fn push_hash(bytes: &mut Vec<u8>, hash: [u8; 20]) -> Result<(), AllocError>
    ensures bytes { OnOk result (bytes.new.items ≡ bytes.old.items ++ hash) }
    ensures digest { IsDigest hash }
{
    bytes.extend_from_slice(&hash)?;
    Ok(())
}

/// Writes a text behind its length.
fn push_text(bytes: &mut Vec<u8>, text: &[u8]) -> Result<(), AllocError>
    requires { length text.now ≤ PATH_LIMIT }
    ensures { OnOk result (bytes.new.items ≡ bytes.old.items ++ text_field text.now) }
{
    let size = text.len() as u16;
    bytes.extend_from_slice(&size.to_be_bytes())?;
    bytes.extend_from_slice(text)?;
    Ok(())
}

/// The record that bytes are, or their first fault.
#[tactic(auto, unfolding(crate::specs::Reading::record_of))]
fn read_record(alloc: Global, bytes: &[u8]) -> Result<Record, RecordFault>
    ensures { IsUnless fault.NoMemory result (record_of bytes.now) }
{
    let all = bytes.len();
    let (revision, rest) = read_revision(all, bytes)?;
    let first = revision == 1;
    let (previous, rest) = read_hash_of(all, first, &[0; 20], rest)?;
    let (root, rest) = read_array(RecordFault::BadRecord(all), rest)?;
    let (offered, rest) = read_hash_of(all, first, &root, rest)?;
    let (token, rest) = read_token(all, first, rest)?;
    let (path, rest) = read_path(alloc, all, first, rest)?;
    let (key, rest) = read_key(alloc, all, first, rest)?;
    let (time, rest) = read_time(all, rest)?;
    let (tag, rest) = read_tag(alloc, all, first, rest)?;
    if !rest.is_empty() {
        return Err(bad(all, rest));
    }
    Ok(Record {
        revision,
        previous,
        root,
        offered,
        token,
        path,
        key,
        time,
        tag,
    })
}

impl Record {
    ghost use Rattle.cv_history.specs.Record.{IsRecord, Spells};
    ghost use Rattle.cv_history.specs.ReadingInner.{front_bytes};

    /// The record that bytes spell.
    pub fn read(alloc: Global, bytes: &[u8]) -> Result<Record, RecordFault>
        ensures value { IfOk result (Spells bytes.now) }
        ensures found { (r : Value) → Spells bytes.now r → IsUnless fault.NoMemory result (Ok r) }
        ensures read { IsUnless fault.NoMemory result (record_of bytes.now) }
    {
        read_record(alloc, bytes)
    }

    /// The bytes that spell the record, whose fields are within their limits.
    pub fn write(&self, alloc: Global) -> Result<Vec<u8>, NoMemory>
        requires { IsRecord self.now }
        ensures { IfOk result (λ bytes. Spells bytes.items self.now) }
    {
        let path = self.path.text(alloc)?;
        let mut bytes = self.front(alloc)?;
        push_text(&mut bytes, path.as_bytes())?;
        push_text(&mut bytes, self.key.text().as_bytes())?;
        push_u64(&mut bytes, self.time)?;
        push_text(&mut bytes, self.tag.text().as_bytes())?;
        Ok(bytes)
    }

    /// The bytes of the fields before the texts.
    fn front(&self, alloc: Global) -> Result<Vec<u8>, AllocError>
        ensures bytes { IfOk result (λ bytes. bytes.items ≡ front_bytes self.now) }
        ensures digests { IfOk result (λ _. IsDigest self.now.previous × IsDigest self.now.root × IsDigest self.now.offered) }
        ensures token { IfOk result (λ _. (self.now.token.epoch < 2 ^ 64) × (self.now.token.number < 2 ^ 64)) }
    {
        let mut bytes = Vec::new(alloc);
        bytes.extend_from_slice(b"CVH1")?;
        push_u64(&mut bytes, self.revision)?;
        push_hash(&mut bytes, self.previous)?;
        push_hash(&mut bytes, self.root)?;
        push_hash(&mut bytes, self.offered)?;
        push_u64(&mut bytes, self.token.epoch)?;
        push_u64(&mut bytes, self.token.number)?;
        Ok(bytes)
    }
}
