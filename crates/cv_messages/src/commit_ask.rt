//! The message of a commit.
ghost use Rattle.std.specs.Prelude.{◌≡◌, true, codes, Ok, Err, IfOk, MatchResult};
ghost use Rattle.serde_json.specs.Find.{get};
ghost use Rattle.serde_json.specs.View.{view};
ghost use Rattle.serde_json.specs.Written.{compact_text};
ghost use Rattle.cv_base.specs.Digest.{IsDigest};
ghost use Rattle.cv_base.specs.Unless.{IsUnless};
ghost use Rattle.cv_messages.specs.CommitAsk.{is_tag, root_digits, root_member, tag_member, commit_ask_data, commit_ask_members};
ghost use Rattle.cv_messages.specs.declared.message_fault.MessageFault.TheVariants as faults;

use crate::member::Member;
use crate::members::{digest_in, text_member};
use crate::message_fault::MessageFault;
use crate::spelled_members::with_digest;
use cv_base::{DIGEST_DIGITS, NoMemory, TAG_LIMIT, Text, are_tag_bytes};
use cv_json::{read_object, with_text, write_object};
use serde_json::{Map, Value};
use std::alloc::Global;

/// Asks that the leased subtree be replaced by that of an offered tree.
#[derive(Debug, Drop)]
pub struct CommitAsk {
    /// The hash of the root catalogue on which the offered tree was made (SHA-1, FIPS 180-4).
    pub old_root: [u8; 20],
    /// The hash of the root catalogue of the offered tree.
    pub new_root: [u8; 20],
    /// The tag of the new revision, or nothing: at most 255 bytes, and no control bytes.
    pub tag: Text,
}

/// The digits of a root's text: all of it, but the letter of catalogues that may follow them.
fn root_digits(text: &[u8]) -> &[u8]
    ensures { result.now ≡ root_digits text.now }
{
    match text.split_at_checked(DIGEST_DIGITS) {
        Some((digits, suffix)) if suffix == b"C".as_slice() => digits,
        _ => text,
    }
}

/// The hash of a member that names a root catalogue.
fn root_member(value: &Value, key: &str, name: Member) -> Result<[u8; 20], MessageFault>
    ensures { result ≡ root_member name (get key.now (view value.now)) }
{
    let text = text_member(value, key, name)?;
    digest_in(root_digits(text.as_bytes())).ok_or(MessageFault::BadValue(name))
}

/// Whether a text is a tag's, or nothing.
fn is_tag(text: &str) -> bool
    ensures { result ≡ is_tag text.now }
{
    text.len() <= TAG_LIMIT && are_tag_bytes(text.as_bytes())
}

/// The tag. It is nothing where the member is lacking.
fn tag_member(value: &Value) -> Result<&str, MessageFault>
    ensures tag { MatchResult result (λ tag. tag_member (get (codes "tag_name") (view value.now)) ≡ Ok tag.now)
        (λ fault. tag_member (get (codes "tag_name") (view value.now)) ≡ Err fault) }
    ensures limit { IfOk result (λ tag. is_tag tag.now ≡ true) }
{
    let Some(member) = value.get("tag_name") else {
        return Ok("");
    };
    match member.as_str() {
        Some(tag) if is_tag(tag) => Ok(tag),
        Some(_) => Err(MessageFault::BadValue(Member::Tag)),
        None => Err(MessageFault::WrongType(Member::Tag)),
    }
}

/// The message that an object is.
fn read_members(alloc: Global, value: &Value) -> Result<CommitAsk, MessageFault>
    ensures reads { IsUnless faults.NoMemory result (commit_ask_members (view value.now)) }
    ensures tag { IfOk result (λ ask. is_tag ask.tag ≡ true) }
{
    let old_root = root_member(value, "old_root_hash", Member::OldRoot)?;
    let new_root = root_member(value, "new_root_hash", Member::NewRoot)?;
    let tag = tag_member(value)?;
    let tag = Text::from_str(alloc, tag)?;
    Ok(CommitAsk {
        old_root,
        new_root,
        tag,
    })
}

/// The message as JSON.
fn commit_ask_value(alloc: Global, ask: &CommitAsk) -> Result<Value, NoMemory>
    ensures json { IfOk result (λ value. view value ≡ commit_ask_data ask.now) }
    ensures digests { IfOk result (λ value. IsDigest ask.now.old_root × IsDigest ask.now.new_root) }
{
    let members = with_digest(alloc, Map::new(alloc), "old_root_hash", &ask.old_root)?;
    let members = with_digest(alloc, members, "new_root_hash", &ask.new_root)?;
    let members = with_text(alloc, members, "tag_name", ask.tag.as_str())?;
    Ok(Value::Object(members))
}

impl CommitAsk {
    ghost use Rattle.cv_messages.specs.CommitAsk.{is_tag, commit_ask_data, commit_ask_of};

    /// The message that bytes are: a JSON object with the texts `old_root_hash` and `new_root_hash`, 40 hex digits that a
    /// `C` may follow, and `tag_name`, which may be lacking.
    pub fn read(alloc: Global, bytes: &[u8]) -> Result<CommitAsk, MessageFault>
        ensures reads { IsUnless faults.NoMemory result (commit_ask_of bytes.now) }
        ensures tag { IfOk result (λ ask. is_tag ask.tag ≡ true) }
    {
        let Some(value) = read_object(alloc, bytes)? else {
            return Err(MessageFault::NotJson);
        };
        read_members(alloc, &value)
    }

    /// The message as compact JSON, with digits alone for the roots.
    pub fn write(&self, alloc: Global) -> Result<Vec<u8>, NoMemory>
        requires { is_tag self.now.tag ≡ true }
        ensures text { IfOk result (λ bytes. bytes.items ≡ compact_text (commit_ask_data self.now)) }
        ensures reads_back { IfOk result (λ bytes. commit_ask_of bytes.items ≡ Ok self.now) }
    {
        let value = commit_ask_value(alloc, self)?;
        write_object(alloc, &value)
    }
}
