//! Reading refusals.
ghost use Rattle.std.specs.Prelude.{◌≡◌, true, codes, IfOk};
ghost use Rattle.serde_json.specs.Find.{get};
ghost use Rattle.serde_json.specs.View.{view};
ghost use Rattle.cv_base.specs.Unless.{IsUnless};
ghost use Rattle.cv_messages.specs.MemberName.{is_named};
ghost use Rattle.cv_messages.specs.declared.message_fault.MessageFault.TheVariants as faults;
ghost use Rattle.cv_answers.specs.Refusal.{id_of, name_member, object_member, path_member, path_collision_in, damaged_in, plain_of, is_refusal, refusal_by, refusal_in};

use crate::reason::Reason;
use crate::refusal::Refusal;
use cv_base::{ObjectId, RepoPath};
use cv_messages::{Member, MessageFault, digest_member, number_member, text_member};
use serde_json::Value;
use std::alloc::Global;

/// The refusal that an object says.
pub(crate) fn read_refusal(alloc: Global, value: &Value) -> Result<Refusal, MessageFault>
    ensures says { IsUnless faults.NoMemory result (refusal_in (view value.now)) }
    ensures writable { IfOk result (λ refusal. is_refusal refusal ≡ true) }
{
    let reason = text_member(value, "reason", Member::Reason)?;
    read_reason(alloc, reason, value)
}

/// The refusal for this reason that an object says.
fn read_reason(alloc: Global, reason: &str, value: &Value) -> Result<Refusal, MessageFault>
    ensures says { IsUnless faults.NoMemory result (refusal_by reason.now (view value.now)) }
    ensures writable { IfOk result (λ refusal. is_refusal refusal ≡ true) }
{
    match reason {
        "missing_member" => Ok(Refusal::MissingMember(name_member(value)?)),
        "wrong_type" => Ok(Refusal::WrongType(name_member(value)?)),
        "bad_value" => Ok(Refusal::BadValue(name_member(value)?)),
        "collision" => Ok(Refusal::Collision(object_member(value)?)),
        "stale_base" => {
            let revision = number_member(value, "revision", Member::Other)?;
            Ok(Refusal::StaleBase { revision })
        }
        "missing_object" => Ok(Refusal::MissingObject(object_member(value)?)),
        "bad_catalogue" => Ok(Refusal::BadCatalogue(object_member(value)?)),
        "path_collision" => read_path_collision(alloc, value),
        "catalogue_full" => {
            let path = path_member(alloc, value, "path", Member::Path)?;
            Ok(Refusal::CatalogueFull(path))
        }
        "tag_taken" => {
            let revision = number_member(value, "revision", Member::Other)?;
            Ok(Refusal::TagTaken { revision })
        }
        "damaged" => read_damaged(value),
        _ => read_plain(reason),
    }
}

/// The refusal that is all said by the text of its reason.
fn read_plain(reason: &str) -> Result<Refusal, MessageFault>
    ensures says { IsUnless faults.NoMemory result (plain_of reason.now) }
    ensures writable { IfOk result (λ refusal. is_refusal refusal ≡ true) }
{
    match Reason::read(reason) {
        Some(reason) => Ok(Refusal::Plain(reason)),
        None => Err(MessageFault::BadValue(Member::Reason)),
    }
}

/// The two paths that have one key.
fn read_path_collision(alloc: Global, value: &Value) -> Result<Refusal, MessageFault>
    ensures says { IsUnless faults.NoMemory result (path_collision_in (view value.now)) }
    ensures writable { IfOk result (λ refusal. is_refusal refusal ≡ true) }
{
    let path = path_member(alloc, value, "path", Member::Path)?;
    let second = path_member(alloc, value, "second", Member::Other)?;
    Ok(Refusal::PathCollision { path, second })
}

/// The object that is damaged.
fn read_damaged(value: &Value) -> Result<Refusal, MessageFault>
    ensures says { result ≡ damaged_in (view value.now) }
    ensures writable { IfOk result (λ refusal. is_refusal refusal ≡ true) }
{
    let found = digest_member(value, "found", Member::Other)?;
    let object = object_member(value)?;
    Ok(Refusal::Damaged { object, found })
}

/// The member of a message that a refusal names.
fn name_member(value: &Value) -> Result<Member, MessageFault>
    ensures says { result ≡ name_member (get (codes "member") (view value.now)) }
    ensures named { IfOk result (λ name. is_named name ≡ true) }
{
    let text = text_member(value, "member", Member::Other)?;
    match Member::read(text) {
        Some(name) => Ok(name),
        None => Err(MessageFault::BadValue(Member::Other)),
    }
}

/// The object that a refusal names.
fn object_member(value: &Value) -> Result<ObjectId, MessageFault>
    ensures { result ≡ object_member (get (codes "object") (view value.now)) }
{
    let text = text_member(value, "object", Member::Other)?;
    id_in(text).ok_or(MessageFault::BadValue(Member::Other))
}

/// The id whose text a text is.
fn id_in(text: &str) -> Option<ObjectId>
    ensures { result ≡ id_of text.now }
{
    match ObjectId::read(text) {
        Some(id) => Some(id),
        None => None,
    }
}

/// The path of a member.
fn path_member(
    alloc: Global,
    value: &Value,
    key: &str,
    name: Member,
) -> Result<RepoPath, MessageFault>
    ensures { IsUnless faults.NoMemory result (path_member name (get key.now (view value.now))) }
{
    let text = text_member(value, key, name)?;
    match RepoPath::read(alloc, text) {
        Ok(path) => Ok(path),
        Err(fault) => {
            fault.unless_memory()?;
            Err(MessageFault::BadValue(name))
        }
    }
}
