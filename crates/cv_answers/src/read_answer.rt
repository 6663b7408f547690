//! Reading answers.
ghost use Rattle.std.specs.Prelude.{◌≡◌, true, Ok, Err, map, is_some, IfOk, MatchResult};
ghost use Rattle.std.specs.Result.{result_map_both};
ghost use Rattle.serde_json.specs.Find.{get};
ghost use Rattle.serde_json.specs.View.{view};
ghost use Rattle.cv_base.specs.Unless.{IsUnless};
ghost use Rattle.cv_messages.specs.declared.message_fault.MessageFault.TheVariants as faults;
ghost use Rattle.cv_answers.specs.AnswerText.{is_answer, granted_in, committed_in, each_of, array_member, lease_item_in, leases_in, repo_in, repos_in, path_busy_in, ok_in, answer_in};

use crate::answer::Answer;
use crate::lease_item::LeaseItem;
use crate::read_refusal::read_refusal;
use cv_base::{Items, NoMemory, Text};
use cv_messages::{Member, MessageFault, digest_member, number_member, text_member, token_member};
use serde_json::Value;
use std::alloc::Global;

/// The answer that an object says.
pub(crate) fn read_answer(alloc: Global, value: &Value) -> Result<Answer, MessageFault>
    ensures says { IsUnless faults.NoMemory result (answer_in (view value.now)) }
    ensures writable { IfOk result (λ answer. is_answer answer ≡ true) }
{
    match text_member(value, "status", Member::Status)? {
        "ok" => read_ok(alloc, value),
        "path_busy" => read_path_busy(value),
        "error" => Ok(Answer::Refused(read_refusal(alloc, value)?)),
        _ => Err(MessageFault::BadValue(Member::Status)),
    }
}

/// Whether an object has a member of this name.
fn has_member(value: &Value, key: &str) -> bool
    ensures { result ≡ is_some (get key.now (view value.now)) }
{
    value.get(key).is_some()
}

/// The ok answer that an object says.
fn read_ok(alloc: Global, value: &Value) -> Result<Answer, MessageFault>
    ensures says { IsUnless faults.NoMemory result (ok_in (view value.now)) }
    ensures writable { IfOk result (λ answer. is_answer answer ≡ true) }
{
    if has_member(value, "session_token") {
        read_granted(value)
    } else if has_member(value, "final_revision") {
        read_committed(value)
    } else if has_member(value, "data") {
        read_leases(alloc, value)
    } else if has_member(value, "repos") {
        read_repos(alloc, value)
    } else {
        Ok(Answer::Done)
    }
}

/// The lease that was granted.
fn read_granted(value: &Value) -> Result<Answer, MessageFault>
    ensures says { result ≡ granted_in (view value.now) }
    ensures writable { IfOk result (λ answer. is_answer answer ≡ true) }
{
    let revision = number_member(value, "revision", Member::Other)?;
    let root = digest_member(value, "root_hash", Member::Other)?;
    let token = token_member(value, "session_token", Member::SessionToken)?;
    Ok(Answer::Granted {
        token,
        revision,
        root,
    })
}

/// The revision that was made.
fn read_committed(value: &Value) -> Result<Answer, MessageFault>
    ensures says { result ≡ committed_in (view value.now) }
    ensures writable { IfOk result (λ answer. is_answer answer ≡ true) }
{
    let revision = number_member(value, "final_revision", Member::Other)?;
    let root = digest_member(value, "root_hash", Member::Other)?;
    Ok(Answer::Committed { revision, root })
}

/// The live leases.
fn read_leases(alloc: Global, value: &Value) -> Result<Answer, MessageFault>
    ensures says { IsUnless faults.NoMemory result (leases_in (view value.now)) }
    ensures writable { IfOk result (λ answer. is_answer answer ≡ true) }
{
    let list = array_member(value, "data")?;
    let items = read_lease_items(alloc, list)?;
    Ok(Answer::Leases(Items::new(items)))
}

/// The array of a member.
fn array_member<'a>(value: &'a Value, key: &str) -> Result<&'a [Value], MessageFault>
    ensures { MatchResult result (λ list. array_member (get key.now (view value.now)) ≡ Ok (map view list.now))
        (λ fault. array_member (get key.now (view value.now)) ≡ Err fault) }
{
    let Some(member) = value.get(key) else {
        return Err(MessageFault::Missing(Member::Other));
    };
    match member.as_array() {
        Some(list) => Ok(list),
        None => Err(MessageFault::WrongType(Member::Other)),
    }
}

/// The leases that values say.
fn read_lease_items(alloc: Global, values: &[Value]) -> Result<Vec<LeaseItem>, MessageFault>
    ensures { IsUnless faults.NoMemory
        (result_map_both (λ items. items.items) (λ fault. fault) result)
        (each_of lease_item_in (map view values.now)) }
{
    let mut items = Vec::new(alloc);
    for value in values {
        let item = read_lease_item(alloc, value)?;
        items.push(item).map_err(NoMemory::from)?;
    }
    Ok(items)
}

/// The lease that a value says.
fn read_lease_item(alloc: Global, value: &Value) -> Result<LeaseItem, MessageFault>
    ensures { IsUnless faults.NoMemory result (lease_item_in (view value.now)) }
{
    if !value.is_object() {
        return Err(MessageFault::WrongType(Member::Other));
    }
    let key = text_member(value, "key_id", Member::Other)?;
    let path = text_member(value, "path", Member::Path)?;
    let remaining = number_member(value, "time_remaining", Member::Other)?;
    let item = lease_item(alloc, key, path, remaining)?;
    Ok(item)
}

/// The lease of these members.
fn lease_item(alloc: Global, key: &str, path: &str, remaining: u64) -> Result<LeaseItem, NoMemory>
    ensures { IfOk result (λ item. item ≡ record { key = key.now; path = path.now; remaining = remaining }) }
{
    let key = Text::from_str(alloc, key)?;
    let path = Text::from_str(alloc, path)?;
    Ok(LeaseItem {
        key,
        path,
        remaining,
    })
}

/// The names of the repositories.
fn read_repos(alloc: Global, value: &Value) -> Result<Answer, MessageFault>
    ensures says { IsUnless faults.NoMemory result (repos_in (view value.now)) }
    ensures writable { IfOk result (λ answer. is_answer answer ≡ true) }
{
    let list = array_member(value, "repos")?;
    let names = read_names(alloc, list)?;
    Ok(Answer::Repos(Items::new(names)))
}

/// The names that values say.
fn read_names(alloc: Global, values: &[Value]) -> Result<Vec<Text>, MessageFault>
    ensures { IsUnless faults.NoMemory
        (result_map_both (λ names. names.items) (λ fault. fault) result)
        (each_of repo_in (map view values.now)) }
{
    let mut names = Vec::new(alloc);
    for value in values {
        let name = read_name(alloc, value)?;
        names.push(name).map_err(NoMemory::from)?;
    }
    Ok(names)
}

/// The name that a value says.
fn read_name(alloc: Global, value: &Value) -> Result<Text, MessageFault>
    ensures { IsUnless faults.NoMemory result (repo_in (view value.now)) }
{
    let Some(name) = value.as_str() else {
        return Err(MessageFault::WrongType(Member::Other));
    };
    let name = Text::from_str(alloc, name)?;
    Ok(name)
}

/// The live lease that overlaps.
fn read_path_busy(value: &Value) -> Result<Answer, MessageFault>
    ensures says { result ≡ path_busy_in (view value.now) }
    ensures writable { IfOk result (λ answer. is_answer answer ≡ true) }
{
    let token = token_member(value, "lease", Member::Other)?;
    let remaining = number_member(value, "time_remaining", Member::Other)?;
    Ok(Answer::PathBusy { token, remaining })
}
