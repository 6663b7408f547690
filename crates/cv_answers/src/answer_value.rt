//! Answers as JSON values.
ghost use Rattle.std.specs.Prelude.{◌≡◌, map, codes, IfOk};
ghost use Rattle.cv_base.specs.Digest.{IsDigest};
ghost use Rattle.serde_json.specs.Data.{put, string, array, object, member, no_members};
ghost use Rattle.serde_json.specs.View.{view, items_view, members_view};
ghost use Rattle.cv_answers.specs.Answer.{granted_data, done_data, committed_data, lease_item_data, leases_data, repos_data, path_busy_data, answer_data};
ghost use Rattle.cv_messages.specs.Spelling.{IsToken};
ghost use Rattle.cv_answers.specs.AnswerTextInner.{IsWhole};

use crate::answer::Answer;
use crate::lease_item::LeaseItem;
use crate::refusal_value::refusal_value;
use cv_base::{NoMemory, Text, Token};
use cv_json::{Members, with_number, with_text, with_value};
use cv_messages::{with_digest, with_token};
use serde_json::{Map, Value};
use std::alloc::Global;

/// An answer as JSON.
pub(crate) fn answer_value(alloc: Global, answer: &Answer) -> Result<Value, NoMemory>
    ensures json { IfOk result (λ value. view value ≡ answer_data answer.now) }
    ensures whole { IfOk result (λ _. IsWhole answer.now) }
{
    match answer {
        Answer::Granted {
            token,
            revision,
            root,
        } => granted_value(alloc, *token, *revision, root),
        Answer::Done => done_value(alloc),
        Answer::Committed { revision, root } => committed_value(alloc, *revision, root),
        Answer::Leases(list) => leases_value(alloc, list.as_slice()),
        Answer::Repos(names) => repos_value(alloc, names.as_slice()),
        Answer::PathBusy { token, remaining } => path_busy_value(alloc, *token, *remaining),
        Answer::Refused(refusal) => refusal_value(alloc, refusal),
    }
}

/// A lease that was granted.
fn granted_value(
    alloc: Global,
    token: Token,
    revision: u64,
    root: &[u8; 20],
) -> Result<Value, NoMemory>
    ensures json { IfOk result (λ value. view value ≡ granted_data token revision root.now) }
    ensures token { IsToken token }
    ensures root { IsDigest root.now }
{
    let members = status_members(alloc, "ok")?;
    let members = with_token(alloc, members, "session_token", token)?;
    let members = with_digest(alloc, members, "root_hash", root)?;
    let members = with_number(alloc, members, "revision", revision)?;
    Ok(Value::Object(members))
}

/// What was done as asked.
fn done_value(alloc: Global) -> Result<Value, NoMemory>
    ensures { IfOk result (λ value. view value ≡ done_data) }
{
    let members = status_members(alloc, "ok")?;
    Ok(Value::Object(members))
}

/// A revision that was made.
fn committed_value(alloc: Global, revision: u64, root: &[u8; 20]) -> Result<Value, NoMemory>
    ensures json { IfOk result (λ value. view value ≡ committed_data revision root.now) }
    ensures root { IsDigest root.now }
{
    let members = status_members(alloc, "ok")?;
    let members = with_digest(alloc, members, "root_hash", root)?;
    let members = with_number(alloc, members, "final_revision", revision)?;
    Ok(Value::Object(members))
}

/// A live lease.
fn lease_item_value(alloc: Global, item: &LeaseItem) -> Result<Value, NoMemory>
    ensures { IfOk result (λ value. view value ≡ lease_item_data item.now) }
{
    let members = with_number(alloc, Map::new(alloc), "time_remaining", item.remaining)?;
    let members = with_text(alloc, members, "path", item.path.as_str())?;
    let members = with_text(alloc, members, "key_id", item.key.as_str())?;
    Ok(Value::Object(members))
}

/// The live leases, one after another.
fn lease_item_values(alloc: Global, items: &[LeaseItem]) -> Result<Vec<Value>, NoMemory>
    ensures { IfOk result (λ values. map view values.items ≡ map lease_item_data items.now) }
{
    let mut values = Vec::new(alloc);
    for item in items {
        let value = lease_item_value(alloc, item)?;
        values.push(value)?;
    }
    Ok(values)
}

/// Texts, one after another.
fn text_values(alloc: Global, texts: &[Text]) -> Result<Vec<Value>, NoMemory>
    ensures { IfOk result (λ values. map view values.items ≡ map string texts.now) }
{
    let mut values = Vec::new(alloc);
    for text in texts {
        let value = Value::try_from_str(alloc, text.as_str())?;
        values.push(value)?;
    }
    Ok(values)
}

/// A list under this name.
fn list_value(alloc: Global, name: &str, list: Vec<Value>) -> Result<Value, NoMemory>
    ensures { IfOk result (λ value. view value ≡ object (put name.now (array (items_view list.items)) (member (codes "status") (string (codes "ok")) no_members))) }
{
    let members = status_members(alloc, "ok")?;
    let members = with_value(alloc, members, name, Value::Array(list))?;
    Ok(Value::Object(members))
}

/// The live leases.
fn leases_value(alloc: Global, items: &[LeaseItem]) -> Result<Value, NoMemory>
    ensures { IfOk result (λ value. view value ≡ leases_data items.now) }
{
    let list = lease_item_values(alloc, items)?;
    list_value(alloc, "data", list)
}

/// The names of the repositories.
fn repos_value(alloc: Global, names: &[Text]) -> Result<Value, NoMemory>
    ensures { IfOk result (λ value. view value ≡ repos_data names.now) }
{
    let list = text_values(alloc, names)?;
    list_value(alloc, "repos", list)
}

/// A live lease that overlaps.
fn path_busy_value(alloc: Global, token: Token, remaining: u64) -> Result<Value, NoMemory>
    ensures json { IfOk result (λ value. view value ≡ path_busy_data token remaining) }
    ensures token { IsToken token }
{
    let members = status_members(alloc, "path_busy")?;
    let members = with_token(alloc, members, "lease", token)?;
    let members = with_number(alloc, members, "time_remaining", remaining)?;
    Ok(Value::Object(members))
}

/// The member `status`, and no other.
fn status_members(alloc: Global, status: &str) -> Result<Members, NoMemory>
    ensures { IfOk result (λ members. members_view members.entries ≡ member (codes "status") (string status.now) no_members) }
{
    with_text(alloc, Map::new(alloc), "status", status)
}
