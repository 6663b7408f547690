//! Refusals as JSON values.
ghost use Rattle.std.specs.Prelude.{◌≡◌, IfOk};
ghost use Rattle.cv_base.specs.Digest.{IsDigest};
ghost use Rattle.cv_base.specs.Path.{text_of};
ghost use Rattle.serde_json.specs.Data.{put, string};
ghost use Rattle.serde_json.specs.View.{view, members_view};
ghost use Rattle.cv_answers.specs.Refusal.{reason_members, member_members, object_members, revision_members, path_collision_members, refusal_members, refusal_data};
ghost use Rattle.cv_answers.specs.RefusalInner.{IsSaidByText, IsWholeRefusal};

use crate::refusal::Refusal;
use cv_base::{NoMemory, ObjectId, RepoPath};
use cv_json::{Members, with_number, with_text};
use cv_messages::{Member, with_digest};
use serde_json::{Map, Value};
use std::alloc::Global;

/// A refusal as JSON.
pub(crate) fn refusal_value(alloc: Global, refusal: &Refusal) -> Result<Value, NoMemory>
    ensures json { IfOk result (λ value. view value ≡ refusal_data refusal.now) }
    ensures whole { IfOk result (λ _. IsWholeRefusal refusal.now) }
{
    let members = refusal_members(alloc, refusal)?;
    Ok(Value::Object(members))
}

/// The members of a refusal.
fn refusal_members(alloc: Global, refusal: &Refusal) -> Result<Members, NoMemory>
    ensures json { IfOk result (λ members. members_view members.entries ≡ refusal_members refusal.now) }
    ensures whole { IfOk result (λ _. IsWholeRefusal refusal.now) }
{
    match refusal {
        Refusal::Plain(reason) => reason_members(alloc, reason.as_str()),
        Refusal::MissingMember(name) => member_members(alloc, "missing_member", *name),
        Refusal::WrongType(name) => member_members(alloc, "wrong_type", *name),
        Refusal::BadValue(name) => member_members(alloc, "bad_value", *name),
        Refusal::Collision(object) => object_members(alloc, "collision", *object),
        Refusal::StaleBase { revision } => revision_members(alloc, "stale_base", *revision),
        Refusal::MissingObject(object) => object_members(alloc, "missing_object", *object),
        Refusal::BadCatalogue(object) => object_members(alloc, "bad_catalogue", *object),
        Refusal::PathCollision { path, second } => path_collision_members(alloc, path, second),
        Refusal::CatalogueFull(path) => {
            let members = reason_members(alloc, "catalogue_full")?;
            with_path(alloc, members, "path", path)
        }
        Refusal::TagTaken { revision } => revision_members(alloc, "tag_taken", *revision),
        Refusal::Damaged { object, found } => {
            let members = object_members(alloc, "damaged", *object)?;
            with_digest(alloc, members, "found", found)
        }
    }
}

/// The members of a refusal for this reason.
fn reason_members(alloc: Global, reason: &str) -> Result<Members, NoMemory>
    ensures { IfOk result (λ members. members_view members.entries ≡ reason_members reason.now) }
{
    let members = with_text(alloc, Map::new(alloc), "status", "error")?;
    with_text(alloc, members, "reason", reason)
}

/// Those of one that names a member of the message.
fn member_members(alloc: Global, reason: &str, name: Member) -> Result<Members, NoMemory>
    ensures { IfOk result (λ members. members_view members.entries ≡ member_members reason.now name) }
{
    let members = reason_members(alloc, reason)?;
    with_text(alloc, members, "member", name.as_str())
}

/// Those of one that names an object.
fn object_members(alloc: Global, reason: &str, object: ObjectId) -> Result<Members, NoMemory>
    ensures json { IfOk result (λ members. members_view members.entries ≡ object_members reason.now object) }
    ensures digest { IsDigest object.hash }
{
    let members = reason_members(alloc, reason)?;
    let text = object.text(alloc)?;
    with_text(alloc, members, "object", text.as_str())
}

/// Those of one that names a revision.
fn revision_members(alloc: Global, reason: &str, revision: u64) -> Result<Members, NoMemory>
    ensures { IfOk result (λ members. members_view members.entries ≡ revision_members reason.now revision) }
{
    let members = reason_members(alloc, reason)?;
    with_number(alloc, members, "revision", revision)
}

/// Those of one for two paths.
fn path_collision_members(
    alloc: Global,
    path: &RepoPath,
    second: &RepoPath,
) -> Result<Members, NoMemory>
    ensures json { IfOk result (λ members. members_view members.entries ≡ path_collision_members path.now second.now) }
    ensures whole { IfOk result (λ _. IsSaidByText path.now × IsSaidByText second.now) }
{
    let members = reason_members(alloc, "path_collision")?;
    let members = with_path(alloc, members, "path", path)?;
    with_path(alloc, members, "second", second)
}

/// The members with a path's text more.
fn with_path(
    alloc: Global,
    members: Members,
    name: &str,
    path: &RepoPath,
) -> Result<Members, NoMemory>
    ensures json { IfOk result (λ more. members_view more.entries ≡ put name.now (string (text_of path.now)) (members_view members.entries)) }
    ensures whole { IfOk result (λ _. IsSaidByText path.now) }
{
    let text = path.text(alloc)?;
    with_text(alloc, members, name, text.as_str())
}
