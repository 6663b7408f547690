//! Answers in words.

use cv_answers::{Answer, LeaseItem, Refusal};
use cv_base::{Text, digest_text};
use std::alloc::Global;
use std::test::Fail;

/// The live leases, each with a comma behind it.
fn leases(alloc: Global, items: &[LeaseItem]) -> Result<String, Fail> {
    let mut text = String::from_str(alloc, "leases")?;
    for item in items {
        let (key, path, remaining) = (item.key.as_str(), item.path.as_str(), item.remaining);
        text.push_str(format!(in alloc; " {key} on {path} for {remaining},")?.as_str())?;
    }
    Ok(text)
}

/// The names of repositories, each with a comma behind it.
fn names(alloc: Global, names: &[Text]) -> Result<String, Fail> {
    let mut text = String::from_str(alloc, "repositories")?;
    for name in names {
        let name = name.as_str();
        text.push_str(format!(in alloc; " {name},")?.as_str())?;
    }
    Ok(text)
}

/// A refusal that says its reason alone, or a member of the message.
fn of_message(alloc: Global, refusal: &Refusal) -> Result<String, Fail> {
    let (reason, member) = match refusal {
        Refusal::Plain(reason) => return Ok(String::from_str(alloc, reason.as_str())?),
        Refusal::MissingMember(member) => ("missing_member", member.as_str()),
        Refusal::WrongType(member) => ("wrong_type", member.as_str()),
        Refusal::BadValue(member) => ("bad_value", member.as_str()),
        _ => return Err(Fail::new("another refusal")),
    };
    Ok(format!(in alloc; "{reason} member={member}")?)
}

/// A refusal that names objects.
fn of_objects(alloc: Global, refusal: &Refusal) -> Result<String, Fail> {
    let (reason, object) = match refusal {
        Refusal::Collision(object) => ("collision", object.text(alloc)?),
        Refusal::MissingObject(object) => ("missing_object", object.text(alloc)?),
        Refusal::BadCatalogue(object) => ("bad_catalogue", object.text(alloc)?),
        Refusal::Damaged { object, found } => {
            let object = object.text(alloc)?;
            let found = digest_text(alloc, found)?;
            return Ok(format!(in alloc; "damaged found={found} object={object}")?);
        }
        _ => return of_message(alloc, refusal),
    };
    Ok(format!(in alloc; "{reason} object={object}")?)
}

/// A refusal in words: its reason, and the members that tell more.
fn of_refusal(alloc: Global, refusal: &Refusal) -> Result<String, Fail> {
    match refusal {
        Refusal::StaleBase { revision } => {
            Ok(format!(in alloc; "stale_base revision={revision}")?)
        }
        Refusal::TagTaken { revision } => Ok(format!(in alloc; "tag_taken revision={revision}")?),
        Refusal::PathCollision { path, second } => {
            let path = path.text(alloc)?;
            let second = second.text(alloc)?;
            Ok(format!(in alloc; "path_collision path={path} second={second}")?)
        }
        Refusal::CatalogueFull(path) => {
            let path = path.text(alloc)?;
            Ok(format!(in alloc; "catalogue_full path={path}")?)
        }
        _ => of_objects(alloc, refusal),
    }
}

/// An answer in words.
pub(crate) fn of_answer(alloc: Global, answer: &Answer) -> Result<String, Fail> {
    match answer {
        Answer::Granted {
            token,
            revision,
            root,
        } => {
            let token = token.text(alloc)?;
            let root = digest_text(alloc, root)?;
            Ok(format!(in alloc; "granted {token} {revision} {root}")?)
        }
        Answer::Done => Ok(String::from_str(alloc, "done")?),
        Answer::Committed { revision, root } => {
            let root = digest_text(alloc, root)?;
            Ok(format!(in alloc; "committed {revision} {root}")?)
        }
        Answer::Leases(items) => leases(alloc, items.as_slice()),
        Answer::Repos(items) => names(alloc, items.as_slice()),
        Answer::PathBusy { token, remaining } => {
            let token = token.text(alloc)?;
            Ok(format!(in alloc; "busy {token} {remaining}")?)
        }
        Answer::Refused(refusal) => of_refusal(alloc, refusal),
    }
}
