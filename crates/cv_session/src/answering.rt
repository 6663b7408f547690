//! How the gate's replies and lists are answered.
ghost use Rattle.std.specs.Prelude.{◌≡◌, IfOk, true, map};
ghost use Rattle.cv_answers.specs.AnswerText.{is_answer};
ghost use Rattle.cv_session.specs.Answers.{answer_of, refused, item_of, leases_answer, repositories_answer};

use cv_answers::{Answer, LeaseItem, Reason, Refusal};
use cv_base::{Items, Name, NoMemory, Text};
use cv_gate::{LeaseLine, Reply};
use std::alloc::Global;

/// The answer to a reply of the gate. It takes no memory.
pub(crate) fn answer_reply(reply: Reply) -> Answer
    ensures answer { result ≡ answer_of reply }
    ensures writable { is_answer result ≡ true }
{
    match reply {
        Reply::Granted {
            token,
            revision,
            root,
        } => Answer::Granted {
            token,
            revision,
            root,
        },
        Reply::Stored | Reply::Cancelled => Answer::Done,
        Reply::Committed { revision, root } => Answer::Committed { revision, root },
        Reply::BadPath => refused(Reason::BadPath),
        Reply::PathBusy { token, remaining } => Answer::PathBusy { token, remaining },
        Reply::TooManyLeases => refused(Reason::TooManyLeases),
        Reply::NoParent => refused(Reason::NoParent),
        Reply::InvalidToken => refused(Reason::InvalidToken),
        Reply::WrongKey => refused(Reason::WrongKey),
        Reply::Collision(object) => Answer::Refused(Refusal::Collision(object)),
        Reply::StaleBase { revision } => Answer::Refused(Refusal::StaleBase { revision }),
        Reply::MissingObject(object) => Answer::Refused(Refusal::MissingObject(object)),
        Reply::BadCatalogue(object) => Answer::Refused(Refusal::BadCatalogue(object)),
        Reply::PathCollision { first, second } => Answer::Refused(Refusal::PathCollision {
            path: first,
            second,
        }),
        Reply::CatalogueFull(path) => Answer::Refused(Refusal::CatalogueFull(path)),
        Reply::TagTaken { revision } => Answer::Refused(Refusal::TagTaken { revision }),
        Reply::StoreFailed => refused(Reason::StoreFailed),
        Reply::Damaged { id, found } => Answer::Refused(Refusal::Damaged { object: id, found }),
        Reply::JournalFull => refused(Reason::JournalFull),
        Reply::NoMemory => refused(Reason::NoMemory),
        Reply::RevisionsFull => refused(Reason::RevisionsFull),
    }
}

/// A refusal that says its reason alone.
fn refused(reason: Reason) -> Answer
    ensures { result ≡ refused reason }
{
    Answer::Refused(Refusal::Plain(reason))
}

/// The answer that lists the live leases of the repository, in the order of grant.
pub(crate) fn list_leases(
    alloc: Global,
    repository: &Name,
    lines: &[LeaseLine],
) -> Result<Answer, NoMemory>
    ensures { IfOk result (λ answer. answer ≡ leases_answer repository.now lines.now) }
{
    let items = lease_items(alloc, repository.text(), lines)?;
    Ok(Answer::Leases(Items::new(items)))
}

/// The items of live leases.
fn lease_items(
    alloc: Global,
    repository: &str,
    lines: &[LeaseLine],
) -> Result<Vec<LeaseItem>, NoMemory>
    ensures { IfOk result (λ items. items.items ≡ map (item_of repository.now) lines.now) }
{
    let mut items = Vec::new(alloc);
    for line in lines {
        let item = lease_item(alloc, repository, line)?;
        items.push(item)?;
    }
    Ok(items)
}

/// A live lease as it is listed.
fn lease_item(alloc: Global, repository: &str, line: &LeaseLine) -> Result<LeaseItem, NoMemory>
    ensures { IfOk result (λ item. item ≡ item_of repository.now line.now) }
{
    let path = line.path.text(alloc)?;
    let mut text = String::from_str(alloc, repository)?;
    text.push_str(path.as_str())?;
    Ok(LeaseItem {
        key: line.key.copy(alloc)?,
        path: Text::new(text),
        remaining: line.remaining,
    })
}

/// The answer that lists the one repository.
pub(crate) fn list_repositories(alloc: Global, repository: &Name) -> Result<Answer, NoMemory>
    ensures { IfOk result (λ answer. answer ≡ repositories_answer repository.now) }
{
    let name = Text::from_str(alloc, repository.text())?;
    let mut names = Vec::new(alloc);
    names.push(name)?;
    Ok(Answer::Repos(Items::new(names)))
}
