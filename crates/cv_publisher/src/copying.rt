//! Equal answers.
ghost use Rattle.std.specs.Prelude.{◌≡◌, IfOk};

use cv_answers::{Answer, LeaseItem, Refusal};
use cv_base::{Items, NoMemory, Text};
use std::alloc::Global;

/// An equal refusal.
fn copy_refusal(alloc: Global, refusal: &Refusal) -> Result<Refusal, NoMemory>
    ensures { IfOk result (λ made. made ≡ refusal.now) }
{
    match refusal {
        Refusal::Plain(reason) => Ok(Refusal::Plain(*reason)),
        Refusal::MissingMember(member) => Ok(Refusal::MissingMember(*member)),
        Refusal::WrongType(member) => Ok(Refusal::WrongType(*member)),
        Refusal::BadValue(member) => Ok(Refusal::BadValue(*member)),
        Refusal::Collision(id) => Ok(Refusal::Collision(*id)),
        Refusal::StaleBase { revision } => Ok(Refusal::StaleBase {
            revision: *revision,
        }),
        Refusal::MissingObject(id) => Ok(Refusal::MissingObject(*id)),
        Refusal::BadCatalogue(id) => Ok(Refusal::BadCatalogue(*id)),
        Refusal::PathCollision { path, second } => Ok(Refusal::PathCollision {
            path: path.copy(alloc)?,
            second: second.copy(alloc)?,
        }),
        Refusal::CatalogueFull(path) => Ok(Refusal::CatalogueFull(path.copy(alloc)?)),
        Refusal::TagTaken { revision } => Ok(Refusal::TagTaken {
            revision: *revision,
        }),
        Refusal::Damaged { object, found } => Ok(Refusal::Damaged {
            object: *object,
            found: *found,
        }),
    }
}

/// Equal leases.
fn copy_leases(alloc: Global, leases: &[LeaseItem]) -> Result<Vec<LeaseItem>, NoMemory>
    ensures { IfOk result (λ made. made.items ≡ leases.now) }
{
    let mut made = Vec::new(alloc);
    for lease in leases {
        made.push(LeaseItem {
            key: lease.key.copy(alloc)?,
            path: lease.path.copy(alloc)?,
            remaining: lease.remaining,
        })?;
    }
    Ok(made)
}

/// Equal names.
fn copy_names(alloc: Global, names: &[Text]) -> Result<Vec<Text>, NoMemory>
    ensures { IfOk result (λ made. made.items ≡ names.now) }
{
    let mut made = Vec::new(alloc);
    for name in names {
        made.push(name.copy(alloc)?)?;
    }
    Ok(made)
}

/// An equal answer.
pub(crate) fn copy_answer(alloc: Global, answer: &Answer) -> Result<Answer, NoMemory>
    ensures { IfOk result (λ made. made ≡ answer.now) }
{
    match answer {
        Answer::Granted {
            token,
            revision,
            root,
        } => Ok(Answer::Granted {
            token: *token,
            revision: *revision,
            root: *root,
        }),
        Answer::Done => Ok(Answer::Done),
        Answer::Committed { revision, root } => Ok(Answer::Committed {
            revision: *revision,
            root: *root,
        }),
        Answer::Leases(leases) => {
            Ok(Answer::Leases(Items::new(copy_leases(alloc, leases.as_slice())?)))
        }
        Answer::Repos(names) => Ok(Answer::Repos(Items::new(copy_names(alloc, names.as_slice())?))),
        Answer::PathBusy { token, remaining } => Ok(Answer::PathBusy {
            token: *token,
            remaining: *remaining,
        }),
        Answer::Refused(refusal) => Ok(Answer::Refused(copy_refusal(alloc, refusal)?)),
    }
}
