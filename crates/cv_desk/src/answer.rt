//! What is answered.
ghost use Rattle.std.specs.Prelude.{◌≡◌, ◌≢◌, ◌⊎◌};
ghost use Rattle.cv_gate.specs.declared.reply.Reply.TheVariants as replies;
ghost use Rattle.cv_desk.specs.AnswersInner.{Tells};
ghost use Rattle.cv_desk.specs.Committing.{reply_at};
ghost use Rattle.cv_desk.specs.Refusals.{reply_then};
ghost use Rattle.cv_desk.specs.Sending.{reply_of, reply_in};
ghost use Rattle.cv_desk.specs.SendingInner.{reply_from};

use cv_base::{NoMemory, RepoPath};
use cv_cut::LoadFault;
use cv_gate::Reply;
use cv_graft::GraftFault;
use cv_leases::LeaseFault;
use cv_objects::StoreFault;
use cv_vault::VaultFault;
use std::alloc::Global;
use std::marker::Model;

/// What is answered to an op: once for the journal, and once for who asked.
#[derive(Drop)]
pub(crate) struct Answer {
    noted: Reply,
    told: Reply,
}

impl Model for Answer {
    ghost use Rattle.std.specs.Prelude.{◌≡◌, ◌≢◌};
    ghost use Rattle.cv_gate.specs.declared.reply.Reply.{Reply as Value_};
    ghost use Rattle.cv_gate.specs.declared.reply.Reply.TheVariants.{JournalFull};

    ghost Value = { Value_ };

    ghost view = { λ a. a.told };

    ghost invariant = { λ a. (a.noted ≡ a.told) × (a.told ≢ JournalFull) };
}

impl Answer {
    /// The answer of a reply that is given twice, and that isn't that of a full journal. `answer!` gives it so.
    pub(crate) fn of(noted: Reply, told: Reply) -> Answer
        requires same { noted ≡ told }
        requires never { told ≢ replies.JournalFull }
        ensures { result ≡ told }
    {
        Answer { noted, told }
    }

    /// The answer where the table refuses a lease so at a moment.
    pub(crate) fn of_lease(fault: LeaseFault, moment: u64) -> Answer
        ensures { result ≡ reply_then moment fault }
    {
        match fault {
            LeaseFault::BadPath => answer!(Reply::BadPath),
            LeaseFault::PathBusy { token, deadline } => {
                let remaining = deadline.saturating_sub(moment);
                answer!(Reply::PathBusy { token, remaining })
            },
            LeaseFault::TooManyLeases => answer!(Reply::TooManyLeases),
        }
    }

    /// The answer where the store answers this fault.
    pub(crate) fn of_store(fault: StoreFault) -> Answer
        ensures { result ≡ reply_of fault }
    {
        match fault {
            StoreFault::Collision(id) => answer!(Reply::Collision(id)),
            StoreFault::Failed => answer!(Reply::StoreFailed),
            StoreFault::Damaged { id, found } => answer!(Reply::Damaged { id, found }),
            StoreFault::NoMemory => answer!(Reply::NoMemory),
        }
    }

    /// The answer where the vault answers this fault.
    pub(crate) fn of_vault(fault: VaultFault) -> Answer
        ensures { result ≡ reply_in fault }
    {
        match fault {
            VaultFault::Failed => answer!(Reply::StoreFailed),
            VaultFault::NoMemory => answer!(Reply::NoMemory),
        }
    }

    /// The answer to who asks for a lease where a catalogue of the newest tree isn't read. One that isn't there, or is none,
    /// can't come about over a vault that stands for a state, and is answered as want of memory.
    pub(crate) fn of_load(fault: LoadFault) -> Answer
        ensures { result ≡ reply_from fault }
    {
        match fault {
            LoadFault::Missing(_) => answer!(Reply::NoMemory),
            LoadFault::Bad(_) => answer!(Reply::NoMemory),
            LoadFault::Failed => answer!(Reply::StoreFailed),
            LoadFault::Damaged { id, found } => answer!(Reply::Damaged { id, found }),
            LoadFault::NoMemory => answer!(Reply::NoMemory),
        }
    }

    /// The answer where the offered tree has this fault.
    pub(crate) fn of_offered(fault: LoadFault) -> Answer
        ensures { result ≡ reply_at fault }
    {
        match fault {
            LoadFault::Missing(id) => answer!(Reply::MissingObject(id)),
            LoadFault::Bad(id) => answer!(Reply::BadCatalogue(id)),
            LoadFault::Failed => answer!(Reply::StoreFailed),
            LoadFault::Damaged { id, found } => answer!(Reply::Damaged { id, found }),
            LoadFault::NoMemory => answer!(Reply::NoMemory),
        }
    }

    /// Two paths would have one key.
    fn of_paths(alloc: Global, first: RepoPath, second: RepoPath) -> Answer
        ensures { (result ≡ replies.PathCollision first second) ⊎ (result ≡ replies.NoMemory) }
    {
        let Ok(one) = first.copy(alloc) else {
            return answer!(Reply::NoMemory);
        };
        let Ok(other) = second.copy(alloc) else {
            return answer!(Reply::NoMemory);
        };
        let noted = Reply::PathCollision {
            first: one,
            second: other,
        };
        Answer::of(noted, Reply::PathCollision { first, second })
    }

    /// The catalogue of the directory at a path would pass its limits.
    fn of_cut(alloc: Global, path: RepoPath) -> Answer
        ensures { (result ≡ replies.CatalogueFull path) ⊎ (result ≡ replies.NoMemory) }
    {
        match path.copy(alloc) {
            Ok(copy) => Answer::of(Reply::CatalogueFull(copy), Reply::CatalogueFull(path)),
            Err(_) => answer!(Reply::NoMemory),
        }
    }

    /// The answer where a tree can't be grafted.
    pub(crate) fn of_graft(alloc: Global, fault: GraftFault) -> Answer
        ensures { Tells fault result }
    {
        match fault {
            GraftFault::PathCollision { first, second } => Answer::of_paths(alloc, first, second),
            GraftFault::CatalogueFull(path) => Answer::of_cut(alloc, path),
            GraftFault::Failed => answer!(Reply::StoreFailed),
            GraftFault::Damaged { id, found } => answer!(Reply::Damaged { id, found }),
            GraftFault::NoMemory => answer!(Reply::NoMemory),
        }
    }

    /// The reply for the journal, and that for who asked.
    pub(crate) fn into_parts(self) -> (Reply, Reply)
        ensures noted { result.0 ≡ self }
        ensures told { result.1 ≡ self }
        ensures never { self ≢ replies.JournalFull }
    {
        (self.noted, self.told)
    }
}

impl From<NoMemory> for Answer {
    ghost from_gives = { λ _ a. a ≡ replies.NoMemory };

    fn from(_fault: NoMemory) -> Answer {
        answer!(Reply::NoMemory)
    }
}
