//! What comes of sending objects.
ghost use Rattle.std.specs.Prelude.{◌≡◌, []};
ghost use Rattle.cv_desk.specs.SendingInner.{is_refusal};
ghost use Rattle.cv_desk.specs.SentInner.{sent_by};

use crate::answer::Answer;
use cv_base::{Items, ObjectId};
use cv_gate::Reply;
use cv_objects::StoreFault;
use std::alloc::Global;

/// What comes of sending objects, and the ids of those that the repository lacked: none where a refusal or a fault came
/// before they were known.
#[derive(Drop)]
pub(crate) struct Sent {
    pub(crate) answer: Answer,
    pub(crate) fresh: Items<ObjectId>,
}

impl Sent {
    /// No object came.
    pub(crate) fn none(alloc: Global, answer: Answer) -> Sent
        ensures { result ≡ record { answer = answer; fresh = [] } }
    {
        Sent {
            answer,
            fresh: Items::new(Vec::new(alloc)),
        }
    }

    /// What comes of it where these ids were found fresh and the store answered so.
    pub(crate) fn by(alloc: Global, fresh: Vec<ObjectId>, stored: Result<(), StoreFault>) -> Sent
        ensures { result ≡ sent_by fresh.items stored }
    {
        match stored {
            Ok(()) => Sent {
                answer: answer!(Reply::Stored),
                fresh: Items::new(fresh),
            },
            Err(fault) if is_refusal(fault) => Sent::none(alloc, Answer::of_store(fault)),
            Err(fault) => Sent {
                answer: Answer::of_store(fault),
                fresh: Items::new(fresh),
            },
        }
    }
}

/// Whether the fault refuses the batch.
fn is_refusal(fault: StoreFault) -> bool
    ensures { result ≡ is_refusal fault }
{
    matches!(fault, StoreFault::Collision(_) | StoreFault::Damaged { .. })
}
