//! What replies say.
ghost use Rattle.std.specs.Prelude.{◌≡◌, IfOk};
ghost use Rattle.cv_publisher.specs.Replies.{answer_in, fault_in, served_in};

use crate::fault::PublishFault;
use cv_answers::Answer;
use cv_base::{Bytes, NoMemory};
use cv_http::{HttpReply, NOT_FOUND, OK};
use cv_messages::MessageFault;
use std::alloc::Global;

/// The answer of the gateway that a reply has, if it has one.
pub(crate) fn answer_in(alloc: Global, reply: &HttpReply) -> Result<Option<Answer>, NoMemory>
    ensures { IfOk result (λ found. found ≡ answer_in reply.now) }
{
    if reply.code != OK {
        return Ok(None);
    }
    match Answer::read(alloc, reply.body.as_slice()) {
        Ok(answer) => Ok(Some(answer)),
        Err(MessageFault::NoMemory) => Err(NoMemory),
        Err(_) => Ok(None),
    }
}

/// The fault of a reply that isn't the answer that was asked for.
pub(crate) fn fault_in(answer: Option<Answer>) -> PublishFault
    ensures { result ≡ fault_in answer }
{
    match answer {
        Some(Answer::PathBusy { token, remaining }) => {
            PublishFault::Refused(Answer::PathBusy { token, remaining })
        }
        Some(Answer::Refused(refusal)) => PublishFault::Refused(Answer::Refused(refusal)),
        _ => PublishFault::BadReply,
    }
}

/// The object that a reply has, or that there is none. `None` where it says neither.
pub(crate) fn served_in(reply: HttpReply) -> Option<Option<Bytes>>
    ensures { result ≡ served_in reply }
{
    if reply.code == OK {
        Some(Some(reply.body))
    } else if reply.code == NOT_FOUND {
        Some(None)
    } else {
        None
    }
}
