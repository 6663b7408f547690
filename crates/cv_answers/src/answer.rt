//! Answers of the gateway.
ghost use Rattle.std.specs.Prelude.{◌≡◌, true, Ok, IfOk};
ghost use Rattle.serde_json.specs.Written.{compact_text};
ghost use Rattle.cv_base.specs.Unless.{IsUnless};
ghost use Rattle.cv_messages.specs.declared.message_fault.MessageFault.TheVariants as faults;

use crate::answer_value::answer_value;
use crate::lease_item::LeaseItem;
use crate::read_answer::read_answer;
use crate::refusal::Refusal;
use cv_base::{Items, NoMemory, Text, Token};
use cv_json::{read_object, write_object};
use cv_messages::MessageFault;
use std::alloc::Global;

/// What the gateway answers to a request.
#[derive(Debug, Drop)]
pub enum Answer {
    /// The lease that was granted: its token, and the newest revision with its root's hash.
    Granted {
        token: Token,
        revision: u64,
        root: [u8; 20],
    },
    /// Done as asked.
    Done,
    /// The revision that was made, with its root's hash.
    Committed {
        revision: u64,
        root: [u8; 20],
    },
    /// The live leases.
    Leases(Items<LeaseItem>),
    /// The names of the repositories.
    Repos(Items<Text>),
    /// A live lease overlaps the path: its token, and the seconds until it ends.
    PathBusy {
        token: Token,
        remaining: u64,
    },
    /// Refused.
    Refused(Refusal),
}

impl Answer {
    ghost use Rattle.cv_answers.specs.Answer.{answer_data};
    ghost use Rattle.cv_answers.specs.AnswerText.{is_answer, answer_of};

    /// The answer that bytes say: a JSON object. Other members are passed over, and of a member that
    /// stands twice the last counts.
    pub fn read(alloc: Global, bytes: &[u8]) -> Result<Answer, MessageFault>
        ensures answer { IsUnless faults.NoMemory result (answer_of bytes.now) }

        // What was read can be written.
        ensures writable { IfOk result (λ answer. is_answer answer ≡ true) }
    {
        let Some(value) = read_object(alloc, bytes)? else {
            return Err(MessageFault::NotJson);
        };
        read_answer(alloc, &value)
    }

    /// The answer as compact JSON, with members in ascending order.
    pub fn write(&self, alloc: Global) -> Result<Vec<u8>, NoMemory>
        requires { is_answer self.now ≡ true }
        ensures text { IfOk result (λ bytes. bytes.items ≡ compact_text (answer_data self.now)) }
        ensures reads_back { IfOk result (λ bytes. answer_of bytes.items ≡ Ok self.now) }
    {
        let value = answer_value(alloc, self)?;
        write_object(alloc, &value)
    }
}
