//! The message of a payload.
ghost use Rattle.std.specs.Prelude.{◌≡◌, Ok, IfOk};
ghost use Rattle.serde_json.specs.View.{view};
ghost use Rattle.serde_json.specs.Written.{compact_text};
ghost use Rattle.cv_base.specs.Digest.{IsDigest};
ghost use Rattle.cv_base.specs.Unless.{IsUnless};
ghost use Rattle.cv_messages.specs.PayloadAsk.{payload_ask_data, payload_ask_members};
ghost use Rattle.cv_messages.specs.declared.message_fault.MessageFault.TheVariants as faults;

use crate::member::Member;
use crate::members::{digest_member, size_member, text_member};
use crate::message_fault::MessageFault;
use crate::spelled_members::with_digest;
use cv_base::{NoMemory, Text};
use cv_json::{read_object, with_number, with_text, write_object};
use serde_json::{Map, Value};
use std::alloc::Global;

/// Says of a pack that follows to which lease it belongs.
#[derive(Debug, Drop)]
pub struct PayloadAsk {
    /// The text of the lease's token.
    pub token: Text,
    /// The SHA-1 of the pack's header (FIPS 180-4).
    pub digest: [u8; 20],
    /// The bytes of the pack's header.
    pub header_size: u64,
}

/// The message that an object is.
fn read_members(alloc: Global, value: &Value) -> Result<PayloadAsk, MessageFault>
    ensures { IsUnless faults.NoMemory result (payload_ask_members (view value.now)) }
{
    let token = text_member(value, "session_token", Member::SessionToken)?;
    let digest = digest_member(value, "payload_digest", Member::Digest)?;
    let header_size = size_member(value, "header_size", Member::HeaderSize)?;
    let token = Text::from_str(alloc, token)?;
    Ok(PayloadAsk {
        token,
        digest,
        header_size,
    })
}

/// The message as JSON.
fn payload_ask_value(alloc: Global, ask: &PayloadAsk) -> Result<Value, NoMemory>
    ensures json { IfOk result (λ value. view value ≡ payload_ask_data ask.now) }
    ensures digest { IsDigest ask.now.digest }
{
    let members = with_digest(alloc, Map::new(alloc), "payload_digest", &ask.digest)?;
    let members = with_text(alloc, members, "session_token", ask.token.as_str())?;
    let members = with_number(alloc, members, "header_size", ask.header_size)?;
    Ok(Value::Object(members))
}

impl PayloadAsk {
    ghost use Rattle.cv_messages.specs.PayloadAsk.{payload_ask_data, payload_ask_of};

    /// The message that bytes are: a JSON object with the texts `session_token` and `payload_digest`, and `header_size`.
    pub fn read(alloc: Global, bytes: &[u8]) -> Result<PayloadAsk, MessageFault>
        ensures { IsUnless faults.NoMemory result (payload_ask_of bytes.now) }
    {
        let Some(value) = read_object(alloc, bytes)? else {
            return Err(MessageFault::NotJson);
        };
        read_members(alloc, &value)
    }

    /// The message as compact JSON. The header's size is a number.
    pub fn write(&self, alloc: Global) -> Result<Vec<u8>, NoMemory>
        ensures text { IfOk result (λ bytes. bytes.items ≡ compact_text (payload_ask_data self.now)) }
        ensures reads_back { IfOk result (λ bytes. payload_ask_of bytes.items ≡ Ok self.now) }
    {
        let value = payload_ask_value(alloc, self)?;
        write_object(alloc, &value)
    }
}
