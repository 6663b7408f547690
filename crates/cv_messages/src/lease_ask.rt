//! The message that asks for a lease.
ghost use Rattle.std.specs.Prelude.{◌≡◌, Ok, codes, IfOk};
ghost use Rattle.serde_json.specs.Data.{string, object, member, no_members};
ghost use Rattle.serde_json.specs.View.{view};
ghost use Rattle.serde_json.specs.Written.{compact_text};
ghost use Rattle.cv_base.specs.Unless.{IsUnless};
ghost use Rattle.cv_messages.specs.declared.message_fault.MessageFault.TheVariants as faults;

use crate::member::Member;
use crate::members::text_member;
use crate::message_fault::MessageFault;
use cv_base::{NoMemory, Text};
use cv_json::{read_object, with_text, write_object};
use serde_json::{Map, Value};
use std::alloc::Global;

/// Asks for a lease on a path.
#[derive(Debug, Drop)]
pub struct LeaseAsk {
    /// The repository's name, and behind it nothing, or the path's text.
    pub path: Text,
}

impl LeaseAsk {
    ghost use Rattle.cv_messages.specs.LeaseAsk.{lease_ask_data, lease_ask_of};

    /// The message that bytes are: a JSON object with the text `path`. Other members are passed over,
    /// and of a member that stands twice the last counts.
    pub fn read(alloc: Global, bytes: &[u8]) -> Result<LeaseAsk, MessageFault>
        ensures { IsUnless faults.NoMemory result (lease_ask_of bytes.now) }
    {
        let Some(value) = read_object(alloc, bytes)? else {
            return Err(MessageFault::NotJson);
        };
        let path = text_member(&value, "path", Member::Path)?;
        let path = Text::from_str(alloc, path)?;
        Ok(LeaseAsk { path })
    }

    /// The message as compact JSON.
    pub fn write(&self, alloc: Global) -> Result<Vec<u8>, NoMemory>
        ensures text { IfOk result (λ bytes. bytes.items ≡ compact_text (lease_ask_data self.now)) }
        ensures reads_back { IfOk result (λ bytes. lease_ask_of bytes.items ≡ Ok self.now) }
    {
        let value = lease_ask_value(alloc, self.path.as_str())?;
        write_object(alloc, &value)
    }
}

/// The message as JSON.
fn lease_ask_value(alloc: Global, path: &str) -> Result<Value, NoMemory>
    ensures { IfOk result (λ value. view value ≡ object (member (codes "path") (string path.now) no_members)) }
{
    let members = with_text(alloc, Map::new(alloc), "path", path)?;
    Ok(Value::Object(members))
}
