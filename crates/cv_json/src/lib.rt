//! JSON objects (RFC 8259): read whole, written compactly, and made member by member.
#![tactic(auto)]

mod object_members;
mod object_text;

pub use object_members::{Members, with_number, with_text, with_value};
pub use object_text::{read_object, write_object};
