//! The JSON messages that ask something of the gateway, and the members that messages and answers share.
#![tactic(auto)]

mod commit_ask;
mod lease_ask;
mod member;
mod members;
mod message_fault;
mod payload_ask;
mod spelled_members;
mod targets;

pub use commit_ask::CommitAsk;
pub use lease_ask::LeaseAsk;
pub use member::Member;
pub use members::{
    decimal_in, digest_member, number_member, size_member, text_member, token_member,
};
pub use message_fault::MessageFault;
pub use payload_ask::PayloadAsk;
pub use spelled_members::{with_digest, with_token};
pub use targets::{LEASE, LEASES, PAYLOADS};
