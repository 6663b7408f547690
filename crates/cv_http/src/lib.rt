//! HTTP/1.x on a stream: requests in and replies out, and for a client requests out and replies in.
#![tactic(auto)]

mod body_kind;
mod buffer;
mod code;
mod fault;
mod field_faults;
mod fields;
mod head;
mod head_end;
mod head_parts;
mod http_reply;
mod judge;
mod judge_reply;
mod judge_request;
mod judgement;
pub mod laws;
mod method;
mod outgoing;
mod reply;
mod reply_head;
mod values;
mod verb;
mod wire;

pub use body_kind::BodyKind;
pub use buffer::{Buffer, FillFault, PIECE};
pub use code::{Code, NOT_FOUND, OK};
pub use fault::HttpFault;
pub use field_faults::FIELD_LIMIT;
pub use head::RequestHead;
pub use http_reply::HttpReply;
pub use judge::HEAD_LIMIT;
pub use method::Method;
pub use outgoing::{Outgoing, request_for_file, write_request};
pub use reply::{SendFault, write_continue, write_reply};
pub use verb::Verb;
pub use wire::{BODY_LIMIT, INTERIM_LIMIT, Wire};
