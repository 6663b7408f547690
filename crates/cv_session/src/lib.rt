//! What the requests of a connection ask, and how they are answered.
#![tactic(auto)]

mod answering;
mod asked_op;
mod denial;
mod exchange;
mod find_turn;
pub mod laws;
mod payload;
mod request;
mod responding;
mod response;
mod serving;
mod session_end;
mod target;
mod turn;

pub use exchange::REQUEST_LIMIT;
pub use payload::MESSAGE_LIMIT;
pub use serving::session;
pub use session_end::SessionEnd;
