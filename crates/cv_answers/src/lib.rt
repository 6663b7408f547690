//! The JSON answers of the gateway's interface.
#![tactic(auto)]

mod answer;
mod answer_value;
mod lease_item;
mod read_answer;
mod read_refusal;
mod reason;
mod refusal;
mod refusal_value;

pub use answer::Answer;
pub use lease_item::LeaseItem;
pub use reason::Reason;
pub use refusal::Refusal;
