//! The history of a repository: records of its revisions, each of which names its predecessor.
#![tactic(auto)]

mod chain_fault;
mod fields;
mod front;
mod history;
pub mod laws;
mod record;
mod record_fault;
mod texts;

pub use chain_fault::ChainFault;
pub use history::chain;
pub use record::Record;
pub use record_fault::RecordFault;
