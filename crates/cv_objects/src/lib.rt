//! Objects under their ids, over a vault: a shelf to which batches are stored whole or not at all.
#![tactic(auto)]

mod batch;
mod fresh;
pub mod laws;
mod names;
mod objects;
mod places;
mod reading;
mod store_fault;
mod storing;

pub use objects::Objects;
pub use store_fault::StoreFault;
