//! A publisher: the exchanges by which a folder of changes becomes one revision.
#![tactic(auto)]

mod assembling;
mod copying;
mod fault;
mod fetching;
mod filling;
pub mod laws;
mod ordering;
mod plan;
mod publisher;
mod replies;
mod requests;
mod stage;
mod stepping;
mod want;
mod wanting;

pub use fault::PublishFault;
pub use publisher::Publisher;
pub use want::Want;
