//! A subtree of one tree in the place of another's, by the catalogues on the way alone.
#![tactic(auto)]

mod coming;
mod directories;
mod graft_fault;
mod grafted;
mod grafting;
mod joining;
pub mod laws;
mod made;
mod placing;
mod rebuilding;
mod setting;
mod way;

pub use directories::directory_at;
pub use graft_fault::GraftFault;
pub use grafted::Grafted;
pub use grafting::graft;
pub use setting::place;
