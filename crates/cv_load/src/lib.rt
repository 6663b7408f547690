//! The tree that a hash means on a shelf.
#![tactic(auto)]

mod checking;
mod files;
mod known_set;
pub mod laws;
mod loading;
mod placing;

pub use checking::whole;
pub use known_set::KnownSet;
pub use loading::load;
pub use placing::node_of;
