//! Doubly linked lists by index inside an arena.
#![tactic(auto)]

mod arena;
mod chain;
mod facts;
mod id;
mod lane;
mod links;
mod node;

pub use arena::Arena;
pub use chain::Chain;
pub use facts::{a_new_chain_is_empty, an_id_has_one_list};
pub use id::Id;
pub use lane::Lane;
