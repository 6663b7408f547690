//! Trees as texts, with which the tests of several crates begin.
#![tactic(auto)]

mod tree_text;

pub use tree_text::{Modes, file, tree_of};
