//! The words of the command line.
#![tactic(auto)]

mod program;
mod words;

pub use words::{Command, WordsFault, read_words};
