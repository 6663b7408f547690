//! Bytes, sources and sinks by the words of a line, in which the tables of several crates' tests have them.
#![tactic(auto)]

mod line;
mod streams;

pub use line::{bytes_of, line_of};
pub use streams::{sink_of, source_of};
