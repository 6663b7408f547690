//! Object packs: objects on their way to the repository, one file for many, both ways.
#![tactic(auto)]

mod add_fault;
mod contents_reader;
mod digits;
mod entries;
mod entry;
mod field;
mod header_reader;
mod pack;
mod pack_fault;
mod pack_reader;
mod pack_writer;

pub use add_fault::AddFault;
pub use header_reader::{COUNT_LIMIT, HEADER_LIMIT, TOTAL_LIMIT};
pub use pack::Pack;
pub use pack_fault::PackFault;
pub use pack_reader::PackReader;
pub use pack_writer::PackWriter;
