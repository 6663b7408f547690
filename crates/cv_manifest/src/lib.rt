//! The manifest of a repository: its newest head under a seal, both ways.
#![tactic(auto)]

mod field;
mod fields;
mod head;
pub mod laws;
mod line;
mod manifest;
mod manifest_fault;
mod parts;
mod values;

pub use head::Head;
pub use manifest::{MANIFEST_NAME, Manifest, TIME_TO_LIVE};
pub use manifest_fault::ManifestFault;
