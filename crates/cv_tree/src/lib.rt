//! The published tree of a repository, as a map from paths to nodes.
#![tactic(auto)]

mod joined;
mod node;
mod node_map;
mod part;
mod tree;
mod tree_fault;

pub use joined::parent;
pub use node::{FileRef, Node};
pub use part::Part;
pub use tree::Tree;
pub use tree_fault::TreeFault;
