//! The line of a repository's revisions: its head, its records and its epoch, over a vault.
#![tactic(auto)]

mod first;
mod found;
mod init;
mod init_fault;
pub mod laws;
mod line;
mod making;
mod open_fault;
mod opening;
mod publishing;
mod stage;

pub use first::first_parts;
pub use found::Found;
pub use init_fault::InitFault;
pub use line::Line;
pub use making::Parts;
pub use open_fault::OpenFault;
pub use stage::Stage;
