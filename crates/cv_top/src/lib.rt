//! The program cvkit over any outside.
#![tactic(auto)]

mod client_fault;
mod init;
mod limits;
mod look;
mod parts;
mod print;
mod program;
mod publish;
mod publish_fault;
mod seal;
mod shell;
mod status;
mod stdio;

pub use client_fault::{LookFault, ServedFault};
pub use parts::Parts;
pub use program::run;
pub use publish_fault::{ChangesFault, RefusedFor};
pub use status::{RepositoryFault, Status};
