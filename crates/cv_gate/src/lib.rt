//! The gate: a machine of leases, payloads and commits.
#![tactic(auto)]

mod act;
mod desk;
pub mod desk_laws;
mod entry;
pub mod laws;
mod lease_line;
mod op;
mod reply;

pub use act::Act;
pub use desk::Desk;
pub use entry::{Entry, JOURNAL_LIMIT};
pub use lease_line::{LEASE_TIME, LeaseLine};
pub use op::Op;
pub use reply::Reply;
