//! Leases on subtrees of a repository, and the table of those that are live.
#![tactic(auto)]

mod lease;
mod lease_fault;
mod lease_table;
mod limits;
mod linked;
mod names;
mod queue;

pub use lease::Lease;
pub use lease_fault::LeaseFault;
pub use lease_table::LeaseTable;
pub use limits::LEASE_LIMIT;
