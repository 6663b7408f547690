//! Limits of the table of leases.

/// The most leases at one time.
pub const LEASE_LIMIT: usize = 4096;
