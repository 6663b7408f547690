//! Targets of the gateway's interface.

/// The target of the leases: a list of them is got there, and a lease asked for.
pub const LEASES: &str = "/api/v1/leases";

/// The target of a lease, before the text of its token.
pub const LEASE: &str = "/api/v1/leases/";

/// The target of payloads.
pub const PAYLOADS: &str = "/api/v1/payloads";
