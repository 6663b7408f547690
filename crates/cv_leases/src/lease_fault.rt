//! Why a lease isn't granted.

use cv_base::Token;

/// Why a lease isn't granted. Where several of these hold, the first of them is told.
#[derive(Clone, Copy, Debug, PartialEq, Eq)]
pub enum LeaseFault {
    /// The last name of the path is that of the file which marks nested catalogues.
    BadPath,
    /// A lease on this path, above it or below it is live. Of several, the one granted last is named, with its deadline.
    PathBusy { token: Token, deadline: u64 },
    /// As many leases are live as can be.
    TooManyLeases,
}
