//! What stands behind the links of a dial.

use cv_base::NoMemory;
use std::alloc::Global;
use std::test::Fail;

/// What stands behind the links of a dial, and answers what they are sent.
pub(crate) trait Peer: Drop + Sized {
    /// A new one, at the first moment.
    fn new(alloc: Global) -> Result<Self, Fail>;

    /// Comes to a moment, so many seconds after the first.
    fn come_to(&mut self, seconds: u32);

    /// What it replies to these requests, which are all that a connection brings.
    fn reply(&mut self, requests: &[u8]) -> Result<Vec<u8>, NoMemory>;
}
