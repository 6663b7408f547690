//! A commit that waits to be ended.
use cv_base::{Text, Token};
use cv_gate::Act;

/// A commit that is ready and waits to be ended, as the journal will note it, and the token of its lease.
#[derive(Drop)]
pub(crate) struct Waiting {
    pub(crate) seat: u32,
    pub(crate) now: u64,
    pub(crate) key: Text,
    pub(crate) act: Act,
    pub(crate) token: Token,
}
