//! Replies that were read.

use cv_base::Bytes;

/// A reply that a client read (RFC 9112, sections 4 and 6).
#[derive(Debug, Drop)]
pub struct HttpReply {
    /// The status code, below 1,000 and never 100.
    pub code: u16,
    /// The body, of at most 33,554,432 bytes.
    pub body: Bytes,
}
