//! The head of a reply.

/// What the head of a reply says (RFC 9112, sections 4 and 6).
#[derive(Debug, Drop)]
pub struct ReplyHead {
    /// The status code, below 1,000.
    pub code: u16,
    /// The Content-Length, in bytes.
    pub length: Option<u64>,
}
