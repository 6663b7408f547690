//! How a session ends.

use cv_http::HttpFault;

/// How a session over a connection ended.
#[derive(Clone, Copy, Debug, PartialEq, Eq)]
pub enum SessionEnd {
    /// The input ended where a request might begin.
    Clean,
    /// A request asked for the end, or was the last that a connection may have, and its reply was written.
    Closed,
    /// A request was refused and answered so, or the input ended inside one.
    Bad(HttpFault),
    /// The source failed.
    ReadFault,
    /// The sink failed.
    WriteFault,
    /// The gate's journal was full, and the reply that says so was written.
    JournalFull,
    /// There was no memory.
    NoMemory,
}
