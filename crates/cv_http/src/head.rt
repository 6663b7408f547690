//! The head of a request.

use crate::method::Method;
use cv_base::Text;

/// What the head of a request says (RFC 9112, sections 2 to 6).
#[derive(Debug, Drop)]
pub struct RequestHead {
    pub method: Method,
    /// The target as it stands, in UTF-8.
    pub target: Text,
    /// The Content-Length, in bytes.
    pub length: Option<u64>,
    /// The client waits for `100 Continue` before it sends the body.
    pub expects: bool,
    /// The client asks that the connection be closed after the reply.
    pub last: bool,
    /// The value of Authorization. Empty where it stands twice or isn't UTF-8.
    pub authorization: Option<Text>,
    /// The value of Message-Size. Empty where it stands twice or isn't UTF-8.
    pub message_size: Option<Text>,
}
