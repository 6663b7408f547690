//! What a publisher wants.

use crate::fault::PublishFault;
use cv_http::Outgoing;

/// What a publisher wants.
#[derive(Debug, Drop)]
pub enum Want {
    /// That this request be sent, and its reply be given to the publisher.
    Exchange(Outgoing),
    /// Nothing: it published this revision, or didn't.
    Done(Result<u64, PublishFault>),
}
