//! What the beginning of an op comes to.
use cv_gate::Reply;
use cv_manifest::Head;

/// What the beginning of an op comes to.
#[derive(Drop)]
pub enum Begun {
    /// It is over, and this is its reply.
    Done(Reply),
    /// It is a commit that is ready: this head is to be published.
    Ready(Head),
}
