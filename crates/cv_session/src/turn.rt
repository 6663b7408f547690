//! What a request asks.

use crate::target::Resource;
use cv_answers::Refusal;
use cv_gate::Op;
use cv_http::Code;

/// What a request asks of a repository and its gate.
#[derive(Debug, Drop)]
pub(crate) enum Turn {
    /// A resource of the repository.
    Serve(Resource),
    /// The names of the repositories.
    Repositories,
    /// The live leases.
    Leases,
    /// A step of the gate.
    Step(Op),
    /// Something that the interface refuses without a step.
    Deny(Refusal),
    /// Nothing that there is: the code says why.
    Refuse(Code),
}
