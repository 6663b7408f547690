//! Where a session may be held.

/// A point that a session reaches.
#[derive(Clone, Copy, Debug, PartialEq, Eq)]
pub enum Point {
    /// A payload was read and checked, and the gate isn't asked to store it yet.
    PayloadRead,
    /// The reply to a request for a lease was written.
    LeaseAnswered,
}

/// Holds sessions at their points, so that a test can fix the order in which two of them go on. It can't fail, and no answer
/// depends on it.
pub trait Hold {
    /// A session is at the point, and goes on when the call returns.
    fn at(&self, point: Point);
}

/// Holds no session.
#[derive(Clone, Copy, Debug)]
pub struct NoHold;

impl Hold for NoHold {
    fn at(&self, _point: Point) {}
}
