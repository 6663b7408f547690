//! How far the next revision is.

/// How far the next revision is.
#[derive(Clone, Copy, Debug, PartialEq, Eq)]
pub enum Stage {
    /// There is none.
    Calm,
    /// All of it is in the vault but its head, whose file is on its way.
    Ready,
    /// Its head may have come or not.
    Doubtful,
}
