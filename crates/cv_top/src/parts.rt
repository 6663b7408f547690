//! The outside of the program.

/// The outside of the program: what it reads and writes.
#[derive(Drop)]
pub struct Parts<V, R, W, E, C, F, N, H> {
    /// The files of the repository.
    pub vault: V,
    /// Where requests come from.
    pub input: R,
    /// Where replies go.
    pub output: W,
    /// Where the line on a status goes.
    pub errors: E,
    /// The time.
    pub clock: C,
    /// The text of the keys of those who may change the repository.
    pub keys: String,
    /// The text of the seal, by which manifests are signed.
    pub seal: String,
    /// Where the changes are that are published.
    pub folder: F,
    /// Where links to servers come from.
    pub dial: N,
    /// Where sessions are held.
    pub hold: H,
}
