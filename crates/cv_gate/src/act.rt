//! What the journal keeps of what was asked.

use cv_base::{Items, ObjectId, RepoPath, Text, Token};

/// What the journal keeps of an op, without its key and without the bytes of objects.
#[derive(Debug, Drop)]
pub enum Act {
    /// A lease was asked on a path.
    Lease(RepoPath),
    /// Objects were sent.
    Store {
        /// Under this lease.
        token: Token,
        /// In a pack with a header of this SHA-1.
        digest: [u8; 20],
        /// The ids of those that the repository lacked. None where a refusal or a fault came before they were known.
        fresh: Items<ObjectId>,
    },
    /// A commit was asked.
    Commit {
        /// Under this lease.
        token: Token,
        /// Of a tree that was made on this root.
        old_root: [u8; 20],
        /// With this root.
        new_root: [u8; 20],
        /// Under this tag, or none.
        tag: Text,
    },
    /// The end of this lease was asked.
    Cancel(Token),
}
