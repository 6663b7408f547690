//! What is asked of the gate.

use cv_base::{Items, Object, RepoPath, Text, Token};

/// What a publisher asks of the gate under the id of a key.
#[derive(Debug, Drop)]
pub enum Op {
    /// A lease on a path.
    Lease {
        /// The id of the key.
        key: Text,
        /// What the lease is to cover.
        path: RepoPath,
    },
    /// That objects be stored under a lease.
    Store {
        /// The id of the key.
        key: Text,
        /// The lease.
        token: Token,
        /// The SHA-1 of the header of the pack in which they came.
        digest: [u8; 20],
        /// The objects.
        batch: Items<Object>,
    },
    /// That the leased subtree of the newest tree be replaced by that of an offered tree.
    Commit {
        /// The id of the key.
        key: Text,
        /// The lease.
        token: Token,
        /// The root on which the offered tree was made.
        old_root: [u8; 20],
        /// The root of the offered tree.
        new_root: [u8; 20],
        /// The tag of the new revision, or nothing.
        tag: Text,
    },
    /// That a lease end.
    Cancel {
        /// The id of the key.
        key: Text,
        /// The lease.
        token: Token,
    },
}
