//! What the gate answers.

use cv_base::{ObjectId, RepoPath, Token};

/// What the gate answers to an op.
#[derive(Debug, Drop)]
pub enum Reply {
    /// The lease is granted.
    Granted {
        /// Its token.
        token: Token,
        /// The newest revision.
        revision: u64,
        /// Its root.
        root: [u8; 20],
    },
    /// The objects are stored.
    Stored,
    /// The revision is published, and the lease ended.
    Committed {
        /// The new revision.
        revision: u64,
        /// Its root.
        root: [u8; 20],
    },
    /// The lease ended.
    Cancelled,
    /// The path can't be leased: its last name is that of the file which marks nested catalogues.
    BadPath,
    /// A live lease covers the path, or something below it.
    PathBusy {
        /// The token of the one granted last.
        token: Token,
        /// The seconds until it ends by itself.
        remaining: u64,
    },
    /// As many leases are live as can be.
    TooManyLeases,
    /// The path's parent is no directory of the newest tree.
    NoParent,
    /// No live lease has the token.
    InvalidToken,
    /// The lease is another key's.
    WrongKey,
    /// Other bytes stand under this id, or another object that was sent has it.
    Collision(ObjectId),
    /// The root on which the offered tree was made is that of no revision since the lease was granted.
    StaleBase {
        /// The newest revision when it was.
        revision: u64,
    },
    /// The offered tree reaches this object, which isn't there.
    MissingObject(ObjectId),
    /// The offered tree reaches this catalogue, which isn't one, or not one for its place.
    BadCatalogue(ObjectId),
    /// Two paths would have one key in a catalogue.
    PathCollision {
        /// One of them.
        first: RepoPath,
        /// The other.
        second: RepoPath,
    },
    /// The catalogue of this directory would pass its limits.
    CatalogueFull(RepoPath),
    /// A revision has the tag.
    TagTaken {
        /// This one.
        revision: u64,
    },
    /// The disk failed.
    StoreFailed,
    /// The bytes under an id have another digest.
    Damaged {
        /// The id.
        id: ObjectId,
        /// Their digest.
        found: [u8; 20],
    },
    /// The journal has no place left. Nothing was done.
    JournalFull,
    /// There was no memory.
    NoMemory,
    /// There are as many revisions as can be.
    RevisionsFull,
}
