//! Refusals.

use crate::reason::Reason;
use cv_base::{ObjectId, RepoPath};
use cv_messages::Member;

/// Why a request is refused, with what the answer says besides.
#[derive(Debug, Drop)]
pub enum Refusal {
    /// For this reason, which is all that is said.
    Plain(Reason),
    /// This member of the message is lacking.
    MissingMember(Member),
    /// This member of the message has another type.
    WrongType(Member),
    /// This member of the message is out of its limits.
    BadValue(Member),
    /// Other bytes stand under this id.
    Collision(ObjectId),
    /// The old root is that of no revision since the lease was granted.
    StaleBase {
        /// The newest revision when it was.
        revision: u64,
    },
    /// What the new root reaches lacks this object.
    MissingObject(ObjectId),
    /// What the new root reaches under this id is no catalogue at its place.
    BadCatalogue(ObjectId),
    /// Two paths would have one key in a catalogue.
    PathCollision {
        /// One of them.
        path: RepoPath,
        /// The other.
        second: RepoPath,
    },
    /// The catalogue of this directory would pass its limits.
    CatalogueFull(RepoPath),
    /// A revision has the tag.
    TagTaken {
        /// This one.
        revision: u64,
    },
    /// The bytes under an id have another digest.
    Damaged {
        /// The id.
        object: ObjectId,
        /// Their digest.
        found: [u8; 20],
    },
}
