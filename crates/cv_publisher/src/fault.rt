//! Why nothing is published.
ghost use Rattle.std.specs.Prelude.{◌≡◌, IfOk};
ghost use Rattle.cv_publisher.specs.Faults.{of_checkout, of_manifest};
ghost use Rattle.cv_publisher.specs.FaultsInner.{of_overlay};
ghost use Rattle.cv_publisher.specs.declared.fault.PublishFault.TheVariants as faults;

use crate::copying::copy_answer;
use cv_answers::Answer;
use cv_base::{NoMemory, ObjectId, RepoPath};
use cv_checkout::CheckoutFault;
use cv_manifest::ManifestFault;
use cv_overlay::OverlayFault;
use std::alloc::Global;

/// Why nothing is published.
#[derive(Debug, Drop)]
pub enum PublishFault {
    /// The gateway refused a request, with this answer.
    Refused(Answer),
    /// A reply has another code than 200, and is none of code 404 to a request for an object; or its body isn't the kind of
    /// answer that was asked for.
    BadReply,
    /// The manifest that is served has a fault.
    BadManifest(ManifestFault),
    /// The bytes that were served for this id have another digest.
    BadObject {
        /// The id that was asked for.
        id: ObjectId,
        /// The SHA-1 of the bytes that were served.
        found: [u8; 20],
    },
    /// Nothing is served under this id.
    NotServed(ObjectId),
    /// The bytes under this id have its digest, and don't decode at their place.
    BadCatalogue(ObjectId),
    /// The changes have a bad whiteout: the least such path.
    BadWhiteout(RepoPath),
    /// Two paths of one catalogue would have one key.
    PathCollision {
        /// One of the paths.
        first: RepoPath,
        /// The other.
        second: RepoPath,
    },
    /// The catalogue at this path would pass its limits.
    CatalogueFull(RepoPath),
    /// The path's parent is no directory of the tree that is served.
    NoParent,
    /// There was no memory.
    NoMemory,
}

impl From<NoMemory> for PublishFault {
    ghost from_gives = { λ _ fault. fault ≡ faults.NoMemory };

    fn from(_error: NoMemory) -> PublishFault {
        PublishFault::NoMemory
    }
}

impl PublishFault {
    /// The fault where the manifest has one.
    pub(crate) fn of_manifest(fault: ManifestFault) -> PublishFault
        ensures { result ≡ of_manifest fault }
    {
        match fault {
            ManifestFault::NoMemory => PublishFault::NoMemory,
            fault => PublishFault::BadManifest(fault),
        }
    }

    /// The fault where a catalogue isn't taken.
    pub(crate) fn of_checkout(fault: CheckoutFault) -> PublishFault
        ensures { result ≡ of_checkout fault }
    {
        match fault {
            CheckoutFault::NotServed(id) => PublishFault::NotServed(id),
            CheckoutFault::BadObject { id, found } => PublishFault::BadObject { id, found },
            CheckoutFault::BadCatalogue(id) => PublishFault::BadCatalogue(id),
            CheckoutFault::NoMemory => PublishFault::NoMemory,
        }
    }

    /// The fault where the changes make no part.
    pub(crate) fn of_overlay(fault: OverlayFault) -> PublishFault
        ensures { result ≡ of_overlay fault }
    {
        match fault {
            OverlayFault::BadWhiteout(path) => PublishFault::BadWhiteout(path),
            OverlayFault::NoMemory => PublishFault::NoMemory,
        }
    }

    /// An equal fault.
    pub fn copy(&self, alloc: Global) -> Result<PublishFault, NoMemory>
        ensures { IfOk result (λ made. made ≡ self.now) }
    {
        match self {
            PublishFault::Refused(answer) => {
                Ok(PublishFault::Refused(copy_answer(alloc, answer)?))
            }
            PublishFault::BadReply => Ok(PublishFault::BadReply),
            PublishFault::BadManifest(fault) => Ok(PublishFault::BadManifest(*fault)),
            PublishFault::BadObject { id, found } => Ok(PublishFault::BadObject {
                id: *id,
                found: *found,
            }),
            PublishFault::NotServed(id) => Ok(PublishFault::NotServed(*id)),
            PublishFault::BadCatalogue(id) => Ok(PublishFault::BadCatalogue(*id)),
            PublishFault::BadWhiteout(path) => Ok(PublishFault::BadWhiteout(path.copy(alloc)?)),
            PublishFault::PathCollision { first, second } => Ok(PublishFault::PathCollision {
                first: first.copy(alloc)?,
                second: second.copy(alloc)?,
            }),
            PublishFault::CatalogueFull(path) => {
                Ok(PublishFault::CatalogueFull(path.copy(alloc)?))
            }
            PublishFault::NoParent => Ok(PublishFault::NoParent),
            PublishFault::NoMemory => Ok(PublishFault::NoMemory),
        }
    }
}
