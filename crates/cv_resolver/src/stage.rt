//! How far a question has come.
ghost use Rattle.std.specs.Prelude.{◌≡◌, Err};
ghost use Rattle.cv_resolver.specs.Stage.{wanted_by};
ghost use Rattle.cv_resolver.specs.declared.found.ClientFault.TheVariants as faults;
ghost use Rattle.cv_resolver.specs.declared.stage.Stage.TheVariants as stage;

use crate::found::{ClientFault, Found};
use crate::walk::Walk;
use cv_base::{Kind, NoMemory, ObjectId};

/// How far a question has come.
#[derive(Debug, Drop)]
pub enum Stage {
    /// It walks, and wants the catalogue of the nearest cut.
    Walks(Walk),
    /// It came to a file of this digest, and wants its content.
    Reads([u8; 20]),
    /// It is answered.
    Ends(Result<Found, ClientFault>),
}

// Without memory the question is answered so.
impl From<NoMemory> for Stage {
    ghost from_gives = { λ _ s. s ≡ stage.Ends (Err faults.NoMemory) };

    fn from(fault: NoMemory) -> Stage {
        Stage::Ends(Err(ClientFault::from(fault)))
    }
}

/// The id of the object that is wanted.
pub fn wanted(stage: &Stage) -> Option<ObjectId>
    ensures { result ≡ wanted_by stage.now }
{
    match stage {
        Stage::Walks(walk) => Some(ObjectId {
            hash: walk.spot.level.hash,
            kind: Kind::Catalogue,
        }),
        Stage::Reads(hash) => Some(ObjectId {
            hash: *hash,
            kind: Kind::Plain,
        }),
        Stage::Ends(_) => None,
    }
}
