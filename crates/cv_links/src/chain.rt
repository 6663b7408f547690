//! Lists of nodes.
ghost use Rattle.std.specs.Prelude.{◌≡◌};
ghost use Rattle.cv_links.specs.Chains.{IsEmpty};

use crate::id::Id;
use crate::lane::Lane;

/// The ends of a list in one lane. The list itself is in the arena, and each call wants the arena that the chain is of:
/// a copy that was made before its ends changed is of it no more.
#[derive(Clone, Copy)]
pub struct Chain {
    pub(crate) lane: Lane,
    pub(crate) first: Option<Id>,
    pub(crate) last: Option<Id>,
}

impl Chain {
    /// An empty list in a lane, of any arena.
    pub fn new(lane: Lane) -> Chain
        ensures lane { result.lane ≡ lane }
        ensures empty { IsEmpty result }
    {
        Chain {
            lane,
            first: None,
            last: None,
        }
    }
}
