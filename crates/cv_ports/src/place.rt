//! Room for what a dial in memory keeps.

use crate::came_back::CameBack;
use cv_base::NoMemory;
use std::alloc::Global;
use std::marker::Model;

/// Room in which a dial in memory keeps that it opened a link. What stands in it says nothing.
#[derive(Drop)]
pub struct Place {
    room: Box<CameBack>,
}

impl Model for Place {
    ghost use Rattle.std.specs.Prelude.{⊤};

    ghost Value = { ⊤ };

    ghost view = { λ p. tt };
}

impl Place {
    /// Room that holds nothing.
    pub(crate) fn new(alloc: Global) -> Result<Place, NoMemory> {
        Ok(Place {
            room: Box::new(alloc, CameBack::Nothing)?,
        })
    }

    /// The room.
    pub(crate) fn into_box(self) -> Box<CameBack> {
        self.room
    }
}
