//! A walk on its way.
ghost use Rattle.std.specs.Prelude.{◌≡◌};
ghost use Rattle.cv_resolver.specs.Walk.{is_last};

use crate::spot::Spot;
use cv_base::Text;
use std::collections::VecDeque;

/// A walk on its way.
#[derive(Debug, Drop)]
pub struct Walk {
    /// Where it stands.
    pub spot: Spot,
    /// The names by which it goes on.
    pub names: VecDeque<Text>,
    /// How many more links it may follow.
    pub links: u32,
}

/// Whether no more names are left.
pub fn is_last(names: &VecDeque<Text>) -> bool
    ensures { result ≡ is_last names.now.items }
{
    names.front().is_none()
}
