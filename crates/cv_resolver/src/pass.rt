//! By one name from a spot.
ghost use Rattle.std.specs.Prelude.{◌≡◌, IfOk};
ghost use Rattle.cv_tree.specs.Tree.{Nodes, IsTree};
ghost use Rattle.cv_rows.specs.Catalogue.{IsCatalogue};
ghost use Rattle.cv_cut.specs.Catalogues.{Fits};
ghost use Rattle.cv_resolver.specs.Walk.{is_idle, is_up};
ghost use Rattle.cv_resolver.specs.Spot.{IsSpot, IsOwn, levels_of};
ghost use Rattle.cv_resolver.specs.Naming.{AreKnown};
ghost use Rattle.cv_resolver.specs.PassInner.{IsPassed, PassesTo, passed_levels};

use crate::enter::{Entered, enter};
use crate::spot::{Spot, above};
use cv_base::{NoMemory, RepoPath, Target};
use cv_rows::Catalogue;
use std::alloc::Global;

/// Why a walk is over before it arrives.
#[derive(Clone, Copy, Debug, PartialEq, Eq)]
pub enum Halt {
    /// Nothing stands there.
    NotFound,
    /// There is a name below what is no directory.
    NotDirectory,
    /// It is one link too many.
    TooManyLinks,
}

/// What a name leads to.
#[derive(Debug, Drop)]
pub enum Passed {
    /// Another spot.
    At(Spot),
    /// Nowhere.
    Over(Halt),
    /// A link at this path, with its target. The spot is the directory's.
    Link(Spot, RepoPath, Target),
}

/// Whether a name is passed over.
fn is_idle(name: &str) -> bool
    ensures { result ≡ is_idle name.now }
{
    name.is_empty() || name == "."
}

/// Whether a name leads to the parent.
fn is_up(name: &str) -> bool
    ensures { result ≡ is_up name.now }
{
    name == ".."
}

/// What a name leads to from a spot, by the catalogue of the nearest cut.
pub fn pass(
    alloc: Global,
    spot: Spot,
    name: &str,
    catalogue: &Catalogue,
) -> Result<Passed, NoMemory>
    ensures passed { (t : Nodes) → IsTree t → Fits t → IsSpot t spot → IsOwn t spot catalogue.now
        → IfOk result (IsPassed t spot name.now) }
    ensures levels { IfOk result (λ p. AreKnown catalogue.now (levels_of spot) (passed_levels p)) }
    ensures told { IsCatalogue catalogue.now → IfOk result (PassesTo catalogue.now spot name.now) }
{
    if is_idle(name) {
        return Ok(Passed::At(spot));
    }
    if !spot.is_directory {
        return Ok(Passed::Over(Halt::NotDirectory));
    }
    if is_up(name) {
        return Ok(Passed::At(above(spot)));
    }
    match enter(alloc, spot, name, catalogue)? {
        Entered::Nothing => Ok(Passed::Over(Halt::NotFound)),
        Entered::Stands(spot) => Ok(Passed::At(spot)),
        Entered::Link(spot, path, target) => Ok(Passed::Link(spot, path, target)),
    }
}
