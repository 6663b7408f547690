//! Where a walk stands.
ghost use Rattle.std.specs.Prelude.{◌≡◌, ◌∷◌, ◌++◌, [], take, true, Bool, List, if◌then◌else◌};
ghost use Rattle.cv_resolver.specs.NamingInner.{AreAmong};
ghost use Rattle.cv_base.specs.Path.{Path, parent, same_path};
ghost use Rattle.cv_tree.specs.Tree.{Nodes, IsTree};
ghost use Rattle.cv_resolver.specs.Rows.{IsAt, levels_above, outer_or};
ghost use Rattle.cv_resolver.specs.Spot.{StandsIn, IsSpot, levels_of};

use cv_base::RepoPath;
use cv_rows::Row;
use std::alloc::Global;

/// A cut that covers the place at which a walk stands, with what its catalogue must be.
#[derive(Debug, Drop)]
pub struct Level {
    /// The path of the cut.
    pub path: RepoPath,
    /// The SHA-1 of its catalogue (FIPS 180-4).
    pub hash: [u8; 20],
    /// The Transition row that names it. None for the root of the repository.
    pub row: Option<Row>,
}

/// Where a walk stands.
#[derive(Debug, Drop)]
pub struct Spot {
    /// The path.
    pub at: RepoPath,
    /// Whether a directory stands there.
    pub is_directory: bool,
    /// The cuts that cover the path but for the nearest, from the root on.
    pub outer: Vec<Level>,
    /// The nearest of them.
    pub level: Level,
}

/// The spot at another path under the same cuts.
pub fn moved(spot: Spot, at: RepoPath, is_directory: bool) -> Spot
    ensures { result ≡ record spot { at = at; is_directory = is_directory } }
{
    Spot {
        at,
        is_directory,
        outer: spot.outer,
        level: spot.level,
    }
}

/// The first of all cuts that cover a path.
fn first_level(outer: Vec<Level>, level: Level) -> Level
    ensures { result ∷ [] ≡ take 1 (outer.items ++ level ∷ []) }
{
    let mut outer = outer;
    outer.truncate(1);
    match outer.pop() {
        Some(first) => first,
        None => level,
    }
}

/// The root of the repository.
pub fn at_root(alloc: Global, spot: Spot) -> Spot
    ensures at { IsAt [] true (take 1 (levels_of spot)) result }
    ensures levels { AreAmong (levels_of spot) (levels_of result) }
    ensures stands { (t : Nodes) → IsTree t → IsSpot t spot → IsSpot t result }
{
    Spot {
        at: RepoPath::root(alloc),
        is_directory: true,
        outer: Vec::new(alloc),
        level: first_level(spot.outer, spot.level),
    }
}

/// The cuts that cover the parent of a path: all that cover the path but for one at the path itself.
fn levels_above(at: &RepoPath, outer: Vec<Level>, level: Level) -> (Vec<Level>, Level)
    ensures cuts { result.0.items ++ result.1 ∷ []
        ≡ (if same_path level.path at.now then outer_or outer.items level else outer.items ++ level ∷ []) }
    ensures levels { AreAmong (outer.items ++ level ∷ []) (result.0.items ++ result.1 ∷ []) }
    ensures stands { (t : Nodes) (d : Bool) → IsTree t → StandsIn t at.now d (outer.items ++ level ∷ [])
        → StandsIn t (parent at.now) true (result.0.items ++ result.1 ∷ []) }
{
    let mut outer = outer;
    if level.path != *at {
        return (outer, level);
    }
    match outer.pop() {
        Some(above) => (outer, above),
        None => (outer, level),
    }
}

/// The directory in which a spot stands. That of the root is the root. It takes no memory.
pub fn above(spot: Spot) -> Spot
    ensures at { IsAt (parent spot.at) true (levels_above spot) result }
    ensures levels { AreAmong (levels_of spot) (levels_of result) }
    ensures stands { (t : Nodes) → IsTree t → IsSpot t spot → IsSpot t result }
{
    let at = spot.at;
    let (outer, level) = levels_above(&at, spot.outer, spot.level);
    Spot {
        at: at.into_parent(),
        is_directory: true,
        outer,
        level,
    }
}
