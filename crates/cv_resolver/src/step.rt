//! One step of a walk.
ghost use Rattle.std.specs.Prelude.{◌≡◌, ◌≢◌, [], ◌∷◌, ℕ, Bool, List, IfOk};
ghost use Rattle.cv_tree.specs.Tree.{Nodes, IsTree};
ghost use Rattle.cv_rows.specs.Catalogue.{IsCatalogue};
ghost use Rattle.cv_cut.specs.Catalogues.{Fits};
ghost use Rattle.cv_resolver.specs.Walk.{Name};
ghost use Rattle.cv_resolver.specs.Rows.{Passes};
ghost use Rattle.cv_resolver.specs.Spot.{IsSpot, IsOwn, levels_of};
ghost use Rattle.cv_resolver.specs.Naming.{AreKnown};
ghost use Rattle.cv_resolver.specs.Step.{steps_left, trail_from};
ghost use Rattle.cv_resolver.specs.StepInner.{IsStep, HasFewer, stage_after, stepped_levels};

use crate::follow::follow_link;
use crate::pass::{Halt, Passed, pass};
use crate::walk::Walk;
use cv_base::NoMemory;
use cv_rows::Catalogue;
use std::alloc::Global;

/// What a step of a walk comes to.
#[derive(Debug, Drop)]
pub enum Step {
    /// The walk goes on.
    On(Walk),
    /// It is over.
    Over(Halt),
}

/// A walk goes by its next name, by the catalogue of the nearest cut.
pub fn step_on(
    alloc: Global,
    repository: &str,
    stays: bool,
    walk: Walk,
    catalogue: &Catalogue,
) -> Result<Step, NoMemory>
    requires { walk.names.items ≢ [] }
    ensures step { (t : Nodes) → IsTree t → Fits t → IsSpot t walk.spot → IsOwn t walk.spot catalogue.now
        → IfOk result (IsStep repository.now t stays (trail_from repository.now t stays walk)) }
    ensures steps { IfOk result (HasFewer (steps_left walk)) }
    ensures levels { IfOk result (λ s. AreKnown catalogue.now (levels_of walk.spot) (stepped_levels s)) }
    ensures told { IsCatalogue catalogue.now → (name : Name) (names : List Name) → walk.names.items ≡ name ∷ names
        → IfOk result (λ s. Passes repository.now stays catalogue.now walk name names (stage_after s)) }
{
    let mut names = walk.names;
    let Some(name) = names.pop_front() else {
        unreachable!("a name is left");
    };
    let links = walk.links;
    match pass(alloc, walk.spot, name.as_str(), catalogue)? {
        Passed::At(spot) => Ok(Step::On(Walk { spot, names, links })),
        Passed::Over(halt) => Ok(Step::Over(halt)),
        Passed::Link(spot, path, target) => {
            let walk = Walk { spot, names, links };
            follow_link(alloc, repository, stays, walk, path, &target)
        }
    }
}
