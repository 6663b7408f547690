//! A walk follows a link.
ghost use Rattle.std.specs.Prelude.{◌≡◌, ◌≢◌, ◌&&◌, ◌++◌, ◌-◌, ℕ, Bool, true, false, List, IfOk};
ghost use Rattle.cv_base.specs.PathText.{parts_of};
ghost use Rattle.cv_tree.specs.Tree.{Nodes, IsTree};
ghost use Rattle.cv_resolver.specs.Walk.{is_last};
ghost use Rattle.cv_resolver.specs.Spot.{StandsIn, IsSpot, levels_of};
ghost use Rattle.cv_resolver.specs.NamingInner.{AreAmong};
ghost use Rattle.cv_resolver.specs.Step.{steps_left};
ghost use Rattle.cv_resolver.specs.StepInner.{IsStep, link_trail, HasAtMost, MeetsLink, stage_after, stepped_levels};

use crate::pass::Halt;
use crate::spot::{Spot, at_root, moved};
use crate::step::Step;
use crate::target::{Lead, lead_of_target};
use crate::walk::{Walk, is_last};
use cv_base::{NoMemory, RepoPath, Target, Text};
use std::alloc::Global;
use std::collections::VecDeque;

/// Names, and more behind them.
fn joined(names: VecDeque<Text>, more: VecDeque<Text>) -> Result<VecDeque<Text>, NoMemory>
    ensures { IfOk result (λ all. all.items ≡ names.items ++ more.items) }
{
    let mut all = names;
    for name in more {
        all.push_back(name)?;
    }
    Ok(all)
}

/// Whether a walk ends at a link that it meets where these names are left.
fn stops(stays: bool, names: &VecDeque<Text>) -> bool
    ensures { result ≡ (is_last names.now.items && stays) }
{
    is_last(names) && stays
}

/// The walk from a spot by these names and then those that were left.
fn walk_from(
    spot: Spot,
    names: VecDeque<Text>,
    left: VecDeque<Text>,
    links: u32,
) -> Result<Walk, NoMemory>
    ensures spot { IfOk result (λ w. w.spot ≡ spot) }
    ensures names { IfOk result (λ w. w.names.items ≡ names.items ++ left.items) }
    ensures links { IfOk result (λ w. w.links ≡ links) }
{
    let names = joined(names, left)?;
    Ok(Walk { spot, names, links })
}

/// A walk that met a link at this path stops there, where it is the last name and isn't followed, or goes on where its
/// target leads.
pub fn follow_link(
    alloc: Global,
    repository: &str,
    stays: bool,
    walk: Walk,
    path: RepoPath,
    target: &Target,
) -> Result<Step, NoMemory>
    ensures step { (t : Nodes) → IsTree t → IsSpot t walk.spot → StandsIn t path false (levels_of walk.spot)
        → IfOk result (IsStep repository.now t stays (link_trail repository.now t stays walk path target.now)) }
    ensures steps { IfOk result (HasAtMost (steps_left walk)) }
    ensures levels { IfOk result (λ s. AreAmong (levels_of walk.spot) (stepped_levels s)) }
    ensures told { walk.spot.is_directory ≡ true
        → IfOk result (λ s. MeetsLink repository.now (is_last walk.names.items && stays) walk.spot walk.names.items walk.links path
        (parts_of target.now) (stage_after s)) }
{
    if stops(stays, &walk.names) {
        return Ok(Step::On(Walk {
            spot: moved(walk.spot, path, false),
            names: walk.names,
            links: walk.links,
        }));
    }
    if walk.links == 0 {
        return Ok(Step::Over(Halt::TooManyLinks));
    }
    let links = walk.links - 1;
    match lead_of_target(alloc, repository, target)? {
        Lead::Nowhere => Ok(Step::Over(Halt::NotFound)),
        Lead::Root(names) => {
            let walk = walk_from(at_root(alloc, walk.spot), names, walk.names, links)?;
            Ok(Step::On(walk))
        }
        Lead::Here(names) => {
            let walk = walk_from(walk.spot, names, walk.names, links)?;
            Ok(Step::On(walk))
        }
    }
}
