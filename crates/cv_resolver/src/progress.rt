//! How the walk of a question goes on.
ghost use Rattle.std.specs.Prelude.{◌≡◌, IfOk};
ghost use Rattle.cv_tree.specs.Tree.{Nodes, IsTree};
ghost use Rattle.cv_rows.specs.Catalogue.{IsCatalogue};
ghost use Rattle.cv_cut.specs.Catalogues.{Fits};
ghost use Rattle.cv_resolver.specs.Spot.{IsOwn};
ghost use Rattle.cv_resolver.specs.Kept.{AreOwn, Holds, kept_bytes};
ghost use Rattle.cv_resolver.specs.Stage.{IsStage};
ghost use Rattle.cv_resolver.specs.Rows.{StepsBy};
ghost use Rattle.cv_resolver.specs.Progress.{Leads, StepsByKept, StepsTo};
ghost use Rattle.cv_resolver.specs.ProgressInner.{refusal_of};
ghost use Rattle.cv_resolver.specs.declared.stage.Stage.TheVariants as stage;

use crate::arrival::arrive;
use crate::cache::Catalogues;
use crate::found::ClientFault;
use crate::pass::Halt;
use crate::question::Question;
use crate::stage::Stage;
use crate::step::{Step, step_on};
use crate::walk::{Walk, is_last};
use cv_base::NoMemory;
use cv_rows::Catalogue;
use std::alloc::Global;

/// The answer where a walk is over.
fn refusal(halt: Halt) -> ClientFault
    ensures { result ≡ refusal_of halt }
{
    match halt {
        Halt::NotFound => ClientFault::NotFound,
        Halt::NotDirectory => ClientFault::NotDirectory,
        Halt::TooManyLinks => ClientFault::TooManyLinks,
    }
}

/// How the walk of a question goes on by one step, by the catalogue of the nearest cut.
fn go(
    alloc: Global,
    repository: &str,
    question: &Question,
    walk: Walk,
    catalogue: &Catalogue,
) -> Result<Stage, NoMemory>
    ensures stage { (t : Nodes) → IsTree t → Fits t → IsOwn t walk.spot catalogue.now
        → IsStage repository.now t question.now (stage.Walks walk) → IfOk result (IsStage repository.now t question.now) }
    ensures told { IsCatalogue catalogue.now → IfOk result (StepsBy repository.now question.now catalogue.now walk) }
    ensures steps { IfOk result (StepsTo catalogue.now walk) }
{
    if is_last(&walk.names) {
        return arrive(alloc, question, &walk.spot, catalogue);
    }
    match step_on(alloc, repository, question.is_stat(), walk, catalogue)? {
        Step::On(walk) => Ok(Stage::Walks(walk)),
        Step::Over(halt) => Ok(Stage::Ends(Err(refusal(halt)))),
    }
}

/// The same by the catalogue that is kept. Without memory the question is answered so.
fn go_by_cache(
    alloc: Global,
    cache: &Catalogues,
    repository: &str,
    question: &Question,
    walk: Walk,
) -> Stage
    requires { Holds cache.now walk.spot.level }
    ensures stage { (t : Nodes) → IsTree t → Fits t → AreOwn t (kept_bytes cache.now)
        → IsStage repository.now t question.now (stage.Walks walk) → IsStage repository.now t question.now result }
    ensures steps { StepsByKept repository.now question.now cache.now walk result }
{
    let catalogue = cache.get(&walk.spot.level);
    match go(alloc, repository, question, walk, catalogue) {
        Ok(stage) => stage,
        Err(fault) => Stage::from(fault),
    }
}

/// How the walk of a question goes on as far as the catalogues that are kept lead.
pub fn walk_on(
    alloc: Global,
    cache: &mut Catalogues,
    repository: &str,
    question: &Question,
    walk: Walk,
) -> Stage
    ensures stage { (t : Nodes) → IsTree t → Fits t → AreOwn t (kept_bytes cache.old)
        → IsStage repository.now t question.now (stage.Walks walk) → IsStage repository.now t question.now result }
    ensures goes { Leads repository.now question.now cache.old walk cache.new result }
{
    let mut walk = walk;
    while cache.holds(&walk.spot.level) {
        let hash = walk.spot.level.hash;
        let stage = go_by_cache(alloc, cache, repository, question, walk);
        cache.touch(hash);
        match stage {
            Stage::Walks(next) => walk = next,
            Stage::Reads(hash) => return Stage::Reads(hash),
            Stage::Ends(answer) => return Stage::Ends(answer),
        }
    }
    Stage::Walks(walk)
}
