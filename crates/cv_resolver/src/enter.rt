//! What stands at a name.
ghost use Rattle.std.specs.Prelude.{◌≡◌, true, IfOk};
ghost use Rattle.cv_tree.specs.Tree.{Nodes, IsTree};
ghost use Rattle.cv_rows.specs.Catalogue.{IsCatalogue};
ghost use Rattle.cv_rows.specs.Places.{StandsAt};
ghost use Rattle.cv_rows.specs.declared.row_kind.RowKind.TheVariants as kind;
ghost use Rattle.cv_cut.specs.Catalogues.{Fits};
ghost use Rattle.cv_resolver.specs.Spot.{IsSpot, IsOwn, levels_of};
ghost use Rattle.cv_resolver.specs.Naming.{AreKnown};
ghost use Rattle.cv_resolver.specs.Rows.{IsInCut};
ghost use Rattle.cv_resolver.specs.EnterInner.{IsEntered, IsToldBy, entered_levels};

use crate::spot::{Level, Spot, moved};
use cv_base::{NoMemory, RepoPath, Target};
use cv_rows::{Catalogue, Row, RowKind, below};
use std::alloc::Global;

/// What stands at a name in the directory of a spot.
#[derive(Debug, Drop)]
pub enum Entered {
    /// Nothing.
    Nothing,
    /// A directory or a file, here.
    Stands(Spot),
    /// A link at this path, with its target. The spot is the directory's.
    Link(Spot, RepoPath, Target),
}

/// The spot in the cut of a Transition row.
fn into_cut(
    alloc: Global,
    spot: Spot,
    path: RepoPath,
    row: &Row,
    catalogue: &Catalogue,
) -> Result<Spot, NoMemory>
    requires stands { StandsAt catalogue.now.at catalogue.now.rows row.now path }
    requires kind { row.now.kind ≡ kind.Transition }
    ensures { IfOk result (IsInCut catalogue.now row.now spot path) }
{
    let Some(entry) = catalogue.entry_at(&path) else {
        unreachable!("each Transition row has a nested entry");
    };
    let level = Level {
        path: path.copy(alloc)?,
        hash: entry.hash,
        row: Some(row.copy(alloc)?),
    };
    let mut outer = spot.outer;
    outer.push(spot.level)?;
    Ok(Spot {
        at: path,
        is_directory: true,
        outer,
        level,
    })
}

/// What stands at a name in the directory of a spot, by the catalogue of the nearest cut.
pub fn enter(
    alloc: Global,
    spot: Spot,
    name: &str,
    catalogue: &Catalogue,
) -> Result<Entered, NoMemory>
    requires { spot.is_directory ≡ true }
    ensures entered { (t : Nodes) → IsTree t → Fits t → IsSpot t spot → IsOwn t spot catalogue.now
        → IfOk result (IsEntered t spot name.now) }
    ensures levels { IfOk result (λ e. AreKnown catalogue.now (levels_of spot) (entered_levels e)) }
    ensures told { IsCatalogue catalogue.now → IfOk result (IsToldBy catalogue.now spot name.now) }
{
    let Some(path) = below(alloc, &spot.at, name)? else {
        return Ok(Entered::Nothing);
    };
    let Some(row) = catalogue.row_at(&path) else {
        return Ok(Entered::Nothing);
    };
    match row.kind {
        RowKind::Link => {
            let target = row.target.copy(alloc)?;
            Ok(Entered::Link(spot, path, target))
        }
        RowKind::Transition => {
            let spot = into_cut(alloc, spot, path, row, catalogue)?;
            Ok(Entered::Stands(spot))
        }
        RowKind::File => Ok(Entered::Stands(moved(spot, path, false))),
        RowKind::Directory => Ok(Entered::Stands(moved(spot, path, true))),
        RowKind::NestedRoot => Ok(Entered::Stands(moved(spot, path, true))),
    }
}
