//! The end of a walk.
ghost use Rattle.std.specs.Prelude.{◌≡◌, Some, IfOk, Contains};
ghost use Rattle.cv_tree.specs.Tree.{Nodes, IsTree};
ghost use Rattle.cv_rows.specs.Catalogue.{Contents, IsCatalogue};
ghost use Rattle.cv_rows.specs.Places.{StandsAt};
ghost use Rattle.cv_rows.specs.Row.{HasContent};
ghost use Rattle.cv_cut.specs.Catalogues.{Fits};
ghost use Rattle.cv_cut.specs.Told.{node_of};
ghost use Rattle.cv_resolver.specs.Spot.{IsSpot, IsOwn};
ghost use Rattle.cv_base.specs.Path.{Path};
ghost use Rattle.cv_resolver.specs.Look.{content_at, names_at, names_in, found_at};
ghost use Rattle.cv_resolver.specs.Stage.{IsFoundBy};
ghost use Rattle.cv_resolver.specs.ProgressInner.{ComesTo};
ghost use Rattle.cv_resolver.specs.Rows.{ArrivesAt};
ghost use Rattle.cv_resolver.specs.declared.question.Question.TheVariants as question;

use crate::found::{ClientFault, Found};
use crate::listing::listing;
use crate::question::Question;
use crate::spot::Spot;
use crate::stage::Stage;
use crate::stat_line::{entry_kind, stat_line};
use cv_base::{Items, NoMemory};
use cv_rows::{Catalogue, Row, RowKind};
use std::alloc::Global;

/// What a read finds in a row.
fn content(row: &Row) -> Stage
    requires { HasContent row.now.kind row.now.size row.now.hash row.now.target }
    ensures found { IsFoundBy (content_at (Some (node_of row.now))) result }
    ensures comes { (c : Contents) → Contains c.rows row.now → ComesTo c result }
    ensures told { (c : Contents) (p asked : Path) → StandsAt c.at c.rows row.now p → ArrivesAt c (question.Read asked) p result }
{
    match row.hash {
        Some(hash) => Stage::Reads(hash),
        None => Stage::Ends(Err(ClientFault::NotFile)),
    }
}

/// What a list finds at a spot, in whose catalogue this row stands there.
fn names(alloc: Global, spot: &Spot, row: &Row, catalogue: &Catalogue) -> Result<Stage, NoMemory>
    requires { IsCatalogue catalogue.now }
    ensures found { (t : Nodes) → IsTree t → Fits t → IsSpot t spot.now → IsOwn t spot.now catalogue.now
        → IfOk result (IsFoundBy (names_at (names_in t spot.now.at) (Some (node_of row.now)))) }
    ensures comes { IfOk result (ComesTo catalogue.now) }
    ensures told { (asked : Path) → StandsAt catalogue.now.at catalogue.now.rows row.now spot.now.at
        → IfOk result (ArrivesAt catalogue.now (question.List asked) spot.now.at) }
{
    match entry_kind(row.kind) {
        RowKind::Directory => {
            let names = listing(alloc, catalogue, &spot.at)?;
            Ok(Stage::Ends(Ok(Found::Names(Items::new(names)))))
        }
        _ => Ok(Stage::Ends(Err(ClientFault::NotDirectory))),
    }
}

/// What a question finds where its walk ends, by the catalogue of the nearest cut.
pub fn arrive(
    alloc: Global,
    question: &Question,
    spot: &Spot,
    catalogue: &Catalogue,
) -> Result<Stage, NoMemory>
    ensures found { (t : Nodes) → IsTree t → Fits t → IsSpot t spot.now → IsOwn t spot.now catalogue.now
        → IfOk result (IsFoundBy (found_at t question.now spot.now.at)) }
    ensures comes { IfOk result (ComesTo catalogue.now) }
    ensures told { IfOk result (ArrivesAt catalogue.now question.now spot.now.at) }
{
    let Some(row) = catalogue.row_at(&spot.at) else {
        return Ok(Stage::Ends(Err(ClientFault::NotFound)));
    };
    match question {
        Question::List(_) => names(alloc, spot, row, catalogue),
        Question::Stat(_) => {
            let line = stat_line(alloc, row)?;
            Ok(Stage::Ends(Ok(Found::Stat(line))))
        }
        Question::Read(_) => Ok(content(row)),
    }
}
