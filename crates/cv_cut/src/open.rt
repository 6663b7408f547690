//! Single catalogues, opened at their places.
ghost use Rattle.std.specs.Prelude.{◌≡◌, ◌↔◌, IfOk, IsTrue, MatchOption};
ghost use Rattle.std.specs.Option.{option_copied};
ghost use Rattle.cv_rows.specs.Catalogue.{Contents, IsCatalogue};
ghost use Rattle.cv_cut.specs.Reached.{Decodes, FitsPlace};
ghost use Rattle.cv_cut.specs.Open.{FitsRow};

use cv_base::{NoMemory, RepoPath};
use cv_rows::{Catalogue, Row};
use std::alloc::Global;

/// Whether two rows have the same fields but for their kinds.
fn same_fields(root: &Row, transition: &Row) -> bool
    ensures { IsTrue result ↔ (root.now ≡ record transition.now { kind = root.now.kind }) }
{
    root.key == transition.key
        && root.parent == transition.parent
        && root.attr == transition.attr
        && root.size == transition.size
        && root.hash == transition.hash
        && root.name.text() == transition.name.text()
        && root.target.text() == transition.target.text()
}

/// Whether the root row of a catalogue has the fields of the Transition row that names it.
fn fits_row(catalogue: &Catalogue, transition: &Row) -> bool
    requires { IsCatalogue catalogue.now }
    ensures { IsTrue result ↔ FitsRow catalogue.now transition.now }
{
    same_fields(catalogue.root(), transition)
}

/// Whether a catalogue stands at a place: at a path, and with the fields of the Transition row that names it, if one does.
/// It takes no memory.
pub fn fits_place(catalogue: &Catalogue, at: &RepoPath, row: Option<&Row>) -> bool
    requires { IsCatalogue catalogue.now }
    ensures { IsTrue result ↔ FitsPlace (record { path = at.now; row = option_copied row.entry }) catalogue.now }
{
    if catalogue.at() != at {
        return false;
    }
    match row {
        Some(transition) => fits_row(catalogue, transition),
        None => true,
    }
}

/// The catalogue that bytes are at a place: at a path, and with the fields of the Transition row that names it, if one
/// does. None where they decode as none there.
pub fn opened(
    alloc: Global,
    bytes: &[u8],
    at: &RepoPath,
    row: Option<&Row>,
) -> Result<Option<Catalogue>, NoMemory>
    ensures decodes { IfOk result (λ found. MatchOption found
        ((c : Contents) → Decodes (record { path = at.now; row = option_copied row.entry }) bytes.now c → ⊥)
        (Decodes (record { path = at.now; row = option_copied row.entry }) bytes.now)) }
{
    match Catalogue::decode(alloc, bytes, at) {
        Ok(catalogue) if fits_place(&catalogue, at, row) => Ok(Some(catalogue)),
        Ok(_) => Ok(None),
        Err(fault) => {
            fault.unless_memory()?;
            Ok(None)
        }
    }
}
