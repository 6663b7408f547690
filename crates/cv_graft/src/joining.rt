//! What one catalogue has outside a path, with what another has there.
ghost use Rattle.std.specs.Prelude.{◌≡◌, ◌≢◌, ◌∷◌, ◌++◌, [], ℕ, List, true, false, IfOk, IfErr, OnOk, Contains};
ghost use Rattle.cv_base.specs.Marker.{marker, ends_in};
ghost use Rattle.cv_base.specs.Path.{covers};
ghost use Rattle.cv_rows.specs.Catalogue.{IsCatalogue};
ghost use Rattle.cv_rows.specs.Places.{StandsAt};
ghost use Rattle.cv_rows.specs.Without.{IsWithout};
ghost use Rattle.cv_rows.specs.declared.row.Row.{Row as TheRow};
ghost use Rattle.cv_graft.specs.Joins.{AreCrossed};
ghost use Rattle.cv_graft.specs.JoinsInner.{IsCollision, from_tree};
ghost use Rattle.cv_graft.specs.Places.{HasPlace};

use crate::coming::Coming;
use crate::graft_fault::GraftFault;
use cv_base::{NoMemory, Object, RepoPath};
use cv_rows::{Catalogue, Row, WithFault};
use std::alloc::Global;

/// Whether a path is another with one more name.
fn is_parent(above: &RepoPath, path: &RepoPath) -> bool
    ensures { result ≡ true → (name : List ℕ) × (path.now ≡ above.now ++ name ∷ []) }
{
    if !above.covers(path) {
        return false;
    }
    above.names().len() + 1 == path.names().len()
}

/// Whether the directory in which a path stands has a row, below which other rows of the catalogue may stand.
pub(crate) fn has_place(
    alloc: Global,
    catalogue: &Catalogue,
    path: &RepoPath,
) -> Result<bool, NoMemory>
    ensures { IfOk result (λ found. found ≡ true → HasPlace catalogue.now path.now) }
{
    let Some(row) = catalogue.find(path.parent_key()) else {
        return Ok(false);
    };
    if !row.kind.holds_rows() {
        return Ok(false);
    }
    let above = catalogue.path_of(alloc, row)?;
    Ok(is_parent(&above, path))
}

/// The fault of two rows that have one key.
fn collision(
    alloc: Global,
    catalogue: &Catalogue,
    row: &Row,
    other: &Catalogue,
    other_row: &Row,
) -> Result<(RepoPath, RepoPath), NoMemory>
    requires row { Contains catalogue.now.rows row.now }
    requires other { Contains other.now.rows other_row.now }
    ensures { IfOk result (λ paths. StandsAt catalogue.now.at catalogue.now.rows row.now paths.0 × StandsAt other.now.at other.now.rows other_row.now paths.1) }
{
    Ok((
        catalogue.path_of(alloc, row)?,
        other.path_of(alloc, other_row)?,
    ))
}

/// Looks for a key that a row of the catalogue has and one of some rows of another.
fn check_keys(
    alloc: Global,
    catalogue: &Catalogue,
    other: &Catalogue,
    rows: &[Row],
) -> Result<(), GraftFault>
    requires { (r : TheRow) → Contains rows.now r → Contains other.now.rows r }
    ensures ok { OnOk result (AreCrossed catalogue.now.rows rows.now) }
    ensures err { IfErr result (IsCollision catalogue.now other.now rows.now) }
{
    for row in rows {
        if let Some(there) = catalogue.find(row.key) {
            let (first, second) = collision(alloc, catalogue, there, other, row)?;
            return Err(GraftFault::PathCollision { first, second });
        }
    }
    Ok(())
}

/// The catalogue without what a path covers.
pub(crate) fn without(
    alloc: Global,
    catalogue: Catalogue,
    path: &RepoPath,
) -> Result<Catalogue, NoMemory>
    requires below { covers catalogue.at path.now ≡ true }
    requires apart { path.now ≢ catalogue.at }
    requires unmarked { ends_in marker path.now ≡ false }
    ensures left { IfOk result (IsWithout catalogue path.now) }
    ensures rules { IfOk result IsCatalogue }
{
    match catalogue.without(alloc, path) {
        Ok(rest) => Ok(rest),
        Err(_) => Err(NoMemory),
    }
}

/// What another tree has at the path: its catalogue that directly holds it.
impl Coming for Catalogue {
    ghost ready = { λ other path. IsCatalogue other × (covers other.at path ≡ true) × (path ≢ other.at) };

    ghost outcomes = { λ other path. from_tree other path };

    ghost own = { λ other. [] };

    fn join(
        &self,
        alloc: Global,
        at: &RepoPath,
        catalogue: Catalogue,
        path: &RepoPath,
        _added: &mut Vec<Object>,
    ) -> Result<Catalogue, GraftFault> {
        let (rows, nested) = self.within(alloc, path)?;
        let rest = without(alloc, catalogue, path)?;
        if !has_place(alloc, &rest, path)? {
            return Err(GraftFault::NoMemory);
        }
        check_keys(alloc, &rest, self, &rows)?;
        match rest.with(alloc, rows, nested) {
            Ok(joined) => Ok(joined),
            Err((_, WithFault::Full)) => Err(GraftFault::CatalogueFull(at.copy(alloc)?)),
            Err((_, WithFault::Collision { first: _ })) => unreachable!(),
            Err((_, WithFault::NoMemory)) => Err(GraftFault::NoMemory),
        }
    }
}
