//! A part that is set at a path below the root, in the catalogue that directly holds it.
ghost use Rattle.std.specs.Prelude.{map, ◌≡◌, ◌++◌, IfErr, OnOk};
ghost use Rattle.std.specs.List.{AllByRecursion};
ghost use Rattle.cv_rows.specs.Made.{AreApart, keys_of, texts_of};
ghost use Rattle.cv_rows.specs.Nested.{IsNested};
ghost use Rattle.cv_rows.specs.Row.{IsRow};
ghost use Rattle.cv_cut.specs.Cut.{catalogue_object};
ghost use Rattle.cv_graft.specs.PlacedInner.{IsComing, IsMeeting, JoinsLists, from_part};
ghost use Rattle.cv_graft.specs.PlacedWay.{ArePathsCrossed};

use crate::coming::Coming;
use crate::graft_fault::GraftFault;
use crate::joining::{has_place, without};
use cv_base::{NoMemory, Object, RepoPath};
use cv_cut::{Piece, cut_piece};
use cv_rows::{Catalogue, Nested, Row, WithFault};
use cv_tree::Node;
use std::alloc::Global;

/// Looks for a key that a row of the catalogue has and one of some paths.
fn check_paths(
    alloc: Global,
    catalogue: &Catalogue,
    coming: &[(RepoPath, Node)],
) -> Result<(), GraftFault>
    ensures ok { OnOk result (ArePathsCrossed catalogue.now.rows coming.now) }
    ensures err { IfErr result (IsMeeting catalogue.now coming.now) }
{
    for entry in coming {
        if let Some(there) = catalogue.find(entry.0.key()) {
            let first = catalogue.path_of(alloc, there)?;
            let second = entry.0.copy(alloc)?;
            return Err(GraftFault::PathCollision { first, second });
        }
    }
    Ok(())
}

/// The catalogue of a cut outside a path, with the rows and nested entries that a part has there.
fn with_part(
    alloc: Global,
    at: &RepoPath,
    rest: Catalogue,
    rows: Vec<Row>,
    nested: Vec<Nested>,
) -> Result<Catalogue, GraftFault>
    requires place { rest.at ≡ at.now }
    requires spelled { AllByRecursion IsRow rows.items }
    requires nested_spelled { AllByRecursion IsNested nested.items }
    requires texts { AreApart (texts_of (rest.nested ++ nested.items)) }
    requires keys { AreApart (keys_of (rest.rows ++ rows.items)) }
    ensures { JoinsLists rest rows.items nested.items result }
{
    match rest.with_checked(alloc, rows, nested) {
        Ok(Some(joined)) => Ok(joined),
        // Together they are those of no tree.
        Ok(None) => Err(GraftFault::NoMemory),
        Err(WithFault::Full) => Err(GraftFault::CatalogueFull(at.copy(alloc)?)),
        Err(WithFault::Collision { first: _ }) => unreachable!(),
        Err(WithFault::NoMemory) => Err(GraftFault::NoMemory),
    }
}

/// Adds objects behind others.
fn add_all(added: &mut Vec<Object>, objects: Vec<Object>) -> Result<(), NoMemory>
    ensures { OnOk result (added.new.items ≡ added.old.items ++ objects.items) }
{
    let mut objects = objects;
    added.append(&mut objects)?;
    Ok(())
}

/// A part, in a tree that has it at the path.
impl Coming for Piece {
    ghost ready = { λ piece path. IsComing piece path };

    ghost outcomes = { λ piece path. from_part piece.tree path };

    ghost own = { λ piece. map (catalogue_object piece.tree) piece.cuts };

    fn join(
        &self,
        alloc: Global,
        at: &RepoPath,
        catalogue: Catalogue,
        path: &RepoPath,
        added: &mut Vec<Object>,
    ) -> Result<Catalogue, GraftFault> {
        let rest = without(alloc, catalogue, path)?;
        if !has_place(alloc, &rest, path)? {
            return Err(GraftFault::NoMemory);
        }
        check_paths(alloc, &rest, self.region.as_slice())?;
        let made = cut_piece(alloc, self)?;
        add_all(added, made.catalogues.into_vec())?;
        let rows = made.rows.into_vec();
        let nested = made.nested.into_vec();
        with_part(alloc, at, rest, rows, nested)
    }
}
