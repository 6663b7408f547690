//! Loading.
ghost use Rattle.std.specs.Prelude.{◌≡◌, length, IfOk, IsErrOf};
ghost use Rattle.cv_base.specs.Counts.{HasCause};
ghost use Rattle.cv_base.specs.Told.{WhereTold};
ghost use Rattle.cv_base.specs.declared.id.Kind.TheVariants as id_kind;
ghost use Rattle.cv_rows.specs.Catalogue.{IsCatalogue};
ghost use Rattle.cv_cut.specs.Cuts.{cuts_of};
ghost use Rattle.cv_load.specs.Answers.{Loads};
ghost use Rattle.cv_load.specs.Growth.{IsRootOf};
ghost use Rattle.cv_load.specs.GrowthInner.{IsClear, ChangesBelow, FillsFrom};
ghost use Rattle.cv_load.specs.Fetches.{FetchesOnce};
ghost use Rattle.cv_load.specs.FetchesInner.{FetchesBelow};
ghost use Rattle.cv_cut.specs.declared.load_fault.LoadFault.TheVariants as faults;
ghost use Rattle.cv_ports.specs.Calls.{raised_by};

use crate::files::check_files;
use crate::placing::place_rows;
use cv_base::{Kind, NoMemory, ObjectId, RepoPath};
use cv_cut::{LoadFault, catalogue_at, nested_catalogue};
use cv_ports::Shelf;
use cv_rows::Catalogue;
use cv_tree::Tree;
use std::alloc::Global;

/// The tree of the root row of a catalogue alone.
fn root_of(alloc: Global, catalogue: &Catalogue) -> Result<Tree, NoMemory>
    requires { IsCatalogue catalogue.now }
    ensures { IfOk result (IsRootOf catalogue.now) }
{
    Tree::new(alloc, catalogue.root().attr)
}

/// Adds to a tree what is reached from the catalogue under an id.
fn fill<S: Shelf>(
    alloc: Global,
    shelf: &mut S,
    id: &ObjectId,
    catalogue: &Catalogue,
    tree: &mut Tree,
) -> Result<(), LoadFault>
    requires kind { id.now.kind ≡ id_kind.Catalogue }
    requires rules { IsCatalogue catalogue.now }
    requires clear { IsClear catalogue.now.at tree.old }
    ensures told { WhereTold (S.shelf shelf.old) (λ standing. FillsFrom standing id.now catalogue.now tree.old tree.new result) }
    ensures reads { S.reads shelf.old shelf.new }
    ensures unchanged { S.shelf shelf.new ≡ S.shelf shelf.old }
    ensures cause { HasCause (S.faults shelf.old) (S.faults shelf.new) (IsErrOf result faults.Failed) }
    ensures fetches { WhereTold (S.shelf shelf.old) (λ standing. FetchesBelow standing id.now catalogue.now (S.taken shelf.old) (S.taken shelf.new) result) }
    ensures within { ChangesBelow catalogue.now.at tree.old tree.new }
{
    check_files(alloc, shelf, id, catalogue)?;
    place_rows(alloc, catalogue, tree)?;
    for nested in catalogue.nested() {
        let below = nested_catalogue(alloc, shelf, id, catalogue, nested)?;
        let below_id = ObjectId {
            hash: nested.hash,
            kind: Kind::Catalogue,
        };
        fill(alloc, shelf, &below_id, &below, tree)?;
    }
    Ok(())
}

/// The tree that the hash of a root catalogue means on a shelf.
///
/// The contents of files aren't fetched: their lengths are asked for.
pub fn load<S: Shelf>(alloc: Global, shelf: &mut S, root: &ObjectId) -> Result<Tree, LoadFault>
    requires { root.now.kind ≡ id_kind.Catalogue }

    // The tree that the hash means; or an object that is reached and lacking, or a catalogue that is damaged or bad.
    ensures told { WhereTold (S.shelf shelf.old) (λ standing. Loads standing root.now.hash result) }
    ensures reads { S.reads shelf.old shelf.new }
    ensures unchanged { S.shelf shelf.new ≡ S.shelf shelf.old }
    ensures cause { HasCause (S.faults shelf.old) (S.faults shelf.new) (IsErrOf result faults.Failed) }

    // Whatever it answers, its fetches are as many as some visits to catalogues that are reached, no two at one path.
    ensures fetches { WhereTold (S.shelf shelf.old) (λ standing. FetchesOnce standing root.now.hash (S.taken shelf.old) (S.taken shelf.new)) }

    // After Ok they are as many as the tree has cuts.
    ensures cuts { WhereTold (S.shelf shelf.old) (λ standing. IfOk result (λ tree. S.taken shelf.new ≡ raised_by (length (cuts_of tree)) (S.taken shelf.old))) }
{
    let at = RepoPath::root(alloc);
    let catalogue = catalogue_at(alloc, shelf, root, &at, None)?;
    let mut tree = root_of(alloc, &catalogue)?;
    fill(alloc, shelf, root, &catalogue, &mut tree)?;
    Ok(tree)
}
