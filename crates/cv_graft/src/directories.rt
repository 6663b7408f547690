//! Directories of a tree, by the catalogue that directly holds a path.
ghost use Rattle.std.specs.Prelude.{◌≡◌, true, List, ℕ, length, IfOk, IfErr, IsErrOf, MatchOption};
ghost use Rattle.std.specs.Option.{option_copied};
ghost use Rattle.std.specs.FinMap as map;
ghost use Rattle.cv_rows.specs.Catalogue.{IsCatalogue};
ghost use Rattle.cv_rows.specs.Places.{StandsAt};
ghost use Rattle.cv_rows.specs.declared.row.Row.{Row as TheRow};
ghost use Rattle.cv_tree.specs.Tree.{Nodes, IsTree, is_directory};
ghost use Rattle.cv_cut.specs.Catalogues.{Fits};
ghost use Rattle.cv_base.specs.Counts.{HasCause};
ghost use Rattle.cv_base.specs.Told.{WhereTold};
ghost use Rattle.cv_base.specs.declared.id.Kind.TheVariants as id_kind;
ghost use Rattle.cv_ports.specs.Calls.{RaisedAtMost};
ghost use Rattle.cv_cut.specs.Above.{cuts_above, Holds};
ghost use Rattle.cv_graft.specs.Directories.{HasDirectory, IsFound};
ghost use Rattle.cv_graft.specs.Graft.{HasWay};
ghost use Rattle.cv_graft.specs.Places.{stands_for_directory};
ghost use Rattle.cv_graft.specs.Way.{BlamesWay, Tells};
ghost use Rattle.cv_cut.specs.Catalogues.{contents_of};
ghost use Rattle.cv_cut.specs.declared.load_fault.LoadFault.TheVariants as faults;

use crate::grafting::holder;
use cv_base::{NoMemory, ObjectId, RepoPath};
use cv_cut::LoadFault;
use cv_ports::Shelf;
use cv_rows::{Catalogue, Row, RowKind};
use std::alloc::Global;

/// Whether rows of this kind are those of directories.
fn is_directory_kind(kind: RowKind) -> bool
    ensures { result ≡ stands_for_directory kind }
{
    matches!(
        kind,
        RowKind::Directory | RowKind::Transition | RowKind::NestedRoot
    )
}

/// Whether a path is a directory of a tree, by the catalogue that directly holds the path.
pub(crate) fn directory_in(catalogue: &Catalogue, path: &RepoPath) -> bool
    ensures row { HasDirectory catalogue.now path.now result }
    ensures tree { (t : Nodes) (c r : List (List ℕ)) → IsTree t → Fits t → Holds t path.now c r → catalogue.now ≡ contents_of t c → result ≡ is_directory (map.get t path.now) }
{
    match catalogue.row_at(path) {
        Some(row) => is_directory_kind(row.kind),
        None => false,
    }
}

/// Whether a path is a directory of the tree of a root. Only catalogues of cuts properly above the path are read, and what is
/// answered is so by the last one on the way to it, also where the root means no tree. At most as many are read as the path has
/// names, since each stands deeper than the one before it.
///
/// Missing, Bad and Damaged name a catalogue on the way to the path: it isn't there, it is none at its place or misstates the
/// size of the next one, or it has another digest. Where the root means a tree, only the shelf's own faults and want of memory
/// come.
pub fn directory_at<S: Shelf>(
    alloc: Global,
    shelf: &mut S,
    root: &ObjectId,
    path: &RepoPath,
) -> Result<bool, LoadFault>
    requires { root.now.kind ≡ id_kind.Catalogue }
    ensures told { WhereTold (S.shelf shelf.old) (λ standing. (t : Nodes) → HasWay standing root.now.hash t path.now → Tells t path.now result) }
    ensures found { WhereTold (S.shelf shelf.old) (λ standing. IfOk result (IsFound standing root.now.hash path.now)) }
    ensures fault { WhereTold (S.shelf shelf.old) (λ standing. IfErr result (BlamesWay standing root.now.hash path.now)) }
    ensures reads { S.reads shelf.old shelf.new }
    ensures unchanged { S.shelf shelf.new ≡ S.shelf shelf.old }
    ensures cause { HasCause (S.faults shelf.old) (S.faults shelf.new) (IsErrOf result faults.Failed) }
    ensures taken { WhereTold (S.shelf shelf.old) (λ standing. (t : Nodes) → HasWay standing root.now.hash t path.now → RaisedAtMost (length (cuts_above t path.now)) (S.taken shelf.old) (S.taken shelf.new)) }
    ensures most { RaisedAtMost (length path.now) (S.taken shelf.old) (S.taken shelf.new) }
{
    if path.names().is_empty() {
        return Ok(true);
    }
    let catalogue = holder(alloc, shelf, root, path)?;
    Ok(directory_in(&catalogue, path))
}
