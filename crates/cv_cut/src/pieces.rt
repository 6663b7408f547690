//! Cutting a part that is to be set at a path.
ghost use Rattle.std.specs.Prelude.{◌≡◌, ◌≢◌, ◌≤◌, [], false, filter, map, IfOk, IfErr, IsTrue, OnOk};
ghost use Rattle.std.specs.List.{All};
ghost use Rattle.std.specs.Option.{option_copied};
ghost use Rattle.cv_base.specs.Marker.{marker, ends_in};
ghost use Rattle.cv_base.specs.Path.{covers};
ghost use Rattle.cv_base.specs.declared.limits.TheConstants.{OBJECT_LIMIT};
ghost use Rattle.std.specs.FinMap as finmap;
ghost use Rattle.cv_tree.specs.Tree.{IsTree, Nodes, is_directory};
ghost use Rattle.cv_tree.specs.Changes.{FitsUnder, nodes_of};
ghost use Rattle.cv_cut.specs.Catalogues.{IsFull};
ghost use Rattle.cv_cut.specs.Cut.{catalogue_object, is_other, nested_in, row_in};
ghost use Rattle.cv_cut.specs.Piece.{HasOnly, IsPiece, IsReady, IsSharedWithin, IsFullAmong};
ghost use Rattle.cv_cut.specs.PieceInner.{HasNoFiles};

use crate::collision::{check_keys, check_region};
use crate::cut_fault::CutFault;
use crate::cutting::catalogues;
use crate::nested::nested;
use crate::region::{cuts, region};
use crate::rows::rows;
use cv_base::{Attr, Items, NoMemory, Object, RepoPath};
use cv_rows::{Nested, Row};
use cv_tree::{Node, Part, Tree};
use std::alloc::Global;
use std::collections::BTreeMap;

/// A part that is to be set at a path below the root, with its cuts.
#[derive(Drop)]
pub struct Piece {
    /// A tree in which the part stands at the path, and nothing else but directories above.
    pub tree: Tree,
    /// The nodes of that tree, each with its path.
    pub entries: Items<(RepoPath, Node)>,
    /// The cuts at the path and below, those nested in another before it.
    pub cuts: Items<RepoPath>,
    /// What goes into the catalogue above, where no other cut but the root's stands above the path: what the part has outside its
    /// cuts, and the roots of these.
    pub region: Items<(RepoPath, Node)>,
}

/// What the catalogue above a part gets, and the part's own catalogues.
#[derive(Drop)]
pub struct PieceCut {
    /// The rows of the paths at the part's root and below that stand in no other cut, and of the cuts' roots.
    pub rows: Items<Row>,
    /// The nested entries of these cuts.
    pub nested: Items<Nested>,
    /// The catalogues of the part's cuts, those nested in another before it.
    pub catalogues: Items<Object>,
}

/// The attributes of directories that only lead to a part. No row is made of them.
const LEADING: Attr = Attr {
    mode: 0,
    mtime: 0,
    uid: 0,
    gid: 0,
};

/// A tree of directories alone, that of the path among them.
#[tactic(auto, using(crate::proofs::PieceLaws::no_files_more, crate::proofs::PieceLaws::no_files_single))]
fn leading(alloc: Global, path: &RepoPath) -> Result<Tree, NoMemory>
    ensures { IfOk result HasNoFiles }
{
    let mut tree = Tree::new(alloc, LEADING)?;
    let mut above = RepoPath::root(alloc);
    for name in path.names() {
        // The beginnings of a path keep its limits, and each stands in the one before, so that only memory may be wanting.
        let Ok(next) = above.with_name(alloc, name.as_str()) else {
            return Err(NoMemory);
        };
        let Ok(()) = tree.insert(&next, Node::Dir(LEADING)) else {
            return Err(NoMemory);
        };
        above = next;
    }
    Ok(tree)
}

/// An equal part.
fn copy(alloc: Global, part: &Part) -> Result<Part, NoMemory>
    ensures { IfOk result (λ made. made ≡ part.now) }
{
    Part::of_entries(alloc, part.entries(alloc)?)
}

/// An equal part, if there is one.
fn copy_some(alloc: Global, part: Option<&Part>) -> Result<Option<Part>, NoMemory>
    ensures { IfOk result (λ made. made ≡ option_copied part.entry) }
{
    match part {
        Some(part) => Ok(Some(copy(alloc, part)?)),
        None => Ok(None),
    }
}

/// A part whose root is a directory, as a tree.
#[tactic(auto, using(crate::proofs::PieceLaws::put_whole))]
pub fn whole(alloc: Global, part: &Part) -> Result<Tree, NoMemory>
    requires { IsTrue (is_directory (finmap.get part.now [])) }
    ensures { IfOk result (λ tree. tree ≡ part.now) }
{
    let mut tree = Tree::new(alloc, LEADING)?;
    let part = copy(alloc, part)?;
    match tree.replace(&RepoPath::root(alloc), Some(part)) {
        Ok(()) => Ok(tree),
        // At the root a part has its place.
        Err(_) => Err(NoMemory),
    }
}

/// A tree in which only the part stands at the path, or nothing where there is none, and directories above.
#[tactic(auto, using(crate::proofs::PieceLaws::fits_some))]
pub fn alone(alloc: Global, path: &RepoPath, part: Option<&Part>) -> Result<Tree, NoMemory>
    requires some { path.now ≢ [] }
    requires unmarked { ends_in marker path.now ≡ false }
    requires limits { FitsUnder path.now (nodes_of (option_copied part)) }
    ensures { IfOk result (λ tree. HasOnly tree path.now (nodes_of (option_copied part.entry))) }
{
    let mut tree = leading(alloc, path)?;
    let part = copy_some(alloc, part)?;
    match tree.replace(path, part) {
        Ok(()) => Ok(tree),
        // The path's parent is a directory.
        Err(_) => Err(NoMemory),
    }
}

/// Those of some paths that a path covers.
fn paths_within(
    alloc: Global,
    paths: &[RepoPath],
    path: &RepoPath,
) -> Result<Vec<RepoPath>, NoMemory>
    ensures { IfOk result (λ found. found.items ≡ filter (λ c. covers path.now c) paths.now) }
{
    let mut found = Vec::new(alloc);
    for one in paths {
        if path.covers(one) {
            found.push(one.copy(alloc)?)?;
        }
    }
    Ok(found)
}

/// Those of some entries that a path covers.
fn entries_within(
    alloc: Global,
    entries: &[(RepoPath, Node)],
    path: &RepoPath,
) -> Result<Vec<(RepoPath, Node)>, NoMemory>
    ensures { IfOk result (λ found. found.items ≡ filter (λ e. covers path.now e.0) entries.now) }
{
    let mut found = Vec::new(alloc);
    for entry in entries {
        if path.covers(&entry.0) {
            let one = (entry.0.copy(alloc)?, entry.1.copy(alloc)?);
            found.push(one)?;
        }
    }
    Ok(found)
}

/// The part that stands at a path of a tree, where no two paths of one region of it share a key. It is ready to be cut where the
/// tree has nothing else but directories above the path, as one of `alone` has.
pub fn piece_at(alloc: Global, tree: Tree, path: &RepoPath) -> Result<Piece, CutFault>
    ensures whole { IsTree tree }
    ensures piece { IfOk result (λ made. IsPiece made tree path.now) }
    ensures ready { IfOk result (λ made. (part : Nodes) → HasOnly tree path.now part → IsReady made) }
    ensures fault { IfErr result (IsSharedWithin tree path.now) }
{
    let entries = tree.entries(alloc)?;
    let all = cuts(alloc, &tree, &entries)?;
    let cuts = paths_within(alloc, &all, path)?;
    let root = RepoPath::root(alloc);
    let whole = region(alloc, &tree, &entries, &root)?;
    let region = entries_within(alloc, &whole, path)?;
    check_keys(alloc, &tree, &entries, &cuts)?;
    check_region(alloc, &region)?;
    Ok(Piece {
        tree,
        entries: Items::new(entries),
        cuts: Items::new(cuts),
        region: Items::new(region),
    })
}

/// Cuts a part: the rows and nested entries that the catalogue above gets, and the catalogues of the part's own cuts.
pub fn cut_piece(alloc: Global, piece: &Piece) -> Result<PieceCut, CutFault>
    requires { IsReady piece.now }
    ensures rows { IfOk result (λ made. made.rows ≡ map (row_in piece.now.tree []) piece.now.region) }
    ensures nested { IfOk result (λ made. made.nested ≡ map (λ e. nested_in piece.now.tree e.0) (filter (λ e. is_other piece.now.tree [] e.0) piece.now.region)) }
    ensures catalogues { IfOk result (λ made. made.catalogues ≡ map (catalogue_object piece.now.tree) piece.now.cuts) }
    ensures fits { OnOk result (All (λ c. IsFull piece.now.tree c → ⊥) piece.now.cuts) }
    ensures sizes { IfOk result (λ made. All (λ n. n.size ≤ OBJECT_LIMIT) made.nested) }
    ensures fault { IfErr result (IsFullAmong piece.now.tree piece.now.cuts) }
{
    let tree = &piece.tree;
    let root = RepoPath::root(alloc);
    let entries = piece.entries.as_slice();
    let region = piece.region.as_slice();
    let mut made = BTreeMap::new(alloc);
    let objects = catalogues(alloc, tree, entries, piece.cuts.as_slice(), &mut made)?;
    let rows = rows(alloc, tree, &root, region)?;
    let nested = nested(alloc, tree, &root, region, &made)?;
    Ok(PieceCut {
        rows: Items::new(rows),
        nested: Items::new(nested),
        catalogues: Items::new(objects),
    })
}
