//! Laws over the definitions alone: what a graft leaves on a shelf, and where the catalogues on the way to a path stand.
ghost use Rattle.std.specs.Prelude.{◌≡◌, ◌≢◌, Some, List, ℕ, IsTrue, Contains, true};
ghost use Rattle.sha1.specs.Sha1.{sha1};
ghost use Rattle.cv_base.specs.ObjectId.{object_id};
ghost use Rattle.cv_base.specs.Path.{Path, covers};
ghost use Rattle.cv_base.specs.declared.id.Kind.TheVariants.{Catalogue};
ghost use Rattle.cv_base.specs.declared.id.ObjectId.{ObjectId};
ghost use Rattle.cv_ports.specs.Shelf.{Shelf, HasMore};
ghost use Rattle.cv_tree.specs.Tree.{Nodes, IsTree, put};
ghost use Rattle.cv_tree.specs.Changes.{has_place};
ghost use Rattle.cv_cut.specs.Catalogues.{Fits, cat, root_of};
ghost use Rattle.cv_cut.specs.Means.{Means};
ghost use Rattle.cv_cut.specs.Above.{cuts_above, replaced};
ghost use Rattle.cv_cut.specs.Replaced.{FitsOver};
ghost use Rattle.cv_cut.specs.Opening.{MayFail};
ghost use Rattle.cv_cut.specs.Reached.{Place, ReachesCatalogue};
ghost use Rattle.cv_cut.specs.declared.load_fault.LoadFault.{LoadFault};
ghost use Rattle.cv_graft.specs.Placed.{HasContentsOf, HasObjects, placed_of};
ghost use Rattle.cv_graft.specs.Way.{BlamesWay, IsOnWay};

/// A replaced subtree leaves a tree, where the path's parent is a directory.
pub fn a_graft_is_a_tree()
    ensures { (t n : Nodes) (p : Path) → IsTree t → IsTree n → IsTrue (has_place t p) → IsTree (replaced t n p) }
{}

/// On a shelf that has at least what the first has, and the catalogues of the cuts properly above the path, the new root
/// means the new tree.
pub fn a_graft_means_its_tree()
    ensures { (shelf more : Shelf) (hash other : List ℕ) (t n : Nodes) (p : Path) → Means shelf hash t → Means shelf other n → has_place t p ≡ true → Fits (replaced t n p) → HasMore shelf more
        → ((c : Path) → Contains (cuts_above (replaced t n p) p) c → more (object_id (sha1 (cat (replaced t n p) c)) Catalogue) ≡ Some (cat (replaced t n p) c))
        → Means more (root_of (replaced t n p)) (replaced t n p) }
{}

/// A part is set: on a shelf that has at least what the first has, the catalogues that were added and the contents of the part's
/// files, the new root means the new tree.
pub fn a_placed_part_means_its_tree()
    ensures { (shelf more : Shelf) (hash : List ℕ) (t s : Nodes) (p : Path) → Means shelf hash t → IsTree (put t p s) → FitsOver (put t p s) p → HasMore shelf more
        → HasObjects more (placed_of (put t p s) p).added → HasContentsOf more s → Means more (root_of (put t p s)) (put t p s) }
{}

/// A catalogue on the way to a path stands properly above it, and is reached from the root. What blames the way is therefore a
/// fault of what the root reaches.
pub fn the_way_is_above_and_reached()
    ensures above { (shelf : Shelf) (root : List ℕ) (p : Path) (hash : List ℕ) (place : Place) → IsOnWay shelf root p hash place → (covers place.path p ≡ true) × (p ≢ place.path) }
    ensures reached { (shelf : Shelf) (root : List ℕ) (p : Path) (hash : List ℕ) (place : Place) → IsOnWay shelf root p hash place → ReachesCatalogue shelf root hash place }
    ensures fault { (shelf : Shelf) (root : List ℕ) (p : Path) (f : LoadFault) → BlamesWay shelf root p f → MayFail shelf root f }
{}
