//! Laws over the definitions alone: what a hash means.
ghost use Rattle.std.specs.Prelude.{◌≡◌, ◌⊎◌, ℕ, List, true, false, IsTrue};
ghost use Rattle.sha1.specs.Sha1.{sha1};
ghost use Rattle.cv_base.specs.Path.{Path};
ghost use Rattle.cv_base.specs.declared.id.ObjectId.{ObjectId};
ghost use Rattle.cv_ports.specs.Shelf.{Shelf, IsShelf, HasMore};
ghost use Rattle.cv_tree.specs.Tree.{Nodes};
ghost use Rattle.cv_cut.specs.Means.{Means};
ghost use Rattle.cv_cut.specs.Reached.{Lacking, Bad, root_place, Place, HasCatalogue, Reaches, LackingFrom, BadFrom};
ghost use Rattle.cv_load.specs.Answers.{IsMeasured};
ghost use Rattle.cv_load.specs.Known.{is_known, with_pair, HasPair, AreKnown, AreWhole};
ghost use Rattle.cv_load.specs.NewFetches.{FetchesNew};
ghost use Rattle.cv_load.specs.declared.known_set.KnownSet.{KnownSet};
ghost use Rattle.cv_cut.specs.Cuts.{is_cut};
ghost use Rattle.cv_cut.specs.Catalogues.{cat};
ghost use Rattle.cv_rows.specs.Catalogue.{Contents};
ghost use Rattle.cv_cut.specs.Opening.{IsDamaged, IsDamagedFrom};
ghost use Rattle.cv_cut.specs.Good.{IsGood, IsWholeAt};

/// On a shelf a hash means one tree at most.
pub fn a_hash_means_one_tree()
    ensures { (shelf : Shelf) (hash : List ℕ) (t u : Nodes) → Means shelf hash t → Means shelf hash u → t ≡ u }
{}

/// Where a hash means a tree, no object that is reached is lacking, and no catalogue is bad or damaged.
///
/// So on a shelf that tells what it holds, [`load`](crate::load) answers Ok, Failed or NoMemory where the hash means a tree;
/// and each other fault shows that the hash means none.
pub fn nothing_is_in_the_way()
    ensures lacking { (shelf : Shelf) (hash : List ℕ) (t : Nodes) → Means shelf hash t → (x : ObjectId) → Lacking shelf hash x → ⊥ }
    ensures bad { (shelf : Shelf) (hash : List ℕ) (t : Nodes) → Means shelf hash t → (x : ObjectId) → Bad shelf hash x → ⊥ }
    ensures damaged { (shelf : Shelf) (hash : List ℕ) (t : Nodes) → Means shelf hash t → (id : ObjectId) (found : List ℕ) → IsDamaged shelf hash id found → ⊥ }
{}

/// On a shelf whose bytes have the hashes of their ids the tree that a load gives is the one that the hash means.
pub fn a_measured_tree_is_meant()
    ensures { (shelf : Shelf) (hash : List ℕ) (t : Nodes) → IsShelf shelf → IsMeasured shelf hash t → Means shelf hash t }
{}

/// A good root means a tree, on a shelf whose bytes have the hashes of their ids.
pub fn a_good_root_means_a_tree()
    ensures { (shelf : Shelf) (hash : List ℕ) → IsShelf shelf → IsGood shelf hash root_place → (t : Nodes) × Means shelf hash t }
{}

/// A root that means a tree is good, and so is each cut of that tree at its path.
pub fn a_meant_root_is_good()
    ensures root { (shelf : Shelf) (hash : List ℕ) (t : Nodes) → Means shelf hash t → IsGood shelf hash root_place }
    ensures cuts { (shelf : Shelf) (hash : List ℕ) (t : Nodes) → Means shelf hash t → (p : Path) → IsTrue (is_cut t p) → IsWholeAt shelf (sha1 (cat t p)) p }
{}

/// What is good stays good while the shelf grows.
pub fn a_good_catalogue_stays_good()
    ensures { (old new : Shelf) (hash : List ℕ) (place : Place) → HasMore old new → IsGood old hash place → IsGood new hash place }
{}

/// What a good catalogue reaches is good; nothing of it is lacking, and none of its catalogues is bad or damaged.
///
/// So on any shelf that tells what it holds, [`whole`](crate::whole) answers Ok, Failed or NoMemory where the root is good
/// and the known pairs are whole; and each other fault shows that the root isn't good.
pub fn a_good_catalogue_reaches_good_ones()
    ensures below { (shelf : Shelf) (from hash : List ℕ) (start place : Place) → IsGood shelf from start → Reaches shelf from start hash place → IsGood shelf hash place }
    ensures lacking { (shelf : Shelf) (from : List ℕ) (start : Place) (x : ObjectId) → IsGood shelf from start → LackingFrom shelf from start x → ⊥ }
    ensures bad { (shelf : Shelf) (from : List ℕ) (start : Place) (x : ObjectId) → IsGood shelf from start → BadFrom shelf from start x → ⊥ }
    ensures damaged { (shelf : Shelf) (from : List ℕ) (start : Place) (id : ObjectId) (found : List ℕ) → IsGood shelf from start → IsDamagedFrom shelf from start id found → ⊥ }
{}

/// A whole pair is good at each place of its path that it fits, and what is good is whole at its path.
pub fn a_whole_pair_is_good_where_it_fits()
    ensures fits { (shelf : Shelf) (hash : List ℕ) (place : Place) (c : Contents) → IsWholeAt shelf hash place.path → HasCatalogue shelf hash place c → IsGood shelf hash place }
    ensures path { (shelf : Shelf) (hash : List ℕ) (place : Place) → IsGood shelf hash place → IsWholeAt shelf hash place.path }
{}

/// Known pairs stay whole while the shelf grows, and where a whole pair is added, or more of them.
pub fn known_pairs_stay_whole()
    ensures grown { (old new : Shelf) (known : KnownSet) → HasMore old new → AreKnown old known → AreKnown new known }
    ensures added { (shelf : Shelf) (old new : KnownSet) (hash : List ℕ) (path : Path) → IsWholeAt shelf hash path → ((h : List ℕ) (p : Path) → is_known new h p ≡ with_pair hash path h p (is_known old h p)) → AreKnown shelf old → AreKnown shelf new }
    ensures more { (shelf : Shelf) (old new : KnownSet) (pairs : List (ObjectId × Path)) → AreWhole shelf pairs → ((h : List ℕ) (p : Path) → is_known new h p ≡ true → (is_known old h p ≡ true) ⊎ HasPair pairs h p) → AreKnown shelf old → AreKnown shelf new }
{}

/// What is reached through unknown catalogues is reached where none is known: under a known set nothing is fetched that
/// wouldn't be under an empty one.
pub fn a_known_set_adds_no_fetch()
    ensures { (shelf : Shelf) (known none : KnownSet) (root : List ℕ) (before after : ℕ) → ((h : List ℕ) (p : Path) → is_known none h p ≡ false) → FetchesNew shelf known root before after → FetchesNew shelf none root before after }
{}
