//! Laws over the definitions alone: how the catalogues of a tree hang together.
ghost use Rattle.std.specs.Prelude.{◌≡◌, ◌≢◌, ℕ, ◌++◌, ◌∷◌, [], List, true, false, Some, None, IsSome, Contains, map, length};
ghost use Rattle.std.specs.FinMap.{get};
ghost use Rattle.sha1.specs.Sha1.{sha1};
ghost use Rattle.cv_base.specs.Marker.{marker, ends_in};
ghost use Rattle.cv_base.specs.ObjectId.{object_id};
ghost use Rattle.cv_base.specs.Path.{Path, overlap, covers};
ghost use Rattle.cv_base.specs.declared.id.ObjectId.{ObjectId as TheId};
ghost use Rattle.cv_base.specs.declared.id.Kind.TheVariants as id_kind;
ghost use Rattle.cv_ports.specs.Shelf.{Shelf, IsShelf, HasMore};
ghost use Rattle.cv_tree.specs.Changes.{has_place};
ghost use Rattle.cv_tree.specs.declared.node.Node.{Node as TheNode};
ghost use Rattle.cv_rows.specs.Made.{PassesLimit, in_order};
ghost use Rattle.cv_rows.specs.Renewed.{renewed};
ghost use Rattle.cv_rows.specs.Within.{IsWithin};
ghost use Rattle.cv_rows.specs.Without.{IsWithout};
ghost use Rattle.cv_tree.specs.Tree.{Nodes, IsTree, at, put};
ghost use Rattle.cv_rows.specs.Catalogue.{Contents};
ghost use Rattle.cv_rows.specs.Places.{StandsAt};
ghost use Rattle.cv_rows.specs.Row.{same_kind};
ghost use Rattle.cv_rows.specs.declared.row.Row.{Row as TheRow};
ghost use Rattle.cv_rows.specs.declared.nested.Nested.{Nested as TheNested};
ghost use Rattle.cv_rows.specs.declared.row_kind.RowKind.TheVariants as kind;
ghost use Rattle.cv_cut.specs.Cuts.{is_cut, is_near};
ghost use Rattle.cv_cut.specs.Catalogues.{row_file, entry_of, cat, catalogue_of, root_of, Fits, IsFull};
ghost use Rattle.cv_cut.specs.Reached.{Place, root_place, Decodes};
ghost use Rattle.cv_cut.specs.Told.{node_of, IsEntryOfCut};
ghost use Rattle.cv_cut.specs.Catalogues.{contents_of};
ghost use Rattle.cv_cut.specs.Over.{cuts_over, IsNearest};
ghost use Rattle.cv_cut.specs.Above.{cuts_above, OnWay, replaced};
ghost use Rattle.cv_cut.specs.Region.{FitsAtCut, IsNear, KeysApart, Passes, row_at};
ghost use Rattle.cv_cut.specs.Replaced.{Grafting, IsPassed, IsSound, Replacing};
ghost use Rattle.cv_cut.specs.Opening.{IsDamagedFrom};
ghost use Rattle.cv_cut.specs.Means.{Means};

/// A catalogue is the row file of its region, with the catalogues of the other cuts there.
pub fn catalogues_are_their_regions()
    ensures { (t : Nodes) (c : Path) → IsTree t → IsSome (get t c) → cat t c ≡ row_file c (at t c) (λ d. cat t (c ++ d)) }
{}

/// A subtree is replaced: the catalogues at places apart stay as they are.
pub fn catalogues_apart_stay()
    ensures { (t s : Nodes) (p c : Path) → overlap p c ≡ false → cat (put t p s) c ≡ cat t c }
{}

/// A subtree is replaced by that of another tree: the catalogues at its place and below are those of the other tree.
pub fn catalogues_below_come()
    ensures { (t n : Nodes) (p d : Path) → cat (put t p (at n p)) (p ++ d) ≡ cat n (p ++ d) }
{}

/// Of the cuts that cover a path, from the root on, the last is the nearest: what stands at the path is in its region.
pub fn the_last_cut_is_the_nearest()
    ensures { (t : Nodes) (p : Path) (front : List Path) (c : Path) → cuts_over t p ≡ front ++ c ∷ [] → IsNearest t c p }
{}

/// Each row of the catalogue of a cut whose keys are apart tells which node stands at its path, and whether another cut does;
/// and below a path of which the cut is the nearest, nothing stands where no row does.
pub fn rows_tell_the_tree()
    ensures node { (t : Nodes) → IsTree t → (c : Path) → is_cut t c ≡ true → KeysApart c (at t c) → (r : TheRow) (q : Path) → StandsAt c (contents_of t c).rows r q → get t q ≡ Some (node_of r) }
    ensures cut { (t : Nodes) → IsTree t → (c : Path) → is_cut t c ≡ true → KeysApart c (at t c) → (r : TheRow) (q : Path) → StandsAt c (contents_of t c).rows r q → q ≢ c → is_cut t q ≡ same_kind r.kind kind.Transition }
    ensures nothing { (t : Nodes) → IsTree t → (c : Path) → is_cut t c ≡ true → KeysApart c (at t c) → (p : Path) (name : List ℕ) → IsNearest t c p
        → ((r : TheRow) → StandsAt c (contents_of t c).rows r (p ++ name ∷ []) → ⊥) → get t (p ++ name ∷ []) ≡ None }
{}

/// The nested entries of the catalogue of a cut are those of other cuts; where its keys are apart each Transition row has one.
pub fn entries_name_the_cuts()
    ensures each { (t : Nodes) → IsTree t → (c : Path) → is_cut t c ≡ true → (n : TheNested) → Contains (contents_of t c).nested n → IsEntryOfCut t n }
    ensures all { (t : Nodes) → IsTree t → (c : Path) → is_cut t c ≡ true → KeysApart c (at t c) → (r : TheRow) (q : Path) → StandsAt c (contents_of t c).rows r q → r.kind ≡ kind.Transition
        → Contains (contents_of t c).nested (entry_of q (cat t q)) }
{}

/// A tree that fits its catalogues does so at each cut.
pub fn what_fits_does_so_at_each_cut()
    ensures { (t : Nodes) (c : Path) → is_cut t c ≡ true → Fits t → FitsAtCut t c }
{}

/// The catalogue of a cut at which the tree fits decodes alone at its place, and as nothing else.
pub fn catalogues_decode_alone()
    ensures root { (t : Nodes) → IsTree t → FitsAtCut t [] → Decodes root_place (cat t []) (contents_of t []) }
    ensures nested { (t : Nodes) → IsTree t → (c : Path) → is_cut t c ≡ true → KeysApart c (at t c) → (r : TheRow) (q : Path) → StandsAt c (contents_of t c).rows r q → r.kind ≡ kind.Transition
        → FitsAtCut t q → Decodes (record { path = q; row = Some r }) (cat t q) (contents_of t q) }
    ensures one { (place : Place) (bytes : List ℕ) (c d : Contents) → Decodes place bytes c → Decodes place bytes d → c ≡ d }
{}

/// In the catalogue of a cut whose keys are apart each path of the region has its row, and each row stands at such a path.
pub fn rows_stand_at_their_paths()
    ensures each { (t : Nodes) (c : Path) → IsTree t → is_cut t c ≡ true → KeysApart c (at t c) → (r : TheRow) (p : Path) → StandsAt c (contents_of t c).rows r p
        → (q : Path) × (n : TheNode) × IsNear (at t c) q n × (r ≡ row_at c (at t c) q n) × (p ≡ c ++ q) }
    ensures all { (t : Nodes) (c : Path) → IsTree t → is_cut t c ≡ true → KeysApart c (at t c) → (q : Path) (n : TheNode) → IsNear (at t c) q n
        → StandsAt c (contents_of t c).rows (row_at c (at t c) q n) (c ++ q) }
{}

/// From a cut above a path the way to it goes through the next cut, unless the cut itself holds the path.
pub fn the_way_goes_from_cut_to_cut()
    ensures { (t : Nodes) (p c r : Path) → OnWay t p c r → is_near (at t c) r ≡ false → (e : Path) × (f : Path) × Passes t p c r e f }
{}

/// A subtree is replaced: the cuts that its path doesn't cover stay, those above it and those apart; and those at the path and
/// below are those of the other tree.
pub fn cuts_stay_and_come()
    ensures outside { (t s : Nodes) (p c : Path) → ends_in marker p ≡ false → covers p c ≡ false → is_cut (put t p s) c ≡ is_cut t c }
    ensures inside { (t n : Nodes) (p q : Path) → is_cut (replaced t n p) (p ++ q) ≡ is_cut n (p ++ q) }
{}

/// A subtree is replaced by a part: the catalogues at its path and below are those of the part.
pub fn parts_come()
    ensures { (t s : Nodes) (p d : Path) → cat (put t p s) (p ++ d) ≡ catalogue_of (p ++ d) (at s d) }
{}

/// A subtree is replaced by that of another tree: the catalogue that holds its path is the old one without the path, with the
/// rows and entries that the other tree's has there, in order. It is full just where these pass a limit.
pub fn the_nearest_catalogue_changes()
    ensures contents { (t n : Nodes) (p c r d v : Path) → Grafting t n p c r d v → (rest : Contents) (rows : List TheRow) (nested : List TheNested) → IsWithout (contents_of t c) p rest → IsWithin (contents_of n d) p rows nested
        → ((a b : TheRow) → Contains rest.rows a → Contains rows b → a.key.0 ≢ b.key.0) → contents_of (replaced t n p) c ≡ in_order c (rest.rows ++ rows) (rest.nested ++ nested) }
    ensures full { (t n : Nodes) (p c r d v : Path) → Grafting t n p c r d v → (rest : Contents) (rows : List TheRow) (nested : List TheNested) → IsWithout (contents_of t c) p rest → IsWithin (contents_of n d) p rows nested
        → ((a b : TheRow) → Contains rest.rows a → Contains rows b → a.key.0 ≢ b.key.0) → PassesLimit (rest.rows ++ rows) (rest.nested ++ nested) → IsFull (replaced t n p) c }
    ensures not_full { (t n : Nodes) (p c r d v : Path) → Grafting t n p c r d v → (rest : Contents) (rows : List TheRow) (nested : List TheNested) → IsWithout (contents_of t c) p rest → IsWithin (contents_of n d) p rows nested
        → ((a b : TheRow) → Contains rest.rows a → Contains rows b → a.key.0 ≢ b.key.0) → (PassesLimit (rest.rows ++ rows) (rest.nested ++ nested) → ⊥) → IsFull (replaced t n p) c → ⊥ }
{}

/// A subtree is replaced: a catalogue further above changes in one nested entry, that of the next cut, and keeps its length. So
/// it comes to share no key and is full only where it was.
pub fn a_higher_catalogue_changes_in_one_entry()
    ensures contents { (t s : Nodes) (p c r e f : Path) → IsPassed t p s c r e f
        → contents_of (put t p s) c ≡ record (contents_of t c) { nested = map (renewed (c ++ e) (sha1 (cat (put t p s) (c ++ e))) (length (cat (put t p s) (c ++ e)))) (contents_of t c).nested } }
    ensures size { (t s : Nodes) (p c r e f : Path) → IsPassed t p s c r e f → length (cat (put t p s) c) ≡ length (cat t c) }
    ensures keys { (t s : Nodes) (p c r e f : Path) → IsPassed t p s c r e f → KeysApart c (at (put t p s) c) }
    ensures full { (t s : Nodes) (p c r e f : Path) → IsPassed t p s c r e f → IsFull (put t p s) c → IsFull t c }
{}

/// A subtree is replaced by that of another tree: where both trees fit, the new one does if its catalogue that holds the path
/// does.
pub fn a_replacement_fits()
    ensures { (t n : Nodes) (p c r : Path) → Replacing t n p c r → IsSound (Unit {0}) (replaced t n p) c → Fits (replaced t n p) }
{}

/// A hash means on a shelf that has more what it meant.
pub fn more_objects_mean_the_same()
    ensures { (shelf more : Shelf) (hash : List ℕ) (t : Nodes) → HasMore shelf more → Means shelf hash t → Means more hash t }
{}

/// A subtree is replaced by that of another tree: on a shelf that has more, and the catalogues of the cuts properly above the
/// path, the new root means the new tree.
pub fn a_replacement_is_meant()
    ensures { (shelf more : Shelf) (hash other : List ℕ) (t n : Nodes) (p : Path) → Means shelf hash t → Means shelf other n → has_place t p ≡ true → Fits (replaced t n p) → HasMore shelf more
        → ((c : Path) → Contains (cuts_above (replaced t n p) p) c → more (object_id (sha1 (cat (replaced t n p) c)) id_kind.Catalogue) ≡ Some (cat (replaced t n p) c))
        → Means more (root_of (replaced t n p)) (replaced t n p) }
{}

/// On a shelf whose bytes have the hashes of their ids nothing that is reached is damaged.
pub fn no_sound_shelf_is_damaged()
    ensures { (shelf : Shelf) (from : List ℕ) (start : Place) (id : TheId) (found : List ℕ) → IsShelf shelf → IsDamagedFrom shelf from start id found → ⊥ }
{}
