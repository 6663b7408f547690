//! What follows from the definition of an overlay.
ghost use Rattle.std.specs.Prelude.{◌≡◌, ◌++◌, ◌∷◌, ℕ, List, [], true, false, is_some, Some, None};
ghost use Rattle.std.specs.FinMap.{get};
ghost use Rattle.cv_base.specs.Path.{Path};
ghost use Rattle.cv_tree.specs.Tree.{Nodes};
ghost use Rattle.cv_tree.specs.declared.node.Node.{Node as TheNode};
ghost use Rattle.cv_overlay.specs.Overlay.{named, is_leaf, hidden, root_of, over_at, over};
ghost use Rattle.cv_overlay.specs.Whiteout.{whiteout, opaque};

/// The part that changes make of a base, path by path: the root is a directory; elsewhere stands what the folder names there,
/// else what the base has there and the changes don't hide.
pub fn overlays_go_path_by_path()
    ensures at { (b c : Nodes) (now : ℕ) (q : Path) → get (over b c now) q ≡ over_at b c now q }
    ensures root { (b c : Nodes) (now : ℕ) → get (over b c now) [] ≡ Some (root_of (get b []) now) }
    ensures named { (b c : Nodes) (now : ℕ) (name : List ℕ) (names : Path) (n : TheNode)
        → named c (name ∷ names) ≡ Some n → get (over b c now) (name ∷ names) ≡ Some n }
    ensures hidden { (b c : Nodes) (now : ℕ) (name : List ℕ) (names : Path)
        → named c (name ∷ names) ≡ None → hidden c (name ∷ names) ≡ true → get (over b c now) (name ∷ names) ≡ None }
    ensures kept { (b c : Nodes) (now : ℕ) (name : List ℕ) (names : Path)
        → named c (name ∷ names) ≡ None → hidden c (name ∷ names) ≡ false
        → get (over b c now) (name ∷ names) ≡ get b (name ∷ names) }
{}

/// What hides an entry of the base, and all below it: an opaque directory, a whiteout of its name, and a file or link in its
/// place.
pub fn changes_hide_what_they_replace()
    ensures opaque { (c : Nodes) (p : Path) (name : List ℕ) (names : Path)
        → is_some (get c (p ++ opaque ∷ [])) ≡ true → hidden c (p ++ name ∷ names) ≡ true }
    ensures whited_out { (c : Nodes) (p : Path) (name : List ℕ) (names : Path)
        → is_some (get c (p ++ (whiteout ++ name) ∷ [])) ≡ true → hidden c (p ++ name ∷ names) ≡ true }
    ensures replaced { (c : Nodes) (p : Path) (name : List ℕ) (names : Path)
        → is_leaf (named c (p ++ name ∷ [])) ≡ true → hidden c (p ++ name ∷ names) ≡ true }
{}
