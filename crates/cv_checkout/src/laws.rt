//! What follows from the definitions of a checkout.
ghost use Rattle.std.specs.Prelude.{◌≡◌, ◌≤◌, ◌<◌, ◌↔◌, Bool, true, false, ℕ, List, [], ◌∷◌, length, Option, None, Some, Result, Err, IsErrOf};
ghost use Rattle.cv_base.specs.Path.{Path};
ghost use Rattle.cv_base.specs.Unless.{IsUnless};
ghost use Rattle.cv_base.specs.declared.id.ObjectId.{ObjectId as TheId};
ghost use Rattle.cv_tree.specs.Tree.{Nodes};
ghost use Rattle.cv_cut.specs.Own.{AreOwn};
ghost use Rattle.cv_checkout.specs.Wanting.{is_covered, next_of};
ghost use Rattle.cv_checkout.specs.Progress.{Progress};
ghost use Rattle.cv_checkout.specs.Giving.{Gives, IsOther, IsUnsuited, Takes};
ghost use Rattle.cv_checkout.specs.InTree.{IsOn, cuts_toward, left_in};
ghost use Rattle.cv_checkout.specs.declared.fault.CheckoutFault.{CheckoutFault as TheFault};
ghost use Rattle.cv_checkout.specs.declared.fault.CheckoutFault.TheVariants as fault;

/// NotServed comes just where nothing was given, BadObject just where bytes of another digest were, and BadCatalogue just where
/// bytes of the right digest suit no catalogue at their place; there memory may be wanting instead.
pub fn faults_tell_what_was_given()
    ensures not_served { (s new : Progress) (given : Option (List ℕ)) (r : Result (Unit {0}) TheFault) (id : TheId)
        → next_of s.wanted ≡ Some id → Gives s given new r → IsErrOf r (fault.NotServed id) ↔ (given ≡ None) }
    ensures bad_object { (s new : Progress) (given : Option (List ℕ)) (r : Result (Unit {0}) TheFault) (id : TheId) (found : List ℕ)
        → next_of s.wanted ≡ Some id → Gives s given new r → IsErrOf r (fault.BadObject id found) ↔ IsOther id given found }
    ensures bad_catalogue { (s new : Progress) (given : Option (List ℕ)) (r : Result (Unit {0}) TheFault) (id : TheId)
        → Gives s given new r → IsErrOf r (fault.BadCatalogue id) → IsUnsuited s given }
    ensures unsuited { (s new : Progress) (given : Option (List ℕ)) (r : Result (Unit {0}) TheFault) (id : TheId)
        → next_of s.wanted ≡ Some id → Gives s given new r → IsUnsuited s given
        → IsUnless fault.NoMemory r (Err (fault.BadCatalogue id)) }
{}

/// A checkout of a tree comes to its end: at most as many catalogues are left as the tree has cuts on the way to the path and at
/// and below it, and each that is taken leaves fewer.
pub fn a_checkout_comes_to_its_end()
    ensures most { (t : Nodes) (s : Progress) → left_in t s ≤ length (cuts_toward t s.path) }
    ensures fewer { (t : Nodes) (s new : Progress) (bytes : List ℕ) → IsOn t s → AreOwn t (bytes ∷ []) → Takes s bytes new → left_in t new < left_in t s }
{}

/// In a tree the catalogue of a cut that was taken is never wanted again: its path is neither wanted nor below what is, and
/// no path comes to be so.
pub fn nothing_is_wanted_twice()
    ensures taken { (t : Nodes) (s new : Progress) (bytes : List ℕ) → IsOn t s → AreOwn t (bytes ∷ [])
        → (takes : Takes s bytes new) → is_covered new.wanted takes.first.path ≡ false }
    ensures kept { (t : Nodes) (s new : Progress) (bytes : List ℕ) (q : Path) → IsOn t s → AreOwn t (bytes ∷ [])
        → Takes s bytes new → is_covered s.wanted q ≡ false → is_covered new.wanted q ≡ false }
{}
