//! What follows from the definitions of a client's answer.
ghost use Rattle.std.specs.Prelude.{◌≡◌, ◌≤◌, ◌<◌, ◌+◌, ◌*◌, ◌&&◌, ◌⊎◌, ◌↔◌, ℕ, Bool, true, false, suc, List, [], ◌∷◌, ◌++◌, length, codes, Option, Some, None, Ok};
ghost use Rattle.std.specs.FinMap.{get};
ghost use Rattle.cv_base.specs.Path.{Path, parent};
ghost use Rattle.cv_base.specs.PathText.{parts_of};
ghost use Rattle.cv_base.specs.declared.attr.Attr.{Attr as TheAttr};
ghost use Rattle.cv_base.specs.declared.target.TheConstants.{TARGET_LIMIT};
ghost use Rattle.cv_tree.specs.Tree.{Nodes, is_directory};
ghost use Rattle.cv_tree.specs.declared.node.Node.TheVariants as node;
ghost use Rattle.cv_tree.specs.declared.node.FileRef.{FileRef as TheFile};
ghost use Rattle.cv_base.specs.declared.id.ObjectId.{ObjectId as TheId};
ghost use Rattle.cv_resolver.specs.Kept.{Kept, AreKept};
ghost use Rattle.cv_resolver.specs.Stage.{wanted_by, IsBlameless};
ghost use Rattle.cv_resolver.specs.Progress.{Begins, IsOver, IsUncached, wants_left};
ghost use Rattle.cv_resolver.specs.Grounds.{IsLastStep, IsUnder, WaitsUnder};
ghost use Rattle.cv_resolver.specs.Giving.{Blames, EndsBy, IsOther, IsUndecoded, Takes};
ghost use Rattle.cv_resolver.specs.declared.found.ClientFault.{ClientFault as TheFault};
ghost use Rattle.cv_resolver.specs.Asking.{path_of_question};
ghost use Rattle.cv_resolver.specs.declared.question.Question.{Question as TheQuestion};
ghost use Rattle.cv_resolver.specs.declared.start.TheConstants.{LINKS};
ghost use Rattle.sha1.specs.Sha1.{sha1};
ghost use Rattle.cv_resolver.specs.declared.walk.Walk.{Walk as TheWalk};
ghost use Rattle.cv_resolver.specs.declared.stage.Stage.{Stage as TheStage};
ghost use Rattle.cv_resolver.specs.declared.stage.Stage.TheVariants as stage;
ghost use Rattle.cv_resolver.specs.declared.found.Found.TheVariants as found;
ghost use Rattle.cv_resolver.specs.declared.found.ClientFault.TheVariants as fault;
ghost use Rattle.cv_resolver.specs.Walk.{Name, NotFound, NotDirectory, TooManyLinks, ends, arrives, from, is_idle, is_up, is_last, lead_of, walk};

/// A walk goes on name by name: over empty names and `.`, up at `..`, into an entry that is there.
pub fn walks_go_by_names()
    ensures done { (repository : List ℕ) (t : Nodes) (stays : Bool) (links : ℕ) (p : Path)
        → walk repository t stays links [] p ≡ arrives p }
    ensures idle { (repository : List ℕ) (t : Nodes) (stays : Bool) (links : ℕ) (name : Name) (names : List Name) (p : Path)
        → is_idle name ≡ true → walk repository t stays links (name ∷ names) p ≡ walk repository t stays links names p }
    ensures file { (repository : List ℕ) (t : Nodes) (stays : Bool) (links : ℕ) (name : Name) (names : List Name) (p : Path)
        → is_idle name ≡ false → is_directory (get t p) ≡ false
        → walk repository t stays links (name ∷ names) p ≡ ends p NotDirectory }
    ensures up { (repository : List ℕ) (t : Nodes) (stays : Bool) (links : ℕ) (name : Name) (names : List Name) (p : Path)
        → is_idle name ≡ false → is_directory (get t p) ≡ true → is_up name ≡ true
        → walk repository t stays links (name ∷ names) p ≡ from p (walk repository t stays links names (parent p)) }
    ensures nothing { (repository : List ℕ) (t : Nodes) (stays : Bool) (links : ℕ) (name : Name) (names : List Name) (p : Path)
        → is_idle name ≡ false → is_directory (get t p) ≡ true → is_up name ≡ false → get t (p ++ name ∷ []) ≡ None
        → walk repository t stays links (name ∷ names) p ≡ ends p NotFound }
    ensures directory { (repository : List ℕ) (t : Nodes) (stays : Bool) (links : ℕ) (name : Name) (names : List Name) (p : Path)
        (attr : TheAttr) → is_idle name ≡ false → is_directory (get t p) ≡ true → is_up name ≡ false
        → get t (p ++ name ∷ []) ≡ Some (node.Dir attr)
        → walk repository t stays links (name ∷ names) p ≡ from p (walk repository t stays links names (p ++ name ∷ [])) }
    ensures content { (repository : List ℕ) (t : Nodes) (stays : Bool) (links : ℕ) (name : Name) (names : List Name) (p : Path)
        (attr : TheAttr) (file : TheFile) → is_idle name ≡ false → is_directory (get t p) ≡ true → is_up name ≡ false
        → get t (p ++ name ∷ []) ≡ Some (node.File attr file)
        → walk repository t stays links (name ∷ names) p ≡ from p (walk repository t stays links names (p ++ name ∷ [])) }
{}

/// A walk that meets a link stays there, where it is the last name and isn't to be followed; else it goes on where the
/// target leads, with one link less, and ends where no link is left.
pub fn walks_follow_links()
    ensures stays { (repository : List ℕ) (t : Nodes) (stays : Bool) (links : ℕ) (name : Name) (names : List Name) (p : Path)
        (attr : TheAttr) (target : List ℕ) → is_idle name ≡ false → is_directory (get t p) ≡ true → is_up name ≡ false
        → get t (p ++ name ∷ []) ≡ Some (node.Link attr target) → (is_last names && stays) ≡ true
        → walk repository t stays links (name ∷ names) p ≡ from p (arrives (p ++ name ∷ [])) }
    ensures leads { (repository : List ℕ) (t : Nodes) (stays : Bool) (links : ℕ) (name : Name) (names : List Name) (p : Path)
        (attr : TheAttr) (target : List ℕ) (start : Path) (more : List Name)
        → is_idle name ≡ false → is_directory (get t p) ≡ true → is_up name ≡ false
        → get t (p ++ name ∷ []) ≡ Some (node.Link attr target) → (is_last names && stays) ≡ false
        → lead_of repository p (parts_of target) ≡ Some (start, more)
        → walk repository t stays (suc links) (name ∷ names) p ≡ from p (walk repository t stays links (more ++ names) start) }
    ensures nowhere { (repository : List ℕ) (t : Nodes) (stays : Bool) (links : ℕ) (name : Name) (names : List Name) (p : Path)
        (attr : TheAttr) (target : List ℕ) → is_idle name ≡ false → is_directory (get t p) ≡ true → is_up name ≡ false
        → get t (p ++ name ∷ []) ≡ Some (node.Link attr target) → (is_last names && stays) ≡ false
        → lead_of repository p (parts_of target) ≡ None
        → walk repository t stays (suc links) (name ∷ names) p ≡ from p (ends p NotFound) }
    ensures too_many { (repository : List ℕ) (t : Nodes) (stays : Bool) (name : Name) (names : List Name) (p : Path)
        (attr : TheAttr) (target : List ℕ) → is_idle name ≡ false → is_directory (get t p) ≡ true → is_up name ≡ false
        → get t (p ++ name ∷ []) ≡ Some (node.Link attr target) → (is_last names && stays) ≡ false
        → walk repository t stays 0 (name ∷ names) p ≡ from p (ends p TooManyLinks) }
{}

/// NotServed comes just where nothing was given, BadObject just where bytes of another digest were, and BadCatalogue just
/// where bytes of the right digest don't decode at their place; there memory may be wanting instead. Each names the object
/// that was wanted, and none comes when a question is asked.
pub fn faults_tell_what_was_given()
    ensures asked { (r root : List ℕ) (q : TheQuestion) (k after : Kept) (s : TheStage) → Begins r root q k after s → IsBlameless s }
    ensures named { (r : List ℕ) (q : TheQuestion) (k after : Kept) (was s : TheStage) (given : Option (List ℕ)) (f : TheFault) (id : TheId)
        → Takes r q k was given after s → EndsBy s f → Blames f id → wanted_by was ≡ Some id }
    ensures not_served { (r : List ℕ) (q : TheQuestion) (k after : Kept) (was s : TheStage) (given : Option (List ℕ)) (id : TheId)
        → wanted_by was ≡ Some id → Takes r q k was given after s → EndsBy s (fault.NotServed id) ↔ (given ≡ None) }
    ensures bad_object { (r : List ℕ) (q : TheQuestion) (k after : Kept) (was s : TheStage) (given : Option (List ℕ)) (id : TheId)
        → wanted_by was ≡ Some id → (found : List ℕ) → Takes r q k was given after s → EndsBy s (fault.BadObject id found) ↔ IsOther given id found }
    ensures bad_catalogue { (r : List ℕ) (q : TheQuestion) (k after : Kept) (was s : TheStage) (given : Option (List ℕ)) (id : TheId)
        → wanted_by was ≡ Some id → Takes r q k was given after s → EndsBy s (fault.BadCatalogue id) → IsUndecoded was given }
    ensures undecoded { (r : List ℕ) (q : TheQuestion) (k after : Kept) (was s : TheStage) (given : Option (List ℕ)) (id : TheId)
        → wanted_by was ≡ Some id → Takes r q k was given after s → IsUndecoded was given → EndsBy s (fault.BadCatalogue id) ⊎ EndsBy s fault.NoMemory }
{}

/// A question comes to its answer: when it is asked, at most so many objects are wanted for it, a catalogue for each step that
/// its walk may make and for the place at which it arrives, and the content of a file; and each that is given leaves fewer.
pub fn questions_come_to_answers()
    ensures first { (r root : List ℕ) (q : TheQuestion) (k after : Kept) (s : TheStage) → Begins r root q k after s
        → wants_left s ≤ (TARGET_LIMIT + 2) * LINKS + length (path_of_question q) + 2 }
    ensures fewer { (r : List ℕ) (q : TheQuestion) (k after : Kept) (was s : TheStage) (given : Option (List ℕ)) → Takes r q k was given after s
        → wants_left s < wants_left was }
{}

/// No catalogue is wanted that is kept for its place.
pub fn what_is_kept_is_not_wanted()
    ensures asked { (r root : List ℕ) (q : TheQuestion) (k after : Kept) (s : TheStage) → Begins r root q k after s → IsUncached after s }
    ensures given { (r : List ℕ) (q : TheQuestion) (k after : Kept) (was s : TheStage) (given : Option (List ℕ)) → Takes r q k was given after s
        → IsUncached after s }
{}

/// Each catalogue that is kept has the digest that it is kept under. A walk that goes on waits in a directory; it began at the
/// root, with the names of the question's path, and has come step by step, by the rows of catalogues that are named one below
/// the other from the root: so it was when the question was asked, and so it stays, whatever is given.
pub fn walks_stay_under_their_root()
    ensures kept { (r root : List ℕ) (q : TheQuestion) (k after : Kept) (s : TheStage) → AreKept k.entries → Begins r root q k after s
        → AreKept after.entries }
    ensures still_kept { (r root : List ℕ) (q : TheQuestion) (k after : Kept) (was s : TheStage) (given : Option (List ℕ)) → AreKept k.entries
        → IsUnder r root q was → Takes r q k was given after s → AreKept after.entries }
    ensures asked { (r root : List ℕ) (q : TheQuestion) (k after : Kept) (s : TheStage) → AreKept k.entries → Begins r root q k after s
        → IsUnder r root q s }
    ensures given { (r root : List ℕ) (q : TheQuestion) (k after : Kept) (was s : TheStage) (given : Option (List ℕ)) → AreKept k.entries
        → IsUnder r root q was → Takes r q k was given after s → IsUnder r root q s }
{}

/// Whatever the catalogues say, an answer or a refusal is the last step of such a walk: it is what the rows say at this point in
/// the catalogue that was used last. But NotServed, BadObject and BadCatalogue tell of what was given, and NoMemory of memory. A
/// read is answered by bytes of the digest to which its walk has come.
pub fn answers_are_those_of_rows()
    ensures asked { (r root : List ℕ) (q : TheQuestion) (k after : Kept) (s : TheStage) → AreKept k.entries → Begins r root q k after s
        → IsOver s → (EndsBy s fault.NoMemory → ⊥) → IsLastStep r root q after s }
    ensures given { (r root : List ℕ) (q : TheQuestion) (k after : Kept) (w : TheWalk) (s : TheStage) (given : Option (List ℕ)) → AreKept k.entries
        → WaitsUnder r root q w → Takes r q k (stage.Walks w) given after s → IsOver s → IsBlameless s → (EndsBy s fault.NoMemory → ⊥)
        → IsLastStep r root q after s }
    ensures content { (r : List ℕ) (q : TheQuestion) (k after : Kept) (hash : List ℕ) (s : TheStage) (given : Option (List ℕ))
        → Takes r q k (stage.Reads hash) given after s → IsBlameless s
        → (bytes : List ℕ) × (s ≡ stage.Ends (Ok (found.Bytes bytes))) × (sha1 bytes ≡ hash) }
{}

/// Where targets of links lead, in a repository of the name r.
pub fn targets_lead_there()
    ensures relative { (p : Path) → lead_of (codes "r") p (parts_of (codes "../d/./f"))
        ≡ Some (p, codes ".." ∷ codes "d" ∷ codes "." ∷ codes "f" ∷ []) }
    ensures own { (p : Path) → lead_of (codes "r") p (parts_of (codes "/cvmfs/r")) ≡ Some ([], []) }
    ensures below { (p : Path) → lead_of (codes "r") p (parts_of (codes "/cvmfs/r/d/")) ≡ Some ([], codes "d" ∷ [] ∷ []) }
    ensures other { (p : Path) → lead_of (codes "r") p (parts_of (codes "/cvmfs/rr/d")) ≡ None }
    ensures doubled { (p : Path) → lead_of (codes "r") p (parts_of (codes "//cvmfs/r")) ≡ None }
    ensures top { (p : Path) → lead_of (codes "r") p (parts_of (codes "/")) ≡ None }
{}
