//! What files stand for while a repository is made, opened and published in.
ghost use Rattle.std.specs.Prelude.{◌≡◌, ◌≢◌, ◌++◌, ◌∷◌, [], ◌⊎◌, ◌+◌, ℕ, Bool, List, Result, None, Some, Err};
ghost use Rattle.cv_base.specs.declared.object.Object.{Object};
ghost use Rattle.cv_base.specs.Moment.{IsMoment};
ghost use Rattle.cv_ports.specs.Shelf.{Shelf, IsShelf};
ghost use Rattle.cv_cut.specs.Catalogues.{cat};
ghost use Rattle.cv_cut.specs.Cut.{catalogue_object};
ghost use Rattle.cv_vault.specs.Names.{on_way};
ghost use Rattle.cv_vault.specs.Disk.{Disk, Files, Image, IsCalm, files_now};
ghost use Rattle.cv_vault.specs.Walks.{Gains, Within, Nothing, ComesTo};
ghost use Rattle.cv_vault.specs.Replace.{IsSure, IsOther};
ghost use Rattle.cv_objects.specs.Names.{objects_of, standing_on};
ghost use Rattle.cv_base.specs.Objects.{AreNamed};
ghost use Rattle.cv_objects.specs.Batches.{Brings, HaveHashes};
ghost use Rattle.cv_swap.specs.Kept.{AreSound, IsRevision, Kept, Revision, head_of, raised, record_object, with_new};
ghost use Rattle.cv_swap.specs.First.{first_revision, first_tree};
ghost use Rattle.cv_swap.specs.Init.{InitLeaves, StandsFirst};
ghost use Rattle.cv_swap.specs.Stands.{Stands, HasRevisions, AddObjects, CanCome, CanBegin, first_kept, head_name, head_on, epoch_name, epoch_text};
ghost use Rattle.cv_swap.specs.Opening.{AsRaised, IsFound, IsOf, IsOpened, MayRefuse, Opened, Refuses};
ghost use Rattle.cv_swap.specs.Publishing.{BringsFirst};
ghost use Rattle.cv_swap.specs.declared.found.Found.{Found};
ghost use Rattle.cv_swap.specs.declared.init_fault.InitFault.{InitFault};
ghost use Rattle.cv_swap.specs.declared.open_fault.OpenFault.{OpenFault};
ghost use Rattle.cv_swap.specs.declared.open_fault.OpenFault.TheVariants as fault;

/// Files that stand for what is kept are opened with just that, and refused by the last epoch alone.
pub fn opening_finds_what_is_kept()
    ensures found { (name : List ℕ) (is_seal : List ℕ → List ℕ → Bool) (f : Files) (k : Kept) (found : Found) → Stands name is_seal f k → IsFound name is_seal f found → IsOf k found }
    ensures refused { (name : List ℕ) (is_seal : List ℕ → List ℕ → Bool) (f : Files) (k : Kept) (fault : OpenFault) → Stands name is_seal f k → Refuses name is_seal f fault → MayRefuse fault }
{}

/// A crash while the epoch is raised leaves what was kept, opened once more or not; and then each image stands for it opened once more.
pub fn opening_keeps_what_is_kept()
    ensures leaves { (name : List ℕ) (is_seal : List ℕ → List ℕ → Bool) (d : Disk) (f : Files) (k : Kept) → Stands name is_seal (files_now d) k → AsRaised d f → Stands name is_seal f k ⊎ Stands name is_seal f (raised k) }
    ensures makes { (name : List ℕ) (is_seal : List ℕ → List ℕ → Bool) (d d' : Disk) (k : Kept) (found : Found) → Stands name is_seal (files_now d) k → IsFound name is_seal (files_now d) found → IsOpened d found d'
        → (f : Files) → Image d' f → Stands name is_seal f (raised k) }
{}

/// After an opening that failed the files as they stand are what was kept, opened once more or not. After want of memory, and where
/// the epoch is the last one, each image stands for what was kept.
pub fn failed_openings_keep_what_is_kept()
    ensures failed { (name : List ℕ) (is_seal : List ℕ → List ℕ → Bool) (d d' : Disk) (k : Kept) → Stands name is_seal (files_now d) k → Opened d (Err fault.Failed) d'
        → Stands name is_seal (files_now d') k ⊎ Stands name is_seal (files_now d') (raised k) }
    ensures memory { (name : List ℕ) (is_seal : List ℕ → List ℕ → Bool) (d d' : Disk) (k : Kept) → Stands name is_seal (files_now d) k → Opened d (Err fault.NoMemory) d' → (f : Files) → Image d' f → Stands name is_seal f k }
    ensures spent { (name : List ℕ) (is_seal : List ℕ → List ℕ → Bool) (d d' : Disk) (k : Kept) → Stands name is_seal (files_now d) k → Opened d (Err fault.EpochsSpent) d' → (f : Files) → Image d' f → Stands name is_seal f k }
{}

/// A crash while a revision is prepared leaves what it might have left before, with some objects of the batch more, head and epoch as
/// they were: so where each crash left these revisions, each leaves them.
pub fn preparing_keeps_what_is_kept()
    ensures adds { (d : Disk) (batch : List Object) (f : Files) → AreNamed batch → Within on_way (Brings d batch) d f → (g : Files) × Image d g × AddObjects batch g f }
    ensures leaves { (name : List ℕ) (is_seal : List ℕ → List ℕ → Bool) (d : Disk) (batch : List Object) (history : List Revision) (epoch : ℕ) → AreNamed batch → ((g : Files) → Image d g → HasRevisions name is_seal history epoch g)
        → (f : Files) → Within on_way (Brings d batch) d f → HasRevisions name is_seal history epoch f }
    ensures makes { (name : List ℕ) (is_seal : List ℕ → List ℕ → Bool) (d d' : Disk) (batch : List Object) (history : List Revision) (epoch : ℕ) → AreNamed batch → ((g : Files) → Image d g → HasRevisions name is_seal history epoch g)
        → Gains on_way (Brings d batch) d d' → (f : Files) → Image d' f → HasRevisions name is_seal history epoch f }
    ensures now { (name : List ℕ) (is_seal : List ℕ → List ℕ → Bool) (d d' : Disk) (batch : List Object) (k : Kept) → AreNamed batch → Stands name is_seal (files_now d) k → Gains on_way (Brings d batch) d d'
        → Stands name is_seal (files_now d') (record k { shelf = standing_on d' }) }
    ensures settled { (name : List ℕ) (is_seal : List ℕ → List ℕ → Bool) (d : Disk) (k : Kept) → IsCalm d → Stands name is_seal (files_now d) k → (g : Files) → Image d g → HasRevisions name is_seal k.history k.epoch g }
{}

/// With objects more, the files stand for the same revisions.
pub fn more_objects_keep_revisions()
    ensures { (name : List ℕ) (is_seal : List ℕ → List ℕ → Bool) (batch : List Object) (history : List Revision) (epoch : ℕ) (g f : Files) → AreNamed batch → AddObjects batch g f
        → HasRevisions name is_seal history epoch g → HasRevisions name is_seal history epoch f }
{}

/// From a settled disk without a manifest, and with no damaged object, a crash while a repository is made, whatever that answers, leaves no
/// manifest, or the whole of the first revision.
pub fn making_leaves_none_or_the_whole()
    ensures { (name : List ℕ) (is_seal : List ℕ → List ℕ → Bool) (now : ℕ) (d : Disk) (made : Result (Unit {0}) InitFault) (f : Files) → IsCalm d → (d head_name).now ≡ None → HaveHashes (files_now d)
        → InitLeaves name is_seal now d made f → (f head_name ≡ None) ⊎ StandsFirst name is_seal now f }
{}

/// The first revision is sound on each shelf with its catalogue and its record.
pub fn first_revisions_are_sound()
    ensures { (shelf : Shelf) (now : ℕ) → IsMoment now → IsShelf shelf → shelf (catalogue_object (first_tree now) []).id ≡ Some (cat (first_tree now) [])
        → shelf (record_object (first_revision now)).id ≡ Some (record_object (first_revision now)).bytes → AreSound shelf (first_revision now ∷ []) }
{}

/// What holds of a shelf and of revisions with one more holds of them.
pub fn sound_revisions_were_sound()
    ensures { (shelf : Shelf) (history : List Revision) (new : Revision) → history ≢ [] → AreSound shelf (history ++ new ∷ []) → AreSound shelf history }
{}

/// A crash while a head is swapped in leaves the old one or the new one, each with all that it reaches; and then each image has the new one.
pub fn swaps_keep_revisions()
    ensures leaves { (name : List ℕ) (is_seal : List ℕ → List ℕ → Bool) (d : Disk) (k : Kept) (new : Revision) (manifest : List ℕ) → IsCalm d → Stands name is_seal (files_now d) k → CanCome name is_seal k new manifest
        → (f : Files) → Within on_way (ComesTo head_name (Some manifest)) d f → Stands name is_seal f k ⊎ Stands name is_seal f (with_new k new) }
    ensures makes { (name : List ℕ) (is_seal : List ℕ → List ℕ → Bool) (d d' : Disk) (k : Kept) (new : Revision) (manifest : List ℕ) → IsCalm d → Stands name is_seal (files_now d) k → CanCome name is_seal k new manifest
        → Gains on_way (ComesTo head_name (Some manifest)) d d' → IsSure head_name manifest d' → (f : Files) → Image d' f → Stands name is_seal f (with_new k new) }
{}

/// The same of a disk that may not be settled: where each crash left these revisions, and the new one may come on the shelf of each, a
/// crash while its head is swapped in leaves them, or them and the new one; and then each image has the new one.
pub fn swaps_keep_what_each_crash_left()
    ensures leaves { (name : List ℕ) (is_seal : List ℕ → List ℕ → Bool) (d : Disk) (history : List Revision) (epoch : ℕ) (new : Revision) (manifest : List ℕ) → ((g : Files) → Image d g → HasRevisions name is_seal history epoch g)
        → ((g : Files) → Image d g → CanCome name is_seal (record { history = history; shelf = objects_of g; epoch = epoch }) new manifest)
        → (f : Files) → Within on_way (ComesTo head_name (Some manifest)) d f → HasRevisions name is_seal history epoch f ⊎ HasRevisions name is_seal (history ++ new ∷ []) epoch f }
    ensures makes { (name : List ℕ) (is_seal : List ℕ → List ℕ → Bool) (d d' : Disk) (history : List Revision) (epoch : ℕ) (new : Revision) (manifest : List ℕ) → ((g : Files) → Image d g → HasRevisions name is_seal history epoch g)
        → ((g : Files) → Image d g → CanCome name is_seal (record { history = history; shelf = objects_of g; epoch = epoch }) new manifest)
        → Gains on_way (ComesTo head_name (Some manifest)) d d' → IsSure head_name manifest d' → (f : Files) → Image d' f → HasRevisions name is_seal (history ++ new ∷ []) epoch f }
{}

/// A crash while a first revision is made leaves no manifest, or the whole of it; and then each image stands for it.
pub fn a_first_revision_comes_whole()
    ensures before { (d : Disk) (batch : List Object) (f : Files) → IsCalm d → (d head_name).now ≡ None → Within on_way (BringsFirst d batch) d f → f head_name ≡ None }
    ensures between { (d d1 : Disk) (batch : List Object) → (d head_name).now ≡ None → Gains on_way (BringsFirst d batch) d d1 → (d1 head_name).now ≡ None }
    ensures leaves { (name : List ℕ) (is_seal : List ℕ → List ℕ → Bool) (d : Disk) (first : Revision) (manifest : List ℕ) → IsSure epoch_name (epoch_text 0) d → (d head_name).now ≡ None → CanBegin name is_seal d first manifest
        → (f : Files) → Within on_way (ComesTo head_name (Some manifest)) d f → (f head_name ≡ None) ⊎ Stands name is_seal f (first_kept d first) }
    ensures makes { (name : List ℕ) (is_seal : List ℕ → List ℕ → Bool) (d d' : Disk) (first : Revision) (manifest : List ℕ) → IsSure epoch_name (epoch_text 0) d → CanBegin name is_seal d first manifest
        → Gains on_way (ComesTo head_name (Some manifest)) d d' → IsSure head_name manifest d' → (f : Files) → Image d' f → Stands name is_seal f (first_kept d first) }
{}

/// The head of a revision is the head of its record, whose root catalogue stands on the shelf.
pub fn heads_are_on_the_shelf()
    ensures { (shelf : Shelf) (r : Revision) → IsRevision shelf r → head_on shelf r.record_ ≡ head_of r }
{}

/// A swap that failed, and then a look that settles it: at each moment there is the old revision or the new one, with all that it reaches;
/// and it is the new one exactly where the head's file is its manifest.
pub fn recovering_settles_a_swap()
    ensures leaves { (name : List ℕ) (is_seal : List ℕ → List ℕ → Bool) (d d1 : Disk) (k : Kept) (new : Revision) (manifest : List ℕ) → IsCalm d → Stands name is_seal (files_now d) k → CanCome name is_seal k new manifest
        → Gains on_way (ComesTo head_name (Some manifest)) d d1 → (f : Files) → Within on_way Nothing d1 f → Stands name is_seal f k ⊎ Stands name is_seal f (with_new k new) }
    ensures made { (name : List ℕ) (is_seal : List ℕ → List ℕ → Bool) (d d1 d2 : Disk) (k : Kept) (new : Revision) (manifest : List ℕ) → IsCalm d → Stands name is_seal (files_now d) k → CanCome name is_seal k new manifest
        → Gains on_way (ComesTo head_name (Some manifest)) d d1 → Gains on_way Nothing d1 d2 → IsSure head_name manifest d2 → (f : Files) → Image d2 f → Stands name is_seal f (with_new k new) }
    ensures unmade { (name : List ℕ) (is_seal : List ℕ → List ℕ → Bool) (d d1 d2 : Disk) (k : Kept) (manifest : List ℕ) → IsCalm d → Stands name is_seal (files_now d) k
        → Gains on_way (ComesTo head_name (Some manifest)) d d1 → Gains on_way Nothing d1 d2 → IsOther head_name manifest d2 → (f : Files) → Image d2 f → Stands name is_seal f k }
{}
