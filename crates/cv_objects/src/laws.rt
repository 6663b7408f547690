//! What a store means for the objects that stand on a disk.
ghost use Rattle.std.specs.Prelude.{◌≡◌, ◌⊎◌, ℕ, List};
ghost use Rattle.cv_base.specs.declared.id.ObjectId.{ObjectId};
ghost use Rattle.cv_base.specs.declared.object.Object.{Object};
ghost use Rattle.cv_ports.specs.Shelf.{Shelf, IsShelf};
ghost use Rattle.cv_vault.specs.Names.{on_way};
ghost use Rattle.cv_vault.specs.Disk.{Disk, Files};
ghost use Rattle.cv_vault.specs.Walks.{Gains, Within};
ghost use Rattle.cv_objects.specs.Names.{standing_on};
ghost use Rattle.cv_base.specs.Objects.{AreNamed};
ghost use Rattle.cv_objects.specs.Batches.{AreHashed, AreStored, HaveHashes, Agrees, Brings, IsGained, IsOne, ShownIn};
ghost use Rattle.cv_objects.specs.Coming.{ShelfGains, HasAll, ClashesOn};
ghost use Rattle.cv_objects.specs.declared.store_fault.StoreFault.TheVariants as fault;

/// Where no crash could leave bytes of another hash under an object's name, none leaves them while a batch is stored.
pub fn stores_keep_hashes()
    ensures { (d : Disk) (batch : List Object) (f : Files) → AreNamed batch → AreHashed d → Within on_way (Brings d batch) d f → HaveHashes f }
{}

/// While a batch is stored, what stood stays, and no other objects come than those of the batch that were absent.
pub fn stores_add_the_batch()
    ensures { (d d' : Disk) (batch : List Object) (id : ObjectId) → AreNamed batch → Gains on_way (Brings d batch) d d' → (standing_on d' id ≡ standing_on d id) ⊎ IsGained batch (standing_on d) id (standing_on d' id) }
{}

/// A collision is shown only where the batch clashes with what stands or in itself, and damage only where what stands under an
/// id has another hash.
pub fn refusals_are_clashes()
    ensures collision { (d : Disk) (batch : List Object) (id : ObjectId) → AreNamed batch → ShownIn d batch (fault.Collision id) → ClashesOn (standing_on d) batch id }
    ensures damage { (d : Disk) (batch : List Object) (id : ObjectId) (found : List ℕ) → AreNamed batch → IsShelf (standing_on d) → ShownIn d batch (fault.Damaged id found) → ⊥ }
{}

/// A batch whose fresh ids were given, or that was stored, clashes with nothing; and then the shelf gained some of it and has
/// all of it.
pub fn stored_batches_clash_with_nothing()
    ensures fresh { (shelf : Shelf) (batch : List Object) (id : ObjectId) → IsOne batch → Agrees batch shelf → ClashesOn shelf batch id → ⊥ }
    ensures stored { (d d' : Disk) (batch : List Object) (id : ObjectId) → AreNamed batch → Gains on_way (Brings d batch) d d' → AreStored batch d' → ClashesOn (standing_on d) batch id → ⊥ }
    ensures gains { (d d' : Disk) (batch : List Object) → AreNamed batch → Gains on_way (Brings d batch) d d' → ShelfGains batch (standing_on d) (standing_on d') }
    ensures has { (d' : Disk) (batch : List Object) → AreNamed batch → AreStored batch d' → HasAll batch (standing_on d') }
{}
