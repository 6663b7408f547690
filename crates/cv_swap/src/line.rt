//! The line of revisions.
ghost use Rattle.std.proofs.Common.{refl, ap, ◌∙◌};
ghost use Rattle.std.specs.Prelude.{◌≡◌, ◌≢◌, ◌++◌, ◌∷◌, [], None, Some, Ok, Err, true, false, OnOk, OnErr, IfOk, IsErrOf};
ghost use Rattle.std.specs.Option.{option_map};
ghost use Rattle.cv_base.specs.Counts.{HasCause};
ghost use Rattle.cv_base.specs.Told.{WhereTold};
ghost use Rattle.cv_base.specs.Moment.{IsMoment};
ghost use Rattle.cv_vault.specs.Names.{on_way};
ghost use Rattle.cv_vault.specs.Moments.{OnlyReads};
ghost use Rattle.cv_vault.specs.Walks.{Walks, Nothing, ComesTo, BringsNothing, SparesIn};
ghost use Rattle.cv_vault.specs.Replace.{MovedIn, Found as FoundSo};
ghost use Rattle.cv_vault.specs.declared.vault.VaultFault.TheVariants as vault_fault;
ghost use Rattle.cv_vault.proofs.Laws.{quiet_none, quiet_then, quiet_same};
ghost use Rattle.cv_history.specs.Record.{IsRecord};
ghost use Rattle.cv_manifest.specs.Manifest.{IsHead};
ghost use Rattle.cv_objects.specs.Names.{standing_on};
ghost use Rattle.cv_base.specs.Objects.{AreNamed};
ghost use Rattle.cv_objects.specs.Batches.{Brings, GivesFresh, Has, IsApart, IsRefusal, RefusesSettled, Stored};
ghost use Rattle.cv_objects.specs.declared.store_fault.StoreFault.TheVariants as fault;
ghost use Rattle.cv_swap.specs.Kept.{object_of};
ghost use Rattle.cv_swap.specs.Publishing.{Prepared, Shelved, OnlyPutsHead};
ghost use Rattle.cv_swap.specs.Stands.{head_name, head_with, head_of, head_text, Publishes};
ghost use Rattle.cv_swap.specs.First.{first_revision};
ghost use Rattle.cv_swap.specs.Init.{InitsIn, WritesHead, vault_in, IsVaults};
ghost use Rattle.cv_swap.specs.Line.{LineView, published, swapped, LineReads, LineOpens, IsOpenedLine, vault_of, IsFailed, IsReady, IsDropped};
ghost use Rattle.cv_swap.specs.declared.stage.Stage.TheVariants as stage;

use crate::found::Found;
use crate::init::init_in;
use crate::init_fault::InitFault;
use crate::making::{Parts, make_parts, record_object, with_object};
use crate::open_fault::OpenFault;
use crate::opening::open_on;
use crate::publishing::{prepare_on, shelve_on, swap_on, was_swapped};
use crate::stage::Stage;
use cv_base::{Bytes, Name, Object, ObjectId};
use cv_history::Record;
use cv_manifest::Head;
use cv_objects::{Objects, StoreFault};
use cv_ports::{Shelf, ShelfFault};
use cv_seal::Signer;
use cv_vault::{Vault, VaultFault};
use std::alloc::Global;
use std::marker::Model;

/// The line of a repository's revisions, over a vault.
#[derive(Drop)]
pub struct Line<V: Vault + Drop, S: Signer + Drop> {
    objects: Objects<V>,
    name: Name,
    signer: S,
    records: Vec<Record>,
    made: usize,
    head: Head,
    epoch: u64,
    stage: Stage,
    next_head: Head,
    manifest: Bytes,
}

impl<V: Vault + Drop, S: Signer + Drop> Model for Line<V, S> {
    ghost use Rattle.cv_swap.specs.Line.{LineView, IsConsistent};

    ghost Value = { LineView V S };

    ghost view = { λ l. record { vault = l.objects.vault; taken = l.objects.taken; name = l.name; signer = l.signer; all = l.records.items; made = l.made; head = l.head; epoch = l.epoch; stage = l.stage; next_head = l.next_head; manifest = l.manifest } };

    ghost invariant = { λ l. IsConsistent V.disk l.objects.vault l.made l.records.items l.stage l.head l.next_head l.manifest };
}

impl<V: Vault + Drop, S: Signer + Drop> Line<V, S> {
    /// The repository's name.
    pub fn name(&self) -> &Name
        ensures { result.now ≡ self.now.name }
    {
        &self.name
    }

    /// The newest head.
    pub fn head(&self) -> Head
        ensures newest { result ≡ self.now.head }
        ensures writable { IsHead result }
    {
        self.head
    }

    /// How often the repository was opened.
    pub fn epoch(&self) -> u64
        ensures { result ≡ self.now.epoch }
    {
        self.epoch
    }

    /// Whether a revision may have come or not.
    pub fn in_doubt(&self) -> bool
        ensures yes { result ≡ true → self.now.stage ≡ stage.Doubtful }
        ensures no { result ≡ false → self.now.stage ≢ stage.Doubtful }
    {
        self.stage == Stage::Doubtful
    }

    /// The records of the published revisions, from the first on.
    pub fn records(&self) -> &[Record]
        ensures { result.now ≡ published self.now }
    {
        &self.records.as_slice()[..self.made]
    }

    /// The vault, given back.
    pub fn into_vault(self) -> V
        ensures { result ≡ self.vault }
    {
        self.objects.into_vault()
    }

    /// The ids of a batch that the shelf of objects lacks, as `Objects::fresh` gives them.
    pub fn fresh(&mut self, alloc: Global, batch: &[Object]) -> Result<Vec<ObjectId>, StoreFault>
        ensures walks { WhereTold (V.disk self.old.vault) (λ d.
            Walks V.disk V.count V.left on_way Nothing (GivesFresh d batch.now result) d self.old.vault self.new.vault) }
        ensures reads { OnlyReads V.disk V.count V.left self.old.vault self.new.vault }
        ensures others { self.new ≡ record self.old { vault = self.new.vault } }
        ensures cause { HasCause (V.faults self.old.vault) (V.faults self.new.vault) (IsErrOf result fault.Failed) }
    {
        self.objects.fresh(alloc, batch)
    }

    /// Stores the objects of a batch that the shelf lacks, as `Objects::store` does. Whatever it answers, what was prepared can
    /// be swapped in after it.
    pub fn store(&mut self, alloc: Global, batch: &[Object]) -> Result<(), StoreFault>
        requires named { AreNamed batch.now }
        ensures walks { WhereTold (V.disk self.old.vault) (λ d.
            Walks V.disk V.count V.left on_way (Brings d batch.now) (Stored d batch.now result) d self.old.vault self.new.vault) }
        ensures refused { IsRefusal result → BringsNothing V.disk V.count V.left self.old.vault self.new.vault }
        ensures settled { WhereTold (V.disk self.old.vault) (λ d. WhereTold (V.disk self.new.vault) (RefusesSettled d batch.now result)) }
        ensures names { SparesIn V.disk (IsApart batch.now) self.old.vault self.new.vault }
        ensures others { self.new ≡ record self.old { vault = self.new.vault } }
        ensures cause { HasCause (V.faults self.old.vault) (V.faults self.new.vault) (IsErrOf result fault.Failed) }
    {
        self.objects.store(alloc, batch)
    }

    /// Publishes the next revision, whose manifest is on its way.
    ///
    /// A crash at any moment leaves the head that it might have left before, or the next revision's. After `Failed` the
    /// line is in doubt. After `NoMemory` nothing has changed, and a crash leaves what it might have left before.
    pub fn swap(&mut self) -> Result<(), VaultFault>
        requires ready { self.old.stage ≡ stage.Ready }
        ensures walks { WhereTold (V.disk self.old.vault) (λ d.
            Walks V.disk V.count V.left on_way (ComesTo head_name (Some self.old.manifest)) (MovedIn d head_name self.old.manifest result) d self.old.vault self.new.vault) }
        ensures memory { result ≡ Err vault_fault.NoMemory → OnlyReads V.disk V.count V.left self.old.vault self.new.vault }
        ensures silent { V.disk self.old.vault ≡ None → V.disk self.new.vault ≡ None }
        ensures ok { OnOk result (self.new ≡ swapped self.old self.new.vault) }
        ensures failed { result ≡ Err vault_fault.Failed → self.new ≡ record self.old { vault = self.new.vault; stage = stage.Doubtful } }
        ensures no_memory { result ≡ Err vault_fault.NoMemory → self.new ≡ record self.old { vault = self.new.vault } }
        ensures cause { HasCause (V.faults self.old.vault) (V.faults self.new.vault) (IsErrOf result vault_fault.Failed) }
    {
        match swap_on(&mut self.objects) {
            Ok(()) => {
                self.made += 1;
                self.head = self.next_head;
                self.stage = Stage::Calm;
                Ok(())
            },
            Err(VaultFault::Failed) => {
                self.stage = Stage::Doubtful;
                Err(VaultFault::Failed)
            },
            Err(VaultFault::NoMemory) => Err(VaultFault::NoMemory),
        }
    }

    /// Settles whether the revision in doubt came: it did exactly where the head's file is its manifest. After `Failed` or
    /// `NoMemory` the line is still in doubt.
    pub fn recover(&mut self) -> Result<bool, VaultFault>
        requires doubt { self.old.stage ≡ stage.Doubtful }
        ensures walks { WhereTold (V.disk self.old.vault) (λ d. Walks V.disk V.count V.left on_way Nothing (FoundSo head_name self.old.manifest result) d self.old.vault self.new.vault) }
        ensures silent { V.disk self.old.vault ≡ None → V.disk self.new.vault ≡ None }
        ensures made { result ≡ Ok true → self.new ≡ swapped self.old self.new.vault }
        ensures unmade { result ≡ Ok false → self.new ≡ record self.old { vault = self.new.vault; stage = stage.Calm } }
        ensures failed { OnErr result (self.new ≡ record self.old { vault = self.new.vault }) }
        ensures cause { HasCause (V.faults self.old.vault) (V.faults self.new.vault) (IsErrOf result vault_fault.Failed) }
    {
        let came = was_swapped(&mut self.objects, self.manifest.as_slice())?;
        if came {
            self.made += 1;
            self.head = self.next_head;
        }
        self.stage = Stage::Calm;
        Ok(came)
    }

    /// Makes the first revision of a repository in a vault without one, and hands the vault back: its tree is a directory of
    /// mode 0755 with nothing in it, of the user and the group 0, made at the moment `now`, in Unix seconds.
    ///
    /// `Exists` comes exactly where there is a manifest, and then nothing changes. After `Collision` and `Damaged` nothing
    /// came, then or at any moment, and after `NoMemory` no manifest. After `Ok` its manifest, objects and epoch are there for sure. A crash at any
    /// moment leaves what might have been left before, with some of its objects and its epoch, or all of these. In a settled
    /// vault without a damaged object that is no manifest, or the whole of the first revision.
    pub fn init(
        vault: V,
        alloc: Global,
        name: &Name,
        signer: &S,
        now: u64,
    ) -> Result<V, (InitFault, V)>
        requires { IsMoment now }
        ensures inits { WhereTold (V.disk vault) (λ d. InitsIn V.disk V.count V.left name.now (S.is_seal signer.now) now d vault result) }
        ensures text { WhereTold (V.disk vault) (λ d.
            WritesHead V.disk V.count V.left (head_text (S.seal_of signer.now) name.now (head_of (first_revision now))) d vault (vault_in result)) }
        ensures silent { V.disk vault ≡ None → V.disk (vault_in result) ≡ None }
        ensures cause { HasCause (V.faults vault) (V.faults (vault_in result)) (IsVaults result) }
    {
        let mut objects = Objects::new(vault);
        match init_in(&mut objects, alloc, name, signer, now) {
            Ok(()) => Ok(objects.into_vault()),
            Err(fault) => Err((fault, objects.into_vault())),
        }
    }

    /// Opens the line that stands in a vault, and raises its epoch by one, for sure. An `Err` hands the vault back.
    ///
    /// A crash at any moment leaves what it might have left before, or the files as they stood, with their epoch or one
    /// greater. Where the files refuse it, and after `NoMemory`, the epoch isn't raised, and no crash leaves it raised; after
    /// `Failed` it may be.
    pub fn open(
        vault: V,
        alloc: Global,
        name: Name,
        signer: S,
    ) -> Result<Line<V, S>, (OpenFault, V)>
        ensures opens { WhereTold (V.disk vault) (λ d. LineOpens V.disk V.count V.left name (S.is_seal signer) d vault result) }
        ensures line { IfOk result (IsOpenedLine name signer) }
        ensures silent { V.disk vault ≡ None → V.disk (vault_of result) ≡ None }
        ensures cause { HasCause (V.faults vault) (V.faults (vault_of result)) (IsFailed result) }
    {
        let mut objects = Objects::new(vault);
        match open_on(&mut objects, alloc, &name, &signer) {
            Err(fault) => Err((fault, objects.into_vault())),
            Ok(found) => {
                let Found {
                    head,
                    records,
                    epoch,
                } = found;
                let records = records.into_vec();
                objects.count_anew();
                let made = records.len();
                Ok(Line {
                    objects,
                    name,
                    signer,
                    records,
                    made,
                    head,
                    epoch: epoch + 1,
                    stage: Stage::Calm,
                    next_head: head,
                    manifest: Bytes::new(Vec::new(alloc)),
                })
            },
        }
    }

    /// Brings a revision's record to the shelf, in one batch with the objects that its commit made; the next sync settles what
    /// came. A revision that was prepared before and not swapped is dropped.
    pub fn shelve(
        &mut self,
        alloc: Global,
        next: &Record,
        others: Vec<Object>,
    ) -> Result<(), StoreFault>
        requires limits { IsRecord next.now }
        requires named { AreNamed others.items }
        requires doubt { self.old.stage ≢ stage.Doubtful }
        ensures walks { WhereTold (V.disk self.old.vault) (λ d.
            Walks V.disk V.count V.left on_way (Brings d (others.items ++ object_of next.now ∷ [])) (Shelved d (others.items ++ object_of next.now ∷ []) result) d self.old.vault self.new.vault) }
        ensures refused { IsRefusal result → BringsNothing V.disk V.count V.left self.old.vault self.new.vault }
        ensures silent { V.disk self.old.vault ≡ None → V.disk self.new.vault ≡ None }
        ensures dropped { IsDropped self.old self.new }
        ensures cause { HasCause (V.faults self.old.vault) (V.faults self.new.vault) (IsErrOf result fault.Failed) }
    {
        self.stage = Stage::Calm;
        let object = record_object(alloc, next)?;
        let batch = with_object(others, object)?;
        shelve_on(&mut self.objects, alloc, batch.as_slice())
    }

    /// Brings a revision's record to the shelf, where it doesn't stand there, and puts the file of its head on its way, for
    /// sure. Where the record stands, as behind `shelve`, that is reads, one write and a sync, which settles the record too. A
    /// revision that was prepared before and not swapped is dropped.
    pub fn prepare(&mut self, alloc: Global, next: Record, size: u64) -> Result<Head, StoreFault>
        requires limits { IsRecord next }
        requires doubt { self.old.stage ≢ stage.Doubtful }
        ensures walks { WhereTold (V.disk self.old.vault) (λ d.
            Walks V.disk V.count V.left on_way (Brings d (object_of next ∷ [])) (Prepared d (object_of next ∷ []) self.new.manifest result) d self.old.vault self.new.vault) }
        ensures free { IfOk result (λ head. WhereTold (V.disk self.old.vault) (λ d.
            Has d (object_of next ∷ []) → OnlyPutsHead V.disk V.count V.left self.new.manifest self.old.vault self.new.vault)) }
        ensures refused { IsRefusal result → BringsNothing V.disk V.count V.left self.old.vault self.new.vault }
        ensures silent { V.disk self.old.vault ≡ None → V.disk self.new.vault ≡ None }
        ensures head { IfOk result (λ head. head ≡ head_with next size) }
        ensures ready { IfOk result (λ head. IsReady self.old next head self.new) }
        ensures published { IfOk result (λ head. published self.new ≡ published self.old) }
        ensures text { IfOk result (λ head. self.new.manifest ≡ head_text (S.seal_of self.old.signer) self.old.name head) }
        ensures says { IfOk result (λ head. Publishes self.old.name (S.is_seal self.old.signer) (Some self.new.manifest) head) }
        ensures dropped { OnErr result (IsDropped self.old self.new) }
        ensures cause { HasCause (V.faults self.old.vault) (V.faults self.new.vault) (IsErrOf result fault.Failed) }
    {
        self.stage = Stage::Calm;
        let none = Vec::new(alloc);
        let parts = make_parts(alloc, &self.name, &self.signer, &next, size, none)?;
        self.records.truncate(self.made);
        self.records.push(next)?;
        prepare_on(
            &mut self.objects,
            alloc,
            parts.batch.as_slice(),
            parts.manifest.as_slice(),
        )?;
        let Parts {
            batch: _,
            head,
            manifest,
        } = parts;
        self.next_head = head;
        self.manifest = manifest;
        self.stage = Stage::Ready;
        Ok(head)
    }
}

impl<V: Vault + Drop, S: Signer + Drop> Shelf for Line<V, S> {
    ghost shelf = { λ l. option_map standing_on (V.disk l.vault) };

    ghost faults = { λ l. V.faults l.vault };

    ghost taken = { λ l. l.taken };

    ghost reads = { λ a b. LineReads V.disk V.count V.left a b };

    fn fetch(&mut self, alloc: Global, id: &ObjectId) -> Result<Option<Bytes>, ShelfFault> {
        self.objects.fetch(alloc, id)
    }

    fn length(&mut self, alloc: Global, id: &ObjectId) -> Result<Option<u64>, ShelfFault> {
        self.objects.length(alloc, id)
    }

    ghost reads_none = { λ a. (quiet_none a.vault, refl) };

    ghost reads_then = { λ a b c ab bc. (quiet_then ab.0 bc.0, bc.1 ∙ ap (λ (l : LineView V S). record l { vault = c.vault; taken = c.taken }) ab.1) };

    ghost reads_same = { λ a b ab. ap (option_map standing_on) (quiet_same ab.0) };
}
