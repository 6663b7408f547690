//! A shelf in memory.
ghost use Rattle.std.proofs.Common.{◌∙◌};
ghost use Rattle.std.specs.Prelude.{◌≡◌, refl, ◌↔◌, IfErr, IfOk, IsErrOf, IsTrue, OnOk, Some, option_copied, if◌then◌else◌};
ghost use Rattle.std.specs.BTreeMap.{Updates};
ghost use Rattle.cv_base.specs.BytesOrder.{bytes_cmp};
ghost use Rattle.cv_base.specs.Counts.{HasCause, raised};
ghost use Rattle.cv_base.specs.Told.{WhereTold};
ghost use Rattle.cv_base.specs.declared.id.ObjectId.{ObjectId as Id};
ghost use Rattle.cv_ports.specs.Calls.{fails, called};
ghost use Rattle.cv_ports.specs.Shelf.{Gives, Fetches, Suits, Measures, IsUnread};
ghost use Rattle.cv_ports.specs.Objects.{shelf_of, same_id};
ghost use Rattle.cv_ports.specs.MemoryShelf.{standing};
ghost use Rattle.cv_ports.specs.declared.shelf.ShelfFault.TheVariants as fault;

use crate::failing_calls::FailingCalls;
use crate::shelf::{Shelf, ShelfFault};
use cv_base::{Bytes, Kind, NoMemory, Object, ObjectId};
use std::alloc::Global;
use std::collections::BTreeMap;
use std::marker::Model;

/// Holds stated objects. An object whose bytes have another digest than its id's hash is damaged.
#[derive(Drop)]
pub struct MemoryShelf {
    plain: BTreeMap<[u8; 20], Bytes>,
    catalogues: BTreeMap<[u8; 20], Bytes>,
    history: BTreeMap<[u8; 20], Bytes>,
    calls: FailingCalls,
    taken: u64,
}

impl Model for MemoryShelf {
    ghost use Rattle.cv_ports.specs.MemoryShelf.{ShelfView};

    ghost Value = { ShelfView };

    ghost view = { λ s. record { plain = s.plain.entries; catalogues = s.catalogues.entries; history = s.history.entries; calls = s.calls; taken = s.taken } };
}

impl MemoryShelf {
    /// Holds these objects, of those with one id the first. Its calls are numbered from 1, and those of the numbers in
    /// `failing` fail.
    pub fn new(
        alloc: Global,
        objects: Vec<Object>,
        failing: Vec<u64>,
    ) -> Result<MemoryShelf, NoMemory>
        ensures objects { IfOk result (λ shelf. (id : Id) → standing shelf id ≡ shelf_of objects.items id) }
        ensures calls { IfOk result (λ shelf. shelf.calls ≡ record { failing = failing.items; count = 0; faults = 0 }) }
        ensures taken { IfOk result (λ shelf. shelf.taken ≡ 0) }
    {
        let mut shelf = MemoryShelf {
            plain: BTreeMap::new(alloc),
            catalogues: BTreeMap::new(alloc),
            history: BTreeMap::new(alloc),
            calls: FailingCalls::new(failing),
            taken: 0,
        };
        let mut rest = objects;
        'objects: while let Some(object) = rest.pop() {
            shelf.put(object)?;
        }
        Ok(shelf)
    }

    /// Puts an object in place of what stood under its id.
    fn put(&mut self, object: Object) -> Result<(), NoMemory>
        ensures objects { OnOk result ((id : Id) → standing self.new id ≡ (if same_id object.id id then Some object.bytes else standing self.old id)) }
        ensures calls { self.new.calls ≡ self.old.calls }
        ensures taken { self.new.taken ≡ self.old.taken }
    {
        let Object { id, bytes } = object;
        match id.kind {
            Kind::Plain => put_in(&mut self.plain, id.hash, bytes),
            Kind::Catalogue => put_in(&mut self.catalogues, id.hash, bytes),
            Kind::History => put_in(&mut self.history, id.hash, bytes),
        }
    }

    /// The bytes that stand under an id.
    fn at(&self, id: &ObjectId) -> Option<&Bytes>
        ensures { option_copied result ≡ standing self.now id.now }
    {
        let map = match id.kind {
            Kind::Plain => &self.plain,
            Kind::Catalogue => &self.catalogues,
            Kind::History => &self.history,
        };
        map.get(&id.hash)
    }
}

/// Puts bytes in place of what stood under a hash.
fn put_in(map: &mut BTreeMap<[u8; 20], Bytes>, hash: [u8; 20], bytes: Bytes) -> Result<(), NoMemory>
    ensures { OnOk result (Updates bytes_cmp map.old map.new hash (Some bytes)) }
{
    map.insert(hash, bytes)?;
    Ok(())
}

/// What a fetch gives of the bytes that stand under an id.
fn fetched(
    alloc: Global,
    id: &ObjectId,
    standing: Option<&Bytes>,
) -> Result<Option<Bytes>, ShelfFault>
    ensures told { Gives id.now (option_copied standing.entry) result }
    ensures suits { Suits id.now result }
    ensures failing { (result ≡ Err fault.Failed) → ⊥ }
{
    let Some(bytes) = standing else {
        return Ok(None);
    };
    let found = ObjectId::of(id.kind, bytes.as_slice());
    if found.hash != id.hash {
        return Err(ShelfFault::Damaged {
            id: *id,
            found: found.hash,
        });
    }
    Ok(Some(Bytes::from_slice(alloc, bytes.as_slice())?))
}

impl Shelf for MemoryShelf {
    ghost shelf = { λ s. Some (standing s) };

    ghost faults = { λ s. s.calls.faults };

    ghost taken = { λ s. s.taken };

    ghost reads = { λ a b. standing b ≡ standing a };

    fn fetch(&mut self, alloc: Global, id: &ObjectId) -> Result<Option<Bytes>, ShelfFault>
        ensures told { WhereTold (Some (standing self.old)) (Fetches id.now result) }
        ensures suits { Suits id.now result }
        ensures reads { standing self.new ≡ standing self.old }
        ensures unchanged { Some (standing self.new) ≡ Some (standing self.old) }
        ensures cause { HasCause self.old.calls.faults self.new.calls.faults (IsErrOf result fault.Failed) }
        ensures taken { self.new.taken ≡ raised self.old.taken }
        ensures failing { IsErrOf result fault.Failed ↔ IsTrue (fails self.old.calls) }
        ensures after { self.new ≡ record self.old { calls = called self.old.calls; taken = raised self.old.taken } }
    {
        self.taken = self.taken.saturating_add(1);
        if self.calls.next_fails() {
            return Err(ShelfFault::Failed);
        }
        fetched(alloc, id, self.at(id))
    }

    fn length(&mut self, _alloc: Global, id: &ObjectId) -> Result<Option<u64>, ShelfFault>
        ensures told { WhereTold (Some (standing self.old)) (Measures id.now result) }
        ensures unread { IfErr result IsUnread }
        ensures reads { standing self.new ≡ standing self.old }
        ensures unchanged { Some (standing self.new) ≡ Some (standing self.old) }
        ensures cause { HasCause self.old.calls.faults self.new.calls.faults (IsErrOf result fault.Failed) }
        ensures taken { self.new.taken ≡ self.old.taken }
        ensures failing { IsErrOf result fault.Failed ↔ IsTrue (fails self.old.calls) }
        ensures after { self.new ≡ record self.old { calls = called self.old.calls } }
    {
        if self.calls.next_fails() {
            return Err(ShelfFault::Failed);
        }
        match self.at(id) {
            Some(bytes) => Ok(Some(bytes.as_slice().len() as u64)),
            None => Ok(None),
        }
    }

    ghost reads_none = { λ a. refl };

    ghost reads_then = { λ a b c ab bc. bc ∙ ab };

    ghost reads_same = { λ a b ab i. Some (ab i) };
}
