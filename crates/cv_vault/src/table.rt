//! The files of a vault in memory, with the record of their changes.
ghost use Rattle.std.specs.Prelude.{◌≡◌, ◌+◌, ◌^◌, ◌<◌, ◌≤◌, ◌≢◌, [], length, slice_index_or, slice_set, All, false, option_copied, IfOk, IfSome, None, Some, OnOk, OnErr, IsSome, IsTrue, if◌then◌else◌};
ghost use Rattle.std.specs.List.{list_all};
ghost use Rattle.std.specs.BTreeMap.{IsOrdered, Updates};
ghost use Rattle.std.specs.String.{string_cmp};
ghost use Rattle.std.specs.Bool.{OnTrue, OnFalse, Decides};
ghost use Rattle.cv_vault.specs.Disk.{IsListing, synced};
ghost use Rattle.cv_vault.specs.Crash.{Crashes};
ghost use Rattle.cv_vault.specs.Events.{write_of, rename_of, removal_of, any_unsettled, file_count, Puts, PutsTwo, Settles as all_settled};
ghost use Rattle.cv_vault.specs.EventsInner.{has_file};
ghost use Rattle.cv_vault.specs.Places.{file_in, mark_in, slot_in};
ghost use Rattle.cv_vault.specs.PlacesInner.{is_settled_place, next_pick, IsFileIn, IsMarkIn, IsPlaceIn};
ghost use Rattle.cv_vault.specs.Table.{name_in, entries_of, past_of};
ghost use Rattle.cv_vault.specs.TableInner.{names_in, is_listed, IsEntryOf, Lacks, any_entry, settled_each, crash_at, crashed, entry_at, table_disk, table_first, IsTable, Stays, Adds, Makes, TakesOne};
ghost use Rattle.cv_vault.specs.IndexedInner.{AreUnsettled};

use crate::place::{Place, PlaceMark, removed, renamed};
use cv_base::{Bytes, Text};
use std::alloc::{AllocError, Global};
use std::collections::BTreeMap;
use std::marker::Model;

/// A name, by its number among the names, the file that it had when the record of changes began, and what stands there.
#[derive(Clone, Copy)]
pub struct Entry {
    pub name: usize,
    pub first: Option<usize>,
    pub place: Place,
}

/// A change: one name or two together have another place, or all are settled.
#[derive(Clone, Copy)]
pub enum Change {
    Puts(usize, Place),
    PutsTwo(usize, Place, usize, Place),
    Settles,
}

/// The files of a vault in memory.
///
/// The names, the contents and the entries stand in lists that only grow, so that every change is a few numbers and needs
/// no memory but its place in the record.
#[derive(Drop)]
pub struct Table {
    names: Vec<Text>,
    contents: Vec<Bytes>,
    entries: Vec<Entry>,
    /// The number of the entry of each name.
    numbers: BTreeMap<String, usize>,
    /// The numbers of the entries that aren't settled, each once, with room for all.
    unsettled: Vec<usize>,
    changes: Vec<Change>,
}

impl Model for Table {
    ghost use Rattle.cv_vault.specs.Table.{Rows};

    ghost Value = { Rows };

    ghost use Rattle.cv_vault.specs.IndexedInner.{rows_of, IsIndexed};

    ghost view = { rows_of };

    ghost invariant = { IsIndexed };
}

// Settles the entries with these numbers.
fn settle_all(entries: &mut [Entry], numbers: &[usize])
    requires { All (λ k. k < length entries.old) numbers.now }
    ensures { entries.new ≡ settled_each numbers.now entries.old }
{
    for number in numbers {
        entries[*number].place.mark = PlaceMark::Settled;
    }
}

// Puts another place, which isn't settled, at an entry, and gives the number of its name.
fn set_place(entries: &mut Vec<Entry>, unsettled: &mut Vec<usize>, at: usize, place: Place) -> usize
    requires at { at < length entries.old.items }
    requires torn { is_settled_place place ≡ false }
    requires unsettled { AreUnsettled unsettled.old entries.old.items }
    ensures unsettled { AreUnsettled unsettled.new entries.new.items }
    ensures entries { entries.new.items ≡ slice_set entries.old.items at (record (slice_index_or entries.old.items at any_entry) { place = place }) }
    ensures name { result ≡ (slice_index_or entries.old.items at any_entry).name }
{
    let entry = &mut entries[at];
    let was_settled = entry.place.is_settled();
    entry.place = place;
    let name = entry.name;
    if was_settled {
        unsettled.push_reserved(at);
    }
    name
}

// Leaves of an entry what a crash leaves by the lowest bit of a pick, and gives the pick for the next one.
fn crash_one(entries: &mut [Entry], number: usize, pick: u64) -> u64
    requires { number < length entries.old }
    ensures pick { result ≡ next_pick pick (slice_index_or entries.old number any_entry).place }
    ensures entries { entries.new ≡ slice_set entries.old number (crash_at pick (slice_index_or entries.old number any_entry)) }
{
    let entry = &mut entries[number];
    let place = entry.place;
    let now = place.left(pick);
    entry.first = now;
    entry.place = Place {
        now,
        mark: PlaceMark::Settled,
    };
    place.rest(pick)
}

// Leaves of the entries with the numbers of these names what a crash leaves by the bits of a pick, in the order of the names.
fn crash_all(entries: &mut [Entry], numbers: &BTreeMap<String, usize>, pick: u64)
    requires { All (λ p. p.1 < length entries.old) numbers.now.entries }
    ensures { entries.new ≡ crashed pick numbers.now.entries entries.old }
{
    let mut rest = pick;
    for (_, number) in numbers {
        rest = crash_one(entries, *number, rest);
    }
}

// Gives a name a number.
fn set_number(
    numbers: &mut BTreeMap<String, usize>,
    name: String,
    number: usize,
) -> Result<(), AllocError>
    ensures ok { OnOk result (Updates string_cmp numbers.old numbers.new name (Some number)) }
    ensures err { OnErr result (numbers.new.entries ≡ numbers.old.entries) }
    ensures ordered { IsOrdered string_cmp numbers.new }
{
    match numbers.insert(name, number) {
        Ok(_) => Ok(()),
        Err(_) => Err(AllocError),
    }
}

impl Table {
    /// A table without names, with room for so many changes.
    pub fn new(alloc: Global, room: usize) -> Result<Table, AllocError>
        ensures empty { IfOk result (λ t. entries_of t ≡ []) }
        ensures past { IfOk result (λ t. past_of t ≡ []) }
        ensures room { IfOk result (λ t. length t.changes + room ≤ t.room) }
        ensures names { IfOk result (λ t. length t.entries ≡ 0) }
    {
        Ok(Table {
            names: Vec::new(alloc),
            contents: Vec::new(alloc),
            entries: Vec::new(alloc),
            numbers: BTreeMap::new(alloc),
            unsettled: Vec::new(alloc),
            changes: Vec::with_capacity(alloc, room)?,
        })
    }

    /// Takes room for so many changes.
    pub fn reserve(&mut self, more: usize) -> Result<(), AllocError>
        ensures table { IsTable self.new }
        ensures entries { entries_of self.new ≡ entries_of self.old }
        ensures past { past_of self.new ≡ past_of self.old }
        ensures len { length self.new.changes ≡ length self.old.changes }
        ensures kept { self.old.room ≤ self.new.room }
        ensures room { OnOk result (length self.new.changes + more ≤ self.new.room) }
        ensures names { length self.new.entries ≡ length self.old.entries }
    {
        self.changes.reserve(more)
    }

    /// The file under a name.
    pub fn file(&self, name: &str) -> Option<&Bytes>
        ensures table { IsTable self.now }
        ensures file { option_copied result ≡ (table_disk self.now name.now).now }
    {
        match self.place_of(name).now {
            Some(number) => Some(&self.contents[number]),
            None => None,
        }
    }

    /// The names that have a file and begin with the prefix, in ascending order.
    pub fn list(&self, alloc: Global, prefix: &str) -> Result<Vec<Text>, AllocError>
        ensures table { IfOk result (λ _. IsTable self.now) }
        ensures listing { IfOk result (λ names. IsListing (table_disk self.now) prefix.now names.items) }
    {
        let mut listed = Vec::new(alloc);
        let first = String::from_str(alloc, prefix)?;
        for (name, number) in self.numbers.range(first..) {
            if !name.as_str().starts_with(prefix) {
                break;
            }
            if self.place_at(*number).now.is_some() {
                listed.push(Text::new(String::from_str(alloc, name.as_str())?))?;
            }
        }
        Ok(listed)
    }

    /// Writes a file, or leaves the one that is there. The name is torn. There is room for the change.
    pub fn write(
        &mut self,
        alloc: Global,
        name: &str,
        bytes: &[u8],
        made: bool,
    ) -> Result<(), AllocError>
        requires room { length self.old.changes < self.old.room }
        ensures ok { OnOk result (Makes (write_of (table_disk self.old) name.now bytes.now made) self.old self.new) }
        ensures err { OnErr result (Stays self.old self.new) }
        ensures takes { TakesOne self.old self.new }
        ensures files { file_count (entries_of self.new) ≤ file_count (entries_of self.old) + 1 }
        ensures names { length self.new.entries ≤ length self.old.entries + 1 }
    {
        let at = self.entry_for(alloc, name)?;
        let now = self.content_for(alloc, at, bytes, made)?;
        self.change(
            at,
            Place {
                now,
                mark: PlaceMark::Torn,
            },
        );
        Ok(())
    }

    /// Moves a file to another name, or leaves it, and answers false where there is none. There is room for the change.
    pub fn rename(
        &mut self,
        alloc: Global,
        from: &str,
        to: &str,
        made: bool,
    ) -> Result<bool, AllocError>
        requires apart { from.now ≢ to.now }
        requires room { length self.old.changes < self.old.room }
        ensures there { IfOk result (λ there. OnTrue there (IsSome (table_disk self.old from.now).now × Makes (rename_of (table_disk self.old) from.now to.now made) self.old self.new)) }
        ensures absent { IfOk result (λ there. OnFalse there (((table_disk self.old from.now).now ≡ None) × Stays self.old self.new)) }
        ensures err { OnErr result (Stays self.old self.new) }
        ensures takes { TakesOne self.old self.new }
        ensures files { file_count (entries_of self.new) ≤ file_count (entries_of self.old) + 1 }
        ensures names { length self.new.entries ≤ length self.old.entries + 1 }
    {
        let to_at = self.entry_for(alloc, to)?;
        let Some(from_at) = self.find(from) else {
            return Ok(false);
        };
        let place = self.place_at(from_at);
        if place.now.is_none() {
            return Ok(false);
        }
        let (from_place, to_place) = renamed(place, self.place_at(to_at), made);
        self.change_two(from_at, from_place, to_at, to_place);
        Ok(true)
    }

    /// Removes a file, or leaves it, and answers false where there is none. There is room for the change.
    pub fn remove(&mut self, name: &str, made: bool) -> bool
        requires room { IsSome (table_disk self.old name.now).now → length self.old.changes < self.old.room }
        ensures table { IsTable self.old }
        ensures there { OnTrue result (IsSome (table_disk self.old name.now).now × Makes (removal_of (table_disk self.old) name.now made) self.old self.new) }
        ensures absent { OnFalse result (((table_disk self.old name.now).now ≡ None) × (self.new ≡ self.old)) }
        ensures takes { TakesOne self.old self.new }
        ensures made { OnTrue result (length self.old.changes + (if made then 1 else 0) ≤ length self.new.changes) }
        ensures files { OnTrue result (file_count (entries_of self.new) + (if made then 1 else 0) ≡ file_count (entries_of self.old)) }
        ensures names { length self.new.entries ≡ length self.old.entries }
    {
        let Some(at) = self.find(name) else {
            return false;
        };
        let place = self.place_at(at);
        if place.now.is_none() {
            return false;
        }
        self.change(at, removed(place, made));
        true
    }

    /// Settles every name, and tells whether one wasn't. There is room for the change in that case.
    pub fn sync(&mut self) -> bool
        requires room { IsTrue (any_unsettled (entries_of self.old)) → length self.old.changes < self.old.room }
        ensures table { IsTable self.old }
        ensures changes { result ≡ any_unsettled (entries_of self.old) }
        ensures calm { any_unsettled (entries_of self.new) ≡ false }
        ensures disk { table_disk self.new ≡ synced (table_disk self.old) }
        ensures settles { OnTrue (any_unsettled (entries_of self.old)) (Adds all_settled self.old self.new) }
        ensures unchanged { OnFalse (any_unsettled (entries_of self.old)) (self.new ≡ self.old) }
        ensures files { file_count (entries_of self.new) ≡ file_count (entries_of self.old) }
        ensures names { length self.new.entries ≡ length self.old.entries }
    {
        if self.is_calm() {
            return false;
        }
        self.settle();
        true
    }

    /// Leaves what a crash leaves by the bits of a pick, and begins the record of changes anew.
    pub fn crash(&mut self, pick: u64)
        ensures was { IsTable self.old }
        ensures table { IsTable self.new }
        ensures past { past_of self.new ≡ [] }
        ensures crashes { Crashes pick (table_disk self.old) (table_disk self.new) }
        ensures calm { any_unsettled (entries_of self.new) ≡ false }
        ensures len { length self.new.changes ≡ 0 }
        ensures capacity { self.new.room ≡ self.old.room }
        ensures names { length self.new.entries ≡ length self.old.entries }
    {
        crash_all(&mut self.entries, &self.numbers, pick);
        self.unsettled.clear();
        self.changes.clear();
    }

    /// How many changes there are in the record.
    pub fn change_count(&self) -> usize
        ensures count { result ≡ length self.now.changes }
        ensures room { self.now.room < 2 ^ 64 }
    {
        self.changes.len()
    }

    // Settles every name, and records it. There is room for the change.
    fn settle(&mut self)
        requires room { length self.old.changes < self.old.room }
        ensures adds { Adds all_settled self.old self.new }
        ensures calm { any_unsettled (entries_of self.new) ≡ false }
        ensures files { file_count (entries_of self.new) ≡ file_count (entries_of self.old) }
        ensures names { length self.new.entries ≡ length self.old.entries }
    {
        settle_all(&mut self.entries, &self.unsettled);
        self.unsettled.clear();
        self.changes.push_reserved(Change::Settles);
    }

    // Whether every name is settled.
    fn is_calm(&self) -> bool
        ensures table { IsTable self.now }
        ensures calm { result ≡ list_all (λ e. is_settled_place e.place) self.now.entries }
    {
        self.unsettled.is_empty()
    }

    // The number of the entry of a name.
    fn find(&self, name: &str) -> Option<usize>
        ensures table { IsTable self.now }
        ensures found { IfSome result (IsEntryOf self.now name.now) }
        ensures absent { result ≡ None → Lacks name.now (names_in self.now.names self.now.entries) }
    {
        self.numbers.get(name).copied()
    }

    // What stands at an entry.
    fn place_at(&self, at: usize) -> Place
        requires { at < length self.now.entries }
        ensures table { IsTable self.now }
        ensures place { result ≡ (entry_at self.now at).place }
    {
        self.entries[at].place
    }

    // What stands at a name.
    fn place_of(&self, name: &str) -> Place
        ensures table { IsTable self.now }
        ensures stands { slot_in self.now.contents result ≡ table_disk self.now name.now }
        ensures within { IsPlaceIn (length self.now.contents) result }
    {
        match self.find(name) {
            Some(at) => self.place_at(at),
            None => Place {
                now: None,
                mark: PlaceMark::Settled,
            },
        }
    }

    // The place of a name among the entries, where it is put if it isn't there.
    fn entry_for(&mut self, alloc: Global, name: &str) -> Result<usize, AllocError>
        ensures stays { Stays self.old self.new }
        ensures at { IfOk result (λ i. IsEntryOf self.new name.now i) }
        ensures names { length self.new.entries ≤ length self.old.entries + 1 }
    {
        match self.find(name) {
            Some(at) => Ok(at),
            None => self.insert(alloc, name),
        }
    }

    // Puts a name that isn't there behind the entries, and gives its number.
    fn insert(&mut self, alloc: Global, name: &str) -> Result<usize, AllocError>
        requires absent { Lacks name.now (names_in self.old.names self.old.entries) }
        ensures stays { Stays self.old self.new }
        ensures at { IfOk result (IsEntryOf self.new name.now) }
        ensures names { length self.new.entries ≤ length self.old.entries + 1 }
    {
        let number = self.names.len();
        let at = self.entries.len();
        self.names.push(Text::new(String::from_str(alloc, name)?))?;
        self.entries.reserve(1)?;
        self.unsettled.reserve(at + 1)?;
        let key = String::from_str(alloc, name)?;
        set_number(&mut self.numbers, key, at)?;
        self.entries.push_reserved(Entry {
            name: number,
            first: None,
            place: Place {
                now: None,
                mark: PlaceMark::Settled,
            },
        });
        Ok(at)
    }

    // Keeps a content, and gives its number.
    fn keep(&mut self, alloc: Global, bytes: &[u8]) -> Result<usize, AllocError>
        ensures stays { Stays self.old self.new }
        ensures names { self.new.names ≡ self.old.names }
        ensures entries { self.new.entries ≡ self.old.entries }
        ensures file { IfOk result (λ k. (k < length self.new.contents) × (file_in self.new.contents (Some k) ≡ Some bytes.now)) }
    {
        let number = self.contents.len();
        self.contents
            .push(Bytes::new(Vec::from_slice(alloc, bytes)?))?;
        Ok(number)
    }

    // The content that a write gives, or that the entry has. It is kept only where the entry has another.
    fn content_for(
        &mut self,
        alloc: Global,
        at: usize,
        bytes: &[u8],
        made: bool,
    ) -> Result<Option<usize>, AllocError>
        requires at { at < length self.old.entries }
        ensures table { IsTable self.old }
        ensures stays { Stays self.old self.new }
        ensures names { self.new.names ≡ self.old.names }
        ensures entries { self.new.entries ≡ self.old.entries }
        ensures within { IfOk result (IsFileIn (length self.new.contents)) }
        ensures file { IfOk result (λ k. file_in self.new.contents k ≡ (if made then Some bytes.now else file_in self.old.contents (entry_at self.old at).place.now)) }
    {
        if !made || self.has_content(at, bytes) {
            return Ok(self.place_at(at).now);
        }
        Ok(Some(self.keep(alloc, bytes)?))
    }

    // Whether an entry has this content.
    fn has_content(&self, at: usize, bytes: &[u8]) -> bool
        requires at { at < length self.now.entries }
        ensures table { IsTable self.now }
        ensures same { Decides result (file_in self.now.contents (entry_at self.now at).place.now ≡ Some bytes.now) }
    {
        match self.place_at(at).now {
            Some(number) => self.contents[number].as_slice() == bytes,
            None => false,
        }
    }

    // Whether two files are the same.
    fn is_same_file(&self, file: Option<usize>, other: Option<usize>) -> bool
        requires within { IsFileIn (length self.now.contents) file }
        requires other_within { IsFileIn (length self.now.contents) other }
        ensures { Decides result (file_in self.now.contents file ≡ file_in self.now.contents other) }
    {
        match (file, other) {
            (Some(file), Some(other)) => {
                self.contents[file].as_slice() == self.contents[other].as_slice()
            },
            (None, None) => true,
            _ => false,
        }
    }

    // Whether two marks are the same.
    fn is_same_mark(&self, mark: PlaceMark, other: PlaceMark) -> bool
        requires within { IsMarkIn (length self.now.contents) mark }
        requires other_within { IsMarkIn (length self.now.contents) other }
        ensures { Decides result (mark_in self.now.contents mark ≡ mark_in self.now.contents other) }
    {
        match (mark, other) {
            (PlaceMark::Settled, PlaceMark::Settled) => true,
            (PlaceMark::Torn, PlaceMark::Torn) => true,
            (PlaceMark::Moved(before), PlaceMark::Moved(other_before)) => {
                self.is_same_file(before, other_before)
            },
            _ => false,
        }
    }

    // Whether a place has the file and the mark that an entry has.
    fn stands(&self, at: usize, place: Place) -> bool
        requires at { at < length self.now.entries }
        requires within { IsPlaceIn (length self.now.contents) place }
        ensures table { IsTable self.now }
        ensures same { Decides result (slot_in self.now.contents place ≡ slot_in self.now.contents (entry_at self.now at).place) }
    {
        let old = self.place_at(at);
        self.is_same_mark(place.mark, old.mark) && self.is_same_file(place.now, old.now)
    }

    // Puts another place, which isn't settled, at an entry, and records it if that is a change. There is room for it.
    fn change(&mut self, at: usize, place: Place)
        requires torn { is_settled_place place ≡ false }
        requires at { at < length self.old.entries }
        requires within { IsPlaceIn (length self.old.contents) place }
        requires room { length self.old.changes < self.old.room }
        ensures makes { Makes (Puts (name_in self.old.names (entry_at self.old at).name) (slot_in self.old.contents place)) self.old self.new }
        ensures takes { TakesOne self.old self.new }
        ensures files { file_count (entries_of self.new) + has_file (slot_in self.old.contents (entry_at self.old at).place) ≡ file_count (entries_of self.old) + has_file (slot_in self.old.contents place) }
        ensures names { length self.new.entries ≡ length self.old.entries }
    {
        if self.stands(at, place) {
            return;
        }
        self.put(at, place);
    }

    // Puts other places, which aren't settled, at two entries, and records them as one change if they are one. There is room for it.
    fn change_two(&mut self, at: usize, place: Place, other: usize, other_place: Place)
        requires torn { is_settled_place place ≡ false }
        requires other_torn { is_settled_place other_place ≡ false }
        requires at { at < length self.old.entries }
        requires within { IsPlaceIn (length self.old.contents) place }
        requires other { other < length self.old.entries }
        requires other_within { IsPlaceIn (length self.old.contents) other_place }
        requires apart { name_in self.old.names (entry_at self.old at).name ≢ name_in self.old.names (entry_at self.old other).name }
        requires room { length self.old.changes < self.old.room }
        ensures makes { Makes (PutsTwo (name_in self.old.names (entry_at self.old at).name) (slot_in self.old.contents place) (name_in self.old.names (entry_at self.old other).name) (slot_in self.old.contents other_place)) self.old self.new }
        ensures takes { TakesOne self.old self.new }
        ensures files { file_count (entries_of self.new) + (has_file (slot_in self.old.contents (entry_at self.old at).place) + has_file (slot_in self.old.contents (entry_at self.old other).place)) ≡ file_count (entries_of self.old) + (has_file (slot_in self.old.contents place) + has_file (slot_in self.old.contents other_place)) }
        ensures names { length self.new.entries ≡ length self.old.entries }
    {
        if self.stands(at, place) && self.stands(other, other_place) {
            return;
        }
        self.put_two(at, place, other, other_place);
    }

    // Puts another place, which isn't settled, at an entry, and records it. There is room for the change.
    fn put(&mut self, at: usize, place: Place)
        requires torn { is_settled_place place ≡ false }
        requires at { at < length self.old.entries }
        requires within { IsPlaceIn (length self.old.contents) place }
        requires room { length self.old.changes < self.old.room }
        ensures adds { Adds (Puts (name_in self.old.names (entry_at self.old at).name) (slot_in self.old.contents place)) self.old self.new }
        ensures files { file_count (entries_of self.new) + has_file (slot_in self.old.contents (entry_at self.old at).place) ≡ file_count (entries_of self.old) + has_file (slot_in self.old.contents place) }
        ensures names { length self.new.entries ≡ length self.old.entries }
    {
        let name = set_place(&mut self.entries, &mut self.unsettled, at, place);
        self.changes.push_reserved(Change::Puts(name, place));
    }

    // Puts other places, which aren't settled, at two entries, and records them as one change. There is room for it.
    fn put_two(&mut self, at: usize, place: Place, other: usize, other_place: Place)
        requires torn { is_settled_place place ≡ false }
        requires other_torn { is_settled_place other_place ≡ false }
        requires at { at < length self.old.entries }
        requires within { IsPlaceIn (length self.old.contents) place }
        requires other { other < length self.old.entries }
        requires other_within { IsPlaceIn (length self.old.contents) other_place }
        requires apart { at ≢ other }
        requires room { length self.old.changes < self.old.room }
        ensures adds { Adds (PutsTwo (name_in self.old.names (entry_at self.old at).name) (slot_in self.old.contents place) (name_in self.old.names (entry_at self.old other).name) (slot_in self.old.contents other_place)) self.old self.new }
        ensures files { file_count (entries_of self.new) + (has_file (slot_in self.old.contents (entry_at self.old at).place) + has_file (slot_in self.old.contents (entry_at self.old other).place)) ≡ file_count (entries_of self.old) + (has_file (slot_in self.old.contents place) + has_file (slot_in self.old.contents other_place)) }
        ensures names { length self.new.entries ≡ length self.old.entries }
    {
        let name = set_place(&mut self.entries, &mut self.unsettled, at, place);
        let other_name = set_place(&mut self.entries, &mut self.unsettled, other, other_place);
        self.changes
            .push_reserved(Change::PutsTwo(name, place, other_name, other_place));
    }
}
