//! The places of ids in a list.
ghost use Rattle.std.specs.Prelude.{◌≡◌, None, Some, IfOk, OnOk, if◌then◌else◌};
ghost use Rattle.std.specs.BTreeMap.{Updates};
ghost use Rattle.cv_base.specs.BytesOrder.{bytes_cmp};
ghost use Rattle.cv_base.specs.declared.id.ObjectId.{ObjectId as Id};
ghost use Rattle.cv_ports.specs.Objects.{same_id};
ghost use Rattle.cv_objects.specs.PlacesInner.{place_of};

use cv_base::{Kind, NoMemory, ObjectId};
use std::alloc::Global;
use std::collections::BTreeMap;

/// The places of ids in a list, by kind and hash.
#[derive(Drop)]
pub struct Places {
    /// Of the contents of files.
    pub plain: BTreeMap<[u8; 20], usize>,
    /// Of the catalogues.
    pub catalogues: BTreeMap<[u8; 20], usize>,
    /// Of the records.
    pub records: BTreeMap<[u8; 20], usize>,
}

/// No places.
pub fn no_places(alloc: Global) -> Places
    ensures { (id : Id) → place_of result id ≡ None }
{
    Places {
        plain: BTreeMap::new(alloc),
        catalogues: BTreeMap::new(alloc),
        records: BTreeMap::new(alloc),
    }
}

/// The place of an id, if it is noted.
pub fn place_of(places: &Places, id: ObjectId) -> Option<usize>
    ensures { result ≡ place_of places.now id }
{
    let place = match id.kind {
        Kind::Plain => places.plain.get(&id.hash),
        Kind::Catalogue => places.catalogues.get(&id.hash),
        Kind::History => places.records.get(&id.hash),
    };
    place.copied()
}

/// Notes the place of a hash.
fn note_hash(
    places: &mut BTreeMap<[u8; 20], usize>,
    hash: [u8; 20],
    place: usize,
) -> Result<(), NoMemory>
    ensures { OnOk result (Updates bytes_cmp places.old places.new hash (Some place)) }
{
    places.insert(hash, place)?;
    Ok(())
}

/// Notes the place of an id.
pub fn note_place(places: &mut Places, id: ObjectId, place: usize) -> Result<(), NoMemory>
    ensures { OnOk result ((x : Id) → place_of places.new x ≡ (if same_id id x then Some place else place_of places.old x)) }
{
    match id.kind {
        Kind::Plain => note_hash(&mut places.plain, id.hash, place),
        Kind::Catalogue => note_hash(&mut places.catalogues, id.hash, place),
        Kind::History => note_hash(&mut places.records, id.hash, place),
    }
}
