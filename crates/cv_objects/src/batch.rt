//! Batches of objects.
ghost use Rattle.std.specs.Prelude.{◌≡◌, ◌≢◌, Some, IfOk, OnOk, MatchOption, true, false, slice_get};
ghost use Rattle.cv_base.specs.declared.object.Object.{Object as Value};
ghost use Rattle.cv_objects.specs.Batches.{IsOne, Clashes};

use crate::places::{no_places, note_place, place_of};
use cv_base::{NoMemory, Object, ObjectId};
use std::alloc::Global;

/// Whether two objects have other bytes.
fn differ(a: &Object, b: &Object) -> bool
    ensures yes { result ≡ true → a.now.bytes ≢ b.now.bytes }
    ensures no { result ≡ false → a.now.bytes ≡ b.now.bytes }
{
    a.bytes.as_slice() != b.bytes.as_slice()
}

/// Whether the object at a place of the batch has other bytes than this one.
fn differs_at(batch: &[Object], place: usize, object: &Object) -> bool
    ensures yes { (other : Value) → slice_get batch.now place ≡ Some other → result ≡ true → other.bytes ≢ object.now.bytes }
    ensures no { (other : Value) → slice_get batch.now place ≡ Some other → result ≡ false → other.bytes ≡ object.now.bytes }
{
    match batch.get(place) {
        Some(other) => differ(other, object),
        None => false,
    }
}

/// An id that two objects of the batch have with other bytes, if there is one.
pub fn clash_in(alloc: Global, batch: &[Object]) -> Result<Option<ObjectId>, NoMemory>
    ensures { IfOk result (λ clash. MatchOption clash (IsOne batch.now) (Clashes batch.now)) }
{
    let mut places = no_places(alloc);
    for second in 0..batch.len() {
        let object = &batch[second];
        match place_of(&places, object.id) {
            Some(first) => if differs_at(batch, first, object) {
                return Ok(Some(object.id));
            },
            None => note_place(&mut places, object.id, second)?,
        }
    }
    Ok(None)
}
