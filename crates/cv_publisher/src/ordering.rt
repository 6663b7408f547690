//! The order in which objects are sent.
ghost use Rattle.std.specs.Prelude.{◌≡◌, ◌++◌, ◌+◌, ◌<◌, All, IfOk, length};
ghost use Rattle.std.specs.BTreeMap.{IsOrdered, get_by_text, values};
ghost use Rattle.std.specs.String.{string_cmp};
ghost use Rattle.cv_publisher.specs.Packing.{AreInOrder, id_texts, objects_at};
ghost use Rattle.cv_publisher.specs.PackingInner.{FindsFirst};

use crate::filling::object_at;
use cv_base::{NoMemory, Object};
use std::alloc::Global;
use std::collections::BTreeMap;

/// A place of each text that the id of one of these objects has.
fn places_by_text(
    alloc: Global,
    contents: &[Object],
    catalogues: &[Object],
) -> Result<BTreeMap<String, usize>, NoMemory>
    ensures { IfOk result (λ places. FindsFirst (id_texts (contents.now ++ catalogues.now)) (length contents.now + length catalogues.now) (get_by_text places)) }
{
    let mut places = BTreeMap::new(alloc);
    for place in 0..contents.len() + catalogues.len() {
        let text = object_at(contents, catalogues, place).id.text(alloc)?;
        if !places.contains_key(text.as_str()) {
            places.insert(text, place)?;
        }
    }
    Ok(places)
}

/// The places that a map has, in the order of their texts.
fn values_of(alloc: Global, places: &BTreeMap<String, usize>) -> Result<Vec<usize>, NoMemory>
    ensures values { IfOk result (λ all. all.items ≡ values places.now) }
    ensures ordered { IsOrdered string_cmp places.now }
{
    Ok(places.values().copied().collect(alloc)?)
}

/// The places of these objects in the order of the texts of their ids, one of each id.
pub(crate) fn in_order(
    alloc: Global,
    contents: &[Object],
    catalogues: &[Object],
) -> Result<Vec<usize>, NoMemory>
    ensures order { IfOk result (λ places. AreInOrder (contents.now ++ catalogues.now) (objects_at (contents.now ++ catalogues.now) places.items)) }
    ensures there { IfOk result (λ places. All (λ place. place < length (contents.now ++ catalogues.now)) places.items) }
{
    let places = places_by_text(alloc, contents, catalogues)?;
    values_of(alloc, &places)
}
