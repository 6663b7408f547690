//! Packs that are filled.
ghost use Rattle.std.specs.Prelude.{◌≡◌, ◌≢◌, ◌≤◌, ◌<◌, ◌+◌, ◌++◌, [], Some, IfOk, length, slice_get, take, drop};
ghost use Rattle.cv_publisher.specs.Packing.{AreSendable, IsFront, objects_at};

use cv_base::{NoMemory, OBJECT_LIMIT, Object};
use cv_pack::{COUNT_LIMIT, PackWriter, TOTAL_LIMIT};
use std::alloc::Global;

/// The object at a place: contents come first, and catalogues behind them.
pub(crate) fn object_at<'a>(
    contents: &'a [Object],
    catalogues: &'a [Object],
    place: usize,
) -> &'a Object
    requires { place < length contents.now + length catalogues.now }
    ensures { slice_get (contents.now ++ catalogues.now) place ≡ Some result.now }
{
    if place < contents.len() {
        &contents[place]
    } else {
        &catalogues[place - contents.len()]
    }
}

/// How many objects the longest front of those at these places has that one pack takes.
pub(crate) fn front_of(contents: &[Object], catalogues: &[Object], left: &[usize]) -> usize
    requires { AreSendable (contents.now ++ catalogues.now) left.now }
    ensures front { IsFront (objects_at (contents.now ++ catalogues.now) left.now)
        (objects_at (contents.now ++ catalogues.now) (take result left.now))
        (objects_at (contents.now ++ catalogues.now) (drop result left.now)) }
    ensures within { result ≤ length left.now }
    ensures some { left.now ≢ [] → 0 < result }
{
    let mut size = 0;
    for (count, place) in left.iter().enumerate() {
        let length = object_at(contents, catalogues, *place)
            .bytes
            .as_slice()
            .len();
        if count >= COUNT_LIMIT as usize
            || length > OBJECT_LIMIT
            || size + length > TOTAL_LIMIT as usize
        {
            return count;
        }
        size += length;
    }
    left.len()
}

/// A pack of the objects at these places.
pub(crate) fn filled<'a>(
    alloc: Global,
    contents: &'a [Object],
    catalogues: &'a [Object],
    places: &[usize],
) -> Result<PackWriter<'a>, NoMemory>
    requires { AreSendable (contents.now ++ catalogues.now) places.now }
    ensures { IfOk result (λ writer. writer ≡ objects_at (contents.now ++ catalogues.now) places.now) }
{
    let mut writer = PackWriter::new(alloc);
    for place in places {
        let object = object_at(contents, catalogues, *place);
        if writer.add(&object.id, object.bytes.as_slice()).is_err() {
            return Err(NoMemory);
        }
    }
    Ok(writer)
}
