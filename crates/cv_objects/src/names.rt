//! The names of objects.
ghost use Rattle.std.specs.Prelude.{◌≡◌, IfOk, string_bytes};
ghost use Rattle.cv_base.specs.Digest.{IsDigest};
ghost use Rattle.cv_base.specs.ObjectId.{file_name};
ghost use Rattle.cv_objects.specs.Names.{way_name};

use cv_base::{NoMemory, ObjectId};
use std::alloc::Global;

/// The name under which an object stands.
pub fn name_of(alloc: Global, id: ObjectId) -> Result<String, NoMemory>
    ensures name { IfOk result (λ name. string_bytes name ≡ file_name id) }
    ensures digest { IsDigest id.hash }
{
    id.file_name(alloc)
}

/// The name of an object that is on its way.
pub fn way_of(alloc: Global, id: ObjectId) -> Result<String, NoMemory>
    ensures { IfOk result (λ name. string_bytes name ≡ way_name id) }
{
    let text = id.text(alloc)?;
    let mut name = String::from_str(alloc, "txn/")?;
    name.push_str(text.as_str())?;
    Ok(name)
}
