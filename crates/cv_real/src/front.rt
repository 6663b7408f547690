//! The front of a file.
ghost use Rattle.std.specs.Prelude.{◌≡◌, ◌≤◌, length, IfOk};
ghost use Rattle.sha1.specs.Sha1.{sha1};
ghost use Rattle.cv_base.specs.ObjectId.{object_id};
ghost use Rattle.cv_base.specs.declared.id.Kind.TheVariants.{Plain};

use crate::system_calls::SystemCalls;
use cv_base::{Bytes, Kind, Object, ObjectId};
use cv_system::Seen;
use cv_system::looks::open_found;
use std::alloc::Global;
use std::fs::File;
use std::io;
use std::io::Read;
use std::rt::Files;
use std::thread::Threads;

/// The first bytes of a file of this size, so many at most. However long it is, it takes no more memory than for these.
pub fn front_of(alloc: Global, file: File, size: u64, limit: usize) -> io::Result<Vec<u8>>
    ensures { IfOk result (λ bytes. length bytes.items ≤ limit) }
{
    let room = usize::try_from(size).unwrap_or(limit).min(limit);
    let mut bytes = Vec::with_capacity(alloc, room.saturating_add(1))?;
    file.take(limit as u64).read_to_end(&mut bytes)?;
    bytes.truncate(limit);
    Ok(bytes)
}

/// The first bytes of a file that was found, so many at most.
pub fn read_front<R: Files<File = File> + AllocGlobal + Threads + Drop>(
    system: &mut SystemCalls<R>,
    alloc: Global,
    path: &str,
    found: &Seen,
    limit: usize,
) -> io::Result<Vec<u8>>
    ensures { IfOk result (λ bytes. length bytes.items ≤ limit) }
{
    let file = open_found(system, path, found)?;
    front_of(alloc, file, found.length, limit)
}

/// These bytes under the id that they have.
pub fn named(bytes: Vec<u8>) -> Object
    ensures bytes { result.bytes ≡ bytes.items }
    ensures named { result.id ≡ object_id (sha1 result.bytes) Plain }
{
    let id = ObjectId::of(Kind::Plain, bytes.as_slice());
    let bytes = Bytes::new(bytes);
    Object { id, bytes }
}
