//! The items of a real folder.
ghost use Rattle.std.specs.Prelude.{◌≡◌, ◌<◌, IfOk};
ghost use Rattle.std.specs.Fs.{dir_entry_name, file_type};
ghost use Rattle.cv_base.specs.declared.limits.TheConstants.{MODE_LIMIT};
ghost use Rattle.cv_ports.specs.Folder.{Ascend};
ghost use Rattle.cv_real.specs.ListingInner.{Tells, seconds_since_1970};

use cv_base::{Items, MODE_LIMIT, Text};
use cv_ports::{FolderItem, FoundKind, ascend};
use std::alloc::{AllocError, Global};
use std::fs::{DirEntry, Metadata};
use std::io::ErrorKind;
use std::os::unix::fs::MetadataExt;
use std::rt::Files;
use std::{fs, io};

/// The permission bits of a mode.
const PERMISSIONS: u32 = MODE_LIMIT - 1;

/// What stands at a path, of which this was seen. Of a link its text is read.
fn kind_of<R: Files + AllocGlobal>(rt: &R, path: &str, seen: &Metadata) -> io::Result<FoundKind>
    ensures { IfOk result (λ kind. Tells (file_type seen.now) kind) }
{
    if seen.is_dir() {
        return Ok(FoundKind::Dir);
    }
    if seen.is_file() {
        return Ok(FoundKind::File);
    }
    if seen.is_symlink() {
        let target = fs::read_link(rt, path)?;
        return Ok(FoundKind::Link(Text::new(target.into_string())));
    }
    Ok(FoundKind::Special)
}

/// The whole seconds since 1970, or 0 before.
fn since_1970(seconds: i64) -> u64
    ensures { result ≡ seconds_since_1970 seconds }
{
    u64::try_from(seconds).unwrap_or(0)
}

/// One item of a folder. A link is told as itself.
fn item_of<R: Files + AllocGlobal + Clone + Drop>(
    rt: &R,
    alloc: Global,
    entry: &DirEntry<R>,
) -> io::Result<FolderItem>
    ensures name { IfOk result (λ item. item.name ≡ dir_entry_name entry.now) }
    ensures mode { IfOk result (λ item. item.mode < MODE_LIMIT) }
{
    let seen = entry.metadata()?;
    Ok(FolderItem {
        name: Text::new(String::from_str(alloc, entry.file_name())?),
        kind: kind_of(rt, entry.path().as_str(), &seen)?,
        mode: seen.mode() & PERMISSIONS,
        mtime: since_1970(seen.mtime()),
    })
}

/// The items of the folder at a path with a slash at its end, in the order of the bytes of their names. It fails where a name
/// or the text of a link isn't UTF-8, and where the system gives one name twice.
pub fn items_of<R: Files + AllocGlobal + Clone + Drop>(
    rt: &R,
    alloc: Global,
    folder: &str,
) -> io::Result<Items<FolderItem>>
    ensures { IfOk result (λ items. Ascend items) }
{
    let mut items = Vec::new(alloc);
    for entry in fs::read_dir(rt, folder)? {
        let item = item_of(rt, alloc, &entry?)?;
        items.push(item).map_err(AllocError::from)?;
    }
    items.sort_unstable_by(|one, other| one.name.as_str().cmp(other.name.as_str()));
    if !ascend(items.as_slice()) {
        return Err(io::Error::from(ErrorKind::InvalidData));
    }
    Ok(Items::new(items))
}
