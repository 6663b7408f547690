//! Files on their way, which a process before this one may have left: made durable without a list of them.
ghost use Rattle.std.specs.Prelude.{◌≡◌, ◌==◌, IsSome, codes};
ghost use Rattle.std.specs.List.{starts_with};
ghost use Rattle.cv_system.specs.Names.{names_in};
ghost use Rattle.cv_system.specs.Ways.{SyncsEntry, SyncsNamed, SyncsSeen, SyncsWay, SyncsWays};

use crate::cut::cut_name;
use crate::looks::{open_found, seen_entry};
use crate::path_buffer::PathBuffer;
use crate::seen::Seen;
use crate::syncing::{Unsynced, told};
use crate::system::System;

/// Whether a file of this name is on its way, where it stands in the vault's own folder.
fn is_way_file(name: &str) -> bool
    ensures { result ≡ starts_with (λ a b. a == b) name.now (codes ".cvkit-txn-") }
{
    name.as_bytes().starts_with(b".cvkit-txn-")
}

/// Makes durable a file that was seen at a path.
fn sync_seen<S: System>(system: &mut S, path: &str, found: &Seen) -> Result<(), Unsynced>
    ensures { SyncsSeen path.now found.now result (S.log system.old) (S.log system.new) }
{
    match open_found(system, path, found) {
        Ok(file) => told(&system.sync(&file)),
        Err(_) => Err(Unsynced::NotOpened),
    }
}

/// Makes durable what stands at a path, if it is a regular file.
fn sync_entry<S: System>(system: &mut S, path: &str) -> Result<(), Unsynced>
    ensures { SyncsEntry path.now result (S.log system.old) (S.log system.new) }
{
    match seen_entry(system, path) {
        Ok(Some(found)) if found.is_file() => sync_seen(system, path, &found),
        Ok(_) => Ok(()),
        Err(_) => Err(Unsynced::NotOpened),
    }
}

/// Makes durable what has this name in a folder, if it is a file on its way. No text that isn't UTF-8 is a name of the vault.
fn sync_way<S: System>(
    system: &mut S,
    entry: &mut PathBuffer,
    folder: &str,
    bytes: &[u8],
) -> Result<(), Unsynced>
    ensures { SyncsWay folder.now bytes.now result (S.log system.old) (S.log system.new) }
{
    let Ok(name) = str::from_utf8(bytes) else {
        return Ok(());
    };
    if !is_way_file(name) || !entry.set(folder, name) {
        return Ok(());
    }
    sync_entry(system, entry.as_str())
}

/// Makes durable the files on their way among these names, between which NULs stand.
fn sync_among<S: System>(
    system: &mut S,
    entry: &mut PathBuffer,
    folder: &str,
    names: &[u8],
) -> Result<(), Unsynced>
    ensures { SyncsWays folder.now (names_in names.now) result (S.log system.old) (S.log system.new) }
{
    let mut rest = names;
    while let Some((name, others)) = cut_name(rest) {
        sync_way(system, entry, folder, name)?;
        rest = others;
    }
    sync_way(system, entry, folder, rest)
}

/// Makes durable the files on their way in a folder, which is entered. The names are read into this room.
pub fn sync_named<S: System>(
    system: &mut S,
    entered: S::Names,
    folder: &str,
    entry: &mut PathBuffer,
    room: &mut [u8],
) -> Result<(), Unsynced>
    requires { IsSome (S.log system.old) → S.folder entered ≡ folder.now }
    ensures { SyncsNamed folder.now result (S.log system.old) (S.log system.new) }
{
    let mut entered = entered;
    // Each turn but the last takes names of the disk; the bound is never met.
    for _ in 0..u64::MAX {
        let Ok(count) = system.read_names(&mut entered, room) else {
            return Err(Unsynced::NotOpened);
        };
        if count == 0 {
            return Ok(());
        }
        sync_among(system, entry, folder, &room[..count])?;
    }
    Err(Unsynced::NotOpened)
}
