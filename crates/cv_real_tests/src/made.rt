//! Folders that tests are over, made by tables.

use std::os::unix::fs::symlink;
use std::os::unix::net::UnixListener;
use std::{fs, io};

/// What a test makes at a path.
pub(crate) enum Item {
    /// A folder, and each above it.
    Folder,
    /// A file of these bytes.
    File(&'static [u8]),
    /// A second name of the file at this path.
    Hard(&'static str),
    /// A symbolic link with this text.
    Link(&'static str),
    /// A socket.
    Socket,
}

fn make(rt: &HostRuntime, path: &str, item: &Item) -> io::Result<()> {
    match item {
        Item::Folder => fs::create_dir_all(rt, path),
        Item::File(bytes) => fs::write(rt, path, *bytes),
        Item::Hard(file) => fs::hard_link(rt, *file, path),
        Item::Link(text) => symlink(rt, *text, path),
        Item::Socket => {
            let _ = UnixListener::bind(rt, path)?;
            Ok(())
        }
    }
}

/// A folder of a test's own, without what an earlier run left there.
pub(crate) fn begin(rt: &HostRuntime, folder: &str) -> io::Result<()> {
    let _ = fs::remove_dir_all(rt, folder);
    fs::create_dir(rt, folder)
}

/// Begins a folder, and makes these items, one after another.
pub(crate) fn make_all(
    rt: &HostRuntime,
    folder: &str,
    items: &[(&'static str, Item)],
) -> io::Result<()> {
    begin(rt, folder)?;
    for (path, item) in items {
        make(rt, path, item)?;
    }
    Ok(())
}
