//! A folder of changes over a real folder.

use crate::made::{Item, make_all};
use cv_base::RepoPath;
use cv_ports::{Folder, FolderFault, FolderItem, FoundKind};
use cv_real::SystemFolder;
use std::alloc::Global;
use std::fs::{File, Permissions};
use std::os::unix::fs::PermissionsExt;
use std::process::Abort;
use std::test::Fail;
use std::time::{Duration, SystemTime, UNIX_EPOCH};
use std::{fs, io};

// Gives a file this mode and this time.
fn stamp(rt: &HostRuntime, path: &str, mode: u32, time: Option<SystemTime>) -> io::Result<()> {
    let file = File::options().write(true).open(rt, path)?;
    file.set_modified(time.unwrap_or(UNIX_EPOCH))?;
    fs::set_permissions(rt, path, Permissions::from_mode(mode))
}

// A folder `top` with one of each kind, beside a file and a folder that it has links to.
static ITEMS: [(&str, Item); 13] = [
    ("changes/outside", Item::Folder),
    ("changes/outside/victim", Item::File(b"victim")),
    ("changes/top/folder/below", Item::Folder),
    ("changes/top/folder/inside", Item::File(b"inside")),
    ("changes/top/file", Item::File(b"file")),
    ("changes/top/a..b", Item::File(b"dots")),
    ("changes/top/é", Item::File(b"")),
    ("changes/top/hard", Item::Hard("changes/outside/victim")),
    ("changes/top/link", Item::Link("file")),
    ("changes/top/linked", Item::Link("../outside")),
    ("changes/top/dangling", Item::Link("nowhere")),
    ("changes/top/socket", Item::Socket),
    ("changes/named", Item::Link("top")),
];

// Makes them. One file has a time before 1970.
fn make_folder(rt: &HostRuntime) -> io::Result<()> {
    make_all(rt, "changes", &ITEMS)?;
    let later = UNIX_EPOCH.checked_add(Duration::from_millis(1_000_000_007_900));
    stamp(rt, "changes/top/file", 0o4750, later)?;
    let before = UNIX_EPOCH.checked_sub(Duration::from_millis(7_900));
    stamp(rt, "changes/top/a..b", 0o600, before)
}

// What is behind the name of an item of this kind.
fn mark(kind: &FoundKind) -> (char, &str) {
    match kind {
        FoundKind::Dir => ('/', ""),
        FoundKind::File => ('=', ""),
        FoundKind::Special => ('!', ""),
        FoundKind::Link(target) => ('>', target.as_str()),
    }
}

// The items of a listing: each name with what it is.
fn names(alloc: Global, items: &[FolderItem]) -> Result<String, Fail> {
    let mut text = String::new(alloc);
    for item in items {
        let (sign, target) = mark(&item.kind);
        text.push_str(item.name.as_str())?;
        text.push(sign)?;
        text.push_str(target)?;
        text.push(' ')?;
    }
    Ok(text)
}

// A fault as one word.
fn word(fault: FolderFault) -> &'static str {
    match fault {
        FolderFault::Failed => "failed",
        FolderFault::NoMemory => "no memory",
    }
}

// What a listing of a path says.
fn listed<F: Folder>(alloc: Global, folder: &mut F, path: &RepoPath) -> Result<String, Fail> {
    match folder.list(alloc, path) {
        Ok(items) => names(alloc, items.as_slice()),
        Err(fault) => Ok(String::from_str(alloc, word(fault))?),
    }
}

// What a read of a path gives, as a text.
fn content<F: Folder>(alloc: Global, folder: &mut F, path: &RepoPath) -> Result<String, Fail> {
    match folder.read(alloc, path) {
        Ok(object) => Ok(String::from_utf8(object.bytes.into_vec())?),
        Err(fault) => Ok(String::from_str(alloc, word(fault))?),
    }
}

const TOP: &str =
    "a..b= dangling>nowhere file= folder/ hard= link>file linked>../outside socket! é= ";

// A path, what a listing of it says, and what a read gives.
const ROWS: [(&str, &str, &str); 15] = [
    ("", TOP, "failed"),
    ("/folder", "below/ inside= ", "failed"),
    ("/folder/below", "", "failed"),
    ("/folder/inside", "failed", "inside"),
    ("/file", "failed", "file"),
    ("/file/below", "failed", "failed"),
    ("/a..b", "failed", "dots"),
    ("/é", "failed", ""),
    ("/hard", "failed", "victim"),
    ("/absent", "failed", "failed"),
    ("/link", "failed", "failed"),
    ("/linked", "failed", "failed"),
    ("/linked/victim", "failed", "failed"),
    ("/dangling", "failed", "failed"),
    ("/socket", "failed", "failed"),
];

// Whether a folder opens at this name.
fn opens<F: Folder>(alloc: Global, folder: &mut F, name: &str) -> bool {
    folder.root(alloc, name).is_ok()
}

// What a listing of the root says.
fn root_listed<F: Folder>(alloc: Global, folder: &mut F) -> Result<String, Fail> {
    listed(alloc, folder, &RepoPath::root(alloc))
}

// Whether a listing of a path says these items, and a read gives these bytes.
fn stands<F: Folder>(
    alloc: Global,
    folder: &mut F,
    row: &(&'static str, &'static str, &'static str),
) -> Result<bool, Fail> {
    let (path, items, bytes) = row;
    let path = RepoPath::read(alloc, path)?;
    let are_listed = listed(alloc, folder, &path)?.as_str() == *items;
    Ok(are_listed && content(alloc, folder, &path)?.as_str() == *bytes)
}

// Asserts each row of a folder that is opened at this name.
fn assert_rows<F: Folder>(
    rt: &impl Abort,
    alloc: Global,
    folder: &mut F,
    name: &str,
) -> Result<(), Fail> {
    assert!(rt; opens(alloc, folder, name));
    for row in &ROWS {
        assert!(rt; stands(alloc, folder, row)?, "{name}");
    }
    Ok(())
}

#[test]
fn each_call_agrees_on_what_stands_at_a_path(rt: HostRuntime) -> Result<(), Fail> {
    let alloc = rt.alloc();
    make_folder(&rt)?;
    assert!(rt; RepoPath::read(alloc, "/../outside/victim").is_err());
    let mut folder = SystemFolder::new(rt);
    assert!(rt; root_listed(alloc, &mut folder)?.as_str() == "failed");
    assert!(rt; !opens(alloc, &mut folder, ""));
    for name in ["changes/top", "changes/named", "changes/outside/../top/"] {
        assert_rows(&rt, alloc, &mut folder, name)?;
    }
    for name in ["changes/top/file", "changes/absent", "changes/top/socket"] {
        assert!(rt; opens(alloc, &mut folder, name));
        assert!(rt; root_listed(alloc, &mut folder)?.as_str() == "failed");
    }
    Ok(())
}

// The mode and the time of the item of a name in the root.
fn mode_and_time<F: Folder>(
    alloc: Global,
    folder: &mut F,
    name: &str,
) -> Result<Option<(u32, u64)>, Fail> {
    let items = folder.list(alloc, &RepoPath::root(alloc))?;
    for item in items.as_slice() {
        if item.name.as_str() == name {
            return Ok(Some((item.mode, item.mtime)));
        }
    }
    Ok(None)
}

// How many bytes are read of the file at a path.
fn length_read<F: Folder>(alloc: Global, folder: &mut F, path: &str) -> Result<usize, Fail> {
    let path = RepoPath::read(alloc, path)?;
    Ok(folder.read(alloc, &path)?.bytes.as_slice().len())
}

const STAMPS: [(&str, u32, u64); 2] = [("file", 0o4750, 1_000_000_007), ("a..b", 0o600, 0)];

// The length of a file, and how much of it is read.
const LENGTHS: [(u64, usize); 3] = [
    (16_777_216, 16_777_216),
    (16_777_217, 16_777_217),
    (1 << 40, 16_777_217),
];

// The bits and the time of a file; a time before 1970; and of a file above 16 MiB no more than one byte above.
#[test]
fn modes_times_and_long_files_are_as_they_stand(rt: HostRuntime) -> Result<(), Fail> {
    let alloc = rt.alloc();
    make_folder(&rt)?;
    let mut folder = SystemFolder::new(rt);
    assert!(rt; opens(alloc, &mut folder, "changes/top"));
    for (name, mode, mtime) in STAMPS {
        let found = mode_and_time(alloc, &mut folder, name)?;
        assert!(rt; found == Some((mode, mtime)), "{name}");
    }
    for (size, read) in LENGTHS {
        File::create(&rt, "changes/top/long")?.set_len(size)?;
        assert!(rt;
            length_read(alloc, &mut folder, "/long")? == read,
            "of {size}"
        );
    }
    fs::remove_file(&rt, "changes/top/long")?;
    Ok(())
}
