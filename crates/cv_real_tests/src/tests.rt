//! The vault over a real folder, and streams over a real pipe.

use crate::made::{Item, begin, make_all};
use cv_folder::FolderVault;
use cv_ports::{MemorySink, Sink, Source};
use cv_real::{StreamSink, StreamSource, SystemCalls};
use cv_vault::{Vault, VaultFault};
use std::alloc::{AllocError, Global};
use std::fs::File;
use std::process::Abort;
use std::rt::Files;
use std::test::Fail;
use std::thread::Threads;
use std::{fs, io};

// The vault over the folder at a path.
fn vault_at<R: Files<File = File> + AllocGlobal + Threads + Drop>(
    rt: R,
    root: &str,
) -> Result<FolderVault<SystemCalls<R>>, AllocError> {
    FolderVault::new(rt.alloc(), SystemCalls::new(rt), root)
}

// What a call answers, as one word.
fn word(answer: Result<bool, VaultFault>) -> &'static str {
    match answer {
        Ok(true) => "yes",
        Ok(false) => "no",
        Err(VaultFault::Failed) => "failed",
        Err(VaultFault::NoMemory) => "no memory",
    }
}

// Whether a name is read.
fn reads<V: Vault>(vault: &mut V, name: &str) -> &'static str {
    word(vault.read(name).map(|file| file.is_some()))
}

// Whether a name has a length.
fn measures<V: Vault>(vault: &mut V, name: &str) -> &'static str {
    word(vault.length(name).map(|length| length.is_some()))
}

// Whether the file of a name has these bytes.
fn has<V: Vault>(vault: &mut V, name: &str, bytes: &[u8]) -> &'static str {
    match vault.read(name) {
        Ok(Some(file)) => word(Ok(file.as_slice() == bytes)),
        Ok(None) => "no",
        Err(fault) => word(Err(fault)),
    }
}

// Whether a name is listed.
fn lists<V: Vault>(vault: &mut V, name: &str) -> &'static str {
    match vault.list(name) {
        Ok(names) => word(Ok(names.iter().any(|found| found.as_str() == name))),
        Err(fault) => word(Err(fault)),
    }
}

fn writes<V: Vault>(vault: &mut V, name: &str, bytes: &[u8]) -> &'static str {
    word(vault.write(name, bytes).map(|_done| true))
}

fn renames<V: Vault>(vault: &mut V, from: &str, to: &str) -> &'static str {
    if from == to {
        return "the same";
    }
    word(vault.rename(from, to))
}

fn removes<V: Vault>(vault: &mut V, name: &str) -> &'static str {
    word(vault.remove(name))
}

fn syncs<V: Vault>(vault: &mut V) -> &'static str {
    word(vault.sync().map(|_done| true))
}

// The names that begin with a prefix, with a blank after each.
fn names<V: Vault>(alloc: Global, vault: &mut V, prefix: &str) -> Result<String, Fail> {
    let mut text = String::new(alloc);
    for name in vault.list(prefix)? {
        text.push_str(name.as_str())?;
        text.push(' ')?;
    }
    Ok(text)
}

// A folder `outside` with a file, and a vault's folder `srv` with one of each kind at a name, one on its way, and a file in a real
// folder `txn`, at which no name stands.
static ITEMS: [(&str, Item); 13] = [
    ("kinds/outside", Item::Folder),
    ("kinds/outside/victim", Item::File(b"victim")),
    ("kinds/srv/folder/below", Item::Folder),
    ("kinds/srv/file", Item::File(b"file")),
    ("kinds/srv/folder/inside", Item::File(b"inside")),
    ("kinds/srv/.cvkit-txn-left", Item::File(b"left")),
    ("kinds/srv/txn", Item::Folder),
    ("kinds/srv/txn/old", Item::File(b"old")),
    ("kinds/srv/link", Item::Link("../outside/victim")),
    ("kinds/srv/linked", Item::Link("../outside")),
    ("kinds/srv/dangling", Item::Link("nowhere")),
    ("kinds/srv/socket", Item::Socket),
    ("kinds/srv/hard", Item::Hard("kinds/outside/victim")),
];

// What each call says of a text: `read`, `length`, whether `list` has it, `rename` away, `remove`, then `write`, and whether that
// stands.
fn told<V: Vault>(vault: &mut V, name: &str) -> [&'static str; 7] {
    [
        reads(vault, name),
        measures(vault, name),
        lists(vault, name),
        renames(vault, name, "away"),
        removes(vault, name),
        writes(vault, name, b"new"),
        has(vault, name, b"new"),
    ]
}

// Whether these are the words of a text.
fn are_words(words: &[&'static str], text: &str) -> bool {
    let mut wanted = text.split(' ');
    for word in words {
        if wanted.next() != Some(*word) {
            return false;
        }
    }
    wanted.next().is_none()
}

// Read, length, list, rename, remove, write, and whether the write stands.
const ROWS: [(&str, &str); 20] = [
    ("file", "yes yes yes yes no yes yes"),
    ("folder/inside", "yes yes yes yes no yes yes"),
    ("hard", "yes yes yes yes no yes yes"),
    ("txn/left", "yes yes yes yes no yes yes"),
    ("txn/old", "no no no no no yes yes"),
    ("absent", "no no no no no yes yes"),
    ("new/folder/absent", "no no no no no yes yes"),
    ("link", "no no no no no yes yes"),
    ("dangling", "no no no no no yes yes"),
    ("folder", "no no no no no failed no"),
    ("linked", "no no no no no yes yes"),
    ("socket", "no no no no no yes yes"),
    ("file/below", "no no no no no failed no"),
    ("..", "failed failed no failed failed failed failed"),
    (
        "../outside/victim",
        "failed failed no failed failed failed failed",
    ),
    (
        "folder//inside",
        "failed failed no failed failed failed failed",
    ),
    ("./file", "failed failed no failed failed failed failed"),
    ("file/", "failed failed no failed failed failed failed"),
    (
        "folder/.cvkit-next",
        "failed failed no failed failed failed failed",
    ),
    (
        ".cvkit-txn-left",
        "failed failed no failed failed failed failed",
    ),
];

// A write at a name behind a link is refused, and nothing is read or removed there.
fn assert_linked(rt: &impl Abort, vault: &mut impl Vault) {
    assert!(rt; reads(vault, "linked/victim") == "no");
    assert!(rt; removes(vault, "linked/victim") == "no");
    assert!(rt; writes(vault, "linked/victim", b"new") == "failed");
}

fn assert_rows(rt: &impl Abort, vault: &mut impl Vault) {
    for (name, want) in ROWS {
        let words = told(vault, name);
        assert!(rt; are_words(&words, want), "at {name}");
    }
}

// A file that stands behind a link, and one at which no name stands.
const KEPT: [(&str, &[u8]); 2] = [
    ("kinds/outside/victim", b"victim"),
    ("kinds/srv/txn/old", b"old"),
];

#[test]
fn each_call_agrees_on_what_is_a_name(rt: HostRuntime) -> Result<(), Fail> {
    make_all(&rt, "kinds", &ITEMS)?;
    let mut vault = vault_at(rt, "kinds/srv")?;
    assert_linked(&rt, &mut vault);
    assert_rows(&rt, &mut vault);
    for (path, bytes) in KEPT {
        assert!(rt; fs::read(&rt, path)?.as_slice() == bytes);
    }
    assert!(rt; syncs(&mut vault) == "yes");
    Ok(())
}

// A call, what it is given, and what it answers.
type Step = (&'static str, &'static str, &'static str, &'static str);

// The first calls, that make no folder.
static FIRST: [Step; 2] = [("list", "", "", ""), ("sync", "", "", "yes")];

// Files in the order of their bytes; renaming onto a file; removing twice.
static THEN: [Step; 17] = [
    ("write", "b/z", "1", "yes"),
    ("write", "b/a", "2", "yes"),
    ("write", "b", "3", "failed"),
    ("write", "b-", "", "yes"),
    ("write", "a/é", "4", "yes"),
    ("list", "", "", "a/é b- b/a b/z "),
    ("list", "b", "", "b- b/a b/z "),
    ("list", "b/z", "", "b/z "),
    ("list", "b/zz", "", ""),
    ("rename", "b/z", "b/a", "yes"),
    ("has", "b/a", "1", "yes"),
    ("rename", "b/z", "b/a", "no"),
    ("rename", "b/a", "c/d/e", "yes"),
    ("remove", "c/d/e", "", "yes"),
    ("remove", "c/d/e", "", "no"),
    ("sync", "", "", "yes"),
    ("read", "b-", "", "yes"),
];

// What a second vault answers while the first is held.
static SECOND: [Step; 3] = [
    ("read", "b-", "", "failed"),
    ("lists", "", "", "failed"),
    ("sync", "", "", "failed"),
];

// What a call answers.
fn answer<V: Vault>(vault: &mut V, call: &str, name: &str, other: &str) -> &'static str {
    match call {
        "has" => has(vault, name, other.as_bytes()),
        "lists" => lists(vault, name),
        "read" => reads(vault, name),
        "remove" => removes(vault, name),
        "rename" => renames(vault, name, other),
        "sync" => syncs(vault),
        "write" => writes(vault, name, other.as_bytes()),
        _ => "no call",
    }
}

// Asserts what each call answers.
fn assert_steps<V: Vault>(
    rt: &impl Abort,
    alloc: Global,
    vault: &mut V,
    steps: &[Step],
) -> Result<(), Fail> {
    for (call, name, other, want) in steps {
        if *call == "list" {
            assert!(rt; names(alloc, vault, name)?.as_str() == *want);
        } else {
            assert!(rt; answer(vault, call, name, other) == *want, "{call} {name}");
        }
    }
    Ok(())
}

fn is_absent(rt: &impl Files, path: &str) -> bool {
    fs::symlink_metadata(rt, path).is_err()
}

// One vault at a time.
fn assert_one_at_a_time<R: Abort + Files, V: Vault>(
    rt: &R,
    alloc: Global,
    vault: &mut V,
    other: &mut V,
) -> Result<(), Fail> {
    assert_steps(rt, alloc, vault, &FIRST)?;
    assert!(rt; is_absent(rt, "kept/srv"));
    assert_steps(rt, alloc, vault, &THEN)?;
    assert_steps(rt, alloc, other, &SECOND)
}

// What an earlier process left.
static LEFT: [(&str, &[u8]); 2] = [
    ("kept/srv/a/.cvkit-next", b"half of a fi"),
    ("kept/srv/.cvkit-txn-left", b"a file"),
];

fn assert_left<R: Abort + Files, V: Vault>(
    rt: &R,
    alloc: Global,
    vault: &mut V,
) -> Result<(), Fail> {
    for (path, bytes) in &LEFT {
        fs::write(rt, *path, *bytes)?;
    }
    assert!(rt; syncs(vault) == "yes");
    assert!(rt; is_absent(rt, "kept/srv/a/.cvkit-next"));
    assert!(rt; names(alloc, vault, "")?.as_str() == "a/é b- txn/left ");
    Ok(())
}

#[test]
fn a_vault_keeps_what_was_written(rt: HostRuntime) -> Result<(), Fail> {
    begin(&rt, "kept")?;
    let mut vault = vault_at(rt, "kept/srv")?;
    let mut other = vault_at(rt, "kept/srv")?;
    assert_one_at_a_time(&rt, rt.alloc(), &mut vault, &mut other)?;
    drop(vault);
    assert_left(&rt, rt.alloc(), &mut vault_at(rt, "kept/srv")?)
}

// What a killed process left in the folder `below` of the folder of this number.
fn left_in(alloc: Global, number: u32) -> Result<String, Fail> {
    Ok(format!(in alloc; "walked/srv/{number}/below/.cvkit-next")?)
}

fn leave_in(rt: &HostRuntime, number: u32) -> Result<(), Fail> {
    let folder = format!(in rt.alloc(); "walked/srv/{number}/below")?;
    fs::create_dir_all(rt, folder.as_str())?;
    fs::write(
        rt,
        left_in(rt.alloc(), number)?.as_str(),
        b"half".as_slice(),
    )?;
    Ok(())
}

// A first sync goes over each folder, also over more in one than a walk keeps.
#[test]
fn a_first_sync_goes_over_each_folder(rt: HostRuntime) -> Result<(), Fail> {
    begin(&rt, "walked")?;
    for number in 0..300 {
        leave_in(&rt, number)?;
    }
    assert!(rt; syncs(&mut vault_at(rt, "walked/srv")?) == "yes");
    for number in 0..300 {
        let left = left_in(rt.alloc(), number)?;
        assert!(rt; is_absent(&rt, left.as_str()), "{number}");
    }
    Ok(())
}

// The name on its way of this number.
fn way(alloc: Global, number: u32) -> Result<String, Fail> {
    Ok(format!(in alloc; "txn/{number}")?)
}

// Whether so many files are written on their way, each with its name as its content.
fn writes_ways<V: Vault>(alloc: Global, vault: &mut V, count: u32) -> Result<bool, Fail> {
    for number in 0..count {
        let name = way(alloc, number)?;
        if writes(vault, name.as_str(), name.as_bytes()) != "yes" {
            return Ok(false);
        }
    }
    Ok(true)
}

// Whether these files stand there.
fn has_ways<V: Vault>(alloc: Global, vault: &mut V, count: u32) -> Result<bool, Fail> {
    for number in 0..count {
        let name = way(alloc, number)?;
        if has(vault, name.as_str(), name.as_bytes()) != "yes" {
            return Ok(false);
        }
    }
    Ok(true)
}

// More files on their way than wait for their syncs at once stand after a sync, in this process and in a later one.
#[test]
fn a_sync_ends_the_syncs_of_many_files(rt: HostRuntime) -> Result<(), Fail> {
    begin(&rt, "begun")?;
    let mut vault = vault_at(rt, "begun/srv")?;
    assert!(rt; writes_ways(rt.alloc(), &mut vault, 1_100)?);
    assert!(rt; syncs(&mut vault) == "yes");
    drop(vault);
    let mut later = vault_at(rt, "begun/srv")?;
    assert!(rt; syncs(&mut later) == "yes");
    assert!(rt; has_ways(rt.alloc(), &mut later, 1_100)?);
    Ok(())
}

static LEAVES_ONE: [Step; 3] = [
    ("rename", "a", "b", "yes"),
    ("has", "a", "1", "no"),
    ("has", "b", "1", "yes"),
];

// Two names of one file: after a rename one is left.
#[test]
fn a_rename_of_two_names_of_one_file_leaves_one(rt: HostRuntime) -> Result<(), Fail> {
    begin(&rt, "renamed")?;
    let mut vault = vault_at(rt, "renamed/srv")?;
    assert!(rt; writes(&mut vault, "a", b"1") == "yes");
    fs::hard_link(&rt, "renamed/srv/a", "renamed/srv/b")?;
    assert_steps(&rt, rt.alloc(), &mut vault, &LEAVES_ONE)
}

// A text that is written, how much is read at most, and how much that gives.
const PIECES: [(&str, usize, usize); 3] = [("abc", 8, 3), ("abcdef", 4, 4), ("", 8, 2)];

// Writes a whole text.
fn sends<W: Sink>(sink: &mut W, text: &str) -> bool {
    sink.write(text.as_bytes()) == Ok(text.len()) && sink.flush().is_ok()
}

// How much a read of so many bytes at most gives.
fn got<R: Source>(source: &mut R, beside: &R::Beside, room: usize) -> Option<usize> {
    let mut buf = [0u8; 8];
    source.read(&mut buf[..room.min(8)], beside).ok()
}

fn broken_pipe(rt: &HostRuntime) -> io::Result<bool> {
    let (reads, writes) = io::pipe(rt)?;
    drop(reads);
    Ok(StreamSink::new(writes).write(b"x").is_err())
}

// A pipe gives what is there, and fails where its other end is closed.
#[test]
fn streams_go_through_a_pipe(rt: HostRuntime) -> Result<(), Fail> {
    let beside = MemorySink::new(rt.alloc(), 0, Vec::new(rt.alloc()))?;
    let (reads, writes) = io::pipe(&rt)?;
    let mut source = StreamSource::new(reads);
    let mut sink = StreamSink::new(writes);
    for (sent, room, count) in PIECES {
        assert!(rt; sends(&mut sink, sent));
        assert!(rt; got(&mut source, &beside, room) == Some(count), "at {sent}");
    }
    drop(sink);
    assert!(rt; got(&mut source, &beside, 8) == Some(0));
    assert!(rt; broken_pipe(&rt)?);
    Ok(())
}
