//! Calls of the vault and of a folder of changes, by words. Scripts try them by it on odd folders, and count what they cost.
//!
//! The first word is the root of a vault. Each word behind it is a call, and prints one line with its answer.
//!
//! ```text
//! read=NAME  length=NAME  list=PREFIX  write=NAME>TEXT  rename=FROM>TO  remove=NAME  sync
//! store=COUNT>SIZE      writes COUNT objects of SIZE bytes under txn/, syncs, renames each to its name below data/, syncs
//! wait                  reads a byte of standard input
//! at=ROOT               goes on over ROOT
//! also=ROOT             opens a second vault, over ROOT, and reads `file` there
//! items=FOLDER>PATH     lists a directory of a folder of changes: each name with `/`, `=`, `>` or `!` for what it is
//! content=FOLDER>PATH   reads a file of a folder of changes, and prints how many bytes it gives
//! root=FOLDER           names the folder of changes that `dir` and `file` read, one folder until the next `root`
//! dir=PATH              lists a directory of it, as `items`, whose files are then read ahead
//! file=PATH             reads a file of it, and prints the hash of the bytes it gives
//! memory=COUNT          writes COUNT names into a vault in memory and syncs, lists ten, changes one and syncs, and prints
//!                       the nanoseconds of the three
//! ```
#![tactic(auto)]

use cv_base::{Items, Object, RepoPath};
use cv_folder::FolderVault;
use cv_ports::{Folder, FolderFault, FolderItem, FoundKind};
use cv_real::{SystemCalls, SystemFolder, program_words};
use cv_vault::{MemoryVault, Vault, VaultFault};
use std::alloc::AllocError;
use std::fs::File;
use std::io::Read;
use std::process::ExitCode;
use std::rt::{Files, Runtime};
use std::thread::Threads;
use std::time::Instant;
use std::{env, io};

/// What the runtime of this program can do.
trait Host: Runtime + Files<File = File> + AllocGlobal + Copy + Threads {}

impl<R: Runtime + Files<File = File> + AllocGlobal + Copy + Threads> Host for R {}

type Vaulted<R> = FolderVault<SystemCalls<R>>;

/// The vault over the folder at a path.
fn vault_at<R: Host>(rt: &R, root: &str) -> Result<Vaulted<R>, AllocError> {
    FolderVault::new(rt.alloc(), SystemCalls::new(*rt), root)
}

/// What a call answers.
#[derive(Clone, Copy)]
enum Answer {
    Done,
    Yes,
    No,
    Failed,
    NoMemory,
    NoCall,
}

fn fault_answer(fault: VaultFault) -> Answer {
    match fault {
        VaultFault::Failed => Answer::Failed,
        VaultFault::NoMemory => Answer::NoMemory,
    }
}

fn done_answer(answer: Result<(), VaultFault>) -> Answer {
    match answer {
        Ok(()) => Answer::Done,
        Err(fault) => fault_answer(fault),
    }
}

fn there_answer(answer: Result<bool, VaultFault>) -> Answer {
    match answer {
        Ok(true) => Answer::Yes,
        Ok(false) => Answer::No,
        Err(fault) => fault_answer(fault),
    }
}

fn word_of(answer: Answer) -> &'static str {
    match answer {
        Answer::Done => "ok",
        Answer::Yes => "yes",
        Answer::No => "no",
        Answer::Failed => "failed",
        Answer::NoMemory => "no memory",
        Answer::NoCall => "no such call",
    }
}

fn write_all<R: Host>(rt: &R, vault: &mut Vaulted<R>, count: u32, size: usize) -> io::Result<bool> {
    let bytes = vec![in rt.alloc(); 120u8; size]?;
    for number in 0..count {
        let way = format!(in rt.alloc(); "txn/{number:038x}")?;
        if vault.write(way.as_str(), bytes.as_slice()).is_err() {
            return Ok(false);
        }
    }
    Ok(vault.sync().is_ok())
}

fn move_all<R: Host>(rt: &R, vault: &mut Vaulted<R>, count: u32) -> io::Result<bool> {
    for number in 0..count {
        let way = format!(in rt.alloc(); "txn/{number:038x}")?;
        let bucket = number % 256;
        let name = format!(in rt.alloc(); "data/{bucket:02x}/{number:038x}")?;
        if way.as_str() == name.as_str() || vault.rename(way.as_str(), name.as_str()).is_err() {
            return Ok(false);
        }
    }
    Ok(vault.sync().is_ok())
}

/// Writes so many names into a vault in memory, ten in each folder, and syncs.
fn write_names<R: Host>(rt: &R, vault: &mut MemoryVault, count: u32) -> Option<()> {
    for number in 0..count {
        let folder = number / 10;
        let name = format!(in rt.alloc(); "data/{folder:05}/{number:06}").ok()?;
        vault.write(name.as_str(), b"content").ok()?;
    }
    vault.sync().ok()
}

/// Whether ten names are in a folder.
fn lists_ten(vault: &mut MemoryVault) -> Option<()> {
    (vault.list("data/00050/").ok()?.len() == 10).then_some(())
}

/// Gives one name another content, and syncs.
fn change_one(vault: &mut MemoryVault) -> Option<()> {
    vault.write("data/00050/000500", b"another").ok()?;
    vault.sync().ok()
}

/// The nanoseconds from one moment to another.
fn nanoseconds(from: Instant, to: Instant) -> u128 {
    to.duration_since(from).as_nanos()
}

/// The nanoseconds of writing so many names, of listing ten, and of changing one.
fn times<R: Host>(rt: &R, count: u32) -> Option<(u128, u128, u128)> {
    let mut vault = MemoryVault::new(rt.alloc(), Vec::new(rt.alloc())).ok()?;
    let begin = Instant::now(rt).ok()?;
    write_names(rt, &mut vault, count)?;
    let written = Instant::now(rt).ok()?;
    lists_ten(&mut vault)?;
    let listed = Instant::now(rt).ok()?;
    change_one(&mut vault)?;
    let changed = Instant::now(rt).ok()?;
    Some((
        nanoseconds(begin, written),
        nanoseconds(written, listed),
        nanoseconds(listed, changed),
    ))
}

fn print_times<R: Host>(rt: &R, count: &str) -> io::Result<()> {
    match times(rt, count.parse::<u32>().unwrap_or(0)) {
        Some((writes, lists, change)) => println!(rt; "{writes} {lists} {change}"),
        None => println!(rt; "failed"),
    }
}

fn print_names<R: Host>(rt: &R, vault: &mut Vaulted<R>, prefix: &str) -> io::Result<()> {
    match vault.list(prefix) {
        Ok(names) => {
            print!(rt; "names")?;
            for name in names.iter().take(20) {
                let name = name.as_str();
                print!(rt; " {name}")?;
            }
            println!(rt; "")
        }
        Err(fault) => {
            let word = word_of(fault_answer(fault));
            println!(rt; "{word}")
        }
    }
}

/// The items of a directory of a folder of changes.
fn items_of<R: Host>(
    rt: &R,
    folder: &mut SystemFolder<R>,
    path: &str,
) -> Option<Items<FolderItem>> {
    folder
        .list(rt.alloc(), &RepoPath::read(rt.alloc(), path).ok()?)
        .ok()
}

/// What a file of a folder of changes has.
fn object_of<R: Host>(rt: &R, folder: &mut SystemFolder<R>, path: &str) -> Option<Object> {
    folder
        .read(rt.alloc(), &RepoPath::read(rt.alloc(), path).ok()?)
        .ok()
}

/// A folder of changes that nothing was asked of.
fn folder_at<R: Host>(rt: &R, root: &str) -> Option<SystemFolder<R>> {
    let mut folder = SystemFolder::new(*rt);
    folder.root(rt.alloc(), root).ok()?;
    Some(folder)
}

/// The items of a directory of the folder of changes at a path.
fn items_at<R: Host>(rt: &R, root: &str, path: &str) -> Option<Items<FolderItem>> {
    items_of(rt, &mut folder_at(rt, root)?, path)
}

/// What a file of the folder of changes at a path has.
fn object_at<R: Host>(rt: &R, root: &str, path: &str) -> Option<Object> {
    object_of(rt, &mut folder_at(rt, root)?, path)
}

fn mark_of(kind: &FoundKind) -> &'static str {
    match kind {
        FoundKind::Dir => "/",
        FoundKind::File => "=",
        FoundKind::Link(_) => ">",
        FoundKind::Special => "!",
    }
}

fn print_items<R: Host>(rt: &R, items: Option<Items<FolderItem>>) -> io::Result<()> {
    let Some(items) = items else {
        return println!(rt; "failed");
    };
    print!(rt; "items")?;
    for item in items.as_slice() {
        let name = item.name.as_str();
        let mark = mark_of(&item.kind);
        print!(rt; " {name}{mark}")?;
    }
    println!(rt; "")
}

fn print_length<R: Host>(rt: &R, object: Option<Object>) -> io::Result<()> {
    match object {
        Some(object) => {
            let length = object.bytes.as_slice().len();
            println!(rt; "{length}")
        }
        None => println!(rt; "failed"),
    }
}

fn print_hash<R: Host>(rt: &R, object: Option<Object>) -> io::Result<()> {
    match object.and_then(|object| object.id.text(rt.alloc()).ok()) {
        Some(hash) => println!(rt; "{hash}"),
        None => println!(rt; "failed"),
    }
}

fn named_answer(answer: Result<(), FolderFault>) -> Answer {
    match answer {
        Ok(()) => Answer::Done,
        Err(FolderFault::Failed) => Answer::Failed,
        Err(FolderFault::NoMemory) => Answer::NoMemory,
    }
}

fn answer_of<R: Host>(
    rt: &R,
    vault: &mut Vaulted<R>,
    call: &str,
    name: &str,
    other: &str,
) -> io::Result<Answer> {
    match call {
        "read" => Ok(there_answer(vault.read(name).map(|file| file.is_some()))),
        "length" => Ok(there_answer(vault.length(name).map(|length| length.is_some()))),
        "write" => Ok(done_answer(vault.write(name, other.as_bytes()))),
        "rename" if name != other => Ok(there_answer(vault.rename(name, other))),
        "remove" => Ok(there_answer(vault.remove(name))),
        "sync" => Ok(done_answer(vault.sync())),
        "store" => {
            let count = name.parse::<u32>().unwrap_or(0);
            let size = other.parse::<usize>().unwrap_or(1_000);
            if write_all(rt, vault, count, size)? && move_all(rt, vault, count)? {
                Ok(Answer::Done)
            } else {
                Ok(Answer::Failed)
            }
        }
        "wait" => {
            let mut byte = [0u8; 1];
            let _ = rt.reader().read(&mut byte);
            Ok(Answer::Done)
        }
        "also" => {
            let mut second = vault_at(rt, name)?;
            Ok(there_answer(second.read("file").map(|file| file.is_some())))
        }
        _ => Ok(Answer::NoCall),
    }
}

fn make_call<R: Host>(
    rt: &R,
    vault: &mut Vaulted<R>,
    call: &str,
    name: &str,
    other: &str,
) -> io::Result<()> {
    if call == "list" {
        return print_names(rt, vault, name);
    }
    if call == "items" {
        return print_items(rt, items_at(rt, name, other));
    }
    if call == "content" {
        return print_length(rt, object_at(rt, name, other));
    }
    if call == "memory" {
        return print_times(rt, name);
    }
    let word = word_of(answer_of(rt, vault, call, name, other)?);
    println!(rt; "{word}")
}

/// Makes a call of the folder of changes that stays the same. Whether it is one.
fn made_of_folder<R: Host>(
    rt: &R,
    folder: &mut SystemFolder<R>,
    call: &str,
    name: &str,
) -> io::Result<bool> {
    match call {
        "root" => {
            let word = word_of(named_answer(folder.root(rt.alloc(), name)));
            println!(rt; "{word}")?;
        }
        "dir" => print_items(rt, items_of(rt, folder, name))?,
        "file" => print_hash(rt, object_of(rt, folder, name))?,
        _ => return Ok(false),
    }
    Ok(true)
}

fn make_calls<R: Host>(rt: &R, words: &Vec<String>) -> io::Result<()> {
    let root = words.first().map_or("srv", |word| word.as_str());
    let mut vault = vault_at(rt, root)?;
    let mut folder = SystemFolder::new(*rt);
    for word in words.iter().skip(1) {
        let word = word.as_str();
        let (call, names) = word.split_once('=').unwrap_or((word, ""));
        let (name, other) = names.split_once('>').unwrap_or((names, ""));
        if call == "at" {
            vault = vault_at(rt, name)?;
        } else if !made_of_folder(rt, &mut folder, call, name)? {
            make_call(rt, &mut vault, call, name, other)?;
        }
    }
    Ok(())
}

fn main(rt: HostRuntime) -> ExitCode {
    match program_words(rt.alloc(), env::args(&rt)) {
        Ok(Some(words)) => match make_calls(&rt, &words) {
            Ok(()) => ExitCode::from(0),
            Err(_) => ExitCode::from(1),
        },
        _ => ExitCode::from(2),
    }
}
