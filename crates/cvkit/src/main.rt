//! The program cvkit: the real outside, and the program's own call on it.
#![tactic(auto)]

use cv_base::NoMemory;
use cv_folder::FolderVault;
use cv_ports::{Folder, NoHold};
use cv_real::{
    StreamSink, StreamSource, SystemCalls, SystemClock, SystemFolder, TcpDial, program_words,
    text_or_empty,
};
use cv_top::{Parts, Status, run};
use cv_vault::Vault;
use std::env;
use std::process::ExitCode;

/// The folder of the repository's files, under the current folder.
const VAULT: &str = "srv";

/// Says that there is no memory.
fn out_of_memory(rt: HostRuntime) -> Status {
    let _ = Status::OutOfMemory.write_line(&mut StreamSink::new(rt.stderr()));
    Status::OutOfMemory
}

/// Runs the program on the real outside: over this vault and this folder of changes, under the texts of these keys and this
/// seal.
fn run_over<V: Vault + Drop, F: Folder + Drop>(
    rt: HostRuntime,
    vault: V,
    folder: F,
    keys: String,
    seal: String,
) -> Result<Status, NoMemory> {
    let words = match program_words(rt.alloc(), env::args(&rt))? {
        Some(words) => words,
        None => Vec::new(rt.alloc()),
    };
    let parts = Parts {
        vault,
        input: StreamSource::new(rt.stdin()),
        output: StreamSink::new(rt.stdout()),
        errors: StreamSink::new(rt.stderr()),
        clock: SystemClock::new(rt),
        keys,
        seal,
        folder,
        dial: TcpDial::new(rt),
        hold: NoHold,
    };
    let (status, _parts) = run(rt.alloc(), &words, parts);
    Ok(status)
}

// The handle on threads, by which files are synced, is this function's alone: what wants it is made here.
fn main(rt: HostRuntime) -> ExitCode {
    let vault = FolderVault::new(rt.alloc(), SystemCalls::new(rt), VAULT);
    let keys = text_or_empty(&rt, "cvkit.keys");
    let seal = text_or_empty(&rt, "cvkit.seal");
    let (Ok(vault), Ok(keys), Ok(seal)) = (vault, keys, seal) else {
        return ExitCode::from(out_of_memory(rt).code());
    };
    let status = match run_over(rt, vault, SystemFolder::new(rt), keys, seal) {
        Ok(status) => status,
        Err(NoMemory) => out_of_memory(rt),
    };
    ExitCode::from(status.code())
}
