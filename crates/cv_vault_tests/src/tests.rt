use cv_vault::{MemoryVault, Mortal, Vault, VaultFault, is_sure, replace};
use std::alloc::Global;
use std::test::Fail;

// A call of a vault, with what it is to find where it looks.
#[derive(Clone, Copy)]
enum Call {
    Write(&'static str, &'static [u8]),
    Rename(&'static str, &'static str),
    Remove(&'static str),
    Sync,
    Has(&'static str, &'static [u8]),
    Lacks(&'static str),
    Length(&'static str, u64),
    Lists(&'static str, &'static str),
    Sure(&'static str, &'static [u8]),
    ReplaceHead(&'static [u8]),
    Crash(u64),
}

// A call, and what it answers: true where it has no answer, or finds what it is to find.
type Row = (Call, Result<bool, VaultFault>);

// Whether a name has these bytes.
fn has(vault: &mut MemoryVault, name: &str, bytes: &[u8]) -> Result<bool, VaultFault> {
    match vault.read(name)? {
        Some(file) => Ok(file.as_slice() == bytes),
        None => Ok(false),
    }
}

// Whether these names, with a space behind each, are listed in this order.
fn lists(
    alloc: Global,
    vault: &mut MemoryVault,
    prefix: &str,
    names: &str,
) -> Result<bool, VaultFault> {
    let mut text = String::new(alloc);
    for name in &vault.list(prefix)? {
        text.push_str(name.as_str())?;
        text.push(' ')?;
    }
    Ok(text.as_str() == names)
}

// Makes a call that changes a vault.
fn change(vault: &mut MemoryVault, call: Call) -> Result<bool, VaultFault> {
    match call {
        Call::Write(name, bytes) => vault.write(name, bytes)?,
        Call::Sync => vault.sync()?,
        Call::ReplaceHead(bytes) => replace(vault, "txn/1", "head", bytes)?,
        Call::Remove(name) => return vault.remove(name),
        Call::Rename(from, to) => return if from == to {
            Ok(false)
        } else {
            vault.rename(from, to)
        },
        _ => return Ok(false),
    }
    Ok(true)
}

// Makes a call.
fn make(alloc: Global, vault: &mut MemoryVault, call: Call) -> Result<bool, VaultFault> {
    match call {
        Call::Has(name, bytes) => has(vault, name, bytes),
        Call::Lacks(name) => Ok(vault.read(name)?.is_none()),
        Call::Length(name, bytes) => Ok(vault.length(name)? == Some(bytes)),
        Call::Lists(prefix, names) => lists(alloc, vault, prefix, names),
        Call::Sure(name, bytes) => is_sure(vault, name, bytes),
        _ => change(vault, call),
    }
}

// The number of the first row whose call answers otherwise, in a vault whose calls of these numbers fail.
fn first_other(alloc: Global, failing: &[u64], rows: &[Row]) -> Result<Option<usize>, Fail> {
    let mut vault = MemoryVault::new(alloc, failing.to_vec(alloc)?)?;
    for (number, (call, answer)) in rows.iter().enumerate() {
        let given = match call {
            Call::Crash(pick) => {
                vault = vault.crash(*pick);
                Ok(true)
            },
            call => make(alloc, &mut vault, *call),
        };
        if given != *answer {
            return Ok(Some(number));
        }
    }
    Ok(None)
}

// What a crash by a pick leaves of two names, where the second was renamed to the first, and both were settled.
fn renamed(pick: u64, first: Call, second: Call) -> [Row; 8] {
    [
        (Call::Write("a", b"old"), Ok(true)),
        (Call::Sync, Ok(true)),
        (Call::Write("b", b"new"), Ok(true)),
        (Call::Sync, Ok(true)),
        (Call::Rename("b", "a"), Ok(true)),
        (Call::Crash(pick), Ok(true)),
        (first, Ok(true)),
        (second, Ok(true)),
    ]
}

#[test]
fn a_crash_leaves_each_moved_name_by_its_bit(rt: HostRuntime) -> Result<(), Fail> {
    let (old, new) = (Call::Has("a", b"old"), Call::Has("a", b"new"));
    let (there, gone) = (Call::Has("b", b"new"), Call::Lacks("b"));
    for (pick, first, second) in [(0, old, there), (3, new, gone), (1, new, there)] {
        let rows = renamed(pick, first, second);
        assert_eq!(rt; first_other(rt.alloc(), &[], &rows)?, None, "at {pick}");
    }
    Ok(())
}

const NUMBERED: [Row; 11] = [
    (Call::Write("a", b"one"), Ok(true)),
    (Call::Write("a", b"two"), Err(VaultFault::Failed)),
    (Call::Has("a", b"one"), Ok(true)),
    (Call::Rename("a", "b"), Err(VaultFault::Failed)),
    (Call::Has("b", b"one"), Ok(true)),
    (Call::Sync, Err(VaultFault::Failed)),
    (Call::Length("b", 3), Err(VaultFault::Failed)),
    (Call::Length("b", 3), Ok(true)),
    (Call::Remove("b"), Ok(true)),
    (Call::Remove("b"), Ok(false)),
    (Call::Sync, Ok(true)),
];

#[test]
fn calls_fail_by_their_numbers(rt: HostRuntime) -> Result<(), Fail> {
    assert_eq!(rt; first_other(rt.alloc(), &[2, 4, 4, 6, 7], &NUMBERED)?, None);
    Ok(())
}

const LISTED: [Row; 6] = [
    (Call::Write("data/b", b"x"), Ok(true)),
    (Call::Write("txn/1", b"x"), Ok(true)),
    (Call::Write("data/a", b"x"), Ok(true)),
    (Call::Write("data/", b"x"), Ok(true)),
    (Call::Write("dat", b"x"), Ok(true)),
    (Call::Lists("data/", "data/ data/a data/b "), Ok(true)),
];

#[test]
fn names_are_listed_in_ascending_order(rt: HostRuntime) -> Result<(), Fail> {
    assert_eq!(rt; first_other(rt.alloc(), &[], &LISTED)?, None);
    Ok(())
}

const STORED: [Row; 5] = [
    (Call::ReplaceHead(b"first"), Ok(true)),
    (Call::ReplaceHead(b"second"), Ok(true)),
    (Call::Crash(0), Ok(true)),
    (Call::Has("head", b"second"), Ok(true)),
    (Call::Lacks("txn/1"), Ok(true)),
];

#[test]
fn a_stored_file_survives_a_crash(rt: HostRuntime) -> Result<(), Fail> {
    assert_eq!(rt; first_other(rt.alloc(), &[], &STORED)?, None);
    Ok(())
}

const SETTLED: [Row; 7] = [
    (Call::Write("head", b"first"), Ok(true)),
    (Call::Sure("head", b"first"), Ok(true)),
    (Call::Sure("head", b"second"), Ok(false)),
    (Call::Sure("other", b"first"), Ok(false)),
    (Call::Sure("head", b"first"), Err(VaultFault::Failed)),
    (Call::Crash(0), Ok(true)),
    (Call::Has("head", b"first"), Ok(true)),
];

#[test]
fn a_file_is_sure_behind_a_sync(rt: HostRuntime) -> Result<(), Fail> {
    assert_eq!(rt; first_other(rt.alloc(), &[8], &SETTLED)?, None);
    Ok(())
}
