// Every crash of a vault in memory, against a plain function over the list of calls.
use cv_vault::{MemoryVault, Mortal, Vault, VaultFault};
use std::alloc::Global;
use std::test::Fail;

#[derive(Clone, Copy)]
enum Call {
    Write(usize, u8),
    Rename(usize, usize),
    Remove(usize),
    Sync,
}

// What stands at one of three names: the byte of its file, and what a crash may leave in its place.
#[derive(Clone, Copy)]
struct Expected {
    now: Option<u8>,
    before: Option<u8>,
    settled: bool,
    torn: bool,
}

// One of thirteen calls. A write has its own byte at each place of the sequence.
fn call_of(code: u64, place: u8) -> Call {
    let name = (code % 3) as usize;
    match code {
        0..=2 => Call::Write(name, place),
        3..=5 => Call::Rename(name, (name + 1) % 3),
        6..=8 => Call::Rename(name, (name + 2) % 3),
        9..=11 => Call::Remove(name),
        _ => Call::Sync,
    }
}

fn name_of(name: usize) -> &'static str {
    match name {
        0 => "a",
        1 => "b",
        _ => "c",
    }
}

// A name that was renamed or removed, from or to it.
fn moved(old: Expected, now: Option<u8>, all_settled: bool) -> Expected {
    Expected {
        now,
        before: if all_settled { old.now } else { None },
        settled: false,
        torn: !all_settled,
    }
}

fn expect(slots: &mut [Expected; 3], call: Call) {
    match call {
        Call::Write(name, byte) => {
            slots[name % 3] = Expected {
                now: Some(byte),
                before: None,
                settled: false,
                torn: true,
            };
        },
        Call::Rename(from, to) => {
            let (old, target) = (slots[from % 3], slots[to % 3]);
            if old.now.is_some() {
                let all_settled = old.settled && target.settled;
                slots[from % 3] = moved(old, None, all_settled);
                slots[to % 3] = moved(target, old.now, all_settled);
            }
        },
        Call::Remove(name) => {
            let old = slots[name % 3];
            if old.now.is_some() {
                slots[name % 3] = moved(old, None, old.settled);
            }
        },
        Call::Sync => {
            for slot in slots.iter_mut() {
                slot.settled = true;
            }
        },
    }
}

fn make(vault: &mut MemoryVault, call: Call) -> Result<(), VaultFault> {
    match call {
        Call::Write(name, byte) => vault.write(name_of(name), &[byte]),
        Call::Rename(from, to) => {
            let (from, to) = (name_of(from), name_of(to));
            if from != to {
                let _there = vault.rename(from, to)?;
            }
            Ok(())
        },
        Call::Remove(name) => {
            let _there = vault.remove(name_of(name))?;
            Ok(())
        },
        Call::Sync => vault.sync(),
    }
}

// Whether each name has the file that the pick leaves.
fn agrees(vault: &mut MemoryVault, slots: &[Expected; 3], pick: u64) -> Result<bool, VaultFault> {
    let mut rest = pick;
    for (name, slot) in slots.iter().enumerate() {
        let mut left = slot.now;
        if !slot.settled {
            if rest % 2 == 0 {
                left = if slot.torn { None } else { slot.before };
            }
            rest /= 2;
        }
        let found = vault.read(name_of(name))?;
        let same = match (found, left) {
            (Some(file), Some(byte)) => file.as_slice() == [byte].as_slice(),
            (None, None) => true,
            _ => false,
        };
        if !same {
            return Ok(false);
        }
    }
    Ok(true)
}

// Runs a sequence of calls, whose codes are the digits of a number, and then a crash by each pick.
fn all_agree(alloc: Global, number: u64, len: u8) -> Result<bool, VaultFault> {
    for pick in 0..8 {
        let mut vault = MemoryVault::new(alloc, Vec::new(alloc))?;
        let mut slots = [Expected {
            now: None,
            before: None,
            settled: true,
            torn: false,
        }; 3];
        let mut rest = number;
        for place in 0..len {
            let call = call_of(rest % 13, place);
            rest /= 13;
            make(&mut vault, call)?;
            expect(&mut slots, call);
        }
        if !agrees(&mut vault.crash(pick), &slots, pick)? {
            return Ok(false);
        }
    }
    Ok(true)
}

#[test]
fn every_crash_after_up_to_three_calls(rt: HostRuntime) -> Result<(), Fail> {
    for number in 0..2197u64 {
        assert!(rt; all_agree(rt.alloc(), number, 3)?);
    }
    Ok(())
}

#[test]
fn crashes_after_six_calls(rt: HostRuntime) -> Result<(), Fail> {
    let mut number: u64 = 1;
    for _ in 0..1500u32 {
        number = number
            .wrapping_mul(6364136223846793005)
            .wrapping_add(1442695040888963407);
        assert!(rt; all_agree(rt.alloc(), number / 65536 % 4826809, 6)?);
    }
    Ok(())
}
