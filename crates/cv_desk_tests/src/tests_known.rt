//! How much a commit reads of what an earlier one found whole, which no answer tells: by the calls of a vault in memory, of
//! which one is to fail.
ghost use Rattle.std.specs.Prelude.{◌<◌, IfOk};

use crate::test_gates::{Ask, Row, answer_of, answers, made_in};
use cv_vault::MemoryVault;
use std::alloc::Global;
use std::test::Fail;

/// More calls than any of these rows makes.
const LIMIT: u64 = 200;

/// The leases.
const LEASES: [Row; 2] = [(Ask::Lease("/a"), "granted"), (Ask::Lease("/b"), "granted")];

/// Whether all goes well where the call of a number fails: a repository is made and opened, the leases are granted, and so many
/// commits are ready, each under a lease of its own.
fn goes_well(alloc: Global, failing: u64, count: u64) -> Result<bool, Fail> {
    let vault = MemoryVault::new(alloc, vec![in alloc; failing]?)?;
    let Some(mut gate) = made_in(alloc, vault)? else {
        return Ok(false);
    };
    let mut well = answers(alloc, &mut gate, &LEASES)?;
    for number in 0..count {
        let word = answer_of(alloc, &mut gate, Ask::Commit(number + 1, false))?;
        well = well && word == "no memory";
    }
    Ok(well)
}

/// How many calls of the vault that takes.
fn calls_of(alloc: Global, count: u64) -> Result<u64, Fail>
    ensures { IfOk result (λ calls. calls < 200) }
{
    for calls in 0..LIMIT {
        if goes_well(alloc, calls + 1, count)? {
            return Ok(calls);
        }
    }
    Err(Fail::new("more calls"))
}

#[test]
fn a_root_that_was_found_whole_is_not_read_again(rt: HostRuntime) -> Result<(), Fail> {
    let before = calls_of(rt.alloc(), 0)?;
    let first = calls_of(rt.alloc(), 1)?;
    let second = calls_of(rt.alloc(), 2)?;
    assert!(rt; before < first);
    assert!(rt; second + before + 1 == first + first);
    Ok(())
}
