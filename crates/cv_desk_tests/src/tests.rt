//! What the contracts can't say: that calls find memory, over a vault in memory.

use crate::test_gates::{Ask, Row, leased_over, story};
use std::test::Fail;

static LIVE: [Row; 3] = [
    (Ask::Live(7199), "1"),
    (Ask::Live(7200), "0"),
    (Ask::Entries, "1"),
];

#[test]
fn a_lease_is_live_until_its_deadline(rt: HostRuntime) -> Result<(), Fail> {
    assert!(rt; story(rt.alloc(), &LIVE)? == (true, 1));
    Ok(())
}

#[test]
fn a_lease_needs_a_root_that_is_read(rt: HostRuntime) -> Result<(), Fail> {
    assert!(rt; leased_over(rt.alloc(), Some(b"other"))? == "damaged");
    assert!(rt; leased_over(rt.alloc(), None)? == "no memory");
    Ok(())
}

static ENDED: [Row; 3] = [
    (Ask::CancelByOther, "wrong key"),
    (Ask::Cancel, "cancelled"),
    (Ask::Cancel, "invalid token"),
];

#[test]
fn a_lease_is_ended_by_its_key_alone(rt: HostRuntime) -> Result<(), Fail> {
    assert!(rt; story(rt.alloc(), &ENDED)?.0);
    Ok(())
}

static STORED: [Row; 5] = [
    (Ask::Store, "stored"),
    (Ask::Store, "stored"),
    (Ask::Fresh(1), "1"),
    (Ask::Fresh(2), "0"),
    (Ask::Fresh(0), "no store"),
];

#[test]
fn what_is_stored_again_is_fresh_no_more(rt: HostRuntime) -> Result<(), Fail> {
    assert!(rt; story(rt.alloc(), &STORED)?.0);
    Ok(())
}

static COMMITTED: [Row; 5] = [
    (Ask::Commit(1, false), "no memory"),
    (Ask::Commit(1, true), "committed"),
    (Ask::Revision, "2"),
    (Ask::Cancel, "invalid token"),
    (Ask::Entries, "4"),
];

#[test]
fn a_commit_is_begun_and_given_up_or_ended(rt: HostRuntime) -> Result<(), Fail> {
    assert!(rt; story(rt.alloc(), &COMMITTED)? == (true, 4));
    Ok(())
}
