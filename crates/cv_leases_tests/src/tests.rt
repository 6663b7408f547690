//! What the contracts can't say: that calls find memory, with the worked rows of leases.

ghost use Rattle.std.specs.Prelude.{◌≡◌, ◌≤◌, ◌<◌, true, map, nat_le, IfOk};
ghost use Rattle.std.specs.List.{AllByRecursion, list_all};

use cv_base::{NoMemory, RepoPath, Steps, Text, Token};
use cv_leases::{Lease, LeaseFault, LeaseTable};
use std::alloc::Global;
use std::marker::Brand;
use std::sync::ledger::{Blank, Ledger};
use std::test::Fail;

/// The token of this number in epoch 1.
fn token(number: u64) -> Token {
    Token { epoch: 1, number }
}

/// What is asked of a table, and what has to come. Leases are named by their numbers.
#[derive(Clone, Copy)]
enum Row {
    /// The lease is granted on the path of this text, and ends at this deadline.
    Grants(u64, &'static str, u64),
    /// A lease on the path of this text isn't granted beside this one, which ends at this deadline.
    Busy(&'static str, u64, u64),
    /// A lease on the path of this text isn't granted, since it is none for leases.
    Bad(&'static str),
    /// The lease is found, and ends at this deadline, or it isn't.
    Finds(u64, Option<u64>),
    /// This lease stands at a place in the order of grant, or none.
    Stands(usize, Option<u64>),
    /// There are so many leases.
    Counts(usize),
    /// There are so many leases when all are listed, and this one is the last.
    Lists(usize, u64),
    /// The lease is taken out, if there is one, which is told so.
    Ends(u64, bool),
    /// The leases that are due at this moment are taken out.
    Expires(u64),
}

/// All leases.
fn all_leases<L: Ledger>(
    alloc: Global,
    table: &LeaseTable,
    blank: Blank,
) -> Result<Vec<&Lease>, NoMemory>
    requires { (blank.name ≡ L.name) × (blank.parts ≡ L.parts) × (0 < blank.parts) }
    ensures { IfOk result (λ all. map (λ lease. lease.now) all.items ≡ table.now) }
{
    let mut steps: Steps<L> = Steps::new(blank);
    table.leases(alloc, &mut steps)
}

/// The same by steps that aren't counted.
fn leases_of(alloc: Global, table: &LeaseTable) -> Result<Vec<&Lease>, NoMemory>
    ensures { IfOk result (λ all. map (λ lease. lease.now) all.items ≡ table.now) }
{
    all_leases::<Brand>(alloc, table, Blank::new(1))
}

/// Whether none of these leases ends later than this.
fn ends_last(leases: &[&Lease], deadline: u64) -> bool
    ensures { result ≡ list_all (λ lease. nat_le lease.now.deadline deadline) leases.now }
{
    leases.iter().all(|lease| lease.deadline <= deadline)
}

/// Whether no lease of a table ends later than this.
fn is_last(alloc: Global, table: &LeaseTable, deadline: u64) -> Result<bool, NoMemory>
    ensures { IfOk result (λ is. is ≡ true → AllByRecursion (λ other. other.deadline ≤ deadline) table.now) }
{
    let leases = leases_of(alloc, table)?;
    Ok(ends_last(&leases, deadline))
}

/// Grants a lease of `k1`, if none has its token, none ends later and nothing is to refuse it, which is told.
fn grants(
    alloc: Global,
    table: &mut LeaseTable,
    number: u64,
    path: RepoPath,
    deadline: u64,
) -> Result<bool, Fail> {
    let key = Text::from_str(alloc, "k1")?;
    let token = token(number);
    if table.refusal(&path).is_some()
        || table.find(token).is_some()
        || !is_last(alloc, table, deadline)?
    {
        return Ok(false);
    }
    table.grant(Lease {
        token,
        key,
        path,
        deadline,
        from_revision: 1,
    })?;
    Ok(true)
}

/// Takes out the leases whose deadline has come.
fn expire<L: Ledger>(table: &mut LeaseTable, moment: u64, blank: Blank)
    requires { (blank.name ≡ L.name) × (blank.parts ≡ L.parts) × (0 < blank.parts) }
{
    let mut steps: Steps<L> = Steps::new(blank);
    table.expire(moment, &mut steps);
}

/// The same, which ends with true.
fn expires(table: &mut LeaseTable, moment: u64) -> bool {
    expire::<Brand>(table, moment, Blank::new(1));
    true
}

/// Why a lease on the path of this text isn't granted, if it isn't.
fn refusal(alloc: Global, table: &LeaseTable, text: &str) -> Result<Option<LeaseFault>, Fail> {
    let path = RepoPath::read(alloc, text)?;
    Ok(table.refusal(&path))
}

/// Why a lease isn't granted beside the one of this number and deadline.
fn busy(number: u64, deadline: u64) -> LeaseFault {
    let token = token(number);
    LeaseFault::PathBusy { token, deadline }
}

/// When the lease of this number ends.
fn deadline_of(table: &LeaseTable, number: u64) -> Option<u64> {
    table.find(token(number)).map(|lease| lease.deadline)
}

/// The token at a place in the order of grant.
fn token_at(table: &LeaseTable, place: usize) -> Option<Token> {
    table.at(place).map(|lease| lease.token)
}

/// How many leases are listed, and the token of the last.
fn listed(alloc: Global, table: &LeaseTable) -> Result<(usize, Option<Token>), NoMemory> {
    let leases = leases_of(alloc, table)?;
    Ok((leases.len(), leases.last().map(|lease| lease.token)))
}

/// Whether what a row says comes of a table that it leaves.
fn looks(alloc: Global, table: &LeaseTable, row: Row) -> Result<bool, Fail> {
    match row {
        Row::Busy(text, number, deadline) => {
            Ok(refusal(alloc, table, text)? == Some(busy(number, deadline)))
        }
        Row::Bad(text) => Ok(refusal(alloc, table, text)? == Some(LeaseFault::BadPath)),
        Row::Finds(number, deadline) => Ok(deadline_of(table, number) == deadline),
        Row::Stands(place, number) => Ok(token_at(table, place) == number.map(token)),
        Row::Counts(count) => Ok(table.count() == count),
        Row::Lists(count, last) => Ok(listed(alloc, table)? == (count, Some(token(last)))),
        _ => Ok(false),
    }
}

/// Whether what a row says comes.
fn comes(alloc: Global, table: &mut LeaseTable, row: Row) -> Result<bool, Fail> {
    match row {
        Row::Grants(number, text, deadline) => {
            grants(alloc, table, number, RepoPath::read(alloc, text)?, deadline)
        }
        Row::Ends(number, is_there) => Ok(table.end(token(number)) == is_there),
        Row::Expires(moment) => Ok(expires(table, moment)),
        _ => looks(alloc, table, row),
    }
}

/// The place of the first row of which what it says doesn't come, over a table that is empty at first.
fn first_other(alloc: Global, rows: &[Row]) -> Result<Option<usize>, Fail> {
    let mut table = LeaseTable::new(alloc);
    for (place, row) in rows.iter().enumerate() {
        if !comes(alloc, &mut table, *row)? {
            return Ok(Some(place));
        }
    }
    Ok(None)
}

static ABOVE_AND_BELOW: [Row; 5] = [
    Row::Grants(1, "/a/b", 10),
    Row::Grants(2, "/a/c", 20),
    Row::Busy("/a", 2, 20),
    Row::Busy("/a/b/d", 1, 10),
    Row::Grants(3, "/a/bb", 30),
];

#[test]
fn a_lease_excludes_those_above_and_below_it(rt: HostRuntime) -> Result<(), Fail> {
    assert_eq!(rt; first_other(rt.alloc(), &ABOVE_AND_BELOW)?, None);
    Ok(())
}

static MARKER: [Row; 2] = [Row::Bad("/a/.cvmfscatalog"), Row::Counts(0)];

#[test]
fn a_marker_is_never_leased(rt: HostRuntime) -> Result<(), Fail> {
    assert_eq!(rt; first_other(rt.alloc(), &MARKER)?, None);
    Ok(())
}

static FOUND_AND_ENDED: [Row; 10] = [
    Row::Grants(1, "/a", 10),
    Row::Grants(2, "/b", 20),
    Row::Grants(3, "/c", 20),
    Row::Finds(2, Some(20)),
    Row::Stands(2, Some(3)),
    Row::Stands(3, None),
    Row::Finds(4, None),
    Row::Ends(2, true),
    Row::Ends(2, false),
    Row::Lists(2, 3),
];

#[test]
fn leases_are_found_and_end(rt: HostRuntime) -> Result<(), Fail> {
    assert_eq!(rt; first_other(rt.alloc(), &FOUND_AND_ENDED)?, None);
    Ok(())
}

static DUE: [Row; 7] = [
    Row::Grants(1, "/a/b", 10),
    Row::Grants(2, "/a/c", 20),
    Row::Grants(3, "/d", 30),
    Row::Expires(20),
    Row::Stands(0, Some(3)),
    Row::Counts(1),
    Row::Grants(4, "/a", 40),
];

#[test]
fn those_that_are_due_make_room_above_them(rt: HostRuntime) -> Result<(), Fail> {
    assert_eq!(rt; first_other(rt.alloc(), &DUE)?, None);
    Ok(())
}

static ROOM: [Row; 5] = [
    Row::Grants(1, "/a/b", 10),
    Row::Ends(1, true),
    Row::Grants(2, "/a", 20),
    Row::Grants(3, "/e", 20),
    Row::Busy("/a/b", 2, 20),
];

#[test]
fn one_that_ended_makes_room(rt: HostRuntime) -> Result<(), Fail> {
    assert_eq!(rt; first_other(rt.alloc(), &ROOM)?, None);
    Ok(())
}
