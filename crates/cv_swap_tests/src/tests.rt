//! A repository over a vault in memory, against the files of `tools/line_vectors.py`.
ghost use Rattle.std.specs.Prelude.{IfOk};
ghost use Rattle.cv_base.specs.Objects.{AreNamed};
ghost use Rattle.cv_history.specs.Record.{IsRecord};

use crate::opening_tests::said;
use cv_base::{Bytes, Kind, Name, Object, ObjectId};
use cv_history::Record;
use cv_ports::Shelf;
use cv_seal::KeyedHash;
use cv_swap::{InitFault, Line};
use cv_vault::{MemoryVault, Mortal, Vault};
use std::alloc::Global;
use std::test::Fail;

/// A line over a vault in memory.
type TestLine = Line<MemoryVault, KeyedHash>;

/// The name of a file, its length, and the name that a plain object of its bytes has.
type File = (&'static str, usize, &'static str);

/// Those of the first revision.
static FIRST: [File; 3] = [
    (
        "data/30/7aac20fe5391faacd0ea38f9589fb797a3685cC",
        81,
        "data/30/7aac20fe5391faacd0ea38f9589fb797a3685c",
    ),
    (
        "data/aa/6425aab18cc717b24c90d0a3e5aacbbdc01916H",
        102,
        "data/aa/6425aab18cc717b24c90d0a3e5aacbbdc01916",
    ),
    (
        ".cvmfspublished",
        222,
        "data/3e/51b860bf19a5d4a3bd6d7d345cdca8751076d0",
    ),
];

/// Those of the second one.
static SECOND: [File; 3] = [
    (
        "data/c4/61d32667895d085fa62849e32f450269470f8fC",
        81,
        "data/c4/61d32667895d085fa62849e32f450269470f8f",
    ),
    (
        "data/2f/c7b0681803c8a7bc7e2be3797028805217769fH",
        104,
        "data/2f/c7b0681803c8a7bc7e2be3797028805217769f",
    ),
    (
        ".cvmfspublished",
        222,
        "data/c0/f9dc16e96861d390ef6f7288c7178fe26e01d4",
    ),
];

/// The catalogue of the second revision.
const CATALOGUE: &[u8] =
    b"CVR1\x00\x00\x00\x01\x00\x00\x00\x00\xd4\x1d\x8c\xd9\x8f\x00\xb2\x04\xe9\x80\x09\x98\xec\xf8B~\x00\x00\x00\x00\x00\x00\x00\x00\x00\x00\x00\x00\x00\x00\x00\x00\x00\x00\x00\x01\x00\x00A\xc0\x00\x00\x00\x00eS\xf1\x00\x00\x00\x00\x00\x00\x00\x00\x00\x00\x00\x00\x00\x00\x00\x00\x00\x00\x00\x00\x00\x00";

/// Its record.
const RECORD: &[u8] =
    b"CVH1\x00\x00\x00\x00\x00\x00\x00\x02\xaad%\xaa\xb1\x8c\xc7\x17\xb2L\x90\xd0\xa3\xe5\xaa\xcb\xbd\xc0\x19\x16\xc4a\xd3&g\x89]\x08_\xa6(I\xe3/E\x02iG\x0f\x8f\xc4a\xd3&g\x89]\x08_\xa6(I\xe3/E\x02iG\x0f\x8f\x00\x00\x00\x00\x00\x00\x00\x01\x00\x00\x00\x00\x00\x00\x00\x01\x00\x00\x00\x02k1\x00\x00\x00\x00eS\xf1\x00\x00\x00";

/// The name of the manifest.
pub(crate) const HEAD: &str = ".cvmfspublished";

/// The repository's name, and its secret.
const NAME: &str = "sw.example.org";

const SECRET: &str = "seal";

fn name(alloc: Global, text: &str) -> Result<Name, Fail> {
    match Name::read(alloc, text)? {
        Some(name) => Ok(name),
        None => Err(Fail::new("no name")),
    }
}

fn signer(alloc: Global, secret: &str) -> Result<KeyedHash, Fail> {
    Ok(KeyedHash::new(String::from_str(alloc, secret)?))
}

/// Makes the repository in a vault: `made`, or why it isn't.
fn made(alloc: Global, vault: MemoryVault) -> Result<(&'static str, MemoryVault), Fail> {
    let (name, signer) = (name(alloc, NAME)?, signer(alloc, SECRET)?);
    match Line::init(vault, alloc, &name, &signer, 1700000000) {
        Ok(vault) => Ok(("made", vault)),
        Err((InitFault::Exists, vault)) => Ok(("exists", vault)),
        Err((_, vault)) => Ok(("another", vault)),
    }
}

/// Opens what stands in a vault under a name and a secret, or says why it can't.
pub(crate) fn open(
    alloc: Global,
    vault: MemoryVault,
    repository: &str,
    secret: &str,
) -> Result<Result<TestLine, (&'static str, MemoryVault)>, Fail> {
    let (name, signer) = (name(alloc, repository)?, signer(alloc, secret)?);
    match Line::open(vault, alloc, name, signer) {
        Ok(line) => Ok(Ok(line)),
        Err((fault, vault)) => Ok(Err((said(fault), vault))),
    }
}

/// Makes the repository and opens it, or says how far that came: 0 while it was made, 1 while it was opened.
fn begun(alloc: Global, failing: Vec<u64>) -> Result<Result<TestLine, (u64, MemoryVault)>, Fail> {
    let (word, vault) = made(alloc, MemoryVault::new(alloc, failing)?)?;
    if word != "made" {
        return Ok(Err((0, vault)));
    }
    match open(alloc, vault, NAME, SECRET)? {
        Ok(line) => Ok(Ok(line)),
        Err((_, vault)) => Ok(Err((1, vault))),
    }
}

/// The repository, made and opened.
fn opened(alloc: Global, failing: Vec<u64>) -> Result<TestLine, Fail> {
    match begun(alloc, failing)? {
        Ok(line) => Ok(line),
        Err(_) => Err(Fail::new("not made and opened")),
    }
}

/// The record of the second revision.
fn second(alloc: Global) -> Result<Record, Fail>
    ensures { IfOk result IsRecord }
{
    Ok(Record::read(alloc, RECORD)?)
}

/// Its other object.
fn others(alloc: Global) -> Result<Vec<Object>, Fail>
    ensures { IfOk result (λ batch. AreNamed batch.items) }
{
    let mut batch = Vec::new(alloc);
    let id = ObjectId::of(Kind::Catalogue, CATALOGUE);
    let bytes = Bytes::from_slice(alloc, CATALOGUE)?;
    batch.push(Object { id, bytes })?;
    Ok(batch)
}

/// Brings the second revision's record and its other object, and whether that was done.
fn shelved(alloc: Global, line: &mut TestLine) -> Result<bool, Fail> {
    if line.in_doubt() {
        return Err(Fail::new("in doubt before it is brought"));
    }
    let (record, others) = (second(alloc)?, others(alloc)?);
    Ok(line.shelve(alloc, &record, others).is_ok())
}

/// Prepares the second revision, and swaps it in where that is asked: 2 where it wasn't prepared, 3 where it wasn't swapped
/// in, and 4 at the end.
fn prepared(alloc: Global, line: &mut TestLine, swaps: bool) -> Result<u64, Fail> {
    if line.in_doubt() {
        return Err(Fail::new("in doubt before it is prepared"));
    }
    let record = second(alloc)?;
    if line.prepare(alloc, record, 81).is_err() {
        return Ok(2);
    }
    Ok(if swaps && line.swap().is_ok() { 4 } else { 3 })
}

/// Publishes the second revision, and how far that came: 2 to its bringing or preparing, 3 to its swap, 4 to the end.
fn publish(alloc: Global, line: &mut TestLine) -> Result<u64, Fail> {
    if shelved(alloc, line)? {
        prepared(alloc, line, true)
    } else {
        Ok(2)
    }
}

/// Whether the vault has this file.
fn has_file(alloc: Global, vault: &mut MemoryVault, file: &File) -> Result<bool, Fail> {
    let (path, length, name) = file;
    let Some(found) = vault.read(path)? else {
        return Ok(false);
    };
    let bytes = found.as_slice();
    let text = ObjectId::of(Kind::Plain, bytes).file_name(alloc)?;
    Ok(bytes.len() == *length && text.as_str() == *name)
}

/// Whether the vault has these files.
fn has(alloc: Global, vault: &mut MemoryVault, files: &[File]) -> Result<bool, Fail> {
    for file in files {
        if !has_file(alloc, vault, file)? {
            return Ok(false);
        }
    }
    Ok(true)
}

/// Whether the vault has all of this revision: 0 where there is no manifest.
fn has_revision(alloc: Global, vault: &mut MemoryVault, revision: u64) -> Result<bool, Fail> {
    match revision {
        0 => Ok(vault.length(HEAD)?.is_none()),
        1 => has(alloc, vault, FIRST.as_slice()),
        _ => {
            let objects = has(alloc, vault, &FIRST[..2])?;
            Ok(objects && has(alloc, vault, SECOND.as_slice())?)
        },
    }
}

/// A life of a repository: it is made, opened and published in, up to the first call that fails. How far it came: 0 while it
/// was made, 1 while it was opened, 2 while the revision was brought or prepared, 3 while it was swapped in, 4 at the end.
pub(crate) fn live(alloc: Global, failing: Vec<u64>) -> Result<(u64, MemoryVault), Fail> {
    match begun(alloc, failing)? {
        Ok(mut line) => {
            let came = publish(alloc, &mut line)?;
            Ok((came, line.into_vault()))
        },
        Err(early) => Ok(early),
    }
}

/// The revision and the epoch of a line, how many records it has, and its vault.
fn parts(line: TestLine) -> (u64, u64, u64, MemoryVault) {
    let (revision, epoch) = (line.head().revision, line.epoch());
    let records = line.records().len() as u64;
    (revision, epoch, records, line.into_vault())
}

/// The revision that is found when the vault is opened, and the epoch; and whether all of the revision is there.
fn found(alloc: Global, vault: MemoryVault) -> Result<(u64, u64, bool), Fail> {
    match open(alloc, vault, NAME, SECRET)? {
        Ok(line) => {
            let (revision, epoch, records, mut vault) = parts(line);
            let whole = has_revision(alloc, &mut vault, revision)?;
            Ok((revision, epoch, whole && records == revision))
        },
        Err((fault, mut vault)) => {
            let none = has_revision(alloc, &mut vault, 0)?;
            Ok((0, 0, none && fault == "no repository"))
        },
    }
}

/// Whether this revision and epoch may be found behind a life that came so far.
fn may(came: u64, revision: u64, epoch: u64) -> bool {
    match came {
        0 => revision == epoch && epoch <= 1,
        1 => revision == 1 && (epoch == 1 || epoch == 2),
        2 => revision == 1 && epoch == 2,
        3 => (revision == 1 || revision == 2) && epoch == 2,
        _ => revision == 2 && epoch == 2,
    }
}

/// A call of this number is to fail, the change made or not.
fn failing(alloc: Global, call: u64, made: bool) -> Result<Vec<u64>, Fail> {
    let mut calls = vec![in alloc; call]?;
    if made {
        calls.push(call)?;
    }
    Ok(calls)
}

/// How far a life came whose call of this number failed, the change made or not, and which a crash ended; and whether it
/// left what it may.
fn survives(alloc: Global, call: u64, made: bool, pick: u64) -> Result<(u64, bool), Fail> {
    let (came, vault) = live(alloc, failing(alloc, call, made)?)?;
    let (revision, epoch, whole) = found(alloc, vault.crash(pick))?;
    Ok((came, whole && may(came, revision, epoch)))
}

/// Whether every life whose call of this number failed, the change made or not, left what it may, by each of sixteen picks.
fn all_survive(alloc: Global, call: u64) -> Result<bool, Fail> {
    for pick in 0..32u64 {
        if !survives(alloc, call, pick >= 16, pick % 16)?.1 {
            return Ok(false);
        }
    }
    Ok(true)
}

/// Seventeen calls make the repository, eight open it and fourteen publish a revision, by three syncs: of what is on its way, of
/// what came with the manifest, and of the manifest's name.
#[test]
fn a_crash_at_any_call_leaves_a_whole_revision(rt: HostRuntime) -> Result<(), Fail> {
    for call in 1..40u64 {
        assert!(rt; all_survive(rt.alloc(), call)?, "at {call}");
    }
    assert!(rt; survives(rt.alloc(), 39, false, 0)? == (3, true));
    assert!(rt; survives(rt.alloc(), 1000, false, 0)? == (4, true));
    Ok(())
}

/// Makes the repository, and once more where it stands: the words of both, whether the first one's files stand between them,
/// and what is found then.
fn made_twice(alloc: Global) -> Result<(&'static str, bool, &'static str, (u64, u64, bool)), Fail> {
    let (first, mut vault) = made(alloc, MemoryVault::new(alloc, Vec::new(alloc))?)?;
    let stands = has_revision(alloc, &mut vault, 1)?;
    let (again, vault) = made(alloc, vault)?;
    Ok((first, stands, again, found(alloc, vault)?))
}

#[test]
fn a_repository_is_made_opened_and_published_in(rt: HostRuntime) -> Result<(), Fail> {
    let (first, stands, again, look) = made_twice(rt.alloc())?;
    assert!(rt; first == "made" && stands);
    assert!(rt; again == "exists" && look == (1, 1, true));
    let (came, vault) = live(rt.alloc(), Vec::new(rt.alloc()))?;
    assert!(rt; came == 4);
    assert!(rt; found(rt.alloc(), vault)? == (2, 2, true));
    Ok(())
}

/// Settles a line in doubt: whether its revision came, and the revision of the head then.
fn recovered(line: &mut TestLine) -> Result<(bool, u64), Fail> {
    if !line.in_doubt() {
        return Err(Fail::new("no doubt"));
    }
    let came = line.recover()?;
    Ok((came, line.head().revision))
}

/// A swap whose rename fails, made or not, and a look that settles it: whether it came, and the revision of the head then.
fn settles(alloc: Global, made: bool) -> Result<(bool, u64), Fail> {
    // The rename is the thirteenth call of publishing.
    let mut line = opened(alloc, failing(alloc, 38, made)?)?;
    let _came = publish(alloc, &mut line)?;
    recovered(&mut line)
}

#[test]
fn a_failed_swap_is_settled_as_it_was_made(rt: HostRuntime) -> Result<(), Fail> {
    assert!(rt; settles(rt.alloc(), false)? == (false, 1));
    assert!(rt; settles(rt.alloc(), true)? == (true, 2));
    Ok(())
}

/// Whether the second revision is prepared where the call of this number fails, with its record brought before or not.
fn prepares(alloc: Global, brought: bool, call: u64) -> Result<bool, Fail> {
    let mut line = opened(alloc, failing(alloc, call, false)?)?;
    if brought && !shelved(alloc, &mut line)? {
        return Err(Fail::new("not brought"));
    }
    Ok(prepared(alloc, &mut line, false)? == 3)
}

/// The first number from this one on whose call may fail, and the second revision is prepared all the same.
fn first_prepared(alloc: Global, brought: bool, from: u64) -> Result<u64, Fail> {
    for call in from..40 {
        if prepares(alloc, brought, call)? {
            return Ok(call);
        }
    }
    Err(Fail::new("never prepared"))
}

/// Behind the 25 calls that make and open the repository, nine bring the record with a catalogue: a sync, and a read and a write
/// or a rename of each, twice. Then it's prepared by a read, a write and a sync. Where it wasn't brought, that takes a sync more,
/// and of the record two reads, a write and a rename.
#[test]
fn a_record_that_stands_is_prepared_by_three_calls(rt: HostRuntime) -> Result<(), Fail> {
    assert_eq!(rt; first_prepared(rt.alloc(), true, 35)?, 38);
    assert_eq!(rt; first_prepared(rt.alloc(), false, 26)?, 34);
    Ok(())
}

/// How many objects of the other one's batch a line lacks.
fn fresh_count(alloc: Global, line: &mut TestLine) -> Result<usize, Fail> {
    let batch = others(alloc)?;
    Ok(line.fresh(alloc, batch.as_slice())?.len())
}

/// Stores the other object, and whether that was done.
fn stored(alloc: Global, line: &mut TestLine) -> Result<bool, Fail> {
    let batch = others(alloc)?;
    Ok(line.store(alloc, batch.as_slice()).is_ok())
}

/// How many bytes a line says that the other object has.
fn length_of(alloc: Global, line: &mut TestLine) -> Result<Option<u64>, Fail> {
    Ok(line.length(alloc, &ObjectId::of(Kind::Catalogue, CATALOGUE))?)
}

/// Whether a line serves the other object.
fn serves(alloc: Global, line: &mut TestLine) -> Result<bool, Fail> {
    match line.fetch(alloc, &ObjectId::of(Kind::Catalogue, CATALOGUE))? {
        Some(found) => Ok(found.as_slice() == CATALOGUE),
        None => Ok(false),
    }
}

/// What is asked of a line about the other object.
#[derive(Clone, Copy)]
enum Ask {
    /// How many objects of its batch the line lacks.
    Lacked,
    /// That it be stored: 1 where it was.
    Store,
    /// How many bytes it has.
    Length,
    /// The object: 1 where its bytes are served.
    Serve,
}

/// The number that a line answers.
fn number_of(alloc: Global, line: &mut TestLine, asked: Ask) -> Result<Option<u64>, Fail> {
    Ok(match asked {
        Ask::Lacked => Some(fresh_count(alloc, line)? as u64),
        Ask::Store => Some(u64::from(stored(alloc, line)?)),
        Ask::Length => length_of(alloc, line)?,
        Ask::Serve => Some(u64::from(serves(alloc, line)?)),
    })
}

static ASKED: [(Ask, Option<u64>); 5] = [
    (Ask::Lacked, Some(1)),
    (Ask::Store, Some(1)),
    (Ask::Lacked, Some(0)),
    (Ask::Length, Some(81)),
    (Ask::Serve, Some(1)),
];

/// The number of the first row that a line answers otherwise, in a repository that was just opened.
fn first_other(alloc: Global, rows: &[(Ask, Option<u64>)]) -> Result<Option<usize>, Fail> {
    let mut line = opened(alloc, Vec::new(alloc))?;
    for (number, (asked, answer)) in rows.iter().enumerate() {
        if number_of(alloc, &mut line, *asked)? != *answer {
            return Ok(Some(number));
        }
    }
    Ok(None)
}

#[test]
fn objects_are_stored_and_served_by_a_line(rt: HostRuntime) -> Result<(), Fail> {
    assert_eq!(rt; first_other(rt.alloc(), &ASKED)?, None);
    Ok(())
}
