//! A gate over a vault in memory, as the tests ask it: each call of a gate stands here once, and what it answers is told in words.
ghost use Rattle.std.specs.Prelude.{◌≡◌, true, None, IfOk, IfSome};
ghost use Rattle.cv_gate.specs.Step.{IsOp, is_key_id};

use cv_base::{Bytes, Items, Kind, Name, Object, ObjectId, RepoPath, Text, Token};
use cv_desk::{Begun, Gate};
use cv_gate::{Act, Op, Reply};
use cv_seal::KeyedHash;
use cv_swap::Line;
use cv_vault::{MemoryVault, Vault};
use std::alloc::Global;
use std::test::Fail;

/// A gate over a vault in memory.
pub(crate) type TestGate = Gate<MemoryVault, KeyedHash>;

/// The moment at which each row begins.
pub(crate) const START: u64 = 1_700_000_000;

/// The first lease of the first opening.
const FIRST_LEASE: Token = Token {
    epoch: 1,
    number: 1,
};

fn name(alloc: Global) -> Result<Name, Fail> {
    match Name::read(alloc, "sw.example.org")? {
        Some(name) => Ok(name),
        None => Err(Fail::new("no name")),
    }
}

/// The gate that is opened in a vault, if it is.
fn open(alloc: Global, vault: MemoryVault) -> Result<Option<TestGate>, Fail>
    ensures { IfOk result (λ o. IfSome o (λ gate. gate.ready ≡ None)) }
{
    let signer = KeyedHash::new(String::from_str(alloc, "seal")?);
    match Gate::open(vault, alloc, name(alloc)?, signer) {
        Ok(gate) => Ok(Some(gate)),
        Err(_) => Ok(None),
    }
}

/// The gate of a repository that is made and opened in a vault, if both are done.
pub(crate) fn made_in(alloc: Global, vault: MemoryVault) -> Result<Option<TestGate>, Fail>
    ensures { IfOk result (λ o. IfSome o (λ gate. gate.ready ≡ None)) }
{
    let signer = KeyedHash::new(String::from_str(alloc, "seal")?);
    match Line::init(vault, alloc, &name(alloc)?, &signer, START) {
        Ok(vault) => open(alloc, vault),
        Err(_) => Ok(None),
    }
}

/// The gate that is there.
fn taken(gate: Option<TestGate>) -> Result<TestGate, Fail>
    requires { IfSome gate (λ g. g.ready ≡ None) }
    ensures { IfOk result (λ g. g.ready ≡ None) }
{
    match gate {
        Some(gate) => Ok(gate),
        None => Err(Fail::new("not opened")),
    }
}

/// The gate of a repository that is made and opened in an empty vault.
fn made(alloc: Global) -> Result<TestGate, Fail>
    ensures { IfOk result (λ gate. gate.ready ≡ None) }
{
    let vault = MemoryVault::new(alloc, Vec::new(alloc))?;
    taken(made_in(alloc, vault)?)
}

/// The name of the first revision's root catalogue.
const ROOT_NAME: &str = "data/30/7aac20fe5391faacd0ea38f9589fb797a3685cC";

/// The gate of a repository that is made in an empty vault, and opened where its root catalogue has these bytes, or is gone.
fn over_root(alloc: Global, bytes: Option<&[u8]>) -> Result<TestGate, Fail>
    ensures { IfOk result (λ gate. gate.ready ≡ None) }
{
    let mut vault = made(alloc)?.into_vault();
    let changed = match bytes {
        Some(bytes) => vault.write(ROOT_NAME, bytes).is_ok(),
        None => matches!(vault.remove(ROOT_NAME), Ok(true)),
    };
    if changed {
        taken(open(alloc, vault)?)
    } else {
        Err(Fail::new("not changed"))
    }
}

/// The root of the first revision, by its name under `data/`.
const ROOT: [u8; 20] = [
    48, 122, 172, 32, 254, 83, 145, 250, 172, 208, 234, 56, 249, 88, 159, 183, 151, 163, 104, 92,
];

/// The SHA-1 of `other`, by sha1sum.
const OTHER: [u8; 20] = [
    208, 148, 30, 104, 218, 143, 56, 21, 31, 248, 106, 97, 252, 89, 247, 197, 207, 159, 202, 162,
];

/// What is asked of a gate at the start.
#[derive(Clone, Copy)]
pub(crate) enum Ask {
    /// A lease of `k1` on this path.
    Lease(&'static str),
    /// That a file with `hello` and a newline be stored under the first lease.
    Store,
    /// That the first lease end, under its own key.
    Cancel,
    /// The same under another key.
    CancelByOther,
    /// That the first revision's tree be committed under the lease of this number, and then published or given up.
    Commit(u64, bool),
    /// How many leases are live so many seconds after the start.
    Live(u32),
    /// How many ids the entry of this number notes as those that the repository lacked.
    Fresh(usize),
    /// How many entries the journal has.
    Entries,
    /// The newest revision.
    Revision,
}

/// What is asked, and the word for what is answered.
pub(crate) type Row = (Ask, &'static str);

/// The word for a reply. `damaged` is said of bytes `other` alone, and `committed` of the first
/// revision's tree as the second revision.
fn said(reply: &Reply) -> &'static str {
    match reply {
        Reply::Granted { .. } => "granted",
        Reply::Stored => "stored",
        Reply::Committed { revision: 2, root } if *root == ROOT => "committed",
        Reply::Cancelled => "cancelled",
        Reply::InvalidToken => "invalid token",
        Reply::WrongKey => "wrong key",
        Reply::Damaged { found, .. } if *found == OTHER => "damaged",
        Reply::NoMemory => "no memory",
        _ => "another",
    }
}

/// The op of committing the tree of the first revision under a lease of the first opening.
fn commit(alloc: Global, number: u64) -> Result<Op, Fail>
    ensures { IfOk result (λ o. IsOp o) }
{
    Ok(Op::Commit {
        key: Text::from_str(alloc, "k1")?,
        token: Token { epoch: 1, number },
        old_root: ROOT,
        new_root: ROOT,
        tag: Text::from_str(alloc, "")?,
    })
}

/// The op of asking a lease of `k1` on the path of this text.
fn lease(alloc: Global, text: &str) -> Result<Op, Fail>
    ensures { IfOk result (λ o. IsOp o) }
{
    Ok(Op::Lease {
        key: Text::from_str(alloc, "k1")?,
        path: RepoPath::read(alloc, text)?,
    })
}

/// The op of asking under a key that the first lease end.
fn cancel(alloc: Global, key: &str) -> Result<Op, Fail>
    requires { is_key_id key.now ≡ true }
    ensures { IfOk result (λ o. IsOp o) }
{
    Ok(Op::Cancel {
        key: Text::from_str(alloc, key)?,
        token: FIRST_LEASE,
    })
}

/// The op of storing under the first lease a file with `hello` and a newline. The gate notes the digest of a header alone,
/// so any will do.
fn store(alloc: Global) -> Result<Op, Fail>
    ensures { IfOk result (λ o. IsOp o) }
{
    let bytes = Bytes::from_slice(alloc, b"hello\n")?;
    let id = ObjectId::of(Kind::Plain, bytes.as_slice());
    Ok(Op::Store {
        key: Text::from_str(alloc, "k1")?,
        token: FIRST_LEASE,
        digest: OTHER,
        batch: Items::new(vec![in alloc; Object { id, bytes }]?),
    })
}

/// The op of what is asked, if it is one that ends at once.
fn op_of(alloc: Global, asked: Ask) -> Result<Op, Fail>
    ensures { IfOk result (λ o. IsOp o) }
{
    match asked {
        Ask::Lease(path) => lease(alloc, path),
        Ask::Store => store(alloc),
        Ask::Cancel => cancel(alloc, "k1"),
        Ask::CancelByOther => cancel(alloc, "k2"),
        _ => Err(Fail::new("no op")),
    }
}

/// What a gate answers to an op.
fn reply_word(alloc: Global, gate: &mut TestGate, asked: Ask) -> Result<&'static str, Fail>
    requires { gate.old.ready ≡ None }
    ensures { gate.new.ready ≡ None }
{
    let op = op_of(alloc, asked)?;
    Ok(said(&gate.step(0, START, op)))
}

/// The word for a commit that ended so: that of its reply, where the second revision was ready while the first was published.
fn ended(ready: u64, published: u64, word: &'static str) -> &'static str {
    if ready == 2 && published == 1 {
        word
    } else {
        "another"
    }
}

/// Begins to commit the first revision's tree under a lease, and ends it: the word for that.
fn commit_word(
    alloc: Global,
    gate: &mut TestGate,
    number: u64,
    go: bool,
) -> Result<&'static str, Fail>
    requires { gate.old.ready ≡ None }
    ensures { IfOk result (λ r. gate.new.ready ≡ None) }
{
    match gate.begin(0, START, commit(alloc, number)?) {
        Begun::Ready(head) => Ok(ended(
            head.revision,
            gate.head().revision,
            said(&gate.finish(go)),
        )),
        Begun::Done(reply) => Ok(ended(0, 0, said(&reply))),
    }
}

/// The word for a number.
fn number_word(number: u64) -> &'static str {
    match number {
        0 => "0",
        1 => "1",
        2 => "2",
        4 => "4",
        _ => "another",
    }
}

/// How many ids the entry of this number notes as those that the repository lacked.
fn fresh_word(gate: &TestGate, number: usize) -> &'static str {
    match gate.journal().get(number) {
        Some(entry) => match &entry.act {
            Act::Store { fresh, .. } => number_word(fresh.as_slice().len() as u64),
            _ => "no store",
        },
        None => "no entry",
    }
}

/// What a gate tells of itself.
fn look_word(gate: &TestGate, asked: Ask) -> Result<&'static str, Fail> {
    Ok(match asked {
        Ask::Live(seconds) => { number_word(gate.live(START + u64::from(seconds))?.len() as u64) }
        Ask::Fresh(number) => fresh_word(gate, number),
        Ask::Entries => number_word(gate.journal().len() as u64),
        Ask::Revision => number_word(gate.head().revision),
        _ => "no look",
    })
}

/// What a gate answers to what is asked.
pub(crate) fn answer_of(
    alloc: Global,
    gate: &mut TestGate,
    asked: Ask,
) -> Result<&'static str, Fail>
    requires { gate.old.ready ≡ None }
    ensures { IfOk result (λ r. gate.new.ready ≡ None) }
{
    match asked {
        Ask::Commit(number, go) => commit_word(alloc, gate, number, go),
        Ask::Live(_) | Ask::Fresh(_) | Ask::Entries | Ask::Revision => look_word(gate, asked),
        Ask::Lease(_) | Ask::Store | Ask::Cancel | Ask::CancelByOther => {
            reply_word(alloc, gate, asked)
        }
    }
}

/// Whether a gate answers to each that is asked as its row says, up to the first that it doesn't.
pub(crate) fn answers(alloc: Global, gate: &mut TestGate, rows: &[Row]) -> Result<bool, Fail>
    requires { gate.old.ready ≡ None }
    ensures { IfOk result (λ r. gate.new.ready ≡ None) }
{
    for (asked, word) in rows {
        if answer_of(alloc, gate, *asked)? != *word {
            return Ok(false);
        }
    }
    Ok(true)
}

/// The gate of a repository that is made and opened in an empty vault, which granted the first lease, of `k1` on `/a`.
fn leased(alloc: Global) -> Result<TestGate, Fail>
    ensures { IfOk result (λ gate. gate.ready ≡ None) }
{
    let mut gate = made(alloc)?;
    if answers(alloc, &mut gate, &[(Ask::Lease("/a"), "granted")])? {
        Ok(gate)
    } else {
        Err(Fail::new("not granted"))
    }
}

/// What a gate answers to asking for a lease below a directory, where its root catalogue has these bytes, or is gone.
pub(crate) fn leased_over(alloc: Global, bytes: Option<&[u8]>) -> Result<&'static str, Fail> {
    let mut gate = over_root(alloc, bytes)?;
    answer_of(alloc, &mut gate, Ask::Lease("/n/m"))
}

/// Whether a gate that granted the first lease answers as the rows say, and how many entries it gives back in the end.
pub(crate) fn story(alloc: Global, rows: &[Row]) -> Result<(bool, usize), Fail> {
    let mut gate = leased(alloc)?;
    let well = answers(alloc, &mut gate, rows)?;
    let (_vault, journal) = gate.into_parts();
    Ok((well, journal.len()))
}
