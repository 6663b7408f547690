//! What stands in a vault is opened, or refused by its first fault.

use crate::tests::{HEAD, live, open};
use cv_history::ChainFault;
use cv_swap::OpenFault;
use cv_vault::{MemoryVault, Vault};
use std::alloc::Global;
use std::test::Fail;

/// A manifest of revision 3 that names the record of revision 2.
const AHEAD: &[u8] =
    b"Cc461d32667895d085fa62849e32f450269470f8f\nB81\nRd41d8cd98f00b204e9800998ecf8427e\nD240\nS3\nNsw.example.org\nH2fc7b0681803c8a7bc7e2be3797028805217769f\nT1700000000\n--\n30556600026c996f1dae1810a86726abc46da536\n0\x1e\x82P\x8b\xd0\xc3\x13X\x1d\xdd\xa9\xa8\x95\x8ft\xda\x9erL";

/// A manifest of revision 2 that names bytes as its record that are none.
const NAMES_HELLO: &[u8] =
    b"Cc461d32667895d085fa62849e32f450269470f8f\nB81\nRd41d8cd98f00b204e9800998ecf8427e\nD240\nS2\nNsw.example.org\nHf572d396fae9206628714fb2ce00f72e94f2258f\nT1700000000\n--\n3c83df5905c0218b20f553bf6df79d19c9fad5f9\n,M\xd9\x92$\xff7, |\xfb\x05\xd6\x1d\xd4\x9e9p\x9f\xca";

/// The names of objects: of these bytes, and of the repository's.
const HELLO: &str = "data/f5/72d396fae9206628714fb2ce00f72e94f2258fH";

const FIRST_RECORD: &str = "data/aa/6425aab18cc717b24c90d0a3e5aacbbdc01916H";

const SECOND_RECORD: &str = "data/2f/c7b0681803c8a7bc7e2be3797028805217769fH";

const SECOND_CATALOGUE: &str = "data/c4/61d32667895d085fa62849e32f450269470f8fC";

const EPOCH: &str = "gateway.epoch";

/// A file of the vault, and what it has, if anything; the same of the epoch; the name and the secret; what opening answers.
type Opening = (
    &'static str,
    Option<&'static [u8]>,
    Option<&'static [u8]>,
    &'static str,
    &'static str,
    &'static str,
);

/// The answers in their order; what is on its way, and catalogues, are not read; and texts that are no epoch.
static OPENINGS: [Opening; 21] = [
    (HEAD, None, None, "other.org", "other", "no repository"),
    (HEAD, Some(b""), None, "other.org", "seal", "bad manifest"),
    (
        FIRST_RECORD,
        None,
        None,
        "other.org",
        "other",
        "bad manifest",
    ),
    (FIRST_RECORD, None, None, "other.org", "seal", "other name"),
    (
        FIRST_RECORD,
        None,
        None,
        "sw.example.org",
        "seal",
        "missing",
    ),
    (
        SECOND_RECORD,
        Some(b"hello\n"),
        None,
        "sw.example.org",
        "seal",
        "damaged",
    ),
    (
        HEAD,
        Some(NAMES_HELLO),
        None,
        "sw.example.org",
        "seal",
        "bad record",
    ),
    (
        HEAD,
        Some(AHEAD),
        None,
        "sw.example.org",
        "seal",
        "bad link",
    ),
    (
        "txn/left",
        None,
        None,
        "sw.example.org",
        "seal",
        "bad epoch",
    ),
    (
        "txn/left",
        None,
        Some(b""),
        "sw.example.org",
        "seal",
        "bad epoch",
    ),
    (
        "txn/left",
        None,
        Some(b"\n"),
        "sw.example.org",
        "seal",
        "bad epoch",
    ),
    (
        "txn/left",
        None,
        Some(b"1"),
        "sw.example.org",
        "seal",
        "bad epoch",
    ),
    (
        "txn/left",
        None,
        Some(b"+1\n"),
        "sw.example.org",
        "seal",
        "bad epoch",
    ),
    (
        "txn/left",
        None,
        Some(b"-1\n"),
        "sw.example.org",
        "seal",
        "bad epoch",
    ),
    (
        "txn/left",
        None,
        Some(b"01\n"),
        "sw.example.org",
        "seal",
        "bad epoch",
    ),
    (
        "txn/left",
        None,
        Some(b"1\n\n"),
        "sw.example.org",
        "seal",
        "bad epoch",
    ),
    (
        "txn/left",
        None,
        Some(b"18446744073709551616\n"),
        "sw.example.org",
        "seal",
        "bad epoch",
    ),
    (
        "txn/left",
        None,
        Some(b"18446744073709551615\n"),
        "sw.example.org",
        "seal",
        "spent",
    ),
    (
        "txn/left",
        None,
        Some(b"18446744073709551614\n"),
        "sw.example.org",
        "seal",
        "opened",
    ),
    (
        "txn/manifest",
        Some(b"hello\n"),
        Some(b"1\n"),
        "sw.example.org",
        "seal",
        "opened",
    ),
    (
        SECOND_CATALOGUE,
        Some(b"hello\n"),
        Some(b"1\n"),
        "sw.example.org",
        "seal",
        "opened",
    ),
];

fn set(vault: &mut MemoryVault, at: &str, bytes: &Option<&[u8]>) -> Result<(), Fail> {
    match bytes {
        Some(bytes) => vault.write(at, bytes)?,
        None => {
            let _there = vault.remove(at)?;
        },
    }
    Ok(())
}

/// What a fault is called in the table.
pub(crate) fn said(fault: OpenFault) -> &'static str {
    match fault {
        OpenFault::NoRepository => "no repository",
        OpenFault::BadManifest(_) => "bad manifest",
        OpenFault::OtherName => "other name",
        OpenFault::BadHistory(ChainFault::Missing(_)) => "missing",
        OpenFault::BadHistory(ChainFault::Damaged { .. }) => "damaged",
        OpenFault::BadHistory(ChainFault::BadRecord(_)) => "bad record",
        OpenFault::BadHistory(ChainFault::BadLink { .. }) => "bad link",
        OpenFault::BadEpoch => "bad epoch",
        OpenFault::EpochsSpent => "spent",
        _ => "another",
    }
}

/// What opening answers, where an object that is no record stands beside those of the repository.
fn answer(alloc: Global, opening: &Opening) -> Result<&'static str, Fail> {
    let (path, bytes, epoch, repository, secret, _) = opening;
    let (_, mut vault) = live(alloc, Vec::new(alloc))?;
    set(&mut vault, HELLO, &Some(b"hello\n"))?;
    set(&mut vault, path, bytes)?;
    set(&mut vault, EPOCH, epoch)?;
    match open(alloc, vault, repository, secret)? {
        Ok(_) => Ok("opened"),
        Err((word, _)) => Ok(word),
    }
}

#[test]
fn what_stands_is_opened_or_refused_in_order(rt: HostRuntime) -> Result<(), Fail> {
    for opening in &OPENINGS {
        assert!(rt; answer(rt.alloc(), opening)? == opening.5);
    }
    Ok(())
}
