//! Rows of one run each. Behind `cvkit` and a blank stand the words of the run, with a comma between each two, and behind them what
//! it has, a bar before each part:
//!
//! ```text
//! in INPUT               what it reads: nothing without this part
//! at SECONDS             the clock's first three moments, counted from 1,700,000,000, the last of which stays: 0 0 0 without this
//! keys TEXT              the text of the keys: that of `k1` and `k2` without this
//! seal TEXT              the seal: `seal` without this
//! bare                   no file is there: without this those that `init sw.example.org` makes at the first moment
//! file NAME=CONTENT      this file is there, beside the others or in the place of one
//! link REPLY             one more dial gets a link, whose peer gives this and ends
//! stall REPLY            one more dial gets a link, whose peer gives this, and then nothing until the read fails
//! item ITEM              the folder of changes has this item: it has none without this part
//! lost                   the first call for that folder fails
//! broken CALL            the vault's call of this number fails, counted from the run's first, and is not made
//! deaf READ              the read of the input with this number fails
//! mute WRITE             the write to the output with this number fails
//! ```
//!
//! Parts are taken in their order. `cv_lines` says how bytes stand in a line, and `items` what an item is. A row prints the
//! status' code, the line on it, the output, what links to servers took, and how many objects are there then; with a bar between
//! each two.

mod given;
mod items;

use crate::outside::{Outside, REPOSITORY, Row};
use crate::running::{End, end_alone, owned};
use cv_base::NoMemory;
use cv_lines::line_of;
use cv_ports::MemoryDial;
use cv_vault::{MemoryVault, Vault};
use given::Given;
use std::alloc::Global;
use std::test::Fail;

/// What a run has of which its row says no more: the repository that was made at the first moment.
fn usual(alloc: Global) -> Result<Outside, Fail> {
    let words = owned(alloc, &["init", REPOSITORY])?;
    let made = end_alone(alloc, words.as_slice(), Outside::bare(alloc, Row::Run)?)?;
    let mut outside = Outside::bare(alloc, Row::Run)?;
    outside.vault = made.vault;
    Ok(outside)
}

/// The words of a text, with a comma between each two.
fn words_of(alloc: Global, text: &str) -> Result<Vec<String>, NoMemory> {
    let mut words = Vec::new(alloc);
    for word in text.split(',') {
        words.push(String::from_str(alloc, word)?)?;
    }
    Ok(words)
}

/// All that the links took that came back to a dial.
fn requests_of(alloc: Global, dial: MemoryDial) -> Result<String, Fail> {
    let links = dial.into_links(alloc)?;
    let mut requests = Vec::new(alloc);
    for link in &links {
        requests.extend_from_slice(link.writes.as_slice())?;
    }
    line_of(alloc, requests.as_slice())
}

/// How many objects a vault has.
fn count_of(vault: MemoryVault) -> Result<usize, Fail> {
    let mut vault = vault;
    Ok(vault.list("data/")?.len())
}

/// The code of a status, its line and the output, as they stand in a line.
fn written(alloc: Global, code: u8, errors: &[u8], output: &[u8]) -> Result<String, Fail> {
    let said = line_of(alloc, errors)?;
    let output = line_of(alloc, output)?;
    Ok(format!(in alloc; "{code}|{said}|{output}")?)
}

/// What links took, and how many objects a vault has, as they stand in a line.
fn left(alloc: Global, dial: MemoryDial, vault: MemoryVault) -> Result<String, Fail> {
    let count = count_of(vault)?;
    let requests = requests_of(alloc, dial)?;
    Ok(format!(in alloc; "{requests}|{count}")?)
}

/// The text of what came of a run.
fn text_of(alloc: Global, end: End<MemoryDial>) -> Result<String, Fail> {
    let End {
        vault,
        code,
        output,
        errors,
        dial,
    } = end;
    let written = written(alloc, code, errors.as_slice(), output.as_slice())?;
    let left = left(alloc, dial, vault)?;
    Ok(format!(in alloc; "{written}|{left}")?)
}

/// What a row prints.
pub(crate) fn answer(alloc: Global, row: &str) -> Result<String, Fail> {
    let mut parts = row.split('|');
    let words = words_of(alloc, parts.next().unwrap_or(""))?;
    let mut given = Given::new(alloc, usual(alloc)?);
    for part in parts {
        given.take(alloc, part)?;
    }
    text_of(alloc, given.end_of(alloc, words.as_slice())?)
}
