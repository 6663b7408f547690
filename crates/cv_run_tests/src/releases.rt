//! Rows of publications against a session.
//!
//! ```text
//! publish PATH|FOLDER|LINK|..   publishes a folder at a path of a new repository, and prints how that ends
//! again PATH|FOLDER|LINK|..     publishes one at a path of the repository that stands
//! took NUMBER                   prints what a link of the last run took
//! came NUMBER                   prints what came on it
//! ask REQUESTS                  prints what a session replies to these
//! ls PATH, cat PATH, stat PATH  asks the program this question, and prints how that ends
//! ```
//!
//! An end is the code of the status, and what was written. Behind that of a publication stand how many links it dialled, the
//! SHA-1 of all that they took and of all that came on them, and that of what a session replies then to one who asks for the
//! live leases and for the manifest.
//!
//! `folders` says how a folder is written, and `cv_lines` how the bytes of requests and replies are. In a path, and in a word of a
//! folder, a backslash, a comma and a `<` are bytes like all others: a path is one word of the run, and the file of a word holds
//! the word as it stands.
//!
//! A link is served by the gateway where nothing is said of it: `undialled` is one that isn't opened, the reads of one that is
//! `failing` fail, and of the reply on `cut 40` only 40 bytes come. On `says REPLY` comes this, and the gateway isn't asked. Before
//! `others 7200 REQUESTS` it is 7,200 seconds after the first moment, and others ask this.

mod changes;
mod folders;
pub(crate) mod gateway;
pub(crate) mod peer;
pub(crate) mod served_dial;
mod served_source;
mod told;

use crate::folder::no_change;
use crate::outside::{Outside, Row};
use crate::running::{end_of, owned};
use changes::changes;
use cv_lines::{bytes_of, line_of};
use cv_ports::MemoryFolder;
use folders::folder_of_words;
use peer::Peer;
use served_dial::{Exchange, ServedDial};
use std::alloc::Global;
use std::mem::swap;
use std::test::Fail;
use told::publication_text;

/// Where the repository is served, as a word of a run.
const URL: &str = "http://h/cvmfs/sw.example.org";

/// Runs the program on these words, this folder and this dial, and tells how it ends.
fn run_on<P: Peer>(
    alloc: Global,
    words: &[&str],
    folder: MemoryFolder,
    dial: &mut ServedDial<P>,
) -> Result<String, Fail> {
    let words = owned(alloc, words)?;
    let outside = Outside::bare(alloc, Row::Release)?;
    let mut own = ServedDial::new(alloc);
    swap(dial, &mut own);
    let mut end = end_of(alloc, words.as_slice(), outside, folder, own)?;
    swap(dial, &mut end.dial);
    let code = end.code;
    let output = line_of(alloc, end.output.as_slice())?;
    let errors = line_of(alloc, end.errors.as_slice())?;
    Ok(format!(in alloc; "{code} {output}{errors}")?)
}

/// Publishes what a row says.
fn publish<P: Peer>(alloc: Global, dial: &mut ServedDial<P>, row: &str) -> Result<String, Fail> {
    let Some((path, rest)) = row.split_once('|') else {
        return Err(Fail::new("no folder"));
    };
    let (words, links) = rest.split_once('|').unwrap_or((rest, ""));
    dial.begin(changes(alloc, links)?);
    let folder = folder_of_words(alloc, words)?;
    let end = run_on(alloc, &["publish", URL, path, "changes"], folder, dial)?;
    publication_text(alloc, end.as_str(), dial)
}

/// Asks what a question says.
fn question<P: Peer>(
    alloc: Global,
    dial: &mut ServedDial<P>,
    word: &str,
    path: &str,
) -> Result<String, Fail> {
    dial.begin(Vec::new(alloc));
    let folder = no_change(alloc)?;
    run_on(alloc, &[word, URL, path], folder, dial)
}

/// The link of a number, from 1 on.
fn link<'a, P: Peer>(dial: &'a ServedDial<P>, number: &str) -> Result<&'a Exchange, Fail> {
    let number: usize = number.parse()?;
    let exchange = dial.exchanges().get(number.wrapping_sub(1));
    Ok(exchange.ok_or("no such link")?)
}

/// What a session replies to requests.
fn reply<P: Peer>(alloc: Global, dial: &mut ServedDial<P>, requests: &str) -> Result<String, Fail> {
    let requests = bytes_of(alloc, requests)?;
    let reply = dial.peer()?.reply(requests.as_slice())?;
    line_of(alloc, reply.as_slice())
}

/// What a row prints, by its first word, which is one of those of publications, and what stands behind it.
pub(crate) fn answer<P: Peer>(
    alloc: Global,
    dial: &mut ServedDial<P>,
    word: &str,
    rest: &str,
) -> Result<String, Fail> {
    match word {
        "publish" => {
            dial.renew()?;
            publish(alloc, dial, rest)
        }
        "again" => publish(alloc, dial, rest),
        "took" => line_of(alloc, link(dial, rest)?.took()),
        "came" => line_of(alloc, link(dial, rest)?.came(alloc)?.as_slice()),
        "ask" => reply(alloc, dial, rest),
        _ => question(alloc, dial, word, rest),
    }
}
