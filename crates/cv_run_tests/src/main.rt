//! The tests of `run` of cv_top, as a table: what a line of standard input is, its first word says, up to the first blank.
//!
//! ```text
//! # REMARK                    prints itself
//! cvkit WORDS|PART|..         runs the program, and prints what comes of it: `runs`
//! publish, again, took,
//! came, ask, ls, cat, stat    publications against a session over a gate in memory: `releases`
//! text, scenario, file,
//! run, try                    runs that are cut, over a vault in memory: `crashes`
//! ```
//!
//! Each line prints one line, but `text`, `file` and `run` print nothing, and `try` may print several. At any other first word, as
//! that of an empty line or `#` without a blank behind it, the program ends and tells the word.
#![tactic(auto)]

mod crashes;
mod cut;
mod folder;
mod images;
mod outside;
mod releases;
mod running;
mod runs;
mod words;

use crashes::Crashes;
use cv_base::NoMemory;
use releases::gateway::Gateway;
use releases::peer::Peer;
use releases::served_dial::ServedDial;
use std::alloc::Global;
use std::test::Fail;
use words::first_word;

/// The fault of a line whose first word is none of the table's.
fn unknown(alloc: Global, word: &str) -> Result<Fail, NoMemory> {
    Ok(Fail::new(format!(in alloc; "no line begins with `{word}`")?))
}

/// What a line prints, by its first word and those behind it.
fn answer<P: Peer>(
    alloc: Global,
    dial: &mut ServedDial<P>,
    crashes: &mut Crashes,
    line: &str,
) -> Result<Option<String>, Fail> {
    let (word, rest) = first_word(line);
    let text = match word {
        "#" => String::from_str(alloc, line)?,
        "cvkit" => runs::answer(alloc, rest)?,
        "scenario" => {
            crashes.begin(alloc);
            String::from_str(alloc, line)?
        }
        "try" => crashes.try_cuts(alloc, rest)?,
        "text" | "file" | "run" => {
            crashes.add(alloc, word, rest)?;
            return Ok(None);
        }
        "publish" | "again" | "took" | "came" | "ask" | "ls" | "cat" | "stat" => {
            releases::answer(alloc, dial, word, rest)?
        }
        _ => return Err(unknown(alloc, word)?),
    };
    Ok(Some(text))
}

/// Answers the lines of standard input over a peer.
fn answer_lines<P: Peer>(rt: HostRuntime) -> Result<(), Fail> {
    let alloc = rt.alloc();
    let mut dial = ServedDial::<P>::new(alloc);
    let mut crashes = Crashes::new(alloc);
    for line in rt.lines(alloc) {
        if let Some(text) = answer(alloc, &mut dial, &mut crashes, line?.as_str())? {
            rt.println(text)?;
        }
    }
    Ok(())
}

fn main(rt: HostRuntime) -> Result<(), Fail> {
    answer_lines::<Gateway>(rt)
}
