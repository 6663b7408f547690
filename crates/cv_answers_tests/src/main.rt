//! The tests of cv_answers, as a table: each line of standard input is an answer, and prints what it says in words and, behind a
//! bar, as what it is written; or the first fault of a text that is none.
//!
//! ```text
//! read TEXT                                the answer of a text, in any spelling
//! grant TOKEN REVISION ROOT                a lease that is granted
//! missing                                  a refusal for want of the member `path`
//! lease KEY PATH REMAINING                 the live leases, which are one
//! ```
//!
//! `words` says what the words are. `cv_lines` says how they stand in a line.
#![tactic(auto)]

mod made;
mod words;

use cv_answers::Answer;
use cv_lines::line_of;
use std::alloc::Global;
use std::test::Fail;

/// What is printed of an answer that is written so.
fn printed(alloc: Global, answer: &Answer, written: &[u8]) -> Result<String, Fail> {
    let words = words::of_answer(alloc, answer)?;
    let mut text = line_of(alloc, words.as_str().as_bytes())?;
    text.push('|')?;
    text.push_str(std::str::from_utf8(written)?)?;
    Ok(text)
}

/// What a text prints.
fn read(alloc: Global, text: &str) -> Result<String, Fail> {
    match Answer::read(alloc, text.as_bytes()) {
        Ok(answer) => {
            let written = answer.write(alloc)?;
            printed(alloc, &answer, written.as_slice())
        }
        Err(fault) => Ok(format!(in alloc; "{fault:?}")?),
    }
}

/// What an answer that is made prints.
fn make(alloc: Global, line: &str) -> Result<String, Fail> {
    let answer = made::answer(alloc, line)?;
    let written = answer.write(alloc)?;
    printed(alloc, &answer, written.as_slice())
}

/// What a line prints.
fn answer(alloc: Global, line: &str) -> Result<String, Fail> {
    match line.strip_prefix("read ") {
        Some(text) => read(alloc, text),
        None => make(alloc, line),
    }
}

fn main(rt: HostRuntime) -> Result<(), Fail> {
    let alloc = rt.alloc();
    for line in rt.lines(alloc) {
        let text = answer(alloc, line?.as_str())?;
        rt.println(text)?;
    }
    Ok(())
}
