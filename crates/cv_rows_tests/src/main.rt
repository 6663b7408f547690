//! The tests of cv_rows, as a table: each line of standard input is a question about a row file, and prints one line.
//!
//! ```text
//! read PLACE DIGITS        reads the catalogue of a place, and prints as what it's written
//! zeros COUNT              reads so many zero bytes
//! row PATH DIGITS          finds a row by the key of a path, and prints its name and how many rows have that key above them
//! in PATH DIGITS           prints the names in a directory
//! places DIGITS            prints the path of each row
//! nested DIGITS            prints the path, the hash and the size of each nested entry
//! of DIGITS                makes a catalogue of the rows and nested entries, the other way round, and prints as what it's written
//! with DIGITS              adds the rows of the root's directory once more, and prints why not, and as what the rest is written
//! twice DIGITS             makes a catalogue of the rows and, once more, those of the root's directory
//! without PATH DIGITS      prints as what the rest is written without what stands at a path and below it
//! back PATH DIGITS         adds what stood there again, and prints as what the whole is written
//! ```
//!
//! A row file stands in digits of base 16. But for `read` it's one of the root. What isn't read or made prints its fault.
#![tactic(auto)]

mod found;
mod made;
mod parts;

use cv_base::RepoPath;
use cv_rows::Catalogue;
use std::alloc::Global;
use std::test::Fail;

/// The two words of a text.
fn two(words: &str) -> Result<(&str, &str), Fail> {
    Ok(words.split_once(' ').ok_or("no second word")?)
}

/// What reading a row file of a place prints.
fn read(alloc: Global, bytes: &[u8], at: &RepoPath) -> Result<String, Fail> {
    match Catalogue::decode(alloc, bytes, at) {
        Ok(catalogue) => made::digits(alloc, &catalogue),
        Err(fault) => Ok(format!(in alloc; "{fault:?}")?),
    }
}

/// What so many zero bytes print.
fn zeros(alloc: Global, count: &str) -> Result<String, Fail> {
    let count: u32 = count.parse()?;
    let bytes = vec![in alloc; 0u8; count as usize]?;
    read(alloc, bytes.as_slice(), &RepoPath::root(alloc))
}

/// What a question about a path prints.
fn of_path(alloc: Global, kind: &str, words: &str) -> Result<String, Fail> {
    let (path, text) = two(words)?;
    let path = RepoPath::read(alloc, path)?;
    match kind {
        "read" => read(alloc, made::bytes(alloc, text)?.as_slice(), &path),
        "row" => found::row(alloc, text, &path),
        "in" => found::names(alloc, text, &path),
        "without" => made::without(alloc, text, &path),
        "back" => made::back(alloc, text, &path),
        _ => Err(Fail::new("no row")),
    }
}

/// What a line prints.
fn answer(alloc: Global, line: &str) -> Result<String, Fail> {
    let (kind, words) = two(line)?;
    match kind {
        "zeros" => zeros(alloc, words),
        "places" => found::places(alloc, words),
        "nested" => found::nested(alloc, words),
        "of" => made::of(alloc, words),
        "with" => made::with(alloc, words),
        "twice" => made::twice(alloc, words),
        _ => of_path(alloc, kind, words),
    }
}

fn main(rt: HostRuntime) -> Result<(), Fail> {
    let alloc = rt.alloc();
    for line in rt.lines(alloc) {
        let text = answer(alloc, line?.as_str())?;
        rt.println(text)?;
    }
    Ok(())
}
