//! Rows of runs that are cut, over a vault in memory: every crash of whole runs.
//!
//! ```text
//! text NAME HEX          bytes that have a name from here on
//! scenario NAME          begins a scenario, and prints itself
//! file PATH NAME         a file of this text that stands at first, for sure
//! run COMMAND NAME ..    a run of this command, behind those before it, whose input is these texts
//! try CUT ..             goes through the runs, of which the first are cut so, and prints the ways in which they end
//! ```
//!
//! A cut is `CALL/made/stops@PICK`. The call of the vault of this number fails in that run, with its change made or, without
//! `made`, not; no call has the number 0. With `stops` no call works from there on, so that the run is cut there, and without it
//! that call fails alone. Behind the run comes a crash by the pick. The last cut has the number of picks in its place, each of which
//! is tried. In the runs behind it nothing fails, and behind each of them comes a crash with the pick 0.
//! A run that begins on the same files and is cut alike is made once.
//!
//! What comes of the runs is a way: of each run its status, and the names of the texts that it writes. A way that is new in
//! the scenario is printed, with its number. The line of a `try` is its cuts, and the number of the way of each pick.

mod asked;
mod scenario;
mod texts;

use crate::cut::{Cut, read_cuts};
use crate::words::first_word;
use scenario::Scenario;
use std::alloc::Global;
use std::test::Fail;
use texts::Texts;

/// The texts that have a name, and the scenario that is gone through.
#[derive(Drop)]
pub(crate) struct Crashes {
    texts: Texts,
    scenario: Scenario,
}

/// The same cuts, of which the last one has this pick.
fn set_pick(cuts: &mut Vec<Cut>, pick: u64) {
    if let Some(last) = cuts.last_mut() {
        last.pick = pick;
    }
}

impl Crashes {
    /// No text, and a scenario in which nothing happens.
    pub(crate) fn new(alloc: Global) -> Crashes {
        Crashes {
            texts: Texts::new(alloc),
            scenario: Scenario::new(alloc),
        }
    }

    /// Begins a scenario.
    pub(crate) fn begin(&mut self, alloc: Global) {
        self.scenario = Scenario::new(alloc);
    }

    /// Goes through the scenario with these cuts, by each pick for the last of them, and tells of the ways in which it ends.
    pub(crate) fn try_cuts(&mut self, alloc: Global, words: &str) -> Result<String, Fail> {
        let mut cuts = read_cuts(alloc, words)?;
        let picks = cuts.last().ok_or("no cut")?.pick;
        let mut said = String::new(alloc);
        let mut line = format!(in alloc; "{words}:")?;
        for pick in 0..picks {
            set_pick(&mut cuts, pick);
            let number = self
                .scenario
                .number_of_way(alloc, &self.texts, cuts.as_slice(), &mut said)?;
            line.push_str(format!(in alloc; " {number}")?.as_str())?;
        }
        said.push_str(line.as_str())?;
        Ok(said)
    }

    /// Adds a text, or a file or a run of the scenario, by the first word of its row and those behind it.
    pub(crate) fn add(&mut self, alloc: Global, word: &str, row: &str) -> Result<(), Fail> {
        let (first, rest) = first_word(row);
        match word {
            "text" => self.texts.add(alloc, first, rest),
            "file" => {
                let bytes = self.texts.joined(alloc, rest)?;
                self.scenario.add_file(alloc, first, bytes.as_slice())
            }
            _ => {
                let input = self.texts.joined(alloc, rest)?;
                self.scenario.add_run(alloc, first, input)
            }
        }
    }
}
