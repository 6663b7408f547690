//! How a run is cut.

use std::alloc::Global;
use std::test::Fail;

/// How many calls fail behind the first one where none works any more. It is more than a run makes then.
const STOPPED: u64 = 60;

/// How a run is cut: the call of this number fails, with its change made or not, and maybe each call behind it fails too; no
/// call has the number 0. And the pick by which a crash leaves what it leaves behind the run.
#[derive(Clone, Copy, PartialEq, Eq)]
pub(crate) struct Cut {
    call: u64,
    made: bool,
    stops: bool,
    pub(crate) pick: u64,
}

impl Cut {
    /// The call of this number fails alone and without its change, or none where it's 0.
    pub(crate) fn at(call: u64) -> Cut {
        Cut {
            call,
            made: false,
            stops: false,
            pick: 0,
        }
    }

    /// The cut that a word says.
    fn read(word: &str) -> Result<Cut, Fail> {
        let (cut, pick) = word.split_once('@').ok_or("a cut without a pick")?;
        let (call, how) = cut.split_once('/').unwrap_or((cut, ""));
        let call: u64 = call.parse()?;
        let pick: u64 = pick.parse()?;
        Ok(Cut {
            call,
            made: how.starts_with("made"),
            stops: how.ends_with("stops"),
            pick,
        })
    }

    /// The numbers of the calls that fail, each as often as a vault in memory wants it, where so many calls come before the run.
    pub(crate) fn failing(self, alloc: Global, before: u64) -> Result<Vec<u64>, Fail> {
        let mut failing = Vec::new(alloc);
        if self.call == 0 {
            return Ok(failing);
        }
        let first = before.saturating_add(self.call);
        failing.push(first)?;
        if self.made {
            failing.push(first)?;
        }
        let later = if self.stops { STOPPED } else { 0 };
        for number in 1..=later {
            failing.push(first.saturating_add(number))?;
        }
        Ok(failing)
    }
}

/// The cuts that words say.
pub(crate) fn read_cuts(alloc: Global, words: &str) -> Result<Vec<Cut>, Fail> {
    let mut cuts = Vec::new(alloc);
    for word in words.split(' ') {
        cuts.push(Cut::read(word)?)?;
    }
    Ok(cuts)
}
