//! A desk that tells what was asked of it, and replies by a word.
//!
//! By `grants` it grants and stores all that is asked, but commits nothing, and numbers its entries as if one of another seat stood
//! behind each. By any other word it replies what `replies` says. With a store it tells how often sessions were held by then where a
//! payload was read.
ghost use Rattle.std.specs.Prelude.{◌≡◌, ◌≤◌};
ghost use Rattle.cv_base.specs.Counts.{Rose};

use crate::replies::reply_of;
use cv_base::{Bytes, Name, NoMemory, ObjectId, RepoPath, Text, Token, digest_text};
use cv_gate::{Desk, LeaseLine, Op, Reply};
use cv_manifest::Head;
use cv_ports::{MemoryHold, Point, ShelfFault};
use std::alloc::Global;
use std::test::Fail;

/// A desk that can be seen in no way: no journal stands behind it. Each of its entries counts as a fault of the store, so that
/// it may say that the store failed.
#[derive(Drop)]
pub(crate) struct ToldDesk<'h> {
    name: Name,
    word: String,
    hold: &'h MemoryHold,
    entries: u64,
    told: String,
}

/// An op in words, before which sessions were held so often where a payload was read.
fn op_text(alloc: Global, op: &Op, holds: u64) -> Result<String, NoMemory> {
    match op {
        Op::Lease { key, path } => {
            let (key, path) = (key.as_str(), path.text(alloc)?);
            Ok(format!(in alloc; "lease {key} on '{path}'")?)
        }
        Op::Store {
            key,
            token,
            digest,
            batch,
        } => {
            let (key, token) = (key.as_str(), token.text(alloc)?);
            let (digest, count) = (digest_text(alloc, digest)?, batch.as_slice().len());
            let what = format!(in alloc; "{count} of {digest} behind {holds} holds")?;
            Ok(format!(in alloc; "store {key} of {token}: {what}")?)
        }
        Op::Commit {
            key,
            token,
            old_root,
            new_root,
            tag,
        } => {
            let (key, token, tag) = (key.as_str(), token.text(alloc)?, tag.as_str());
            let (old, new) = (digest_text(alloc, old_root)?, digest_text(alloc, new_root)?);
            Ok(format!(in alloc; "commit {key} of {token} from {old} to {new} as '{tag}'")?)
        }
        Op::Cancel { key, token } => {
            let (key, token) = (key.as_str(), token.text(alloc)?);
            Ok(format!(in alloc; "end {key} of {token}")?)
        }
    }
}

/// A live lease.
fn line(alloc: Global, key: &str, path: &str, remaining: u64) -> Result<LeaseLine, NoMemory> {
    Ok(LeaseLine {
        key: Text::from_str(alloc, key)?,
        path: RepoPath::read(alloc, path).map_err(|_fault| NoMemory)?,
        remaining,
    })
}

impl<'h> ToldDesk<'h> {
    /// A desk of the repository `sw.example.org` that replies by this word, to sessions that are held here.
    pub(crate) fn new(
        alloc: Global,
        word: &str,
        hold: &'h MemoryHold,
    ) -> Result<ToldDesk<'h>, Fail> {
        let Some(name) = Name::read(alloc, "sw.example.org")? else {
            return Err(Fail::new("no name"));
        };
        let word = String::from_str(alloc, word)?;
        let told = String::new(alloc);
        Ok(ToldDesk {
            name,
            word,
            hold,
            entries: 0,
            told,
        })
    }

    /// What was asked of it: each with a semicolon behind it.
    pub(crate) fn told(&self) -> &str {
        self.told.as_str()
    }

    /// Tells something that was asked.
    fn tell(&mut self, words: &str) -> Result<(), NoMemory>
        ensures name { self.new.name ≡ self.old.name }
        ensures entries { self.new.entries ≡ self.old.entries }
    {
        self.told.push_str(words)?;
        self.told.push(';')?;
        Ok(())
    }

    /// The number of the next entry of this seat.
    fn next_entry(&mut self) -> u64
        ensures name { self.new.name ≡ self.old.name }
        ensures later { self.old.entries ≤ self.new.entries }
        ensures rose { Rose 1 self.old.entries self.new.entries }
    {
        let number = self.entries.saturating_add(1);
        self.entries = number.saturating_add(1);
        number
    }

    /// The reply to an op that is an entry of this number.
    fn reply(&self, alloc: Global, number: u64, op: &Op) -> Result<Reply, NoMemory> {
        if self.word.as_str() != "grants" {
            return reply_of(alloc, self.word.as_str());
        }
        Ok(match op {
            Op::Lease { .. } => Reply::Granted {
                token: Token { epoch: 1, number },
                revision: 1,
                root: [0; 20],
            },
            Op::Store { .. } => Reply::Stored,
            Op::Cancel { .. } => Reply::Cancelled,
            Op::Commit { .. } => Reply::RevisionsFull,
        })
    }

    /// Tells an op, and replies to it.
    fn answer(&mut self, alloc: Global, number: u64, op: &Op) -> Result<Reply, NoMemory>
        ensures name { self.new.name ≡ self.old.name }
        ensures entries { self.new.entries ≡ self.old.entries }
    {
        let words = op_text(alloc, op, self.hold.count(Point::PayloadRead))?;
        self.tell(words.as_str())?;
        self.reply(alloc, number, op)
    }
}

impl<'h> Desk for ToldDesk<'h> {
    ghost stands = { λ d v. ⊥ };

    ghost does = { λ a calls b. Unit {0} };

    ghost named = { λ d. d.name };

    ghost faults = { λ d. d.entries };

    fn name(&self) -> &Name {
        &self.name
    }

    fn ask(&mut self, alloc: Global, _now: u64, op: Op) -> Reply {
        let number = self.next_entry();
        match self.answer(alloc, number, &op) {
            Ok(reply) => reply,
            Err(NoMemory) => Reply::NoMemory,
        }
    }

    fn live(&mut self, alloc: Global, _now: u64) -> Result<Vec<LeaseLine>, NoMemory> {
        self.tell("leases")?;
        let mut lines = Vec::new(alloc);
        lines.push(line(alloc, "k1", "/a/b", 7200)?)?;
        lines.push(line(alloc, "k2", "", 0)?)?;
        Ok(lines)
    }

    fn object(&mut self, alloc: Global, id: &ObjectId) -> Result<Option<Bytes>, ShelfFault> {
        let Ok(words) = id.text(alloc) else {
            return Err(ShelfFault::NoMemory);
        };
        match self.tell(words.as_str()) {
            Ok(()) => Ok(None),
            Err(NoMemory) => Err(ShelfFault::NoMemory),
        }
    }

    fn newest(&mut self) -> Head {
        let _ = self.tell("newest");
        Head {
            revision: 1,
            root: [0; 20],
            size: 0,
            history: [0; 20],
            time: 0,
        }
    }

    ghost does_lead = { λ a b calls does. λ v before. absurd before };

    ghost does_none = { λ a. tt };

    ghost does_more = { λ a b c calls more first then. tt };
}
