//! What a run has, by the parts of its row.
ghost use Rattle.std.specs.Prelude.{◌<◌};

use crate::cut::Cut;
use crate::images::{image_of, vault_of};
use crate::outside::{Outside, clock_at};
use crate::running::{End, end_of};
use crate::runs::items::folder_of_items;
use crate::words::first_word;
use cv_base::NoMemory;
use cv_lines::bytes_of;
use cv_ports::{MemoryClock, MemoryDial, MemoryLink, MemorySink, MemorySource};
use cv_vault::{MemoryVault, Vault};
use std::alloc::Global;
use std::test::Fail;

/// What a run has: its outside, links to servers, the items of its folder of changes, and the numbers of the calls for that
/// folder that fail.
#[derive(Drop)]
pub(crate) struct Given {
    outside: Outside,
    links: Vec<MemoryLink>,
    items: Vec<String>,
    lost: Vec<u64>,
}

/// Writes the file of a name, an equals sign and its bytes.
fn put(alloc: Global, vault: &mut MemoryVault, file: &str) -> Result<(), Fail> {
    let (name, content) = file.split_once('=').ok_or("no content")?;
    vault.write(name, bytes_of(alloc, content)?.as_slice())?;
    Ok(())
}

/// A vault with the same files, for sure, whose call of this number fails from then on.
fn broken(alloc: Global, vault: &mut MemoryVault, call: &str) -> Result<MemoryVault, Fail> {
    let image = image_of(alloc, vault)?;
    vault_of(alloc, image.as_str(), Cut::at(call.parse()?))
}

/// The clock of three moments.
fn clock_of(alloc: Global, seconds: &str) -> Result<MemoryClock, Fail> {
    let mut words = seconds.split(' ');
    let (Some(first), Some(second), Some(third)) = (words.next(), words.next(), words.next()) else {
        return Err(Fail::new("no three moments"));
    };
    Ok(clock_at(alloc, [first.parse()?, second.parse()?, third.parse()?])?)
}

/// A link whose peer gives these bytes, so many a read; the read of a number fails, and none where it's 0.
fn link(alloc: Global, reply: Vec<u8>, piece: usize, failing: u64) -> Result<MemoryLink, NoMemory>
    requires { 0 < piece }
{
    let reads = MemorySource::new(reply, piece, vec![in alloc; failing]?);
    let writes = MemorySink::new(alloc, 20_000, Vec::new(alloc))?;
    MemoryLink::new(alloc, reads, writes)
}

/// A link whose peer gives these bytes at once, and then nothing until the read fails.
fn stalled_link(alloc: Global, reply: Vec<u8>) -> Result<MemoryLink, NoMemory> {
    let failing = if reply.is_empty() { 1 } else { 2 };
    link(alloc, reply, 1_000, failing)
}

impl Given {
    /// This outside, no link and no change.
    pub(crate) fn new(alloc: Global, outside: Outside) -> Given {
        Given {
            outside,
            links: Vec::new(alloc),
            items: Vec::new(alloc),
            lost: Vec::new(alloc),
        }
    }

    /// How a run of these words ends that has this.
    pub(crate) fn end_of(self, alloc: Global, words: &[String]) -> Result<End<MemoryDial>, Fail> {
        let Given {
            outside,
            links,
            items,
            lost,
        } = self;
        let folder = folder_of_items(alloc, items.as_slice(), lost)?;
        let dial = MemoryDial::new(alloc, links, Vec::new(alloc))?;
        Ok(end_of(alloc, words, outside, folder, dial)?)
    }

    /// Takes moments, or a text that the run is given.
    fn take_text(&mut self, alloc: Global, word: &str, rest: &str) -> Result<(), Fail> {
        match word {
            "in" => self.outside.input = bytes_of(alloc, rest)?,
            "at" => self.outside.clock = clock_of(alloc, rest)?,
            "keys" => self.outside.keys = String::from_str(alloc, rest)?,
            "seal" => self.outside.seal = String::from_str(alloc, rest)?,
            "item" => self.items.push(String::from_str(alloc, rest)?)?,
            _ => return Err(Fail::new("no part")),
        }
        Ok(())
    }

    /// Takes what happens to the vault.
    fn take_vault(&mut self, alloc: Global, word: &str, rest: &str) -> Result<(), Fail> {
        let vault = &mut self.outside.vault;
        match word {
            "bare" => *vault = MemoryVault::new(alloc, Vec::new(alloc))?,
            "file" => put(alloc, vault, rest)?,
            _ => *vault = broken(alloc, vault, rest)?,
        }
        Ok(())
    }

    /// Takes a link to a server.
    fn take_link(&mut self, alloc: Global, word: &str, reply: &str) -> Result<(), Fail> {
        let reply = bytes_of(alloc, reply)?;
        let made = match word {
            "link" => link(alloc, reply, 100, 0)?,
            _ => stalled_link(alloc, reply)?,
        };
        self.links.push(made)?;
        Ok(())
    }

    /// Takes the number of a call that fails.
    fn take_failing(&mut self, word: &str, number: u64) -> Result<(), Fail> {
        match word {
            "lost" => self.lost.push(number)?,
            "deaf" => self.outside.reads.push(number)?,
            _ => self.outside.writes.push(number)?,
        }
        Ok(())
    }

    /// Takes a part of a row.
    pub(crate) fn take(&mut self, alloc: Global, part: &str) -> Result<(), Fail> {
        let (word, rest) = first_word(part);
        match word {
            "bare" | "file" | "broken" => self.take_vault(alloc, word, rest),
            "link" | "stall" => self.take_link(alloc, word, rest),
            "lost" => self.take_failing(word, 1),
            "deaf" | "mute" => self.take_failing(word, rest.parse()?),
            _ => self.take_text(alloc, word, rest),
        }
    }
}
