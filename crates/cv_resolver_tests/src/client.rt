//! A client of what is served.

use crate::served::{Served, id_of};
use crate::told::{answer_text, renewal_text};
use cv_base::{Name, RepoPath};
use cv_manifest::{Head, Manifest};
use cv_resolver::{Question, Resolver};
use std::alloc::Global;
use std::test::Fail;

/// A resolver, and what it is given of.
#[derive(Drop)]
pub(crate) struct Client {
    resolver: Resolver,
    served: Served,
}

/// A manifest of a repository of this name.
fn manifest(alloc: Global, name: &str, revision: u64, root: [u8; 20]) -> Result<Manifest, Fail> {
    let Some(name) = Name::read(alloc, name)? else {
        return Err(Fail::new("no name"));
    };
    let head = Head {
        revision,
        root,
        size: 0,
        history: [0; 20],
        time: 0,
    };
    Ok(Manifest { name, ttl: 0, head })
}

/// The question of a kind about a path.
fn question(alloc: Global, text: &str) -> Result<Question, Fail> {
    match text.split_once(' ') {
        Some(("L", path)) => Ok(Question::List(RepoPath::read(alloc, path)?)),
        Some(("S", path)) => Ok(Question::Stat(RepoPath::read(alloc, path)?)),
        Some(("R", path)) => Ok(Question::Read(RepoPath::read(alloc, path)?)),
        _ => Err(Fail::new("no question")),
    }
}

/// Asks, and gives what is wanted, at most 200 objects: how many it is.
fn ask(
    alloc: Global,
    resolver: &mut Resolver,
    served: &Served,
    asked: &str,
) -> Result<usize, Fail> {
    resolver.ask(question(alloc, asked)?);
    for count in 0..200usize {
        let Some(id) = resolver.want() else {
            return Ok(count);
        };
        let bytes = served.bytes_of(alloc, id)?;
        resolver.give(bytes);
    }
    Err(Fail::new("no answer"))
}

/// Hands in the manifest that words say.
fn renew(alloc: Global, resolver: &mut Resolver, words: &str) -> Result<String, Fail> {
    let mut words = words.split(' ');
    let (Some(name), Some(revision), Some(root)) = (words.next(), words.next(), words.next()) else {
        return Err(Fail::new("no manifest"));
    };
    let revision: u64 = revision.parse()?;
    let manifest = manifest(alloc, name, revision, id_of(root)?.hash)?;
    renewal_text(alloc, resolver.renew(manifest))
}

impl Client {
    /// A client of the repository `r` at the root that is served and revision 5, with room for so many catalogues.
    pub(crate) fn new(alloc: Global, served: Served, room: &str) -> Result<Client, Fail> {
        let room: usize = room.parse()?;
        if room == 0 {
            return Err(Fail::new("no room"));
        }
        let manifest = manifest(alloc, "r", 5, served.root.hash)?;
        let resolver = Resolver::new(alloc, manifest, room)?;
        Ok(Client { resolver, served })
    }

    /// What a line of the table prints that asks something or hands in a manifest.
    pub(crate) fn answer(&mut self, alloc: Global, line: &str) -> Result<String, Fail> {
        if let Some(words) = line.strip_prefix("renew ") {
            return renew(alloc, &mut self.resolver, words);
        }
        if let Some(asked) = line.strip_prefix("N ") {
            let count = ask(alloc, &mut self.resolver, &self.served, asked)?;
            return Ok(format!(in alloc; "{count} wanted")?);
        }
        ask(alloc, &mut self.resolver, &self.served, line)?;
        answer_text(alloc, &self.resolver.answer())
    }
}
