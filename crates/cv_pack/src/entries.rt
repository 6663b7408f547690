//! The lines of objects that were read.
ghost use Rattle.std.specs.Prelude.{◌≡◌, ◌≢◌, ◌++◌, ◌∷◌, [], OnOk, OnErr};
ghost use Rattle.cv_base.specs.declared.id.Kind.TheVariants.{History};
ghost use Rattle.cv_pack.specs.Reading.{is_named};

use crate::entry::Entry;
use cv_base::{Kind, ObjectId};
use std::alloc::{AllocError, Global};
use std::collections::BTreeSet;
use std::marker::Model;

/// What the lines of objects say, in their order, with their ids in order of hash. Clauses see the
/// list.
#[derive(Drop)]
pub struct Entries {
    list: Vec<Entry>,
    plain: BTreeSet<[u8; 20]>,
    catalogues: BTreeSet<[u8; 20]>,
}

impl Model for Entries {
    ghost use Rattle.std.specs.Prelude.{List};
    ghost use Rattle.cv_pack.specs.declared.entry.Entry.{Entry};
    ghost use Rattle.cv_pack.specs.NamedInner.{AreHashes};

    ghost Value = { List Entry };

    ghost view = { λ e. e.list.items };

    ghost invariant = { λ e. AreHashes e.list.items e.plain e.catalogues };
}

impl Entries {
    /// No lines.
    pub fn new(alloc: Global) -> Entries
        ensures { result ≡ [] }
    {
        Entries {
            list: Vec::new(alloc),
            plain: BTreeSet::new(alloc),
            catalogues: BTreeSet::new(alloc),
        }
    }

    /// The entries.
    pub fn as_slice(&self) -> &[Entry]
        ensures { result.now ≡ self.now }
    {
        self.list.as_slice()
    }

    /// Whether one of them has this id, which is none of the history.
    pub fn has(&self, id: &ObjectId) -> bool
        requires { id.now.kind ≢ History }
        ensures { result ≡ is_named self.now id.now }
    {
        match id.kind {
            Kind::Plain => self.plain.contains(&id.hash),
            _ => self.catalogues.contains(&id.hash),
        }
    }

    /// Adds an entry.
    pub fn push(&mut self, entry: Entry) -> Result<(), AllocError>
        ensures ok { OnOk result (self.new ≡ self.old ++ entry ∷ []) }
        ensures err { OnErr result (self.new ≡ self.old) }
    {
        self.list.reserve(1)?;
        match entry.id.kind {
            Kind::Plain => {
                self.plain.insert(entry.id.hash)?;
            }
            Kind::Catalogue => {
                self.catalogues.insert(entry.id.hash)?;
            }
            Kind::History => {}
        }
        self.list.push(entry)?;
        Ok(())
    }
}
