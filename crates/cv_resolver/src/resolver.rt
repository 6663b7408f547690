//! A client at one root.
ghost use Rattle.std.specs.Prelude.{◌≡◌, ◌≤◌, [], Some, Err, IfOk, IfSome, IsSome, OnOk, OnErr, option_map, option_to_list};
ghost use Rattle.lru.specs.LruCache.{lru_cache};
ghost use Rattle.cv_base.specs.declared.id.ObjectId.{ObjectId as TheId};
ghost use Rattle.cv_tree.specs.Tree.{Nodes, IsTree};
ghost use Rattle.cv_cut.specs.Catalogues.{Fits, root_of};
ghost use Rattle.cv_resolver.specs.Kept.{AreOwn, kept_bytes};
ghost use Rattle.cv_resolver.specs.Look.{OnWay, IsAnswer, look};
ghost use Rattle.cv_resolver.specs.Stage.{IsStage};
ghost use Rattle.cv_resolver.specs.Progress.{Begins};
ghost use Rattle.cv_resolver.specs.Resolver.{IsOn, Asks, Gives, question_of, wanted_in, answer_in, left_in, renewal, pinned_at};
ghost use Rattle.cv_resolver.specs.declared.question.Question.{Question as TheQuestion};
ghost use Rattle.cv_resolver.specs.declared.resolver.Asked.{Asked as TheAsked};

use crate::cache::Catalogues;
use crate::found::{ClientFault, Found, RenewFault};
use crate::giving::{held, take};
use crate::progress::walk_on;
use crate::question::Question;
use crate::stage::{Stage, wanted};
use crate::start::start;
use cv_base::{Name, NoMemory, ObjectId};
use cv_manifest::Manifest;
use std::alloc::Global;
use std::marker::Model;

/// A question, and how far it has come.
#[derive(Debug, Drop)]
pub struct Asked {
    /// The question.
    pub question: Question,
    /// How far it has come.
    pub stage: Stage,
}

/// A client at one root: it is asked a question, wants objects until it can answer, and is given them one by one. It keeps as
/// many catalogues as it has room for, and of these the last used. What it answers holds of the root that it is pinned at,
/// whoever serves the objects.
#[derive(Drop)]
pub struct Resolver {
    name: Name,
    revision: u64,
    root: [u8; 20],
    cache: Catalogues,
    asked: Option<Asked>,
}

impl Model for Resolver {
    ghost use Rattle.cv_resolver.specs.Resolver.{Client};

    ghost Value = { Client };

    ghost view = { λ r. record { name = r.name; revision = r.revision; root = r.root; cache = r.cache; asked = r.asked } };
}

/// How far a question comes by the catalogues that are kept alone.
fn first_stage(
    alloc: Global,
    cache: &mut Catalogues,
    repository: &str,
    root: [u8; 20],
    question: &Question,
) -> Stage
    ensures stage { (t : Nodes) → IsTree t → Fits t → AreOwn t (kept_bytes cache.old) → root ≡ root_of t
        → IsStage repository.now t question.now result }
    ensures begins { Begins repository.now root question.now cache.old cache.new result }
{
    match start(alloc, root, question.path()) {
        Ok(walk) => walk_on(alloc, cache, repository, question, walk),
        Err(fault) => Stage::from(fault),
    }
}

impl Resolver {
    /// A resolver that is pinned at the head of a manifest, whatever its name, with room for so many catalogues.
    pub fn new(alloc: Global, manifest: Manifest, cache: usize) -> Result<Resolver, NoMemory>
        requires { 1 ≤ cache }
        ensures name { IfOk result (λ r. r.name ≡ manifest.name) }
        ensures revision { IfOk result (λ r. r.revision ≡ manifest.head.revision) }
        ensures root { IfOk result (λ r. r.root ≡ manifest.head.root) }
        ensures empty { IfOk result (λ r. r.cache ≡ lru_cache [] cache) }
        ensures idle { IfOk result (λ r. r.asked ≡ None) }
        ensures on { (t : Nodes) → IsTree t → Fits t → manifest.head.root ≡ root_of t → IfOk result (IsOn t) }
    {
        let revision = manifest.head.revision;
        let root = manifest.head.root;
        let cache = Catalogues::new(alloc, cache)?;
        Ok(Resolver {
            name: manifest.name,
            revision,
            root,
            cache,
            asked: None,
        })
    }

    /// Pins the resolver at another head of the same repository, and drops its question. Its catalogues stay. It is refused
    /// for another name, then for a lower revision, then for another root at the same revision.
    pub fn renew(&mut self, manifest: Manifest) -> Result<(), RenewFault>
        ensures answer { result ≡ renewal self.old manifest }
        ensures done { OnOk result (self.new ≡ pinned_at self.old manifest) }
        ensures unchanged { OnErr result (self.new ≡ self.old) }
        ensures on { (t : Nodes) → IsTree t → Fits t → manifest.head.root ≡ root_of t → AreOwn t (kept_bytes self.old.cache)
            → OnOk result (IsOn t self.new) }
    {
        if manifest.name.text() != self.name.text() {
            return Err(RenewFault::OtherRepository);
        }
        let revision = manifest.head.revision;
        let root = manifest.head.root;
        if revision < self.revision {
            return Err(RenewFault::Older {
                pinned: self.revision,
                offered: revision,
            });
        }
        if revision == self.revision && root != self.root {
            return Err(RenewFault::Forked {
                pinned: self.root,
                offered: root,
            });
        }
        self.revision = revision;
        self.root = root;
        self.asked = None;
        Ok(())
    }

    /// Asks a question, in place of an unfinished one. Without memory it is answered so.
    pub fn ask(&mut self, question: Question)
        ensures asks { Asks self.old question self.new }
        ensures on { (t : Nodes) → IsOn t self.old → IsOn t self.new }
    {
        let alloc = self.cache.alloc();
        let stage = first_stage(
            alloc,
            &mut self.cache,
            self.name.text(),
            self.root,
            &question,
        );
        self.asked = Some(Asked { question, stage });
    }

    /// The id of the object that is wanted. None where no question was asked, or it is answered.
    pub fn want(&self) -> Option<ObjectId>
        ensures wanted { result ≡ wanted_in self.now.asked }

        // In a tree at whose root it is pinned, what is wanted lies on the way of the question.
        ensures way { (t : Nodes) (q : TheQuestion) → IsOn t self.now → question_of self.now ≡ Some q
            → IfSome result (OnWay self.now.name t q) }
    {
        match &self.asked {
            Some(asked) => wanted(&asked.stage),
            None => None,
        }
    }

    /// Gives the object that is wanted, or tells that it isn't served.
    pub fn give(&mut self, bytes: Option<Vec<u8>>)
        requires { IsSome (wanted_in self.old.asked) }
        ensures gives { (a : TheAsked) → self.old.asked ≡ Some a → Gives self.old a (option_map (λ v. v.items) bytes) self.new }
        ensures on { (t : Nodes) → IsOn t self.old → AreOwn t (option_to_list (option_map (λ v. v.items) bytes)) → IsOn t self.new }
    {
        let alloc = self.cache.alloc();
        let Some(asked) = self.asked.take() else {
            unreachable!("an object is wanted");
        };
        let Some(id) = wanted(&asked.stage) else {
            unreachable!("an object is wanted");
        };
        let question = asked.question;
        let stage = take(
            alloc,
            &mut self.cache,
            self.name.text(),
            &question,
            asked.stage,
            id,
            held(bytes),
        );
        self.asked = Some(Asked { question, stage });
    }

    /// The answer to the question, once.
    pub fn answer(&mut self) -> Option<Result<Found, ClientFault>>
        ensures told { result ≡ answer_in self.old.asked }
        ensures once { self.new ≡ record self.old { asked = left_in self.old.asked } }

        ensures on { (t : Nodes) → IsOn t self.old → IsOn t self.new }

        // In a tree at whose root it is pinned, it is the answer there.
        ensures look { (t : Nodes) (q : TheQuestion) → IsOn t self.old → question_of self.old ≡ Some q
            → IfSome result (IsAnswer (look self.old.name t q)) }
    {
        let Some(asked) = self.asked.take() else {
            return None;
        };
        let question = asked.question;
        match asked.stage {
            Stage::Ends(answer) => Some(answer),
            stage => {
                self.asked = Some(Asked { question, stage });
                None
            }
        }
    }

    /// The revision that it is pinned at.
    pub fn revision(&self) -> u64
        ensures { result ≡ self.now.revision }
    {
        self.revision
    }
}
