//! Values under ids, and lists of the ids.
ghost use Rattle.std.specs.Prelude.{◌≡◌, ◌≢◌, ◌+◌, ◌<◌, ◌≤◌, Some, None, IsSome, IfSome, IfOk, IfErr, OnOk, OnErr, IsOk, option_map, Contains, ◌++◌, ◌∷◌, []};
ghost use Rattle.cv_links.specs.LinksInner.{with_before, with_after};
ghost use Rattle.cv_links.specs.Arena.{value_at, IsLive, link_at, IsFree, spare, Puts, SameValues, SameContents, SameLinks, SameLinksBut, SameFreedomBut};
ghost use Rattle.cv_links.specs.declared.links.Link.TheVariants.{Held};
ghost use Rattle.std.specs.Borrow.{sem};
ghost use Rattle.cv_links.specs.Lends.{lends_value, with_value};
ghost use Rattle.cv_links.specs.Chains.{IsChain, list_of, rest_of, head_or, SameElsewhere, SameLists, IsNext, IsPutAfter, IsTakenOut};
ghost use Rattle.cv_links.specs.RawStepsInner.{Relinks, Mends, Touches, Joins, Parts, end_of as spec_end_of};

use crate::chain::Chain;
use crate::id::Id;
use crate::lane::Lane;
use crate::links::{Link, Links};
use crate::node::Node;
use cv_base::{NoMemory, Steps};
use slab::Slab;
use std::alloc::Global;
use std::sync::ledger::Ledger;

/// Values under ids that the arena picks. Each can stand in one list of each lane.
#[derive(Drop)]
pub struct Arena<T> {
    nodes: Slab<Node<T>>,
}

impl<T> Arena<T> {
    /// An arena that holds nothing.
    pub fn new(alloc: Global) -> Arena<T>
        ensures { (id : _) → value_at result id ≡ None }
    {
        Arena {
            nodes: Slab::new(alloc),
        }
    }

    /// Makes room for so many more values, in which `add` takes no memory. All lists stay.
    ///
    /// # Errors
    ///
    /// `NoMemory`; there may be more room than before, and nothing else is changed.
    #[tactic(auto, using(crate::proofs::Lists::kept_all))]
    pub fn reserve(&mut self, more: usize) -> Result<(), NoMemory>
        ensures room { OnOk result (more ≤ spare self.new) }
        ensures values { SameValues self.old self.new }
        ensures links { SameLinks self.old self.new }
        ensures lists { SameLists self.old self.new }
        ensures spare { spare self.old ≤ spare self.new }
    {
        Ok(self.nodes.reserve(more)?)
    }

    /// Keeps a value under an id of its own, which stands in no list. All lists stay.
    ///
    /// # Errors
    ///
    /// The value and `NoMemory`, and nothing is changed. It does not come where there is spare room.
    #[tactic(auto, using(crate::proofs::Lists::kept_all, crate::proofs::Lists::kept_but))]
    pub fn add(&mut self, value: T) -> Result<Id, (T, NoMemory)>
        ensures fresh { IfOk result (λ id. value_at self.old id ≡ None) }
        ensures values { IfOk result (λ id. Puts self.old self.new id (Some value)) }
        ensures free { IfOk result (λ id. (lane : _) → IsFree self.new lane id) }
        ensures links { IfOk result (λ id. SameLinksBut self.old self.new id) }
        ensures lists { SameLists self.old self.new }
        ensures spare { OnOk result (spare self.old ≤ spare self.new + 1) }
        ensures succeeds { 0 < spare self.old → IsOk result }
        ensures returned { IfErr result (λ refused. refused.0 ≡ value) }
        ensures unchanged { OnErr result (SameValues self.old self.new) }
        ensures stays { OnErr result (SameLinks self.old self.new) }
    {
        let node = Node {
            value,
            links: Links::none(),
        };
        match self.nodes.insert(node) {
            Ok(place) => Ok(Id { place }),
            Err(refused) => Err((refused.value.value, NoMemory)),
        }
    }

    /// The value of an id.
    pub fn get(&self, id: Id) -> &T
        requires { IsLive self.now id }
        ensures { value_at self.now id ≡ Some result.now }
    {
        &self.nodes[id.place].value
    }

    /// The value of an id, for writing. All lists stay.
    pub fn get_mut(&mut self, id: Id) -> &mut T
        requires { IsLive self.old id }
        ensures* writes_back { sem 𝓛 (lends_value T.row self.entry id result) }
        ensures value { value_at self.old id ≡ Some result.now }
        ensures lists { (value : _) → SameLists self.old (with_value self.old id value) }
    {
        let node = &mut self.nodes[id.place];
        &mut node.value
    }

    /// Takes out a value. Its id stands in no list. All lists stay.
    pub fn take(&mut self, id: Id) -> T
        requires live { IsLive self.old id }
        requires free { (lane : _) → IsFree self.old lane id }
        ensures value { value_at self.old id ≡ Some result }
        ensures values { Puts self.old self.new id None }
        ensures links { SameLinksBut self.old self.new id }
        ensures lists { SameLists self.old self.new }
        ensures spare { spare self.new ≡ spare self.old + 1 }
    {
        self.nodes.remove(id.place).value
    }

    /// Where a live id stands in a lane.
    fn link(&self, lane: Lane, id: Id) -> Link
        requires { IsLive self.now id }
        ensures { link_at self.now lane id ≡ Some result }
    {
        self.nodes[id.place].links.get(lane)
    }

    /// Says where a live id stands in a lane.
    fn relink(&mut self, lane: Lane, id: Id, link: Link)
        requires { IsLive self.old id }
        ensures { Relinks self.old self.new lane id (Some link) }
    {
        self.nodes[id.place].links.set(lane, link);
    }

    /// Says which id comes before an id, if there is such an id and it stands in a list of the lane.
    fn set_before(&mut self, lane: Lane, place: Option<Id>, before: Option<Id>)
        requires { IfSome place (λ id. IsLive self.old id) }
        ensures { Mends self.old self.new lane place (with_before before) }
    {
        if let Some(id) = place {
            let link = self.link(lane, id).with_before(before);
            self.relink(lane, id, link);
        }
    }

    /// Says which id comes after an id, if there is such an id and it stands in a list of the lane.
    fn set_after(&mut self, lane: Lane, place: Option<Id>, after: Option<Id>)
        requires { IfSome place (λ id. IsLive self.old id) }
        ensures { Mends self.old self.new lane place (with_after after) }
    {
        if let Some(id) = place {
            let link = self.link(lane, id).with_after(after);
            self.relink(lane, id, link);
        }
    }

    /// Puts a free id between two that stand side by side in a list.
    fn put_between(&mut self, lane: Lane, id: Id, before: Option<Id>, after: Option<Id>)
        requires free { IsFree self.old lane id }
        requires before { IfSome before (λ other. IsLive self.old other) }
        requires after { IfSome after (λ other. IsLive self.old other) }
        ensures runs { Joins self.old self.new lane id before after }
        ensures touches { Touches self.old self.new lane id before after }
    {
        self.relink(lane, id, Link::Held(before, after));
        self.set_after(lane, before, Some(id));
        self.set_before(lane, after, Some(id));
    }

    /// Takes an id out from between the two that it stands between.
    fn close_gap(&mut self, lane: Lane, id: Id, before: Option<Id>, after: Option<Id>)
        requires live { IsLive self.old id }
        requires before { IfSome before (λ other. IsLive self.old other) }
        requires after { IfSome after (λ other. IsLive self.old other) }
        requires apart { (before ≢ Some id) × (after ≢ Some id) }
        ensures runs { Parts self.old self.new lane id before after }
        ensures free { IsFree self.new lane id }
        ensures touches { Touches self.old self.new lane id before after }
    {
        self.relink(lane, id, Link::Free);
        self.set_after(lane, before, after);
        self.set_before(lane, after, before);
    }

    /// The nodes before and after one in a list.
    fn around(&self, lane: Lane, id: Id) -> (Option<Id>, Option<Id>)
        requires { IsLive self.now id }
        ensures { (before after : _) → link_at self.now lane id ≡ Some (Held before after) → result ≡ (before, after) }
    {
        match self.link(lane, id) {
            Link::Held(before, after) => (before, after),
            Link::Free => (None, None),
        }
    }

    /// The first id of a chain.
    #[tactic(auto, using(crate::proofs::Lists::first_in))]
    pub fn first(&self, chain: &Chain) -> Option<Id>
        requires { IsChain self.now chain.now }
        ensures first { result ≡ head_or (list_of self.now chain.now) None }
        ensures rest { rest_of self.now chain.now result ≡ list_of self.now chain.now }
        ensures within { IfSome result (λ id. Contains (list_of self.now chain.now) id) }
    {
        chain.first
    }

    /// The id after one in a chain. It is one step.
    pub fn next<L: Ledger>(&self, chain: &Chain, id: Id, steps: &mut Steps<L>) -> Option<Id>
        requires whole { IsChain self.now chain.now }
        requires stands { Contains (list_of self.now chain.now) id }
        ensures next { IsNext (list_of self.now chain.now) id result }
        ensures rest { rest_of self.now chain.now (Some id) ≡ id ∷ rest_of self.now chain.now result }
        ensures within { IfSome result (λ id. Contains (list_of self.now chain.now) id) }
        ensures steps { steps.new ≡ steps.old + 1 }
    {
        steps.tick();
        self.around(chain.lane, id).1
    }

    /// Puts a free id at the end of a chain. It is one step.
    pub fn link_last<L: Ledger>(&mut self, chain: &mut Chain, id: Id, steps: &mut Steps<L>)
        requires whole { IsChain self.old chain.old }
        requires free { IsFree self.old chain.old.lane id }
        ensures whole { IsChain self.new chain.new }
        ensures list { list_of self.new chain.new ≡ list_of self.old chain.old ++ id ∷ [] }
        ensures lane { chain.new.lane ≡ chain.old.lane }
        ensures elsewhere { SameElsewhere self.old self.new chain.old id }
        ensures others { SameFreedomBut self.old self.new chain.old.lane id }
        ensures contents { SameContents self.old self.new }
        ensures steps { steps.new ≡ steps.old + 1 }
    {
        steps.tick();
        let before = chain.last;
        self.put_between(chain.lane, id, before, None);
        chain.first = end_of(before, chain.first, Some(id));
        chain.last = Some(id);
    }

    /// Puts a free id after another in a chain. It is one step.
    pub fn link_after<L: Ledger>(
        &mut self,
        chain: &mut Chain,
        place: Id,
        id: Id,
        steps: &mut Steps<L>,
    )
        requires whole { IsChain self.old chain.old }
        requires stands { Contains (list_of self.old chain.old) place }
        requires free { IsFree self.old chain.old.lane id }
        ensures whole { IsChain self.new chain.new }
        ensures list { IsPutAfter (list_of self.old chain.old) (list_of self.new chain.new) place id }
        ensures lane { chain.new.lane ≡ chain.old.lane }
        ensures elsewhere { SameElsewhere self.old self.new chain.old id }
        ensures others { SameFreedomBut self.old self.new chain.old.lane id }
        ensures contents { SameContents self.old self.new }
        ensures steps { steps.new ≡ steps.old + 1 }
    {
        steps.tick();
        let (_, after) = self.around(chain.lane, place);
        self.put_between(chain.lane, id, Some(place), after);
        chain.last = end_of(after, chain.last, Some(id));
    }

    /// Takes an id out of a chain. It is free afterwards. It is one step.
    pub fn unlink<L: Ledger>(&mut self, chain: &mut Chain, id: Id, steps: &mut Steps<L>)
        requires whole { IsChain self.old chain.old }
        requires stands { Contains (list_of self.old chain.old) id }
        ensures whole { IsChain self.new chain.new }
        ensures list { IsTakenOut (list_of self.old chain.old) (list_of self.new chain.new) id }
        ensures lane { chain.new.lane ≡ chain.old.lane }
        ensures free { IsFree self.new chain.old.lane id }
        ensures elsewhere { SameElsewhere self.old self.new chain.old id }
        ensures others { SameFreedomBut self.old self.new chain.old.lane id }
        ensures contents { SameContents self.old self.new }
        ensures steps { steps.new ≡ steps.old + 1 }
    {
        steps.tick();
        let (before, after) = self.around(chain.lane, id);
        self.close_gap(chain.lane, id, before, after);
        chain.first = end_of(before, chain.first, after);
        chain.last = end_of(after, chain.last, before);
    }
}

/// An end of a list: a new one where nothing stands on its side, and else the old one.
fn end_of(side: Option<Id>, old: Option<Id>, new: Option<Id>) -> Option<Id>
    ensures { result ≡ spec_end_of side old new }
{
    match side {
        None => new,
        Some(_) => old,
    }
}
