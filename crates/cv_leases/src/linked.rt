//! Leases in the order of grant, and the tree of the names on the way to them.
ghost use Rattle.std.specs.Prelude.{◌≡◌, ◌<◌, ◌≤◌, ◌+◌, ◌*◌, ◌++◌, ◌∷◌, [], length, Some, None, false, is_ok, is_some, if◌then◌else◌, Contains, List, option_copied, IfOk, map};
ghost use Rattle.cv_base.specs.declared.repo_path.TheConstants.{NAMES_LIMIT};
ghost use Rattle.cv_leases.specs.Leases.{lease_of, busy, without, unexpired, TokensDiffer, DeadlinesRise};
ghost use Rattle.cv_leases.specs.Linked.{IsLinked};
ghost use Rattle.cv_leases.specs.LinkedInner.{IsReady};
ghost use Rattle.cv_leases.specs.Names.{place_of, is_leased};
ghost use Rattle.cv_leases.specs.Queue.{ids_of, leases_in};
ghost use Rattle.cv_leases.specs.QueueInner.{IsParted, IsDropped, lease_at};
ghost use Rattle.cv_links.specs.Arena.{value_at, IsLive};
ghost use Rattle.cv_links.specs.declared.id.Id.{Id as NodeId};
ghost use Rattle.cv_leases.specs.declared.limits.TheConstants.{LEASE_LIMIT};

use crate::lease::Lease;
use crate::names::Names;
use crate::queue::{Entry, Queue};
use cv_base::{NoMemory, RepoPath, Steps, Token};
use cv_links::Id;
use std::alloc::Global;
use std::sync::ledger::{Blank, Ledger};

/// The leases in the order of grant, and the names on the way to them.
#[derive(Drop)]
pub(crate) struct Linked {
    pub(crate) queue: Queue,
    pub(crate) names: Names,
}

impl Linked {
    /// Without leases.
    #[tactic(auto, using(crate::proofs::Tied::tied_new))]
    pub(crate) fn new(alloc: Global) -> Linked
        ensures whole { IsLinked result }
        ensures leases { leases_in result.queue ≡ [] }
    {
        Linked {
            queue: Queue::new(alloc),
            names: Names::new(alloc),
        }
    }

    /// Of the leases that overlap the path, the one granted last. Where none does, it costs no more than the way of the path.
    #[tactic(auto, using(crate::proofs::Tied::none_busy))]
    pub(crate) fn overlapping<L: Ledger>(&self, path: &RepoPath, blank: Blank) -> Option<&Lease>
        requires whole { IsLinked self.now }
        requires blank { (blank.name ≡ L.name) × (blank.parts ≡ L.parts) × (0 < blank.parts) }
        ensures { option_copied result ≡ busy (leases_in self.now.queue) path.now }
    {
        let mut steps: Steps<L> = Steps::new(blank);
        if !self.names.meets(path, &mut steps) {
            return None;
        }
        match self.queue.last_overlapping(path, &mut steps) {
            Some(id) => Some(self.queue.get(id)),
            None => None,
        }
    }

    /// All leases, in the order of grant. Each is one step.
    pub(crate) fn leases<L: Ledger>(
        &self,
        alloc: Global,
        steps: &mut Steps<L>,
    ) -> Result<Vec<&Lease>, NoMemory>
        requires { IsLinked self.now }
        ensures leases { IfOk result (λ all. map (λ lease. lease.now) all.items ≡ leases_in self.now.queue) }
        ensures steps { steps.new ≤ steps.old + length (leases_in self.now.queue) }
    {
        self.queue.leases(alloc, steps)
    }

    /// Puts a lease behind all others.
    pub(crate) fn grant<L: Ledger>(&mut self, lease: Lease, blank: Blank) -> Result<(), NoMemory>
        requires whole { IsLinked self.old }
        requires free { busy (leases_in self.old.queue) lease.path ≡ None }
        requires room { length (leases_in self.old.queue) < LEASE_LIMIT }
        requires blank { (blank.name ≡ L.name) × (blank.parts ≡ L.parts) × (0 < blank.parts) }
        ensures whole { IsLinked self.new }
        ensures leases { leases_in self.new.queue ≡ (if is_ok result then leases_in self.old.queue ++ lease ∷ [] else leases_in self.old.queue) }
    {
        let mut steps: Steps<L> = Steps::new(blank);
        let place = self.names.place(&lease.path, &mut steps)?;
        self.store(Entry { lease, place }, &mut steps)
    }

    /// Puts an entry behind all others, at whose place no lease ends.
    fn store<L: Ledger>(&mut self, entry: Entry, steps: &mut Steps<L>) -> Result<(), NoMemory>
        requires whole { IsReady self.old entry.place }
        requires place { place_of self.old.names entry.lease.path ≡ Some entry.place }
        requires live { IsLive self.old.names.places entry.place }
        requires free { is_leased (value_at self.old.names.places entry.place) ≡ false }
        requires room { length (leases_in self.old.queue) < LEASE_LIMIT }
        ensures whole { IsLinked self.new }
        ensures leases { leases_in self.new.queue ≡ (if is_ok result then leases_in self.old.queue ++ entry.lease ∷ [] else leases_in self.old.queue) }
    {
        let place = entry.place;
        let Ok(()) = self.queue.push(entry, steps) else {
            self.names.prune(place, steps);
            return Err(NoMemory);
        };
        self.names.lease(place);
        Ok(())
    }

    /// Takes out the lease at a place, and the names that no other lease needs. It is at most `NAMES_LIMIT + 1` steps.
    fn take<L: Ledger>(&mut self, id: Id, steps: &mut Steps<L>) -> Lease
        requires whole { IsLinked self.old }
        requires stands { Contains (ids_of self.old.queue) id }
        ensures whole { IsLinked self.new }
        ensures value { lease_at self.old.queue (Some id) ≡ Some result }
        ensures leases { (front back : List NodeId) → ids_of self.old.queue ≡ front ++ id ∷ back
            → IsParted self.old.queue self.new.queue front back result }
        ensures steps { steps.new ≤ steps.old + NAMES_LIMIT + 1 }
    {
        let Entry { lease, place } = self.queue.take(id, steps);
        self.names.end(place, steps);
        lease
    }

    /// Takes out the lease with this token, and tells whether there was one.
    pub(crate) fn end<L: Ledger>(&mut self, token: Token, blank: Blank) -> bool
        requires whole { IsLinked self.old }
        requires tokens { TokensDiffer (leases_in self.old.queue) }
        requires blank { (blank.name ≡ L.name) × (blank.parts ≡ L.parts) × (0 < blank.parts) }
        ensures whole { IsLinked self.new }
        ensures there { result ≡ is_some (lease_of token (leases_in self.old.queue)) }
        ensures leases { leases_in self.new.queue ≡ without token (leases_in self.old.queue) }
    {
        let mut steps: Steps<L> = Steps::new(blank);
        match self.queue.seek(token, &mut steps) {
            Some(id) => {
                let _ended = self.take(id, &mut steps);
                true
            }
            None => false,
        }
    }

    /// Takes out the first lease, if its deadline is at this moment or before it, and tells whether it did.
    pub(crate) fn drop_due<L: Ledger>(&mut self, moment: u64, steps: &mut Steps<L>) -> bool
        requires whole { IsLinked self.old }
        requires rise { DeadlinesRise (leases_in self.old.queue) }
        ensures whole { IsLinked self.new }
        ensures rise { DeadlinesRise (leases_in self.new.queue) }
        ensures leases { unexpired moment (leases_in self.new.queue) ≡ unexpired moment (leases_in self.old.queue) }
        ensures dropped { IsDropped moment result (leases_in self.old.queue) (leases_in self.new.queue) }
        ensures steps { steps.new + (NAMES_LIMIT + 2) * length (leases_in self.new.queue) ≤ steps.old + (NAMES_LIMIT + 2) * length (leases_in self.old.queue) }
    {
        let Some(id) = self.queue.first() else {
            return false;
        };
        if moment < self.queue.get(id).deadline {
            return false;
        }
        let _ended = self.take(id, steps);
        true
    }
}
