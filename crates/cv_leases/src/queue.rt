//! Leases in the order of grant, linked by index.
ghost use Rattle.std.specs.Prelude.{◌≡◌, ◌<◌, ◌+◌, ◌++◌, ◌∷◌, [], length, IfSome, Some, None, is_ok, if◌then◌else◌, Contains, slice_get, option_copied, List, IfOk, map, ◌≤◌};
ghost use Rattle.cv_links.specs.Arena.{value_at};
ghost use Rattle.cv_leases.specs.Leases.{lease_of, busy};
ghost use Rattle.cv_leases.specs.LinkedInner.{TakesOut, Stores};
ghost use Rattle.cv_links.specs.Chains.{head_or};
ghost use Rattle.cv_leases.specs.Queue.{IsQueue, ids_of, leases_in};
ghost use Rattle.cv_leases.specs.QueueInner.{IsParted, lease_at};
ghost use Rattle.cv_links.specs.declared.id.Id.{Id as NodeId};
ghost use Rattle.cv_leases.specs.declared.limits.TheConstants.{LEASE_LIMIT};

use crate::lease::Lease;
use cv_base::{NoMemory, RepoPath, Steps, Token};
use cv_links::{Arena, Chain, Id, Lane};
use std::alloc::Global;
use std::sync::ledger::{Blank, Ledger};

/// A lease in the queue, and the place that its path leads to.
#[derive(Drop)]
pub(crate) struct Entry {
    pub(crate) lease: Lease,
    pub(crate) place: Id,
}

/// The leases in the order of grant.
#[derive(Drop)]
pub(crate) struct Queue {
    pub(crate) entries: Arena<Entry>,
    pub(crate) order: Chain,
    pub(crate) count: usize,
}

impl Queue {
    /// Without leases.
    pub(crate) fn new(alloc: Global) -> Queue
        ensures whole { IsQueue result }
        ensures leases { leases_in result ≡ [] }
        ensures empty { (id : NodeId) → value_at result.entries id ≡ None }
    {
        Queue {
            entries: Arena::new(alloc),
            order: Chain::new(Lane::Time),
            count: 0,
        }
    }

    /// The place of the first lease.
    pub(crate) fn first(&self) -> Option<Id>
        requires { IsQueue self.now }
        ensures first { result ≡ head_or (ids_of self.now) None }
        ensures within { IfSome result (λ id. Contains (ids_of self.now) id) }
    {
        self.entries.first(&self.order)
    }

    /// The place of the lease with this token.
    pub(crate) fn seek<L: Ledger>(&self, token: Token, steps: &mut Steps<L>) -> Option<Id>
        requires { IsQueue self.now }
        ensures within { IfSome result (λ id. Contains (ids_of self.now) id) }
        ensures lease { lease_at self.now result ≡ lease_of token (leases_in self.now) }
    {
        let mut at = self.entries.first(&self.order);
        while let Some(id) = at {
            if self.entries.get(id).lease.token == token {
                return Some(id);
            }
            at = self.entries.next(&self.order, id, steps);
        }
        None
    }

    /// The place of the last of the leases that overlap the path.
    pub(crate) fn last_overlapping<L: Ledger>(
        &self,
        path: &RepoPath,
        steps: &mut Steps<L>,
    ) -> Option<Id>
        requires { IsQueue self.now }
        ensures within { IfSome result (λ id. Contains (ids_of self.now) id) }
        ensures lease { lease_at self.now result ≡ busy (leases_in self.now) path.now }
    {
        let mut last = None;
        let mut at = self.entries.first(&self.order);
        while let Some(id) = at {
            if self.entries.get(id).lease.path.overlaps(path) {
                last = Some(id);
            }
            at = self.entries.next(&self.order, id, steps);
        }
        last
    }

    /// The place of the lease that so many come before.
    pub(crate) fn place<L: Ledger>(&self, before: usize, steps: &mut Steps<L>) -> Option<Id>
        requires { IsQueue self.now }
        ensures within { IfSome result (λ id. Contains (ids_of self.now) id) }
        ensures lease { lease_at self.now result ≡ slice_get (leases_in self.now) before }
    {
        let mut left = before;
        let mut at = self.entries.first(&self.order);
        while left > 0 {
            let Some(id) = at else {
                return None;
            };
            at = self.entries.next(&self.order, id, steps);
            left -= 1;
        }
        at
    }

    /// All leases, in the order of grant. Each is one step.
    #[tactic(auto, using(cv_links::proofs::Laws::live_in, cv_links::proofs::Laws::rest_none))]
    pub(crate) fn leases<L: Ledger>(
        &self,
        alloc: Global,
        steps: &mut Steps<L>,
    ) -> Result<Vec<&Lease>, NoMemory>
        requires whole { IsQueue self.now }
        ensures leases { IfOk result (λ all. map (λ lease. lease.now) all.items ≡ leases_in self.now) }
        ensures steps { steps.new ≤ steps.old + length (leases_in self.now) }
    {
        let mut leases = Vec::with_capacity(alloc, self.count)?;
        let mut at = self.entries.first(&self.order);
        while let Some(id) = at {
            leases.push(self.get(id))?;
            at = self.entries.next(&self.order, id, steps);
        }
        Ok(leases)
    }

    /// The lease at a place.
    #[tactic(auto, using(cv_links::proofs::Laws::live_in, cv_links::proofs::Laws::rest_none))]
    pub(crate) fn get(&self, id: Id) -> &Lease
        requires whole { IsQueue self.now }
        requires stands { Contains (ids_of self.now) id }
        ensures { lease_at self.now (Some id) ≡ Some result.now }
    {
        &self.entries.get(id).lease
    }

    /// Puts a lease behind all others.
    pub(crate) fn push<L: Ledger>(
        &mut self,
        entry: Entry,
        steps: &mut Steps<L>,
    ) -> Result<(), NoMemory>
        requires whole { IsQueue self.old }
        requires room { length (leases_in self.old) < LEASE_LIMIT }
        ensures whole { IsQueue self.new }
        ensures leases { leases_in self.new ≡ (if is_ok result then leases_in self.old ++ entry.lease ∷ [] else leases_in self.old) }
        ensures entries { Stores result self.old self.new entry }
    {
        let Ok(id) = self.entries.add(entry) else {
            return Err(NoMemory);
        };
        self.entries.link_last(&mut self.order, id, steps);
        self.count += 1;
        Ok(())
    }

    /// Takes out the lease at a place. It is one step.
    pub(crate) fn take<L: Ledger>(&mut self, id: Id, steps: &mut Steps<L>) -> Entry
        requires whole { IsQueue self.old }
        requires stands { Contains (ids_of self.old) id }
        ensures whole { IsQueue self.new }
        ensures value { value_at self.old.entries id ≡ Some result }
        ensures leases { (front back : List NodeId) → ids_of self.old ≡ front ++ id ∷ back
            → IsParted self.old self.new front back result.lease }
        ensures entries { TakesOut self.old self.new id }
        ensures steps { steps.new ≡ steps.old + 1 }
    {
        self.entries.unlink(&mut self.order, id, steps);
        self.count -= 1;
        self.entries.take(id)
    }

    /// The lease with this token.
    pub(crate) fn find<L: Ledger>(&self, token: Token, blank: Blank) -> Option<&Lease>
        requires whole { IsQueue self.now }
        requires blank { (blank.name ≡ L.name) × (blank.parts ≡ L.parts) × (0 < blank.parts) }
        ensures { option_copied result ≡ lease_of token (leases_in self.now) }
    {
        let mut steps: Steps<L> = Steps::new(blank);
        match self.seek(token, &mut steps) {
            Some(id) => Some(self.get(id)),
            None => None,
        }
    }

    /// The lease that so many come before.
    pub(crate) fn at<L: Ledger>(&self, before: usize, blank: Blank) -> Option<&Lease>
        requires whole { IsQueue self.now }
        requires blank { (blank.name ≡ L.name) × (blank.parts ≡ L.parts) × (0 < blank.parts) }
        ensures { option_copied result ≡ slice_get (leases_in self.now) before }
    {
        let mut steps: Steps<L> = Steps::new(blank);
        match self.place(before, &mut steps) {
            Some(id) => Some(self.get(id)),
            None => None,
        }
    }
}
