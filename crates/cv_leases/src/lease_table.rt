//! The table of leases.
ghost use Rattle.std.specs.Prelude.{◌≡◌, ◌≤◌, ◌+◌, ◌-◌, ◌*◌, ◌++◌, ◌∷◌, [], length, None, is_ok, is_some, slice_get, option_copied, if◌then◌else◌, IfOk, map};
ghost use Rattle.std.specs.List.{AllByRecursion};
ghost use Rattle.cv_base.specs.declared.repo_path.TheConstants.{NAMES_LIMIT};
ghost use Rattle.cv_leases.specs.Leases.{lease_of, without, unexpired, refusal};

use crate::lease::Lease;
use crate::lease_fault::LeaseFault;
use crate::limits::LEASE_LIMIT;
use crate::linked::Linked;
use cv_base::{NoMemory, RepoPath, Steps, Token, ends_in_marker};
use std::alloc::Global;
use std::marker::{Brand, Model};
use std::sync::ledger::{Blank, Ledger};

/// The leases that are live, of which no two overlap. Clauses see them in the order in which they were granted.
#[derive(Drop)]
pub struct LeaseTable {
    linked: Linked,
}

impl Model for LeaseTable {
    ghost use Rattle.std.specs.Prelude.{List};
    ghost use Rattle.cv_leases.specs.declared.lease.Lease.{Lease};
    ghost use Rattle.cv_leases.specs.Leases.{IsTable};
    ghost use Rattle.cv_leases.specs.Linked.{IsLinked};
    ghost use Rattle.cv_leases.specs.Queue.{leases_in};

    ghost Value = { List Lease };

    ghost view = { λ table. leases_in table.linked.queue };

    ghost invariant = { λ table. IsLinked table.linked × IsTable (leases_in table.linked.queue) };
}

impl LeaseTable {
    /// A table without leases.
    pub fn new(alloc: Global) -> LeaseTable
        ensures { result ≡ [] }
    {
        LeaseTable {
            linked: Linked::new(alloc),
        }
    }

    /// Why a lease on the path isn't granted, if it isn't: the first reason of [`LeaseFault`] that holds.
    pub fn refusal(&self, path: &RepoPath) -> Option<LeaseFault>
        ensures { result ≡ refusal self.now path.now }
    {
        if ends_in_marker(path) {
            return Some(LeaseFault::BadPath);
        }
        if let Some(other) = self.linked.overlapping::<Brand>(path, Blank::new(1)) {
            return Some(LeaseFault::PathBusy {
                token: other.token,
                deadline: other.deadline,
            });
        }
        if self.count() >= LEASE_LIMIT {
            return Some(LeaseFault::TooManyLeases);
        }
        None
    }

    /// Adds a lease that nothing refuses. Its token is its own, and no lease ends later. Where there is no memory, the table
    /// is unchanged.
    pub fn grant(&mut self, lease: Lease) -> Result<(), NoMemory>
        requires free { refusal self.old lease.path ≡ None }
        requires token { lease_of lease.token self.old ≡ None }
        requires deadline { AllByRecursion (λ other. other.deadline ≤ lease.deadline) self.old }
        ensures { self.new ≡ (if is_ok result then self.old ++ lease ∷ [] else self.old) }
    {
        self.linked.grant::<Brand>(lease, Blank::new(1))
    }

    /// The lease with this token.
    pub fn find(&self, token: Token) -> Option<&Lease>
        ensures { option_copied result ≡ lease_of token self.now }
    {
        self.linked.queue.find::<Brand>(token, Blank::new(1))
    }

    /// Takes out the lease with this token, and tells whether there was one.
    #[tactic(auto, using(crate::proofs::Tables::table_filter))]
    pub fn end(&mut self, token: Token) -> bool
        ensures there { result ≡ is_some (lease_of token self.old) }
        ensures leases { self.new ≡ without token self.old }
    {
        self.linked.end::<Brand>(token, Blank::new(1))
    }

    /// Takes out the leases whose deadline is at this moment or before it. Each costs at most `NAMES_LIMIT + 2` steps.
    #[tactic(auto, using(crate::proofs::Tables::table_filter))]
    pub fn expire<L: Ledger>(&mut self, moment: u64, steps: &mut Steps<L>)
        ensures leases { self.new ≡ unexpired moment self.old }
        ensures steps { steps.new ≤ steps.old + (NAMES_LIMIT + 2) * (length self.old - length self.new) + 1 }
    {
        while self.linked.drop_due(moment, steps) {}
    }

    /// How many leases there are.
    pub fn count(&self) -> usize
        ensures { result ≡ length self.now }
    {
        self.linked.queue.count
    }

    /// The lease at a place in the order of grant, from 0 on.
    pub fn at(&self, place: usize) -> Option<&Lease>
        ensures { option_copied result ≡ slice_get self.now place }
    {
        self.linked.queue.at::<Brand>(place, Blank::new(1))
    }

    /// All leases, in the order in which they were granted. Each costs at most one step.
    pub fn leases<L: Ledger>(
        &self,
        alloc: Global,
        steps: &mut Steps<L>,
    ) -> Result<Vec<&Lease>, NoMemory>
        ensures leases { IfOk result (λ all. map (λ lease. lease.now) all.items ≡ self.now) }
        ensures steps { steps.new ≤ steps.old + length self.now }
    {
        self.linked.leases(alloc, steps)
    }
}
