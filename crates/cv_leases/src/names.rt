//! The names on the way to leases, linked by index.
ghost use Rattle.std.specs.Prelude.{◌≡◌, ◌≤◌, ◌+◌, ◌-◌, [], Some, None, true, false, ℕ, IfOk, IfSome, OnErr, length};
ghost use Rattle.cv_leases.specs.Names.{IsNames, IsWithin, IsPruned, below_of, above_of, is_leased, named, place_of};
ghost use Rattle.cv_leases.specs.NamesInner.{IsBare, IsPrunedBut, IsPrunedTo, SameLeased, SamePlaces, Begins, Ends, meets};
ghost use Rattle.cv_base.specs.Path.{same_name};
ghost use Rattle.cv_base.specs.declared.repo_path.TheConstants.{NAMES_LIMIT};
ghost use Rattle.cv_links.specs.Arena.{value_at, IsLive};

use cv_base::{NAMES_LIMIT, NoMemory, RepoPath, Steps, Text};
use cv_links::{Arena, Chain, Id, Lane};
use std::alloc::Global;
use std::sync::ledger::Ledger;

/// The place of a path: its last name, the place above it, those below it, and whether a lease ends here.
#[derive(Drop)]
pub(crate) struct Place {
    name: Text,
    above: Option<Id>,
    below: Chain,
    leased: bool,
}

/// The places of all paths on the way to leases.
#[derive(Drop)]
pub(crate) struct Names {
    pub(crate) alloc: Global,
    pub(crate) places: Arena<Place>,
    pub(crate) root: Option<Id>,
}

impl Place {
    /// Whether the place has this name.
    fn is_named(&self, name: &str) -> bool
        ensures { result ≡ same_name self.now.name name.now }
    {
        self.name.as_str() == name
    }
}

impl Names {
    /// Without places.
    pub(crate) fn new(alloc: Global) -> Names
        ensures whole { IsNames result }
        ensures empty { (id : _) → value_at result.places id ≡ None }
        ensures pruned { IsPruned result }
    {
        Names {
            alloc,
            places: Arena::new(alloc),
            root: None,
        }
    }

    /// The place of the name below a place.
    fn child<L: Ledger>(&self, above: Id, name: &str, steps: &mut Steps<L>) -> Option<Id>
        requires whole { IsNames self.now }
        requires live { IsLive self.now.places above }
        ensures named { result ≡ named (value_at self.now.places) name.now (below_of self.now.places above) }
        ensures live { IfSome result (λ id. IsLive self.now.places id) }
        ensures above { IfSome result (λ id. above_of (value_at self.now.places id) ≡ Some above) }
    {
        let below = self.places.get(above).below;
        let mut at = self.places.first(&below);
        while let Some(id) = at {
            if self.places.get(id).is_named(name) {
                return Some(id);
            }
            at = self.places.next(&below, id, steps);
        }
        None
    }

    /// Whether the path has a place, or a lease ends at one on its way.
    pub(crate) fn meets<L: Ledger>(&self, path: &RepoPath, steps: &mut Steps<L>) -> bool
        requires { IsNames self.now }
        ensures { result ≡ meets (value_at self.now.places) (below_of self.now.places) path.now self.now.root }
    {
        let mut at = self.root;
        for name in path.names() {
            let Some(id) = at else {
                return false;
            };
            if self.places.get(id).leased {
                return true;
            }
            at = self.child(id, name.as_str(), steps);
        }
        at.is_some()
    }

    /// The place of a path, which is made where there is none.
    pub(crate) fn place<L: Ledger>(
        &mut self,
        path: &RepoPath,
        steps: &mut Steps<L>,
    ) -> Result<Id, NoMemory>
        requires whole { IsNames self.old }
        requires pruned { IsPruned self.old }
        ensures whole { IsNames self.new }
        ensures leases { SameLeased self.old self.new }
        ensures place { IfOk result (λ id. place_of self.new path.now ≡ Some id) }
        ensures live { IfOk result (λ id. IsLive self.new.places id) }
        ensures pruned { IfOk result (λ id. IsPrunedBut self.new id) }
        ensures unchanged { OnErr result (IsPruned self.new) }
    {
        let mut at = self.top()?;
        for name in path.names() {
            match self.child_or_new(at, name.as_str(), steps) {
                Ok(id) => at = id,
                Err(fault) => {
                    self.prune(at, steps);
                    return Err(fault);
                }
            }
        }
        Ok(at)
    }

    /// The root's place, which is made where there is none.
    #[tactic(auto, using(crate::proofs::Places::leased_same, crate::proofs::Places::root_live))]
    fn top(&mut self) -> Result<Id, NoMemory>
        requires whole { IsNames self.old }
        requires pruned { IsPruned self.old }
        ensures whole { IsNames self.new }
        ensures leases { SameLeased self.old self.new }
        ensures root { IfOk result (λ id. self.new.root ≡ Some id) }
        ensures live { IfOk result (λ id. IsLive self.new.places id) }
        ensures pruned { IsPruned self.new }
    {
        match self.root {
            Some(id) => Ok(id),
            None => self.plant(),
        }
    }

    /// Makes the root's place.
    fn plant(&mut self) -> Result<Id, NoMemory>
        requires whole { IsNames self.old }
        requires none { self.old.root ≡ None }
        ensures whole { IsNames self.new }
        ensures leases { SameLeased self.old self.new }
        ensures root { IfOk result (λ id. self.new.root ≡ Some id) }
        ensures live { IfOk result (λ id. IsLive self.new.places id) }
        ensures pruned { IsPruned self.new }
    {
        let name = Text::from_str(self.alloc, "")?;
        let place = Place {
            name,
            above: None,
            below: Chain::new(Lane::Tree),
            leased: false,
        };
        let Ok(id) = self.places.add(place) else {
            return Err(NoMemory);
        };
        self.root = Some(id);
        Ok(id)
    }

    /// The place of the name below a place, which is made where there is none.
    #[tactic(auto, using(crate::proofs::Places::leased_same))]
    fn child_or_new<L: Ledger>(
        &mut self,
        above: Id,
        name: &str,
        steps: &mut Steps<L>,
    ) -> Result<Id, NoMemory>
        requires whole { IsNames self.old }
        requires live { IsLive self.old.places above }
        requires near { IsWithin self.old (NAMES_LIMIT - 1) above }
        requires pruned { IsPrunedBut self.old above }
        ensures whole { IsNames self.new }
        ensures places { SamePlaces self.old self.new }
        ensures leases { SameLeased self.old self.new }
        ensures named { IfOk result (λ id. named (value_at self.new.places) name.now (below_of self.new.places above) ≡ Some id) }
        ensures live { IfOk result (λ id. IsLive self.new.places id) }
        ensures stays { IsLive self.new.places above }
        ensures below { IfOk result (λ id. (depth : ℕ) → IsWithin self.old depth above → IsWithin self.new (depth + 1) id) }
        ensures pruned { IfOk result (λ id. IsPrunedBut self.new id) }
        ensures unchanged { OnErr result (IsPrunedBut self.new above) }
    {
        if let Some(id) = self.child(above, name, steps) {
            return Ok(id);
        }
        let name = Text::from_str(self.alloc, name)?;
        self.attach(above, name, steps)
    }

    /// A new place of the name below a place that has none of this name.
    fn attach<L: Ledger>(
        &mut self,
        above: Id,
        name: Text,
        steps: &mut Steps<L>,
    ) -> Result<Id, NoMemory>
        requires whole { IsNames self.old }
        requires live { IsLive self.old.places above }
        requires none { named (value_at self.old.places) name (below_of self.old.places above) ≡ None }
        requires near { IsWithin self.old (NAMES_LIMIT - 1) above }
        requires pruned { IsPrunedBut self.old above }
        ensures whole { IsNames self.new }
        ensures places { SamePlaces self.old self.new }
        ensures leases { SameLeased self.old self.new }
        ensures named { IfOk result (λ id. named (value_at self.new.places) name (below_of self.new.places above) ≡ Some id) }
        ensures live { IfOk result (λ id. IsLive self.new.places id) }
        ensures stays { IsLive self.new.places above }
        ensures below { IfOk result (λ id. (depth : ℕ) → IsWithin self.old depth above → IsWithin self.new (depth + 1) id) }
        ensures pruned { IfOk result (λ id. IsPrunedBut self.new id) }
        ensures unchanged { OnErr result (IsPrunedBut self.new above) }
    {
        let mut below = self.places.get(above).below;
        let place = Place {
            name,
            above: Some(above),
            below: Chain::new(Lane::Tree),
            leased: false,
        };
        let Ok(id) = self.places.add(place) else {
            return Err(NoMemory);
        };
        self.places.link_last(&mut below, id, steps);
        self.places.get_mut(above).below = below;
        Ok(id)
    }

    /// A lease ends at a place from now on.
    pub(crate) fn lease(&mut self, id: Id)
        requires whole { IsNames self.old }
        requires live { IsLive self.old.places id }
        requires pruned { IsPrunedBut self.old id }
        ensures whole { IsNames self.new }
        ensures leases { Begins self.old self.new id }
        ensures pruned { IsPruned self.new }
    {
        self.places.get_mut(id).leased = true;
    }

    /// No lease ends at a place any more.
    fn unlease(&mut self, id: Id)
        requires whole { IsNames self.old }
        requires live { IsLive self.old.places id }
        requires pruned { IsPruned self.old }
        ensures whole { IsNames self.new }
        ensures live { IsLive self.new.places id }
        ensures leases { Ends self.old self.new id }
        ensures pruned { IsPrunedBut self.new id }
    {
        self.places.get_mut(id).leased = false;
    }

    /// No lease ends at a place any more, and the places go that no lease needs. It is at most `NAMES_LIMIT` steps.
    #[tactic(auto, using(crate::proofs::Places::ends_on))]
    pub(crate) fn end<L: Ledger>(&mut self, id: Id, steps: &mut Steps<L>)
        requires whole { IsNames self.old }
        requires live { IsLive self.old.places id }
        requires pruned { IsPruned self.old }
        ensures whole { IsNames self.new }
        ensures leases { Ends self.old self.new id }
        ensures pruned { IsPruned self.new }
        ensures steps { steps.new ≤ steps.old + NAMES_LIMIT }
    {
        self.unlease(id);
        self.prune(id, steps);
    }

    /// Takes out a place, and those above it, as long as no lease ends there and none is below. It is at most `NAMES_LIMIT` steps.
    #[tactic(auto, using(crate::proofs::Places::leased_on, crate::proofs::Places::leased_same))]
    pub(crate) fn prune<L: Ledger>(&mut self, from: Id, steps: &mut Steps<L>)
        requires whole { IsNames self.old }
        requires live { IsLive self.old.places from }
        requires pruned { IsPrunedBut self.old from }
        ensures whole { IsNames self.new }
        ensures leases { SameLeased self.old self.new }
        ensures pruned { IsPruned self.new }
        ensures steps { steps.new ≤ steps.old + NAMES_LIMIT }
    {
        let mut at = Some(from);
        let mut left = NAMES_LIMIT;
        while left > 0 {
            let Some(id) = at else {
                return;
            };
            at = self.drop_bare(id, steps);
            left -= 1;
        }
    }

    /// Takes out a place that no lease ends at and none is below, and names the one above it.
    fn drop_bare<L: Ledger>(&mut self, id: Id, steps: &mut Steps<L>) -> Option<Id>
        requires whole { IsNames self.old }
        requires live { IsLive self.old.places id }
        requires pruned { IsPrunedBut self.old id }
        ensures whole { IsNames self.new }
        ensures leases { SameLeased self.old self.new }
        ensures live { IfSome result (λ above. IsLive self.new.places above) }
        ensures pruned { IsPrunedTo self.new result }
        ensures nearer { IfSome result (λ above. (depth : ℕ) → IsWithin self.old (depth + 1) id → IsWithin self.new depth above) }
        ensures steps { steps.new ≤ steps.old + 1 }
    {
        let place = self.places.get(id);
        if place.leased || self.places.first(&place.below).is_some() {
            return None;
        }
        let above = place.above?;
        self.detach(above, id, steps);
        Some(above)
    }

    /// Takes out a place that no lease ends at and none is below, from those below another. It is one step.
    fn detach<L: Ledger>(&mut self, above: Id, id: Id, steps: &mut Steps<L>)
        requires whole { IsNames self.old }
        requires above { above_of (value_at self.old.places id) ≡ Some above }
        requires bare { IsBare self.old.places id }
        requires pruned { IsPrunedBut self.old id }
        ensures whole { IsNames self.new }
        ensures leases { SameLeased self.old self.new }
        ensures live { IsLive self.new.places above }
        ensures pruned { IsPrunedBut self.new above }
        ensures nearer { (depth : ℕ) → IsWithin self.old (depth + 1) id → IsWithin self.new depth above }
        ensures steps { steps.new ≡ steps.old + 1 }
    {
        let mut below = self.places.get(above).below;
        self.places.unlink(&mut below, id, steps);
        self.places.get_mut(above).below = below;
        let _place = self.places.take(id);
    }
}
