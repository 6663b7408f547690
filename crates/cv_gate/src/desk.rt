//! What stands between a connection and the gate.
ghost use Rattle.std.specs.Prelude.{◌≡◌, ◌≤◌, ◌∷◌, ◌++◌, ℕ, List, [], None, Some, Err, IsErrOf, MatchResult};
ghost use Rattle.cv_base.specs.Counts.{HasCause};
ghost use Rattle.cv_base.specs.Moment.{IsMoment};
ghost use Rattle.cv_ports.specs.Shelf.{Suits};
ghost use Rattle.cv_ports.specs.declared.shelf.ShelfFault.TheVariants.{Failed};
ghost use Rattle.cv_gate.specs.Step.{IsOp};
ghost use Rattle.cv_gate.specs.declared.reply.Reply.TheVariants.{StoreFailed};
ghost use Rattle.cv_gate.specs.Desk.{DeskView, Call, Leads, asked, listed, fetched, told, IsHead};

use crate::lease_line::LeaseLine;
use crate::op::Op;
use crate::reply::Reply;
use cv_base::{Bytes, Name, NoMemory, ObjectId};
use cv_manifest::Head;
use cv_ports::ShelfFault;
use std::alloc::Global;

/// What stands between a connection and the gate.
///
/// A desk can be seen in one way or more, or in none: what it is asked and answers leads from each way in which it could be seen
/// to one in which it can be seen then.
pub trait Desk {
    /// How it may be seen.
    ghost stands: { Self → DeskView → Type 0 };

    /// What calls one after another do: it holds of more than views, as of crashes.
    ghost does: { Self → List Call → Self → Type 0 };

    /// The name of the repository.
    ghost named: { Self → List ℕ };

    /// How many faults of the store it counted, so far as 64 bits can count.
    ghost faults: { Self → ℕ };

    /// The name of the repository.
    fn name(&self) -> &Name
        ensures { result.now ≡ named self.now };

    /// Has the gate do what is asked at a moment, below 2 to the 62nd.
    fn ask(&mut self, alloc: Global, now: u64, op: Op) -> Reply
        requires moment { IsMoment now }
        requires op { IsOp op }
        ensures does { does self.old (asked op now result ∷ []) self.new }
        ensures named { named self.new ≡ named self.old }
        ensures cause { HasCause (faults self.old) (faults self.new) (result ≡ StoreFailed) };

    /// The leases that are live at a moment, below 2 to the 62nd, in the order of grant.
    fn live(&mut self, alloc: Global, now: u64) -> Result<Vec<LeaseLine>, NoMemory>
        requires moment { IsMoment now }
        ensures does { MatchResult result (λ lines. does self.old (listed now (Some lines.items) ∷ []) self.new) (λ _. does self.old (listed now None ∷ []) self.new) }
        ensures named { named self.new ≡ named self.old }
        ensures later { faults self.old ≤ faults self.new };

    /// An object of the repository, if it is there.
    fn object(&mut self, alloc: Global, id: &ObjectId) -> Result<Option<Bytes>, ShelfFault>
        ensures does { does self.old (fetched id.now result ∷ []) self.new }
        ensures suits { Suits id.now result }
        ensures named { named self.new ≡ named self.old }
        ensures cause { HasCause (faults self.old) (faults self.new) (IsErrOf result Failed) };

    /// The newest head.
    fn newest(&mut self) -> Head
        ensures does { does self.old (told result ∷ []) self.new }
        ensures head { IsHead result }
        ensures named { named self.new ≡ named self.old }
        ensures later { faults self.old ≤ faults self.new };

    // calls lead from view to view
    ghost does_lead: { (a b : Self) (calls : List Call) → does a calls b → Leads (stands a) calls (stands b) };

    // no calls do nothing, and calls follow calls
    ghost does_none: { (a : Self) → does a [] a };

    ghost does_more: { (a b c : Self) (calls more : List Call) → does a calls b → does b more c → does a (calls ++ more) c };
}
