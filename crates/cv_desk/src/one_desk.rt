//! One connection over a gate.
ghost use Rattle.std.specs.Prelude.{◌≡◌, ◌≤◌, ◌<◌, ◌∷◌, ◌^◌, [], None, Some, Ok, IfOk, IsErrOf, MatchResult};
ghost use Rattle.cv_base.specs.Counts.{HasCause};
ghost use Rattle.cv_ports.specs.Shelf.{Suits};
ghost use Rattle.cv_ports.specs.declared.shelf.ShelfFault.TheVariants.{Failed};
ghost use Rattle.cv_gate.specs.State.{State};
ghost use Rattle.cv_gate.specs.Step.{IsOp, Run};
ghost use Rattle.cv_gate.specs.Desk.{asked, listed, fetched, told};
ghost use Rattle.cv_gate.specs.declared.reply.Reply.TheVariants.{StoreFailed};
ghost use Rattle.cv_desk.specs.Gate.{StandsFor};
ghost use Rattle.cv_desk.specs.OneDesk.{Stands, DoesCalls, view_since, first_view};

use crate::gate::Gate;
use cv_base::{Bytes, Name, NoMemory, ObjectId};
use cv_gate::{Desk, LeaseLine, Op, Reply};
use cv_manifest::Head;
use cv_ports::ShelfFault;
use cv_seal::Signer;
use cv_vault::Vault;
use std::alloc::Global;
use std::marker::Model;

/// The seat from which the gate is asked: there is one connection.
const SEAT: u32 = 0;

/// The desk of one connection, which asks its gate alone.
#[derive(Drop)]
pub struct OneDesk<V: Vault + Drop, S: Signer + Drop> {
    gate: Gate<V, S>,
    head: Head,
}

impl<V: Vault + Drop, S: Signer + Drop> Model for OneDesk<V, S> {
    ghost use Rattle.std.specs.Prelude.{◌≡◌, None};
    ghost use Rattle.cv_gate.specs.Desk.{IsHead};
    ghost use Rattle.cv_desk.specs.OneDesk.{OneDeskView};
    ghost use Rattle.std.specs.Coded.{codes};
    ghost use Rattle.cv_load.specs.contracts.known_set.KnownSet as known_set;

    ghost Value = { OneDeskView V S };

    ghost coded = { Prim.hlevel (codes, known_set.the_row.coded, V.code, S.code) };

    ghost view = { λ d. record { gate = d.gate; head = d.head } };

    ghost invariant = { λ d. IsHead d.head × (d.gate.ready ≡ None) };
}

impl<V: Vault + Drop, S: Signer + Drop> OneDesk<V, S> {
    /// Over a gate that isn't ready, for its repository. Where the gate stands for a state to which its journal runs from the state
    /// with which it was opened, the desk may be seen as having seen the journal; where nothing was asked of the gate yet, at the
    /// beginning of the state.
    pub fn new(gate: Gate<V, S>) -> OneDesk<V, S>
        requires idle { gate.ready ≡ None }
        ensures desk { result ≡ record { gate = gate; head = gate.state.line.head } }
        ensures since { (start st : State) → Run start gate.journal st → StandsFor V.disk S.is_seal gate.state st → Stands V.disk S.is_seal result (view_since start gate.journal st) }
        ensures stands { (st : State) → gate.journal ≡ [] → StandsFor V.disk S.is_seal gate.state st → Stands V.disk S.is_seal result (first_view st) }
    {
        let head = gate.head();
        OneDesk { gate, head }
    }

    /// The gate, which isn't ready.
    pub fn into_gate(self) -> Gate<V, S>
        ensures gate { result ≡ self.gate }
        ensures idle { result.ready ≡ None }
    {
        self.gate
    }
}

impl<V: Vault + Drop, S: Signer + Drop> Desk for OneDesk<V, S> {
    ghost use Rattle.cv_desk.specs.Calls.{calls_lead, calls_none, calls_more};

    ghost stands = { Stands V.disk S.is_seal };

    ghost does = { DoesCalls V.disk V.count V.left S.is_seal };

    ghost named = { λ d. d.gate.state.line.name };

    ghost faults = { λ d. V.faults d.gate.state.line.vault };

    fn name(&self) -> &Name {
        self.gate.name()
    }

    fn ask(&mut self, _alloc: Global, now: u64, op: Op) -> Reply {
        let reply = self.gate.step(SEAT, now, op);
        let head = self.gate.head();
        self.head = head;
        reply
    }

    fn live(&mut self, _alloc: Global, now: u64) -> Result<Vec<LeaseLine>, NoMemory> {
        self.gate.live(now)
    }

    fn object(&mut self, _alloc: Global, id: &ObjectId) -> Result<Option<Bytes>, ShelfFault> {
        self.gate.object(id)
    }

    fn newest(&mut self) -> Head {
        self.head
    }

    ghost does_lead = { λ a b calls does. calls_lead V.disk V.count V.left S.is_seal a b calls does };

    ghost does_none = { λ a. calls_none V.disk V.count V.left S.is_seal a (V.only_now a.gate.state.line.vault) };

    ghost does_more = { λ a b c calls more does and. calls_more V.disk V.count V.left S.is_seal a b c calls more does and };
}
