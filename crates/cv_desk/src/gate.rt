//! The gate.
ghost use Rattle.std.specs.Prelude.{◌≡◌, ◌≤◌, ◌<◌, ◌++◌, ◌∷◌, [], max, None, Some, IfOk, IsErrOf, IsSome, ◌≢◌, vec_len, vec_capacity};
ghost use Rattle.cv_base.specs.Counts.{HasCause, raised};
ghost use Rattle.cv_base.specs.Told.{WhereTold};
ghost use Rattle.cv_base.specs.Moment.{IsMoment};
ghost use Rattle.cv_ports.specs.Shelf.{Fetches, Suits};
ghost use Rattle.cv_ports.specs.declared.shelf.ShelfFault.TheVariants as shelf_fault;
ghost use Rattle.cv_objects.specs.Names.{standing_on};
ghost use Rattle.cv_manifest.specs.Manifest.{IsHead};
ghost use Rattle.cv_gate.specs.Lines.{lines_of};
ghost use Rattle.cv_gate.specs.Step.{IsOp};
ghost use Rattle.cv_gate.specs.declared.reply.Reply.TheVariants as reply;
ghost use Rattle.cv_desk.specs.Ends.{OnlyLooks};
ghost use Rattle.cv_desk.specs.Begin.{Begins, EndsWaiting};
ghost use Rattle.cv_desk.specs.declared.begun.Begun.TheVariants as begun;
ghost use Rattle.cv_desk.specs.Gate.{Steps, GateOpens, IsNew, vault_of, IsFailed};

use crate::begun::Begun;
use crate::gate_state::GateState;
use crate::taken::{Course, Readied, Taken};
use crate::waiting::Waiting;
use cv_base::{Bytes, Name, NoMemory, ObjectId};
use cv_gate::{Entry, JOURNAL_LIMIT, LeaseLine, Op, Reply};
use cv_manifest::Head;
use cv_ports::ShelfFault;
use cv_seal::Signer;
use cv_swap::laws::{opening_finds_what_is_kept, opening_keeps_what_is_kept};
use cv_swap::{Line, OpenFault};
use cv_vault::Vault;
use std::alloc::Global;
use std::marker::Model;

/// The gate of a repository: it grants and ends leases, stores objects and commits trees, one step after another, and keeps
/// a journal of all that was asked of it. A step may be made in two calls: `begin` makes a commit ready, and `finish` ends it.
/// Between them the gate is ready. Catalogues that it found whole for a commit aren't judged again for a later one.
#[derive(Drop)]
pub struct Gate<V: Vault + Drop, S: Signer + Drop> {
    alloc: Global,
    state: GateState<V, S>,
    journal: Vec<Entry>,
    ready: Option<Waiting>,
}

impl<V: Vault + Drop, S: Signer + Drop> Model for Gate<V, S> {
    ghost use Rattle.std.specs.Prelude.{◌≤◌, vec_capacity};
    ghost use Rattle.cv_gate.specs.declared.entry.TheConstants.{JOURNAL_LIMIT};
    ghost use Rattle.cv_desk.specs.Gate.{GateView, IsGate};
    ghost use Rattle.std.specs.Coded.{codes};
    ghost use Rattle.cv_load.specs.contracts.known_set.KnownSet as known_set;

    ghost Value = { GateView V S };

    ghost coded = { Prim.hlevel (codes, known_set.the_row.coded, V.code, S.code) };

    ghost view = { λ g. record { state = g.state; journal = g.journal.items; ready = g.ready } };

    ghost invariant = { λ g. IsGate (record { state = g.state; journal = g.journal.items; ready = g.ready }) × (JOURNAL_LIMIT ≤ vec_capacity g.journal) };
}

impl<V: Vault + Drop, S: Signer + Drop> Gate<V, S> {
    /// Opens the gate of the repository that stands in a vault, and raises its epoch by one, for sure. An `Err` hands the
    /// vault back.
    ///
    /// A crash at any moment leaves what it might have left before, or the files as they stood, with their epoch or one
    /// greater.
    pub fn open(
        vault: V,
        alloc: Global,
        name: Name,
        signer: S,
    ) -> Result<Gate<V, S>, (OpenFault, V)>
        ensures opens { WhereTold (V.disk vault) (λ d. GateOpens V.disk V.count V.left name S.is_seal signer d vault result) }
        ensures new { IfOk result (IsNew name signer) }
        ensures cause { HasCause (V.faults vault) (V.faults (vault_of result)) (IsFailed result) }
    {
        opening_finds_what_is_kept();
        opening_keeps_what_is_kept();
        let Ok(journal) = Vec::with_capacity(alloc, JOURNAL_LIMIT) else {
            return Err((OpenFault::NoMemory, vault));
        };
        match Line::open(vault, alloc, name, signer) {
            Err(refused) => Err(refused),
            Ok(line) => Ok(Gate {
                alloc,
                state: GateState::new(alloc, line),
                journal,
                ready: None,
            }),
        }
    }

    /// Begins what is asked from a seat at a moment, below 2 to the 62nd. A commit that nothing refuses is made ready: its
    /// objects and its record stand for sure then, and its manifest is on its way; it is noted when it is ended. Anything
    /// else is done, and noted in the journal with its answer, or isn't where the journal is full.
    ///
    /// A crash at any moment leaves what a crash within the op may leave of the state.
    pub fn begin(&mut self, seat: u32, now: u64, op: Op) -> Begun
        requires moment { IsMoment now }
        requires op { IsOp op }
        requires idle { self.old.ready ≡ None }
        ensures begins { Begins V.disk V.count V.left S.is_seal op seat now self.old self.new result }
        ensures cause { HasCause (V.faults self.old.state.line.vault) (V.faults self.new.state.line.vault) (result ≡ begun.Done reply.StoreFailed) }
    {
        if self.journal.len() >= JOURNAL_LIMIT {
            return Begun::Done(Reply::JournalFull);
        }
        match self.state.take(self.alloc, now, op) {
            Course::Done(taken) => Begun::Done(note_taken(&mut self.journal, seat, now, taken)),
            Course::Ready(readied) => {
                let Readied {
                    key,
                    act,
                    token,
                    head,
                } = readied;
                self.ready = Some(Waiting {
                    seat,
                    now,
                    key,
                    act,
                    token,
                });
                Begun::Ready(head)
            },
        }
    }

    /// Ends the commit that is ready, and notes it: publishes its head and ends its lease, or gives it up and answers
    /// `NoMemory`. After `StoreFailed` it is in doubt; after `NoMemory` nothing of it is published, and the vault was only read.
    ///
    /// A crash at any moment leaves what a crash within the commit may leave of the state in which it was begun. To give it up
    /// takes no memory, and does nothing to the vault.
    pub fn finish(&mut self, go: bool) -> Reply
        requires ready { IsSome self.old.ready }
        ensures ends { (w : _) → self.old.ready ≡ Some w → EndsWaiting V.disk V.count V.left S.is_seal go w self.old self.new result }
        ensures cause { HasCause (V.faults self.old.state.line.vault) (V.faults self.new.state.line.vault) (result ≡ reply.StoreFailed) }
    {
        let Some(waiting) = self.ready.take() else {
            unreachable!()
        };
        let Waiting {
            seat,
            now,
            key,
            act,
            token,
        } = waiting;
        let answer = self.state.end_ready(token, go);
        let taken = Taken { key, act, answer };
        note_taken(&mut self.journal, seat, now, taken)
    }

    /// Does what is asked from a seat at a moment, below 2 to the 62nd, and notes it in the journal with its answer.
    ///
    /// A crash at any moment leaves what a crash within the op may leave of the state. After `StoreFailed` some of the
    /// objects that were sent may be there. Over a vault that stands for a state `Damaged` doesn't come.
    pub fn step(&mut self, seat: u32, now: u64, op: Op) -> Reply
        requires moment { IsMoment now }
        requires op { IsOp op }
        requires idle { self.old.ready ≡ None }
        ensures steps { Steps V.disk V.count V.left S.is_seal op seat now self.old self.new result }
        ensures idle { self.new.ready ≡ None }
        ensures cause { HasCause (V.faults self.old.state.line.vault) (V.faults self.new.state.line.vault) (result ≡ reply.StoreFailed) }
    {
        match self.begin(seat, now, op) {
            Begun::Done(reply) => reply,
            Begun::Ready(_) => self.finish(true),
        }
    }

    /// The repository's name.
    pub fn name(&self) -> &Name
        ensures { result.now ≡ self.now.state.line.name }
    {
        self.state.line.name()
    }

    /// The newest head.
    pub fn head(&self) -> Head
        ensures newest { result ≡ self.now.state.line.head }
        ensures writable { IsHead result }
    {
        self.state.line.head()
    }

    /// The leases that are live at a moment, and not before the latest moment at which something was asked, in the order
    /// in which they were granted. It is noted nowhere.
    pub fn live(&self, now: u64) -> Result<Vec<LeaseLine>, NoMemory>
        ensures { IfOk result (λ lines. lines.items ≡ lines_of (max self.now.state.moment now) self.now.state.leases) }
    {
        self.state.live(self.alloc, now)
    }

    /// An object of the repository, if it is there. One is fetched, and it is noted nowhere.
    pub fn object(&mut self, id: &ObjectId) -> Result<Option<Bytes>, ShelfFault>
        ensures told { WhereTold (V.disk self.old.state.line.vault) (λ d. Fetches id.now result (standing_on d)) }
        ensures suits { Suits id.now result }
        ensures looks { OnlyLooks V.disk V.count V.left self.old.state self.new.state }
        ensures fetches { self.new.state.line.taken ≡ raised self.old.state.line.taken }
        ensures journal { self.new.journal ≡ self.old.journal }
        ensures ready { self.new.ready ≡ self.old.ready }
        ensures cause { HasCause (V.faults self.old.state.line.vault) (V.faults self.new.state.line.vault) (IsErrOf result shelf_fault.Failed) }
    {
        self.state.object(self.alloc, id)
    }

    /// All that was asked of the gate, in order.
    pub fn journal(&self) -> &[Entry]
        ensures { result.now ≡ self.now.journal }
    {
        self.journal.as_slice()
    }

    /// The vault, given back.
    pub fn into_vault(self) -> V
        ensures { result ≡ self.state.line.vault }
    {
        self.state.line.into_vault()
    }

    /// The vault and the journal, given back. It takes no memory.
    pub fn into_parts(self) -> (V, Vec<Entry>)
        ensures vault { result.0 ≡ self.state.line.vault }
        ensures journal { result.1.items ≡ self.journal }
    {
        let journal = self.journal;
        let state = self.state;
        (state.line.into_vault(), journal)
    }
}

/// Notes an op that is over in a place that was taken before, and gives its answer.
fn note_taken(journal: &mut Vec<Entry>, seat: u32, now: u64, taken: Taken) -> Reply
    requires { vec_len journal.old < vec_capacity journal.old }
    ensures items { journal.new.items ≡ journal.old.items
        ++ record { seat = seat; now = now; key = taken.key; act = taken.act; reply = taken.answer } ∷ [] }
    ensures room { vec_capacity journal.old ≤ vec_capacity journal.new }
    ensures told { result ≡ taken.answer }
    ensures never { result ≢ reply.JournalFull }
{
    let (noted, told) = taken.answer.into_parts();
    let entry = Entry {
        seat,
        now,
        key: taken.key,
        act: taken.act,
        reply: noted,
    };
    note(journal, entry);
    told
}

/// Puts an entry into a place that was taken before.
fn note(journal: &mut Vec<Entry>, entry: Entry)
    requires { vec_len journal.old < vec_capacity journal.old }
    ensures items { journal.new.items ≡ journal.old.items ++ entry ∷ [] }
    ensures room { vec_capacity journal.old ≤ vec_capacity journal.new }
{
    let _ = journal.push(entry);
}
