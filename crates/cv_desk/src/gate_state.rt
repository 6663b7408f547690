//! The state of the gate: all but its journal.
ghost use Rattle.std.specs.Prelude.{◌≡◌, ◌≢◌, ◌≤◌, ◌<◌, ◌+◌, ℕ, List, [], true, false, max, None, Some, Err, Ok, IfOk, IfErr, IsErrOf, OnOk};
ghost use Rattle.cv_base.specs.Counts.{HasCause, raised};
ghost use Rattle.cv_base.specs.Path.{Path, IsPath};
ghost use Rattle.cv_base.specs.Told.{WhereTold};
ghost use Rattle.cv_base.specs.Moment.{IsMoment};
ghost use Rattle.cv_base.specs.Token.{last_number};
ghost use Rattle.cv_ports.specs.Shelf.{Fetches, Suits};
ghost use Rattle.cv_ports.specs.declared.shelf.ShelfFault.TheVariants as shelf_fault;
ghost use Rattle.cv_vault.specs.declared.vault.VaultFault.TheVariants as vault_fault;
ghost use Rattle.cv_objects.specs.Names.{standing_on};
ghost use Rattle.cv_base.specs.Objects.{AreNamed};
ghost use Rattle.cv_gate.specs.declared.act.Act.TheVariants as acts;
ghost use Rattle.cv_gate.specs.declared.op.Op.TheVariants as ops;
ghost use Rattle.cv_gate.specs.declared.reply.Reply.TheVariants as replies;
ghost use Rattle.cv_leases.specs.Leases.{lease_of};
ghost use Rattle.cv_load.specs.Known.{is_known};
ghost use Rattle.cv_gate.specs.Lines.{lines_of};
ghost use Rattle.cv_gate.specs.Step.{IsOp, is_key_id, is_tag};
ghost use Rattle.cv_swap.specs.Line.{published};
ghost use Rattle.cv_swap.specs.declared.stage.Stage.TheVariants as stage;
ghost use Rattle.cv_desk.specs.Gate.{StandsFor, IsSameRepository, ShowsDamage};
ghost use Rattle.cv_desk.specs.Refusals.{is_unread, is_sending};
ghost use Rattle.cv_desk.specs.Resuming.{Resumes, Awaits};
ghost use Rattle.cv_desk.specs.Ends.{BlamesParent, IsPlaced, FetchesWay};
ghost use Rattle.cv_vault.specs.Names.{on_way};
ghost use Rattle.cv_vault.specs.Walks.{Walks, Nothing};
ghost use Rattle.cv_desk.specs.ActingInner.{aged_view, Settles, Acts, refusal_of, refusal_on, FindsPlace, OnlyLooks, new_lease, Grants, AsksLease, AsksEnd, Sends, AsksStore, IsAnswered, Courses, HasFailed, TakesCourse, newest_token, ended};

use crate::ageing::drop_due;
use crate::answer::Answer;
use crate::listing::list_leases;
use crate::sent::Sent;
use crate::taken::{Course, Readied, Taken, commit_act, decline, store_act};
use cv_base::{Bytes, Kind, NoMemory, Object, ObjectId, RepoPath, Text, Token};
use cv_gate::{Act, LEASE_TIME, LeaseLine, Op, Reply};
use cv_graft::directory_at;
use cv_history::Record;
use cv_leases::{Lease, LeaseTable};
use cv_load::KnownSet;
use cv_ports::{Shelf, ShelfFault};
use cv_seal::Signer;
use cv_swap::Line;
use cv_vault::{Vault, VaultFault};
use std::alloc::Global;
use std::marker::{Brand, Model};
use std::sync::ledger::Blank;

/// The line of revisions, the leases, the latest moment at which something was asked, the number of the next lease, and the
/// catalogues that were found whole, of which each still is.
#[derive(Drop)]
pub(crate) struct GateState<V: Vault + Drop, S: Signer + Drop> {
    pub(crate) line: Line<V, S>,
    pub(crate) leases: LeaseTable,
    pub(crate) moment: u64,
    next: u64,
    pub(crate) known: KnownSet,
}

impl<V: Vault + Drop, S: Signer + Drop> Model for GateState<V, S> {
    ghost use Rattle.cv_desk.specs.Gate.{StateView};
    ghost use Rattle.cv_desk.specs.GateInner.{IsState};
    ghost use Rattle.cv_desk.specs.KnownInner.{KnowsWhole};
    ghost use Rattle.std.specs.Coded.{codes};
    ghost use Rattle.cv_load.specs.contracts.known_set.KnownSet as known_set;

    ghost Value = { StateView V S };

    ghost coded = { Prim.hlevel (codes, known_set.the_row.coded, V.code, S.code) };

    ghost view = { λ s. record { line = s.line; leases = s.leases; moment = s.moment; next = s.next; known = s.known } };

    ghost invariant = { λ s. IsState (record { line = s.line; leases = s.leases; moment = s.moment; next = s.next; known = s.known }) × KnowsWhole V.disk s.line.vault s.known };
}

impl<V: Vault + Drop, S: Signer + Drop> GateState<V, S> {
    /// Without leases, over a line, where no catalogue is known.
    pub(crate) fn new(alloc: Global, line: Line<V, S>) -> GateState<V, S>
        ensures unknown { (hash : List ℕ) (path : Path) → is_known result.known hash path ≡ false }
        ensures others { result ≡ record { line = line; leases = []; moment = 0; next = 1; known = result.known } }
    {
        GateState {
            line,
            leases: LeaseTable::new(alloc),
            moment: 0,
            next: 1,
            known: KnownSet::new(alloc),
        }
    }

    /// Ends the lease under which the newest revision was made, if it is live.
    fn end_newest(&mut self)
        ensures { self.new ≡ record self.old { leases = ended (newest_token (published self.old.line)) self.old.leases } }
    {
        if let Some(token) = newest_token(self.line.records()) {
            self.leases.end(token);
        }
    }

    /// Settles a commit in doubt, if there is one. After a fault it is in doubt still.
    pub(crate) fn settle(&mut self) -> Result<(), VaultFault>
        ensures settles { (st : _) → StandsFor V.disk S.is_seal self.old st → Settles V.disk V.count V.left S.is_seal self.old result self.new st }
        ensures calm { self.old.line.stage ≢ stage.Doubtful → (result ≡ Ok tt) × (self.new ≡ self.old) }
        ensures same { IsSameRepository self.old.line self.new.line }
        ensures next { self.new.next ≡ self.old.next }
        ensures keeps { WhereTold (V.disk self.old.line.vault) (λ d. Walks V.disk V.count V.left on_way Nothing (λ _. Unit {0}) d self.old.line.vault self.new.line.vault) }
        ensures certain { OnOk result (self.new.line.stage ≢ stage.Doubtful) }
        ensures resumes { OnOk result (Resumes V.disk V.count V.left self.old self.new) }
        ensures awaits { (fault : _) → result ≡ Err fault → Awaits V.disk V.count V.left fault self.old self.new }
        ensures cause { HasCause (V.faults self.old.line.vault) (V.faults self.new.line.vault) (IsErrOf result vault_fault.Failed) }
    {
        if !self.line.in_doubt() {
            return Ok(());
        }
        match self.line.recover() {
            Ok(true) => {
                self.end_newest();
                Ok(())
            },
            Ok(false) => Ok(()),
            Err(fault) => Err(fault),
        }
    }

    /// Comes to a moment: leases whose deadline has come are gone.
    pub(crate) fn age(&mut self, now: u64)
        requires { IsMoment now }
        ensures { self.new ≡ aged_view self.old now }
    {
        self.moment = self.moment.max(now);
        drop_due::<Brand>(&mut self.leases, self.moment, Blank::new(1));
    }

    /// Why a lease on the path isn't granted now, if it isn't.
    fn refusal(&self, path: &RepoPath) -> Option<Answer>
        ensures { result ≡ refusal_of self.now.leases self.now.moment path.now }
    {
        match self.leases.refusal(path) {
            Some(fault) => Some(Answer::of_lease(fault, self.moment)),
            None => None,
        }
    }

    /// Whether the path has a place in the newest tree: it is the root, or its parent is a directory.
    fn has_place(&mut self, alloc: Global, path: &RepoPath) -> Result<bool, Answer>
        ensures place { FindsPlace V.disk self.old path.now result }
        ensures sees { WhereTold (V.disk self.old.line.vault) (λ d. IfOk result (IsPlaced (standing_on d) self.old.line.head.root path.now)) }
        ensures unread { IfErr result (λ r. is_unread r ≡ true) }
        ensures damage { IfErr result (ShowsDamage V.disk self.old.line.vault) }
        ensures blames { IfErr result (BlamesParent (V.disk self.old.line.vault) self.old.line.head.root path.now) }
        ensures looks { OnlyLooks V.disk V.count V.left self.old self.new }
        ensures fetches { FetchesWay V.disk path.now self.old self.new }
        ensures cause { HasCause (V.faults self.old.line.vault) (V.faults self.new.line.vault) (result ≡ Err replies.StoreFailed) }
    {
        if path.names().is_empty() {
            return Ok(true);
        }
        let path = path.copy(alloc)?;
        let parent = path.into_parent();
        let hash = self.line.head().root;
        let root = ObjectId {
            hash,
            kind: Kind::Catalogue,
        };
        match directory_at(alloc, &mut self.line, &root, &parent) {
            Ok(there) => Ok(there),
            Err(fault) => Err(Answer::of_load(fault)),
        }
    }

    /// A lease from now on.
    fn new_lease(&self, alloc: Global, key: &Text, path: &RepoPath) -> Result<Lease, NoMemory>
        ensures { IfOk result (λ lease. lease ≡ new_lease self.now key.now path.now) }
    {
        Ok(Lease {
            token: Token {
                epoch: self.line.epoch(),
                number: self.next,
            },
            key: key.copy(alloc)?,
            path: path.copy(alloc)?,
            deadline: self.moment + LEASE_TIME,
            from_revision: self.line.head().revision,
        })
    }

    /// Grants a lease that nothing refuses.
    fn grant(&mut self, alloc: Global, key: &Text, path: &RepoPath) -> Answer
        requires next { self.old.next < last_number }
        requires free { refusal_of self.old.leases self.old.moment path.now ≡ None }
        ensures { Grants key.now path.now self.old result self.new }
    {
        let Ok(lease) = self.new_lease(alloc, key, path) else {
            return answer!(Reply::NoMemory);
        };
        let token = lease.token;
        match self.leases.grant(lease) {
            Ok(()) => {
                self.next += 1;
                let head = self.line.head();
                let root = head.root;
                answer!(Reply::Granted {
                    token,
                    revision: head.revision,
                    root,
                })
            },
            Err(NoMemory) => answer!(Reply::NoMemory),
        }
    }

    /// Grants a lease on the path, or says why not.
    fn ask_lease(&mut self, alloc: Global, key: &Text, path: &RepoPath) -> Answer
        requires next { self.old.next < last_number }
        ensures asks { AsksLease V.disk V.count V.left key.now path.now self.old result self.new }
        ensures damage { ShowsDamage V.disk self.old.line.vault result }
        ensures cause { HasCause (V.faults self.old.line.vault) (V.faults self.new.line.vault) (result ≡ replies.StoreFailed) }
    {
        if let Some(answer) = self.refusal(path) {
            return answer;
        }
        match self.has_place(alloc, path) {
            Ok(true) => self.grant(alloc, key, path),
            Ok(false) => answer!(Reply::NoParent),
            Err(answer) => answer,
        }
    }

    /// Grants a lease on the path at a moment, or says why not. The path's parent must be a directory of the newest tree.
    pub(crate) fn lease(&mut self, alloc: Global, now: u64, key: &Text, path: &RepoPath) -> Answer
        requires now { IsMoment now }
        requires next { self.old.next < last_number }
        ensures acts { Acts V.disk V.count V.left S.is_seal (ops.Lease key.now path.now) now (acts.Lease path.now) result self.old self.new }
        ensures answered { IsAnswered V.disk V.count V.left S.is_seal (ops.Lease key.now path.now) now (acts.Lease path.now) result self.old self.new }
        ensures same { IsSameRepository self.old.line self.new.line }
        ensures next { self.new.next ≤ self.old.next + 1 }
        ensures path { IsPath path.now }
        ensures cause { HasCause (V.faults self.old.line.vault) (V.faults self.new.line.vault) (result ≡ replies.StoreFailed) }
    {
        let _names = path.names();
        self.age(now);
        self.ask_lease(alloc, key, path)
    }

    /// Why nothing is done on the lease with the token for the key, if it isn't.
    pub(crate) fn refusal_on(&self, key: &Text, token: Token) -> Option<Answer>
        ensures answer { result ≡ refusal_on (lease_of token self.now.leases) key.now }
        ensures failed { result ≢ Some replies.StoreFailed }
    {
        match self.leases.find(token) {
            None => Some(answer!(Reply::InvalidToken)),
            Some(lease) => if lease.key.as_str() == key.as_str() {
                None
            } else {
                Some(answer!(Reply::WrongKey))
            },
        }
    }

    /// Ends the lease with the token, if it is the key's.
    fn ask_end(&mut self, key: &Text, token: Token) -> Answer
        ensures asks { AsksEnd key.now token self.old result self.new }
        ensures failed { result ≢ replies.StoreFailed }
    {
        if let Some(answer) = self.refusal_on(key, token) {
            return answer;
        }
        self.leases.end(token);
        answer!(Reply::Cancelled)
    }

    /// Ends the lease with the token at a moment, if it is the key's. Nothing is done to the vault.
    pub(crate) fn cancel(&mut self, now: u64, key: &Text, token: Token) -> Answer
        requires now { IsMoment now }
        requires next { self.old.next < last_number }
        ensures acts { Acts V.disk V.count V.left S.is_seal (ops.Cancel key.now token) now (acts.Cancel token) result self.old self.new }
        ensures answered { IsAnswered V.disk V.count V.left S.is_seal (ops.Cancel key.now token) now (acts.Cancel token) result self.old self.new }
        ensures failed { result ≢ replies.StoreFailed }
        ensures same { self.new.line ≡ self.old.line }
        ensures next { self.new.next ≡ self.old.next }
    {
        self.age(now);
        self.ask_end(key, token)
    }

    /// Stores the objects that the repository lacks.
    fn send(&mut self, alloc: Global, batch: &[Object]) -> Sent
        requires named { AreNamed batch.now }
        ensures sends { Sends V.disk V.count V.left batch.now self.old result.answer result.fresh self.new }
        ensures kind { is_sending result.answer ≡ true }
        ensures cause { HasCause (V.faults self.old.line.vault) (V.faults self.new.line.vault) (result.answer ≡ replies.StoreFailed) }
    {
        let fresh = match self.line.fresh(alloc, batch) {
            Ok(fresh) => fresh,
            Err(fault) => return Sent::none(alloc, Answer::of_store(fault)),
        };
        let stored = self.line.store(alloc, batch);
        Sent::by(alloc, fresh, stored)
    }

    /// Stores the objects that the repository lacks, under the lease with the token, if it is the key's.
    fn ask_store(&mut self, alloc: Global, key: &Text, token: Token, batch: &[Object]) -> Sent
        requires named { AreNamed batch.now }
        ensures asks { AsksStore V.disk V.count V.left key.now token batch.now self.old result.answer result.fresh self.new }
        ensures kind { refusal_on (lease_of token self.old.leases) key.now ≡ None → is_sending result.answer ≡ true }
        ensures cause { HasCause (V.faults self.old.line.vault) (V.faults self.new.line.vault) (result.answer ≡ replies.StoreFailed) }
    {
        if let Some(answer) = self.refusal_on(key, token) {
            return Sent::none(alloc, answer);
        }
        self.send(alloc, batch)
    }

    /// Stores the objects that the repository lacks at a moment, under the lease with the token, if it is the key's. They
    /// stand for sure before it answers `Stored`.
    pub(crate) fn store(
        &mut self,
        alloc: Global,
        now: u64,
        key: &Text,
        token: Token,
        batch: &[Object],
    ) -> Sent
        requires now { IsMoment now }
        requires next { self.old.next < last_number }
        requires named { AreNamed batch.now }
        ensures acts { (digest : _) → Acts V.disk V.count V.left S.is_seal (ops.Store key.now token digest batch.now) now (acts.Store token digest result.fresh) result.answer self.old self.new }
        ensures answered { (digest : _) → IsAnswered V.disk V.count V.left S.is_seal (ops.Store key.now token digest batch.now) now (acts.Store token digest result.fresh) result.answer self.old self.new }
        ensures same { IsSameRepository self.old.line self.new.line }
        ensures next { self.new.next ≡ self.old.next }
        ensures cause { HasCause (V.faults self.old.line.vault) (V.faults self.new.line.vault) (result.answer ≡ replies.StoreFailed) }
    {
        self.age(now);
        self.ask_store(alloc, key, token, batch)
    }

    /// The leases that are live at a moment and not before the latest one, in the order of grant.
    pub(crate) fn live(&self, alloc: Global, now: u64) -> Result<Vec<LeaseLine>, NoMemory>
        ensures { IfOk result (λ lines. lines.items ≡ lines_of (max self.now.moment now) self.now.leases) }
    {
        list_leases(alloc, &self.leases, self.moment.max(now))
    }

    /// An object of the repository, if it is there. Nothing is noted.
    pub(crate) fn object(
        &mut self,
        alloc: Global,
        id: &ObjectId,
    ) -> Result<Option<Bytes>, ShelfFault>
        ensures told { WhereTold (V.disk self.old.line.vault) (λ d. Fetches id.now result (standing_on d)) }
        ensures suits { Suits id.now result }
        ensures looks { OnlyLooks V.disk V.count V.left self.old self.new }
        ensures fetches { self.new.line.taken ≡ raised self.old.line.taken }
        ensures cause { HasCause (V.faults self.old.line.vault) (V.faults self.new.line.vault) (IsErrOf result shelf_fault.Failed) }
    {
        self.line.fetch(alloc, id)
    }

    /// Begins a commit at a moment.
    fn begin_op(
        &mut self,
        alloc: Global,
        now: u64,
        key: Text,
        token: Token,
        old_root: [u8; 20],
        new_root: [u8; 20],
        tag: Text,
    ) -> Course
        requires now { IsMoment now }
        requires next { self.old.next < last_number }
        requires calm { self.old.line.stage ≢ stage.Doubtful }
        requires key { is_key_id key ≡ true }
        requires tag { is_tag tag ≡ true }
        ensures course { Courses V.disk V.count V.left S.is_seal (ops.Commit key token old_root new_root tag) now result self.old self.new }
        ensures cause { HasCause (V.faults self.old.line.vault) (V.faults self.new.line.vault) (HasFailed result) }
    {
        let begun = self.begin_commit(alloc, now, &key, token, &old_root, new_root, &tag);
        let act = commit_act(token, old_root, new_root, tag);
        match begun {
            Ok(head) => Course::Ready(Readied {
                key,
                act,
                token,
                head,
            }),
            Err(answer) => Course::Done(Taken { key, act, answer }),
        }
    }

    /// Does an op at a moment, or makes it ready where it is a commit that nothing refuses.
    fn do_op(&mut self, alloc: Global, now: u64, op: Op) -> Course
        requires now { IsMoment now }
        requires next { self.old.next < last_number }
        requires op { IsOp op }
        requires calm { self.old.line.stage ≢ stage.Doubtful }
        ensures course { Courses V.disk V.count V.left S.is_seal op now result self.old self.new }
        ensures cause { HasCause (V.faults self.old.line.vault) (V.faults self.new.line.vault) (HasFailed result) }
    {
        match op {
            Op::Lease { key, path } => {
                let answer = self.lease(alloc, now, &key, &path);
                Course::Done(Taken {
                    key,
                    act: Act::Lease(path),
                    answer,
                })
            },
            Op::Store {
                key,
                token,
                digest,
                batch,
            } => {
                let sent = self.store(alloc, now, &key, token, batch.as_slice());
                Course::Done(Taken {
                    key,
                    act: store_act(token, digest, sent.fresh),
                    answer: sent.answer,
                })
            },
            Op::Commit {
                key,
                token,
                old_root,
                new_root,
                tag,
            } => self.begin_op(alloc, now, key, token, old_root, new_root, tag),
            Op::Cancel { key, token } => {
                let answer = self.cancel(now, &key, token);
                Course::Done(Taken {
                    key,
                    act: Act::Cancel(token),
                    answer,
                })
            },
        }
    }

    /// Takes an op at a moment: a commit in doubt is settled, and then it is done, or made ready; or it waits, and the fault is
    /// answered.
    pub(crate) fn take(&mut self, alloc: Global, now: u64, op: Op) -> Course
        requires now { IsMoment now }
        requires next { self.old.next < last_number }
        requires op { IsOp op }
        ensures takes { TakesCourse V.disk V.count V.left S.is_seal op now result self.old self.new }
        ensures cause { HasCause (V.faults self.old.line.vault) (V.faults self.new.line.vault) (HasFailed result) }
    {
        match self.settle() {
            Ok(()) => self.do_op(alloc, now, op),
            Err(fault) => Course::Done(decline(alloc, op, Answer::of_vault(fault))),
        }
    }
}

/// The token of the lease under which the last of the records was made.
fn newest_token(records: &[Record]) -> Option<Token>
    ensures { result ≡ newest_token records.now }
{
    match records.last() {
        Some(record) => Some(record.token),
        None => None,
    }
}
