//! What the state of the gate does of a commit.
ghost use Rattle.std.specs.Prelude.{◌≡◌, ◌≢◌, ◌<◌, true, Some, Err};
ghost use Rattle.cv_base.specs.Counts.{HasCause};
ghost use Rattle.cv_base.specs.Moment.{IsMoment};
ghost use Rattle.cv_base.specs.Token.{last_number};
ghost use Rattle.cv_gate.specs.Step.{is_key_id, is_tag, HasTypes};
ghost use Rattle.cv_gate.specs.declared.op.Op.TheVariants as ops;
ghost use Rattle.cv_gate.specs.declared.reply.Reply.TheVariants as replies;
ghost use Rattle.cv_leases.specs.Leases.{lease_of};
ghost use Rattle.cv_swap.specs.declared.stage.Stage.TheVariants as stage;
ghost use Rattle.cv_desk.specs.Gate.{IsSameRepository};
ghost use Rattle.cv_desk.specs.ActingInner.{ComesToCommit};
ghost use Rattle.cv_desk.specs.Begin.{EndsBy};
ghost use Rattle.cv_desk.specs.Committing.{Finishes};
ghost use Rattle.cv_desk.specs.CommittingInner.{CommitsUnder, AsksCommit};

use crate::answer::Answer;
use crate::committing::{opposition, ready};
use crate::gate_state::GateState;
use cv_base::{Text, Token};
use cv_gate::Reply;
use cv_manifest::Head;
use cv_seal::Signer;
use cv_vault::Vault;
use std::alloc::Global;

impl<V: Vault + Drop, S: Signer + Drop> GateState<V, S> {
    /// Publishes the revision that is ready, and ends the lease with the token. After `StoreFailed` it is in doubt, and after
    /// `NoMemory` the vault was only read.
    fn finish(&mut self, token: Token) -> Answer
        requires ready { self.old.line.stage ≡ stage.Ready }
        ensures finishes { Finishes V.disk V.count V.left token self.old result self.new }
        ensures same { IsSameRepository self.old.line self.new.line }
        ensures next { self.new.next ≡ self.old.next }
        ensures cause { HasCause (V.faults self.old.line.vault) (V.faults self.new.line.vault) (result ≡ replies.StoreFailed) }
    {
        match self.line.swap() {
            Ok(()) => {
                self.leases.end(token);
                let head = self.line.head();
                let root = head.root;
                answer!(Reply::Committed {
                    revision: head.revision,
                    root,
                })
            },
            Err(fault) => Answer::of_vault(fault),
        }
    }

    /// Ends the commit that is ready under the lease with the token: publishes its revision, or gives it up, with nothing done.
    pub(crate) fn end_ready(&mut self, token: Token, go: bool) -> Answer
        requires ready { self.old.line.stage ≡ stage.Ready }
        ensures ends { EndsBy V.disk V.count V.left go token self.old result self.new }
        ensures same { IsSameRepository self.old.line self.new.line }
        ensures next { self.new.next ≡ self.old.next }
        ensures cause { HasCause (V.faults self.old.line.vault) (V.faults self.new.line.vault) (result ≡ replies.StoreFailed) }
    {
        if go {
            self.finish(token)
        } else {
            answer!(Reply::NoMemory)
        }
    }

    /// Makes a commit under the lease with the token ready, or answers it.
    fn commit_under(
        &mut self,
        alloc: Global,
        key: &Text,
        token: Token,
        old_root: &[u8; 20],
        offered: [u8; 20],
        tag: &Text,
    ) -> Result<Head, Answer>
        requires calm { self.old.line.stage ≢ stage.Doubtful }
        requires key { is_key_id key.now ≡ true }
        requires tag { is_tag tag.now ≡ true }
        ensures under { (lease : _) → lease_of token self.old.leases ≡ Some lease
            → CommitsUnder V.disk V.count V.left S.is_seal lease key.now old_root.now offered tag.now self.old result self.new }
        ensures same { IsSameRepository self.old.line self.new.line }
        ensures next { self.new.next ≡ self.old.next }
        ensures cause { HasCause (V.faults self.old.line.vault) (V.faults self.new.line.vault) (result ≡ Err replies.StoreFailed) }
    {
        let Some(lease) = self.leases.find(token) else {
            return Err(answer!(Reply::InvalidToken));
        };
        if let Some(answer) = opposition(&self.line, lease.from_revision, old_root, tag) {
            return Err(answer);
        }
        let moment = self.moment;
        ready(
            alloc,
            &mut self.line,
            &mut self.known,
            lease,
            key,
            moment,
            offered,
            tag,
        )
    }

    /// Makes a commit under the lease with the token ready, if it is the key's, or answers it.
    fn ask_commit(
        &mut self,
        alloc: Global,
        key: &Text,
        token: Token,
        old_root: &[u8; 20],
        offered: [u8; 20],
        tag: &Text,
    ) -> Result<Head, Answer>
        requires calm { self.old.line.stage ≢ stage.Doubtful }
        requires key { is_key_id key.now ≡ true }
        requires tag { is_tag tag.now ≡ true }
        ensures asks { AsksCommit V.disk V.count V.left S.is_seal key.now token old_root.now offered tag.now self.old result self.new }
        ensures same { IsSameRepository self.old.line self.new.line }
        ensures next { self.new.next ≡ self.old.next }
        ensures cause { HasCause (V.faults self.old.line.vault) (V.faults self.new.line.vault) (result ≡ Err replies.StoreFailed) }
    {
        if let Some(answer) = self.refusal_on(key, token) {
            return Err(answer);
        }
        self.commit_under(alloc, key, token, old_root, offered, tag)
    }

    /// Makes ready at a moment that the subtree under the lease with the token is replaced by that of the offered tree, if the
    /// lease is the key's; or answers it. All of the new revision stands for sure then but its head.
    pub(crate) fn begin_commit(
        &mut self,
        alloc: Global,
        now: u64,
        key: &Text,
        token: Token,
        old_root: &[u8; 20],
        offered: [u8; 20],
        tag: &Text,
    ) -> Result<Head, Answer>
        requires now { IsMoment now }
        requires next { self.old.next < last_number }
        requires calm { self.old.line.stage ≢ stage.Doubtful }
        requires key { is_key_id key.now ≡ true }
        requires tag { is_tag tag.now ≡ true }
        ensures comes { HasTypes (ops.Commit key.now token old_root.now offered tag.now) → ComesToCommit V.disk V.count V.left S.is_seal key.now token old_root.now offered tag.now now self.old result self.new }
        ensures same { IsSameRepository self.old.line self.new.line }
        ensures next { self.new.next ≡ self.old.next }
        ensures cause { HasCause (V.faults self.old.line.vault) (V.faults self.new.line.vault) (result ≡ Err replies.StoreFailed) }
    {
        self.age(now);
        self.ask_commit(alloc, key, token, old_root, offered, tag)
    }
}
