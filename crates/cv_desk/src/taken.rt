//! What an op that was taken comes to.
ghost use Rattle.std.specs.Prelude.{◌≡◌};
ghost use Rattle.cv_base.specs.Digest.{IsDigest};
ghost use Rattle.cv_base.specs.Path.{IsPath};
ghost use Rattle.cv_gate.specs.Step.{HasTypes};
ghost use Rattle.cv_gate.specs.declared.act.Act.TheVariants as acts;
ghost use Rattle.cv_desk.specs.ActingInner.{IsDeclined};

use crate::answer::Answer;
use cv_base::{Items, ObjectId, RepoPath, Text, Token};
use cv_gate::{Act, Op};
use cv_manifest::Head;
use std::alloc::Global;

/// What an op that is over comes to: what the journal keeps of it, and what is answered.
#[derive(Drop)]
pub(crate) struct Taken {
    pub(crate) key: Text,
    pub(crate) act: Act,
    pub(crate) answer: Answer,
}

/// A commit that is ready: what the journal keeps of it, the token of its lease, and the head that is to be published.
#[derive(Drop)]
pub(crate) struct Readied {
    pub(crate) key: Text,
    pub(crate) act: Act,
    pub(crate) token: Token,
    pub(crate) head: Head,
}

/// How far an op came.
#[derive(Drop)]
pub(crate) enum Course {
    /// It was done, or it isn't done.
    Done(Taken),
    /// It is a commit that is ready.
    Ready(Readied),
}

/// An op that isn't done.
pub(crate) fn decline(alloc: Global, op: Op, answer: Answer) -> Taken
    ensures records { IsDeclined op result }
    ensures types { HasTypes op }
    ensures answer { result.answer ≡ answer }
{
    match op {
        Op::Lease { key, path } => {
            let act = lease_act(path);
            Taken { key, act, answer }
        },
        Op::Store {
            key,
            token,
            digest,
            batch: _batch,
        } => {
            let act = store_act(token, digest, Items::new(Vec::new(alloc)));
            Taken { key, act, answer }
        },
        Op::Commit {
            key,
            token,
            old_root,
            new_root,
            tag,
        } => {
            let act = commit_act(token, old_root, new_root, tag);
            Taken { key, act, answer }
        },
        Op::Cancel { key, token } => {
            let act = Act::Cancel(token);
            Taken { key, act, answer }
        },
    }
}

/// The act of asking for a lease.
fn lease_act(path: RepoPath) -> Act
    ensures act { result ≡ acts.Lease path }
    ensures path { IsPath path }
{
    let _names = path.names();
    Act::Lease(path)
}

/// The act of sending objects, of which these are fresh.
pub(crate) fn store_act(token: Token, digest: [u8; 20], fresh: Items<ObjectId>) -> Act
    ensures act { result ≡ acts.Store token digest fresh }
    ensures digest { IsDigest digest }
{
    Act::Store {
        token,
        digest,
        fresh,
    }
}

/// The act of a commit.
pub(crate) fn commit_act(token: Token, old_root: [u8; 20], new_root: [u8; 20], tag: Text) -> Act
    ensures act { result ≡ acts.Commit token old_root new_root tag }
    ensures old_root { IsDigest old_root }
    ensures new_root { IsDigest new_root }
{
    Act::Commit {
        token,
        old_root,
        new_root,
        tag,
    }
}
