//! What follows a reply, stage by stage.
ghost use Rattle.std.specs.Prelude.{◌≡◌, ◌≤◌, ◌++◌, None, drop, length};
ghost use Rattle.cv_publisher.specs.Holding.{IsHeld, IsPlan, IsSending};
ghost use Rattle.cv_publisher.specs.Taking.{AfterCommit, AfterLease, AfterManifest, AfterPayload, Steps, behind_commit, behind_lease, behind_payload};
ghost use Rattle.cv_publisher.specs.declared.stage.Stage.TheVariants.{Cancelling};

use crate::fault::PublishFault;
use crate::fetching::{after_catalogue, begun, sending};
use crate::filling::front_of;
use crate::plan::Plan;
use crate::replies::{answer_in, fault_in};
use crate::stage::{Offer, Stage};
use cv_answers::Answer;
use cv_base::{Items, NoMemory, Object, Token};
use cv_http::{HttpReply, OK};
use cv_manifest::Manifest;
use cv_seal::Signer;
use std::alloc::Global;

/// What follows a reply.
#[derive(Drop)]
pub(crate) struct Step {
    /// The manifest, where the reply has it.
    pub read: Option<Manifest>,
    /// The next stage.
    pub stage: Stage,
}

/// A stage that follows, where no manifest was read.
fn unread(stage: Stage) -> Step
    ensures { result ≡ record { read = None; stage = stage } }
{
    Step { read: None, stage }
}

/// The stage behind the answer to the request for a lease.
fn behind_lease(answer: Option<Answer>) -> Stage
    ensures { result ≡ behind_lease answer }
{
    match answer {
        Some(Answer::Granted { token, .. }) => Stage::Reading(token),
        other => Stage::Ended(Err(fault_in(other))),
    }
}

/// The stage behind the reply to the request for a lease.
fn after_lease(alloc: Global, reply: &HttpReply) -> Stage
    ensures { AfterLease reply.now result }
{
    match answer_in(alloc, reply) {
        Ok(answer) => behind_lease(answer),
        Err(NoMemory) => Stage::Ended(Err(PublishFault::NoMemory)),
    }
}

/// What follows where the manifest isn't read: the lease is ended.
fn unserved(token: Token, fault: PublishFault) -> Step
    ensures { result ≡ record { read = None; stage = Cancelling token fault } }
{
    unread(Stage::Cancelling { token, fault })
}

/// What follows the reply to the request for the manifest.
fn after_manifest<S: Signer>(
    alloc: Global,
    plan: &Plan,
    token: Token,
    reply: &HttpReply,
    signer: &S,
) -> Step
    ensures after { AfterManifest (S.is_seal signer.now) reply.now plan.now token result.read result.stage }
    ensures held { IsHeld plan.now result.stage }
{
    if reply.code != OK {
        return unserved(token, PublishFault::BadReply);
    }
    match Manifest::read(alloc, reply.body.as_slice(), signer) {
        Ok(manifest) => {
            let stage = begun(alloc, plan, token, manifest.head.root);
            Step {
                read: Some(manifest),
                stage,
            }
        }
        Err(fault) => unserved(token, PublishFault::of_manifest(fault)),
    }
}

/// The stage behind the answer to a payload.
fn behind_payload(
    offer: Offer,
    catalogues: Items<Object>,
    rest: Vec<usize>,
    answer: Option<Answer>,
) -> Stage
    ensures { result ≡ behind_payload offer catalogues rest.items answer }
{
    match answer {
        Some(Answer::Done) => sending(offer, catalogues, rest),
        other => Stage::Cancelling {
            token: offer.token,
            fault: fault_in(other),
        },
    }
}

/// What is left behind so many places.
fn behind(left: Items<usize>, count: usize) -> Vec<usize>
    requires { count ≤ length left }
    ensures { result.items ≡ drop count left }
{
    let mut rest = left.into_vec();
    rest.drain(..count);
    rest
}

/// The stage behind the reply to a payload.
fn after_payload(
    alloc: Global,
    plan: &Plan,
    offer: Offer,
    catalogues: Items<Object>,
    left: Items<usize>,
    reply: &HttpReply,
) -> Stage
    requires { IsSending plan.now catalogues left }
    ensures after { AfterPayload reply.now (plan.now.changes.objects ++ catalogues) offer catalogues left result }
    ensures held { IsHeld plan.now result }
{
    let contents = plan.changes.objects();
    let count = front_of(contents, catalogues.as_slice(), left.as_slice());
    let rest = behind(left, count);
    match answer_in(alloc, reply) {
        Ok(answer) => behind_payload(offer, catalogues, rest, answer),
        Err(NoMemory) => Stage::Cancelling {
            token: offer.token,
            fault: PublishFault::NoMemory,
        },
    }
}

/// The stage behind the answer to the commit.
fn behind_commit(offer: Offer, answer: Option<Answer>) -> Stage
    ensures { result ≡ behind_commit offer answer }
{
    match answer {
        Some(Answer::Committed { revision, .. }) => Stage::Ended(Ok(revision)),
        other => Stage::Cancelling {
            token: offer.token,
            fault: fault_in(other),
        },
    }
}

/// The stage behind the reply to the commit.
fn after_commit(alloc: Global, offer: Offer, reply: &HttpReply) -> Stage
    ensures { AfterCommit reply.now offer result }
{
    match answer_in(alloc, reply) {
        Ok(answer) => behind_commit(offer, answer),
        Err(NoMemory) => Stage::Cancelling {
            token: offer.token,
            fault: PublishFault::NoMemory,
        },
    }
}

/// What follows a reply in a stage.
pub(crate) fn follow<S: Signer>(
    alloc: Global,
    plan: &Plan,
    stage: Stage,
    reply: HttpReply,
    signer: &S,
) -> Step
    requires plan { IsPlan plan.now }
    requires held { IsHeld plan.now stage }
    ensures steps { Steps (S.is_seal signer.now) reply plan.now stage result.read result.stage }
    ensures held { IsHeld plan.now result.stage }
{
    match stage {
        Stage::Leasing => unread(after_lease(alloc, &reply)),
        Stage::Reading(token) => after_manifest(alloc, plan, token, &reply, signer),
        Stage::Fetching {
            token,
            base,
            checkout,
        } => unread(after_catalogue(alloc, plan, token, base, checkout, reply)),
        Stage::Sending {
            offer,
            catalogues,
            left,
        } => unread(after_payload(alloc, plan, offer, catalogues, left, &reply)),
        Stage::Committing(offer) => unread(after_commit(alloc, offer, &reply)),
        Stage::Cancelling { fault, .. } => unread(Stage::Ended(Err(fault))),
        Stage::Ended(end) => unread(Stage::Ended(end)),
    }
}
