//! What is answered to a turn.
ghost use Rattle.std.specs.Prelude.{◌≡◌, ◌≤◌, ℕ, List, Option, IfOk, Some, true};
ghost use Rattle.std.specs.Result.{result_ok};
ghost use Rattle.cv_gate.specs.Step.{IsOp};
ghost use Rattle.cv_session.specs.Answers.{repositories_answer};
ghost use Rattle.cv_session.specs.TurnsInner.{IsGood};
ghost use Rattle.cv_session.specs.declared.target.Resource.TheVariants.{Manifest as manifest, Object};
ghost use Rattle.cv_session.specs.declared.turn.Turn.TheVariants.{Serve, Leases, Step};
ghost use Rattle.cv_session.specs.ResponsesInner.{Does, is_writable};
ghost use Rattle.cv_session.specs.Standing.{standing};
ghost use Rattle.cv_session.specs.declared.response.Response.TheVariants.{Reply as reply, Message as message};

use crate::answering::{list_leases, list_repositories};
use crate::response::Response;
use crate::target::Resource;
use crate::turn::Turn;
use cv_answers::Answer as MessageData;
use cv_base::{Bytes, Name, NoMemory, ObjectId};
use cv_gate::{Desk, Op, Reply};
use cv_http::Code;
use cv_manifest::{Manifest, TIME_TO_LIVE};
use cv_ports::{Clock, ShelfFault};
use cv_seal::Signer;
use std::alloc::Global;

/// The manifest of the newest head.
fn write_newest<K: Desk, S: Signer>(
    alloc: Global,
    desk: &mut K,
    signer: &S,
) -> Result<Response, NoMemory>
    ensures does { (moments : Option (ℕ → ℕ)) →
        Does K.does (K.named desk.old) (S.seal_of signer.now) (Serve manifest) (result_ok result) (standing desk.old moments (K.faults desk.old)) (standing desk.new moments (K.faults desk.new)) }
    ensures writable { IfOk result (λ answer. is_writable answer ≡ true) }
    ensures named { K.named desk.new ≡ K.named desk.old }
    ensures later { K.faults desk.old ≤ K.faults desk.new }
{
    let head = desk.newest();
    let name = desk.name().copy(alloc)?;
    let manifest = Manifest {
        name,
        ttl: TIME_TO_LIVE,
        head,
    };
    let text = manifest.write(alloc, signer)?;
    Ok(Response::Content(Bytes::new(text)))
}

/// An object of the repository.
fn read_object<K: Desk>(alloc: Global, desk: &mut K, id: ObjectId) -> Result<Response, NoMemory>
    ensures does { (seal : List ℕ → List ℕ) (moments : Option (ℕ → ℕ)) →
        Does K.does (K.named desk.old) seal (Serve (Object id)) (result_ok result) (standing desk.old moments (K.faults desk.old)) (standing desk.new moments (K.faults desk.new)) }
    ensures writable { IfOk result (λ answer. is_writable answer ≡ true) }
    ensures named { K.named desk.new ≡ K.named desk.old }
    ensures later { K.faults desk.old ≤ K.faults desk.new }
{
    match desk.object(alloc, &id) {
        Ok(Some(bytes)) => Ok(Response::Content(bytes)),
        Ok(None) => Ok(Response::Fixed(Code::NotFound)),
        Err(ShelfFault::Failed) => Ok(Response::Fixed(Code::ServerError)),
        Err(ShelfFault::Damaged { .. }) => Ok(Response::Fixed(Code::ServerError)),
        Err(ShelfFault::NoMemory) => Err(NoMemory),
    }
}

/// The repositories.
fn name_repositories(alloc: Global, repository: &Name) -> Result<Response, NoMemory>
    ensures { IfOk result (λ answer. answer ≡ message (repositories_answer repository.now)) }
{
    Ok(Response::Message(list_repositories(alloc, repository)?))
}

/// The leases that are live at the clock's moment.
fn show_leases<K: Desk, C: Clock>(
    alloc: Global,
    desk: &mut K,
    clock: &mut C,
) -> Result<Response, NoMemory>
    ensures does { (seal : List ℕ → List ℕ) →
        Does K.does (K.named desk.old) seal Leases (result_ok result) (standing desk.old (C.moments clock.old) (K.faults desk.old)) (standing desk.new (C.moments clock.new) (K.faults desk.new)) }
    ensures writable { IfOk result (λ answer. is_writable answer ≡ true) }
    ensures named { K.named desk.new ≡ K.named desk.old }
    ensures later { K.faults desk.old ≤ K.faults desk.new }
{
    let lines = desk.live(alloc, clock.now())?;
    Ok(Response::Message(list_leases(alloc, desk.name(), lines.as_slice())?))
}

/// What the gate replies to an op at the clock's moment.
fn take_step<K: Desk, C: Clock>(alloc: Global, desk: &mut K, clock: &mut C, op: Op) -> Reply
    requires op { IsOp op }
    ensures does { (repository : List ℕ) (seal : List ℕ → List ℕ) →
        Does K.does repository seal (Step op) (Some (reply result)) (standing desk.old (C.moments clock.old) (K.faults desk.old)) (standing desk.new (C.moments clock.new) (K.faults desk.new)) }
    ensures named { K.named desk.new ≡ K.named desk.old }
    ensures later { K.faults desk.old ≤ K.faults desk.new }
{
    let now = clock.now();
    desk.ask(alloc, now, op)
}

/// The answer to a turn.
pub(crate) fn find_answer<K: Desk, S: Signer, C: Clock>(
    alloc: Global,
    desk: &mut K,
    signer: &S,
    clock: &mut C,
    turn: Turn,
) -> Result<Response, NoMemory>
    requires { IsGood turn }
    ensures does { Does K.does (K.named desk.old) (S.seal_of signer.now) turn (result_ok result) (standing desk.old (C.moments clock.old) (K.faults desk.old)) (standing desk.new (C.moments clock.new) (K.faults desk.new)) }
    ensures writable { IfOk result (λ answer. is_writable answer ≡ true) }
    ensures named { K.named desk.new ≡ K.named desk.old }
    ensures later { K.faults desk.old ≤ K.faults desk.new }
{
    match turn {
        Turn::Serve(Resource::Manifest) => write_newest(alloc, desk, signer),
        Turn::Serve(Resource::Object(id)) => read_object(alloc, desk, id),
        Turn::Repositories => name_repositories(alloc, desk.name()),
        Turn::Leases => show_leases(alloc, desk, clock),
        Turn::Step(op) => Ok(Response::Reply(take_step(alloc, desk, clock, op))),
        Turn::Deny(refusal) => Ok(Response::Message(MessageData::Refused(refusal))),
        Turn::Refuse(code) => Ok(Response::Fixed(code)),
    }
}
