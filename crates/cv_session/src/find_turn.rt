//! What a request asks, by its head and its body.
ghost use Rattle.std.specs.Prelude.{◌≡◌, ℕ, List, option_map, IfOk};
ghost use Rattle.cv_http.specs.declared.method.Method.TheVariants.{Get, Post, Delete};
ghost use Rattle.cv_keys.specs.declared.key.Key.{Key};
ghost use Rattle.cv_session.specs.DenialsInner.{Asks};
ghost use Rattle.cv_session.specs.Turns.{Wants};
ghost use Rattle.cv_session.specs.TurnsInner.{IsGood};
ghost use Rattle.cv_session.specs.declared.turn.Turn.{Turn};

use crate::asked_op::{asked_commit, asked_end, asked_lease};
use crate::denial::Denial;
use crate::target::read_target;
use crate::turn::Turn;
use cv_base::{Name, NoMemory};
use cv_gate::Op;
use cv_http::{Code, Method, RequestHead};
use cv_keys::KeyTable;
use cv_messages::{LEASE, LEASES};
use std::alloc::Global;

/// The target of the repositories.
const REPOSITORIES: &str = "/api/v1/repos";

/// What the request with this head and body asks of the repository and its gate.
pub(crate) fn request_turn(
    alloc: Global,
    repository: &Name,
    keys: &KeyTable,
    head: &RequestHead,
    body: &[u8],
) -> Result<Turn, NoMemory>
    ensures wants { IfOk result (λ turn. Wants repository.now keys.now head.now body.now turn) }

    // A step is one that the gate takes, and a refusal one that can be written.
    ensures good { IfOk result IsGood }
{
    match head.method {
        Method::Get => Ok(get_turn(repository, head)),
        Method::Post => post_turn(alloc, repository, keys, head, body),
        Method::Delete => delete_turn(alloc, keys, head),
        Method::Other => Ok(Turn::Refuse(Code::NotImplemented)),
    }
}

/// What a GET asks.
fn get_turn(repository: &Name, head: &RequestHead) -> Turn
    requires { head.now.method ≡ Get }
    ensures wants { (keys : List Key) (body : List ℕ) → Wants repository.now keys head.now body result }
    ensures good { IsGood result }
{
    let target = head.target.as_str();
    if target == REPOSITORIES {
        return Turn::Repositories;
    }
    if target == LEASES {
        return Turn::Leases;
    }
    match read_target(repository.text(), target.as_bytes()) {
        Some(resource) => Turn::Serve(resource),
        None => Turn::Refuse(Code::NotFound),
    }
}

/// What a POST asks.
fn post_turn(
    alloc: Global,
    repository: &Name,
    keys: &KeyTable,
    head: &RequestHead,
    body: &[u8],
) -> Result<Turn, NoMemory>
    requires { head.now.method ≡ Post }
    ensures wants { IfOk result (λ turn. Wants repository.now keys.now head.now body.now turn) }
    ensures good { IfOk result IsGood }
{
    let target = head.target.as_str();
    if target == LEASES {
        return step_turn(asked_lease(alloc, repository, keys, authorization(head), body));
    }
    match target.strip_prefix(LEASE) {
        Some(token) => step_turn(asked_commit(alloc, keys, authorization(head), token, body)),
        None => Ok(Turn::Refuse(Code::NotFound)),
    }
}

/// What a DELETE asks.
fn delete_turn(alloc: Global, keys: &KeyTable, head: &RequestHead) -> Result<Turn, NoMemory>
    requires { head.now.method ≡ Delete }
    ensures wants { (repository body : List ℕ) → IfOk result (λ turn. Wants repository keys.now head.now body turn) }
    ensures good { IfOk result IsGood }
{
    match head.target.as_str().strip_prefix(LEASE) {
        Some(token) => step_turn(asked_end(alloc, keys, authorization(head), token)),
        None => Ok(Turn::Refuse(Code::NotFound)),
    }
}

/// The value of the Authorization header.
pub(crate) fn authorization(head: &RequestHead) -> Option<&str>
    ensures { option_map (λ text. text.now) result ≡ head.now.authorization }
{
    head.authorization.as_ref().map(|text| text.as_str())
}

/// The turn of a request that asks for a step.
fn step_turn(asked: Result<Op, Denial>) -> Result<Turn, NoMemory>
    ensures turn { (turn : Turn) → Asks turn asked → IfOk result (λ made. (made ≡ turn) × IsGood made) }
{
    match asked {
        Ok(op) => Ok(Turn::Step(op)),
        Err(Denial::Refused(refusal)) => Ok(Turn::Deny(refusal)),
        Err(Denial::NoMemory) => Err(NoMemory),
    }
}
