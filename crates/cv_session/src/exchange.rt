//! One turn and its reply.
ghost use Rattle.std.specs.Prelude.{◌≡◌, ◌≢◌, ◌≤◌, Some, None, Err, is_some, true};
ghost use Rattle.cv_base.specs.Counts.{HasCause};
ghost use Rattle.cv_session.specs.TurnsInner.{IsGood};
ghost use Rattle.cv_session.specs.ResponsesInner.{is_writable};
ghost use Rattle.cv_session.specs.Exchanges.{ends};
ghost use Rattle.cv_session.specs.ExchangesInner.{end_after, Handles, Sends};
ghost use Rattle.cv_session.specs.Standing.{standing};
ghost use Rattle.cv_session.specs.declared.session_end.SessionEnd.TheVariants.{WriteFault};

use crate::responding::find_answer;
use crate::response::{Response, write_answer};
use crate::session_end::SessionEnd;
use crate::turn::Turn;
use cv_base::NoMemory;
use cv_gate::{Desk, Op, Reply};
use cv_http::SendFault;
use cv_ports::{Clock, Hold, Point, Sink};
use cv_seal::Signer;
use std::alloc::Global;

/// The most requests of a connection.
pub const REQUEST_LIMIT: u64 = 1_000;

/// Whether the request of this number is to be the last.
pub(crate) fn ends_with(last: bool, number: u64) -> bool
    ensures { result ≡ ends last number }
{
    last || number == REQUEST_LIMIT
}

/// How the session ends with the reply to a request that is to be the last or isn't, if it does.
fn end_after(answer: &Response, last: bool) -> Option<SessionEnd>
    ensures { result ≡ end_after answer.now last }
{
    match answer {
        Response::Reply(Reply::JournalFull) => Some(SessionEnd::JournalFull),
        _ if last => Some(SessionEnd::Closed),
        _ => None,
    }
}

/// Writes the reply with an answer to a request that is to be the last or isn't. How the session ends then, if it does.
fn send<W: Sink>(alloc: Global, sink: &mut W, answer: Response, last: bool) -> Option<SessionEnd>
    requires { is_writable answer ≡ true }
    ensures sends { Sends answer last (W.taken sink.old) (W.taken sink.new) result }
    ensures flushed { result ≢ Some WriteFault → W.passed sink.old ≡ W.taken sink.old → W.passed sink.new ≡ W.taken sink.new }
    ensures held { result ≡ Some WriteFault → W.passed sink.new ≡ W.passed sink.old }
    ensures no_write_failed { result ≢ Some WriteFault → W.faults sink.new ≡ W.faults sink.old }
    ensures cause { HasCause (W.faults sink.old) (W.faults sink.new) (result ≡ Some WriteFault) }
{
    let end = end_after(&answer, last);
    match write_answer(alloc, sink, answer, end.is_some()) {
        Ok(()) => end,
        Err(SendFault::WriteFault) => Some(SessionEnd::WriteFault),
        Err(SendFault::NoMemory) => Some(SessionEnd::NoMemory),
    }
}

/// Holds a session before a payload that was read and checked is stored.
fn hold_payload<H: Hold>(hold: &H, turn: &Turn) {
    if let Turn::Step(Op::Store { .. }) = turn {
        hold.at(Point::PayloadRead);
    }
}

/// Holds a session behind the reply to a request for a lease, where that was written.
fn hold_lease<H: Hold>(hold: &H, leases: bool, end: Option<SessionEnd>) {
    match end {
        Some(SessionEnd::WriteFault) | Some(SessionEnd::NoMemory) => {}
        _ if leases => hold.at(Point::LeaseAnswered),
        _ => {}
    }
}

/// Answers the turn of a request that is to be the last or isn't. How the session ends with it, if it does.
pub(crate) fn answer_turn<K: Desk, S: Signer, C: Clock, H: Hold, W: Sink>(
    alloc: Global,
    desk: &mut K,
    signer: &S,
    clock: &mut C,
    hold: &H,
    sink: &mut W,
    turn: Turn,
    last: bool,
) -> Option<SessionEnd>
    requires { IsGood turn }
    ensures handles { Handles K.does (K.named desk.old) (S.seal_of signer.now) turn last (W.taken sink.old) (W.taken sink.new)
        (standing desk.old (C.moments clock.old) (K.faults desk.old)) (standing desk.new (C.moments clock.new) (K.faults desk.new)) result }
    ensures named { K.named desk.new ≡ K.named desk.old }
    ensures later { K.faults desk.old ≤ K.faults desk.new }
    ensures flushed { result ≢ Some WriteFault → W.passed sink.old ≡ W.taken sink.old → W.passed sink.new ≡ W.taken sink.new }
    ensures held { result ≡ Some WriteFault → W.passed sink.new ≡ W.passed sink.old }
    ensures no_write_failed { result ≢ Some WriteFault → W.faults sink.new ≡ W.faults sink.old }
    ensures cause { HasCause (W.faults sink.old) (W.faults sink.new) (result ≡ Some WriteFault) }
{
    let leases = matches!(&turn, Turn::Step(Op::Lease { .. }));
    hold_payload(hold, &turn);
    match find_answer(alloc, desk, signer, clock, turn) {
        Ok(answer) => {
            let end = send(alloc, sink, answer, last);
            hold_lease(hold, leases, end);
            end
        }
        Err(NoMemory) => Some(SessionEnd::NoMemory),
    }
}
