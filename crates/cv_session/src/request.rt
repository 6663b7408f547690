//! Requests on a wire.
ghost use Rattle.std.specs.Prelude.{◌≡◌, ◌≢◌, [], None, Ok, Err, IfOk, IfSome, OnOk, OnErr, IfErr, IsErr, true};
ghost use Rattle.cv_base.specs.Counts.{HasCause};
ghost use Rattle.cv_base.specs.Told.{WhereTold};
ghost use Rattle.cv_ports.specs.Streams.{onto, Wrote};
ghost use Rattle.cv_http.specs.Wires.{Draws, Looks};
ghost use Rattle.cv_http.specs.Faults.{IsBodyFault};
ghost use Rattle.cv_http.specs.declared.fault.HttpFault.TheVariants.{Short, ReadFault};
ghost use Rattle.cv_session.specs.TurnsInner.{IsGood};
ghost use Rattle.cv_session.specs.Payloads.{is_payload};
ghost use Rattle.cv_session.specs.PayloadsInner.{ReadsBody, LooksWithin};
ghost use Rattle.cv_session.specs.Requests.{body_limit, body_size, waits, line_text, code_of_fault};
ghost use Rattle.cv_session.specs.RequestsInner.{Asks};
ghost use Rattle.cv_session.specs.ExchangesInner.{Gets, GetsBehind, IsAsking, IsAskingBehind};
ghost use Rattle.cv_session.specs.declared.request.Unread.TheVariants.{Fault, Unsaid};

use crate::find_turn::request_turn;
use crate::payload::{MESSAGE_LIMIT, read_payload};
use crate::turn::Turn;
use cv_base::{Name, NoMemory};
use cv_http::{Code, HttpFault, Method, RequestHead, Wire, write_continue};
use cv_keys::KeyTable;
use cv_messages::PAYLOADS;
use cv_pack::{HEADER_LIMIT, TOTAL_LIMIT};
use cv_ports::{Failed, Sink, Source};
use std::alloc::Global;

/// What a request asks, and whether it asks for the end.
#[derive(Debug, Drop)]
pub(crate) struct Asked {
    /// What is asked.
    pub turn: Turn,
    /// The client asks that the connection be closed after the reply.
    pub last: bool,
}

/// Why nothing was read that a request asks.
#[derive(Clone, Copy, Debug, PartialEq, Eq)]
pub(crate) enum Unread {
    /// The bytes, the source or memory have this fault.
    Fault(HttpFault),
    /// The sink failed at the line that asks for a body.
    Unsaid,
}

/// The code of the reply to a fault. None where there is no reply.
pub(crate) fn fault_code(fault: HttpFault) -> Option<Code>
    ensures { result ≡ code_of_fault fault }
{
    match fault {
        HttpFault::BadHead => Some(Code::BadRequest),
        HttpFault::HeadTooLarge => Some(Code::FieldsTooLarge),
        HttpFault::BodyTooLarge => Some(Code::ContentTooLarge),
        HttpFault::NoLength => Some(Code::LengthRequired),
        HttpFault::Coding => Some(Code::NotImplemented),
        HttpFault::Short | HttpFault::ReadFault | HttpFault::NoMemory => None,
    }
}

/// Whether the head is that of a payload.
fn is_payload(head: &RequestHead) -> bool
    ensures { result ≡ is_payload head.now }
{
    match head.method {
        Method::Post => head.target.as_str() == PAYLOADS,
        Method::Get | Method::Delete | Method::Other => false,
    }
}

/// The most bytes of the body behind a head.
pub(crate) fn body_limit(head: &RequestHead) -> u64
    ensures { result ≡ body_limit head.now }
{
    if is_payload(head) {
        u64::from(TOTAL_LIMIT) + HEADER_LIMIT + MESSAGE_LIMIT
    } else {
        MESSAGE_LIMIT
    }
}

/// The bytes of the body behind a head.
fn body_size(head: &RequestHead) -> u64
    ensures { result ≡ body_size head.now }
{
    head.length.unwrap_or(0)
}

/// Asks for the body, where the client waits for that.
fn say_line<W: Sink>(sink: &mut W, head: &RequestHead) -> Result<(), Failed>
    ensures whole { OnOk result (W.taken sink.new ≡ onto (W.taken sink.old) (line_text (waits head.now))) }
    ensures part { Wrote (W.taken sink.old) (W.taken sink.new) (line_text (waits head.now)) }
    ensures waiting { OnErr result (waits head.now ≡ true) }
    ensures flushed { OnOk result (W.passed sink.old ≡ W.taken sink.old → W.passed sink.new ≡ W.taken sink.new) }
    ensures held { OnErr result (W.passed sink.new ≡ W.passed sink.old) }
    ensures no_write_failed { OnOk result (W.faults sink.new ≡ W.faults sink.old) }
    ensures cause { HasCause (W.faults sink.old) (W.faults sink.new) (IsErr result) }
{
    if head.expects && body_size(head) > 0 {
        write_continue(sink)
    } else {
        Ok(())
    }
}

/// Reads the body behind a head, and what it asks.
fn read_turn<R: Source<Beside = W> + Drop, W: Sink>(
    alloc: Global,
    repository: &Name,
    keys: &KeyTable,
    wire: &mut Wire<R>,
    head: &RequestHead,
    beside: &W,
) -> Result<Turn, HttpFault>
    ensures reads { ReadsBody R.left R.given wire.old wire.new (body_size head.now) (Asks repository.now keys.now head.now) result }
    ensures cut { result ≡ Err Short → WhereTold (R.left wire.new.source) (λ left. left ≡ []) }
    ensures faults { IfErr result IsBodyFault }
    ensures no_read_failed { result ≢ Err ReadFault → R.faults wire.new.source ≡ R.faults wire.old.source }
    ensures cause { HasCause (R.faults wire.old.source) (R.faults wire.new.source) (result ≡ Err ReadFault) }
    ensures looks { LooksWithin R.left R.looks wire.old wire.new (W.passed beside.now) (body_size head.now) }
{
    let size = body_size(head);
    if is_payload(head) {
        return read_payload(alloc, keys, wire, head, size, beside);
    }
    let body = wire.read_body(alloc, size, beside)?;
    Ok(request_turn(alloc, repository, keys, head, body.as_slice())?)
}

/// Reads what the request with this head asks.
fn read_asked<R: Source<Beside = W> + Drop, W: Sink>(
    alloc: Global,
    repository: &Name,
    keys: &KeyTable,
    wire: &mut Wire<R>,
    sink: &mut W,
    head: &RequestHead,
) -> Result<Asked, Unread>
    ensures gets { Draws R.left R.given wire.old wire.new (λ b.
        GetsBehind repository.now keys.now head.now b wire.new.held (W.taken sink.old) (W.taken sink.new) result) }
    ensures cut { result ≡ Err (Fault Short) → WhereTold (R.left wire.new.source) (λ left. left ≡ []) }
    ensures no_read_failed { result ≢ Err (Fault ReadFault) → R.faults wire.new.source ≡ R.faults wire.old.source }
    ensures reads { HasCause (R.faults wire.old.source) (R.faults wire.new.source) (result ≡ Err (Fault ReadFault)) }
    ensures flushed { result ≢ Err Unsaid → W.passed sink.old ≡ W.taken sink.old → W.passed sink.new ≡ W.taken sink.new }
    ensures held { result ≡ Err Unsaid → W.passed sink.new ≡ W.passed sink.old }
    ensures no_write_failed { result ≢ Err Unsaid → W.faults sink.new ≡ W.faults sink.old }
    ensures writes { HasCause (W.faults sink.old) (W.faults sink.new) (result ≡ Err Unsaid) }
    ensures looks { W.passed sink.old ≡ W.taken sink.old → Looks R.left R.looks wire.old wire.new (IsAskingBehind head.now (W.taken sink.old)) }
{
    if body_size(head) > body_limit(head) {
        return Err(Unread::Fault(HttpFault::BodyTooLarge));
    }
    match say_line(sink, head) {
        Ok(()) => match read_turn(alloc, repository, keys, wire, head, &*sink) {
            Ok(turn) => Ok(Asked {
                turn,
                last: head.last,
            }),
            Err(fault) => Err(Unread::Fault(fault)),
        },
        Err(Failed) => Err(Unread::Unsaid),
    }
}

/// Reads what the next request asks. None is the end of the input where a request might begin.
pub(crate) fn next_asked<R: Source<Beside = W> + Drop, W: Sink>(
    alloc: Global,
    repository: &Name,
    keys: &KeyTable,
    wire: &mut Wire<R>,
    sink: &mut W,
) -> Result<Option<Asked>, Unread>
    ensures gets { Draws R.left R.given wire.old wire.new (λ b.
        Gets repository.now keys.now b wire.new.held (W.taken sink.old) (W.taken sink.new) result) }
    ensures good { IfOk result (λ found. IfSome found (λ asked. IsGood asked.turn)) }
    ensures nothing_left { result ≡ Ok None → WhereTold (R.left wire.new.source) (λ left. left ≡ []) }
    ensures cut { result ≡ Err (Fault Short) → WhereTold (R.left wire.new.source) (λ left. left ≡ []) }
    ensures no_read_failed { result ≢ Err (Fault ReadFault) → R.faults wire.new.source ≡ R.faults wire.old.source }
    ensures reads { HasCause (R.faults wire.old.source) (R.faults wire.new.source) (result ≡ Err (Fault ReadFault)) }
    ensures flushed { result ≢ Err Unsaid → W.passed sink.old ≡ W.taken sink.old → W.passed sink.new ≡ W.taken sink.new }
    ensures held { result ≡ Err Unsaid → W.passed sink.new ≡ W.passed sink.old }
    ensures no_write_failed { result ≢ Err Unsaid → W.faults sink.new ≡ W.faults sink.old }
    ensures writes { HasCause (W.faults sink.old) (W.faults sink.new) (result ≡ Err Unsaid) }
    ensures looks { W.passed sink.old ≡ W.taken sink.old → Looks R.left R.looks wire.old wire.new (IsAsking (W.taken sink.old)) }
{
    match wire.read_head(alloc, &*sink) {
        Ok(Some(head)) => match read_asked(alloc, repository, keys, wire, sink, &head) {
            Ok(asked) => Ok(Some(asked)),
            Err(unread) => Err(unread),
        },
        Ok(None) => Ok(None),
        Err(fault) => Err(Unread::Fault(fault)),
    }
}
