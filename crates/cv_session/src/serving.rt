//! The session over a connection.
ghost use Rattle.std.specs.Prelude.{◌≡◌, ◌≢◌, ◌≤◌, Some, []};
ghost use Rattle.cv_base.specs.Counts.{HasCause};
ghost use Rattle.cv_base.specs.Told.{WhereTold};
ghost use Rattle.cv_http.specs.Wires.{Draws};
ghost use Rattle.cv_http.specs.declared.fault.HttpFault.TheVariants.{Short};
ghost use Rattle.cv_session.specs.ExchangesInner.{EndsBy};
ghost use Rattle.cv_session.specs.Sessions.{Session, ReadsUpToDate, PassedOn};
ghost use Rattle.cv_session.specs.Standing.{standing};
ghost use Rattle.cv_session.specs.declared.request.Unread.TheVariants.{Fault, Unsaid};
ghost use Rattle.cv_session.specs.declared.session_end.SessionEnd.TheVariants.{Clean, Bad, ReadFault, WriteFault};

use crate::exchange::{answer_turn, ends_with};
use crate::request::{Unread, fault_code, next_asked};
use crate::response::{Response, write_answer};
use crate::session_end::SessionEnd;
use cv_gate::Desk;
use cv_http::{HttpFault, SendFault, Wire};
use cv_keys::KeyTable;
use cv_ports::{Clock, Hold, Sink, Source};
use cv_seal::Signer;
use std::alloc::Global;

/// Answers a fault of reading where it has a reply, and says how the session ends.
fn refuse_fault<W: Sink>(alloc: Global, sink: &mut W, fault: HttpFault) -> SessionEnd
    ensures ends { EndsBy (Fault fault) (W.taken sink.old) (W.taken sink.new) result }
    ensures flushed { result ≢ WriteFault → W.passed sink.old ≡ W.taken sink.old → W.passed sink.new ≡ W.taken sink.new }
    ensures held { result ≡ WriteFault → W.passed sink.new ≡ W.passed sink.old }
    ensures no_write_failed { result ≢ WriteFault → W.faults sink.new ≡ W.faults sink.old }
    ensures cause { HasCause (W.faults sink.old) (W.faults sink.new) (result ≡ WriteFault) }
{
    let Some(code) = fault_code(fault) else {
        return match fault {
            HttpFault::Short => SessionEnd::Bad(HttpFault::Short),
            HttpFault::ReadFault => SessionEnd::ReadFault,
            _ => SessionEnd::NoMemory,
        };
    };
    match write_answer(alloc, sink, Response::Fixed(code), true) {
        Ok(()) => SessionEnd::Bad(fault),
        Err(SendFault::WriteFault) => SessionEnd::WriteFault,
        Err(SendFault::NoMemory) => SessionEnd::NoMemory,
    }
}

/// Answers that nothing was read, where that has a reply, and says how the session ends.
fn refuse<W: Sink>(alloc: Global, sink: &mut W, why: Unread) -> SessionEnd
    ensures ends { EndsBy why (W.taken sink.old) (W.taken sink.new) result }
    ensures flushed { result ≢ WriteFault → W.passed sink.old ≡ W.taken sink.old → W.passed sink.new ≡ W.taken sink.new }
    ensures held { result ≡ WriteFault → W.passed sink.new ≡ W.passed sink.old }
    ensures no_write_failed { result ≢ WriteFault → W.faults sink.new ≡ W.faults sink.old }
    ensures later { W.faults sink.old ≤ W.faults sink.new }
    ensures cause { why ≢ Unsaid → HasCause (W.faults sink.old) (W.faults sink.new) (result ≡ WriteFault) }
{
    match why {
        Unread::Fault(fault) => refuse_fault(alloc, sink, fault),
        Unread::Unsaid => SessionEnd::WriteFault,
    }
}

/// Answers the requests of a connection over a desk, one after another, until the input ends, a request asks for the end, is
/// refused or is the last that a connection may have, the gate's journal is full, a stream fails, or memory is wanted.
///
/// It is held where a payload was read and the desk isn't asked to store it yet, and where the reply to a request for a lease
/// was written.
pub fn session<K: Desk, S: Signer, C: Clock, H: Hold, R: Source<Beside = W> + Drop, W: Sink>(
    alloc: Global,
    desk: &mut K,
    keys: &KeyTable,
    signer: &S,
    clock: &mut C,
    hold: &H,
    wire: &mut Wire<R>,
    sink: &mut W,
) -> SessionEnd
    ensures session { Draws R.left R.given wire.old wire.new (λ b.
        Session K.does (K.named desk.old) keys.now (S.seal_of signer.now)
        (ReadsUpToDate (K.named desk.old) keys.now (S.seal_of signer.now) R.left R.looks wire.old wire.new (W.taken sink.old) (W.passed sink.old))
        (PassedOn (W.taken sink.old) (W.passed sink.old) (W.passed sink.new))
        b wire.new.held (W.taken sink.old) (W.taken sink.new)
        (standing desk.old (C.moments clock.old) (K.faults desk.old)) (standing desk.new (C.moments clock.new) (K.faults desk.new)) result) }

    // Where the sink didn't fail, all that was taken is passed on, if it was so at first: also where the source failed, at whichever read.
    ensures flushed { result ≢ WriteFault → W.passed sink.old ≡ W.taken sink.old → W.passed sink.new ≡ W.taken sink.new }
    ensures nothing_left { result ≡ Clean → WhereTold (R.left wire.new.source) (λ left. left ≡ []) }
    ensures cut { result ≡ Bad Short → WhereTold (R.left wire.new.source) (λ left. left ≡ []) }
    ensures reads { HasCause (R.faults wire.old.source) (R.faults wire.new.source) (result ≡ ReadFault) }
    ensures writes { HasCause (W.faults sink.old) (W.faults sink.new) (result ≡ WriteFault) }

    // A session in which a stream failed ends by that: behind a failed write nothing is read, behind a failed read nothing written.
    ensures no_read_failed { result ≢ ReadFault → R.faults wire.new.source ≡ R.faults wire.old.source }
    ensures no_write_failed { result ≢ WriteFault → W.faults sink.new ≡ W.faults sink.old }
    ensures named { K.named desk.new ≡ K.named desk.old }
    ensures later { K.faults desk.old ≤ K.faults desk.new }
{
    let mut count = 0;
    'requests: loop {
        let asked = match next_asked(alloc, desk.name(), keys, wire, sink) {
            Ok(Some(asked)) => asked,
            Ok(None) => return SessionEnd::Clean,
            Err(why) => return refuse(alloc, sink, why),
        };
        count += 1;
        let last = ends_with(asked.last, count);
        match answer_turn(alloc, desk, signer, clock, hold, sink, asked.turn, last) {
            Some(end) => return end,
            None => {}
        }
    }
}
