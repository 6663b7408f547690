//! Replies.
ghost use Rattle.std.specs.Prelude.{◌≡◌, ◌≢◌, ◌<◌, ◌^◌, ◌++◌, length, OnOk, OnErr, IfOk, IsErr, string_bytes};
ghost use Rattle.cv_base.specs.Counts.{HasCause};
ghost use Rattle.cv_ports.specs.Streams.{onto, Wrote};
ghost use Rattle.cv_http.specs.Replies.{close_line, reply_head, reply, continue_line};
ghost use Rattle.cv_http.specs.declared.reply.SendFault.TheVariants as send_fault;
ghost use Rattle.cv_http.specs.declared.reply.SendFault.TheVariants.{WriteFault};

use crate::body_kind::BodyKind;
use crate::code::Code;
use cv_base::NoMemory;
use cv_ports::{Failed, Sink, write_all};
use std::alloc::Global;

/// Why a reply or a request wasn't written whole.
#[derive(Clone, Copy, Debug, PartialEq, Eq)]
pub enum SendFault {
    /// The sink failed in a write or in the flush. What it took stays taken.
    WriteFault,
    /// There was no memory for the head. Nothing was written.
    NoMemory,
}

impl From<NoMemory> for SendFault {
    ghost from_gives = { λ _ e. e ≡ send_fault.NoMemory };

    fn from(_fault: NoMemory) -> SendFault {
        SendFault::NoMemory
    }
}

fn close_line(last: bool) -> &'static str
    ensures { result.now ≡ close_line last }
{
    if last { "Connection: close\r\n" } else { "" }
}

#[tactic(auto, unfolding(crate::specs::Replies::reply_head))]
fn head_text(
    alloc: Global,
    code: Code,
    kind: BodyKind,
    size: usize,
    last: bool,
) -> Result<String, NoMemory>
    ensures { IfOk result (λ text. string_bytes text ≡ reply_head code kind size last) }
{
    let size = size.to_string(alloc)?;
    let mut text = String::new(alloc);
    text.push_str("HTTP/1.1 ")?;
    text.push_str(code.status())?;
    text.push_str("\r\nContent-Type: ")?;
    text.push_str(kind.media_type())?;
    text.push_str("\r\nContent-Length: ")?;
    text.push_str(size.as_str())?;
    text.push_str("\r\n")?;
    text.push_str(close_line(last))?;
    text.push_str("\r\n")?;
    Ok(text)
}

/// Writes a head and then a body, in a write of each, and flushes the sink.
pub(crate) fn send_parts<W: Sink>(sink: &mut W, head: &[u8], body: &[u8]) -> Result<(), Failed>
    ensures whole { OnOk result (W.taken sink.new ≡ onto (W.taken sink.old) (head.now ++ body.now)) }
    ensures part { Wrote (W.taken sink.old) (W.taken sink.new) (head.now ++ body.now) }
    ensures flushed { OnOk result (W.passed sink.new ≡ W.taken sink.new) }
    ensures held { OnErr result (W.passed sink.new ≡ W.passed sink.old) }
    ensures no_write_failed { OnOk result (W.faults sink.new ≡ W.faults sink.old) }
    ensures cause { HasCause (W.faults sink.old) (W.faults sink.new) (IsErr result) }
{
    write_all(sink, head)?;
    write_all(sink, body)?;
    sink.flush()
}

/// Writes a reply (RFC 9112, section 4): the head in one write of the sink at best, the body in another, then one flush.
/// `last` says that the connection is closed after it. Where the sink fails, what it took is a front of the reply.
pub fn write_reply<W: Sink>(
    alloc: Global,
    sink: &mut W,
    code: Code,
    kind: BodyKind,
    last: bool,
    body: &[u8],
) -> Result<(), SendFault>
    ensures size { OnOk result (length body.now < 2 ^ 64) }
    ensures whole { OnOk result (W.taken sink.new ≡ onto (W.taken sink.old) (reply code kind last body.now)) }
    ensures part { Wrote (W.taken sink.old) (W.taken sink.new) (reply code kind last body.now) }
    ensures nothing { result ≡ Err send_fault.NoMemory → W.taken sink.new ≡ W.taken sink.old }
    ensures flushed { result ≢ Err WriteFault → W.passed sink.old ≡ W.taken sink.old → W.passed sink.new ≡ W.taken sink.new }
    ensures held { OnErr result (W.passed sink.new ≡ W.passed sink.old) }
    ensures no_write_failed { result ≢ Err WriteFault → W.faults sink.new ≡ W.faults sink.old }
    ensures cause { HasCause (W.faults sink.old) (W.faults sink.new) (result ≡ Err WriteFault) }
{
    let head = head_text(alloc, code, kind, body.len(), last)?;
    match send_parts(sink, head.as_bytes(), body) {
        Ok(()) => Ok(()),
        Err(Failed) => Err(SendFault::WriteFault),
    }
}

/// Asks for the body of a request whose client waits for it (RFC 9110, section 15.2.1), and flushes the sink.
pub fn write_continue<W: Sink>(sink: &mut W) -> Result<(), Failed>
    ensures whole { OnOk result (W.taken sink.new ≡ onto (W.taken sink.old) continue_line) }
    ensures part { Wrote (W.taken sink.old) (W.taken sink.new) continue_line }
    ensures flushed { OnOk result (W.passed sink.new ≡ W.taken sink.new) }
    ensures held { OnErr result (W.passed sink.new ≡ W.passed sink.old) }
    ensures no_write_failed { OnOk result (W.faults sink.new ≡ W.faults sink.old) }
    ensures cause { HasCause (W.faults sink.old) (W.faults sink.new) (IsErr result) }
{
    write_all(sink, b"HTTP/1.1 100 Continue\r\n\r\n")?;
    sink.flush()
}
