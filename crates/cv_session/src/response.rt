//! Answers, and their replies.
ghost use Rattle.std.specs.Prelude.{◌≡◌, ◌≢◌, ◌<◌, ◌^◌, length, Err, OnOk, OnErr, true};
ghost use Rattle.cv_base.specs.Counts.{HasCause};
ghost use Rattle.cv_ports.specs.Streams.{onto, Wrote};
ghost use Rattle.cv_http.specs.Replies.{reply};
ghost use Rattle.cv_http.specs.declared.body_kind.BodyKind.TheVariants.{Json};
ghost use Rattle.cv_http.specs.declared.code.Code.TheVariants.{Success};
ghost use Rattle.cv_http.specs.declared.reply.SendFault.TheVariants.{WriteFault, NoMemory};
ghost use Rattle.serde_json.specs.Written.{compact_text};
ghost use Rattle.cv_answers.specs.Answer.{answer_data};
ghost use Rattle.cv_answers.specs.AnswerText.{is_answer};
ghost use Rattle.cv_session.specs.Responses.{message_reply, code_reply, reply_of};
ghost use Rattle.cv_session.specs.ResponsesInner.{is_writable};
ghost use Rattle.cv_session.specs.Said.{IsLegible, ReadsBack};

use crate::answering::answer_reply;
use cv_answers::Answer as MessageData;
use cv_base::Bytes;
use cv_gate::Reply;
use cv_http::{BodyKind, Code, SendFault, write_reply};
use cv_ports::Sink;
use std::alloc::Global;

/// What is answered.
#[derive(Debug, Drop)]
pub(crate) enum Response {
    /// The manifest or an object.
    Content(Bytes),
    /// A code alone.
    Fixed(Code),
    /// An answer of the interface for which the gate takes no step.
    Message(MessageData),
    /// What the gate replied to a step.
    Reply(Reply),
}

/// Writes the reply with an answer of the interface.
fn write_message<W: Sink>(
    alloc: Global,
    sink: &mut W,
    message: &MessageData,
    last: bool,
) -> Result<(), SendFault>
    requires { is_answer message.now ≡ true }
    ensures legible { result ≢ Err NoMemory → (length (compact_text (answer_data message.now)) < 2 ^ 64) × ReadsBack message.now }
    ensures whole { OnOk result (W.taken sink.new ≡ onto (W.taken sink.old) (message_reply message.now last)) }
    ensures part { Wrote (W.taken sink.old) (W.taken sink.new) (message_reply message.now last) }
    ensures nothing { result ≡ Err NoMemory → W.taken sink.new ≡ W.taken sink.old }
    ensures flushed { result ≢ Err WriteFault → W.passed sink.old ≡ W.taken sink.old → W.passed sink.new ≡ W.taken sink.new }
    ensures held { OnErr result (W.passed sink.new ≡ W.passed sink.old) }
    ensures no_write_failed { result ≢ Err WriteFault → W.faults sink.new ≡ W.faults sink.old }
    ensures cause { HasCause (W.faults sink.old) (W.faults sink.new) (result ≡ Err WriteFault) }
{
    let text = message.write(alloc)?;
    write_reply(
        alloc,
        sink,
        Code::Success,
        BodyKind::Json,
        last,
        text.as_slice(),
    )
}

/// Writes the reply with a code alone.
fn write_code<W: Sink>(alloc: Global, sink: &mut W, code: Code, last: bool) -> Result<(), SendFault>
    ensures whole { OnOk result (W.taken sink.new ≡ onto (W.taken sink.old) (code_reply code last)) }
    ensures part { Wrote (W.taken sink.old) (W.taken sink.new) (code_reply code last) }
    ensures nothing { result ≡ Err NoMemory → W.taken sink.new ≡ W.taken sink.old }
    ensures flushed { result ≢ Err WriteFault → W.passed sink.old ≡ W.taken sink.old → W.passed sink.new ≡ W.taken sink.new }
    ensures held { OnErr result (W.passed sink.new ≡ W.passed sink.old) }
    ensures no_write_failed { result ≢ Err WriteFault → W.faults sink.new ≡ W.faults sink.old }
    ensures cause { HasCause (W.faults sink.old) (W.faults sink.new) (result ≡ Err WriteFault) }
{
    write_reply(
        alloc,
        sink,
        code,
        BodyKind::Text,
        last,
        code.text().as_bytes(),
    )
}

/// Writes the reply with an answer.
pub(crate) fn write_answer<W: Sink>(
    alloc: Global,
    sink: &mut W,
    answer: Response,
    last: bool,
) -> Result<(), SendFault>
    requires { is_writable answer ≡ true }
    ensures legible { result ≢ Err NoMemory → IsLegible answer }
    ensures whole { OnOk result (W.taken sink.new ≡ onto (W.taken sink.old) (reply_of answer last)) }
    ensures part { Wrote (W.taken sink.old) (W.taken sink.new) (reply_of answer last) }
    ensures nothing { result ≡ Err NoMemory → W.taken sink.new ≡ W.taken sink.old }
    ensures flushed { result ≢ Err WriteFault → W.passed sink.old ≡ W.taken sink.old → W.passed sink.new ≡ W.taken sink.new }
    ensures held { OnErr result (W.passed sink.new ≡ W.passed sink.old) }
    ensures no_write_failed { result ≢ Err WriteFault → W.faults sink.new ≡ W.faults sink.old }
    ensures cause { HasCause (W.faults sink.old) (W.faults sink.new) (result ≡ Err WriteFault) }
{
    match answer {
        Response::Content(bytes) => write_reply(
            alloc,
            sink,
            Code::Success,
            BodyKind::Octets,
            last,
            bytes.as_slice(),
        ),
        Response::Fixed(code) => write_code(alloc, sink, code, last),
        Response::Message(message) => write_message(alloc, sink, &message, last),
        Response::Reply(reply) => write_message(alloc, sink, &answer_reply(reply), last),
    }
}
