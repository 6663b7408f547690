//! Requests that are written.
ghost use Rattle.std.specs.Prelude.{◌≡◌, ◌≢◌, ◌++◌, OnOk, OnErr, IfOk, string_bytes, decimal};
ghost use Rattle.cv_base.specs.Counts.{HasCause};
ghost use Rattle.cv_ports.specs.Streams.{onto, Wrote};
ghost use Rattle.cv_http.specs.Requests.{field_line, authorization_line, file_target, message_size_line, request_for_file, request_line, request_head, request_text};
ghost use Rattle.cv_http.specs.declared.reply.SendFault.TheVariants as send_fault;
ghost use Rattle.cv_http.specs.declared.reply.SendFault.TheVariants.{WriteFault};

use crate::reply::{SendFault, send_parts};
use crate::verb::Verb;
use cv_base::{Bytes, NoMemory, Text};
use cv_ports::{Failed, Sink};
use std::alloc::{AllocError, Global};

/// A request that is written, the only one of its connection (RFC 9112, section 3).
#[derive(Debug, Drop)]
pub struct Outgoing {
    pub method: Verb,
    /// The host, and the port where there is one, as they stand in a URL.
    pub host: Text,
    /// The target as it is to stand.
    pub target: Text,
    /// The value of Authorization.
    pub authorization: Option<Text>,
    /// The value of Message-Size.
    pub message_size: Option<u64>,
    pub body: Bytes,
}

/// The target of a file of a repository that is served.
fn file_target(alloc: Global, repository: &str, file: &str) -> Result<String, NoMemory>
    ensures { IfOk result (λ text. string_bytes text ≡ file_target repository.now file.now) }
{
    let mut text = String::from_str(alloc, "/cvmfs/")?;
    text.push_str(repository)?;
    text.push_str("/")?;
    text.push_str(file)?;
    Ok(text)
}

/// The request to a host for a file of a repository that it serves, which stands below `/cvmfs/<repository>/`.
pub fn request_for_file(
    alloc: Global,
    host: &Text,
    repository: &str,
    file: &str,
) -> Result<Outgoing, NoMemory>
    ensures { IfOk result (λ request. request ≡ request_for_file host.now repository.now file.now) }
{
    Ok(Outgoing {
        method: Verb::Get,
        host: host.copy(alloc)?,
        target: Text::new(file_target(alloc, repository, file)?),
        authorization: None,
        message_size: None,
        body: Bytes::new(Vec::new(alloc)),
    })
}

/// Adds the line of a field.
#[tactic(auto, unfolding(crate::specs::Requests::field_line))]
fn push_line(text: &mut String, name: &str, value: &str) -> Result<(), AllocError>
    ensures { OnOk result (string_bytes text.new ≡ string_bytes text.old ++ field_line name.now value.now) }
{
    text.push_str(name)?;
    text.push_str(": ")?;
    text.push_str(value)?;
    text.push_str("\r\n")
}

/// Adds the line of a field that is a number.
fn push_number(alloc: Global, text: &mut String, name: &str, number: u64) -> Result<(), AllocError>
    ensures { OnOk result (string_bytes text.new ≡ string_bytes text.old ++ field_line name.now (decimal number)) }
{
    let digits = number.to_string(alloc)?;
    push_line(text, name, digits.as_str())
}

/// Adds the line of Authorization, where there is one.
fn push_authorization(text: &mut String, authorization: &Option<Text>) -> Result<(), AllocError>
    ensures { OnOk result (string_bytes text.new ≡ string_bytes text.old ++ authorization_line authorization.now) }
{
    match authorization {
        None => Ok(()),
        Some(value) => push_line(text, "Authorization", value.as_str()),
    }
}

/// Adds the line of Message-Size, where there is one.
fn push_message_size(
    alloc: Global,
    text: &mut String,
    message_size: Option<u64>,
) -> Result<(), AllocError>
    ensures { OnOk result (string_bytes text.new ≡ string_bytes text.old ++ message_size_line message_size) }
{
    match message_size {
        None => Ok(()),
        Some(size) => push_number(alloc, text, "Message-Size", size),
    }
}

/// The request line.
#[tactic(auto, unfolding(crate::specs::Requests::request_line))]
fn request_line(alloc: Global, verb: Verb, target: &str) -> Result<String, AllocError>
    ensures { IfOk result (λ text. string_bytes text ≡ request_line verb target.now) }
{
    let mut text = String::new(alloc);
    text.push_str(verb.text())?;
    text.push_str(" ")?;
    text.push_str(target)?;
    text.push_str(" HTTP/1.1\r\n")?;
    Ok(text)
}

#[tactic(auto, unfolding(crate::specs::Requests::request_head))]
fn head_text(alloc: Global, request: &Outgoing) -> Result<String, NoMemory>
    ensures { IfOk result (λ text. string_bytes text ≡ request_head request.now) }
{
    let length = request.body.as_slice().len() as u64;
    let mut text = request_line(alloc, request.method, request.target.as_str())?;
    push_line(&mut text, "Host", request.host.as_str())?;
    push_line(&mut text, "Connection", "close")?;
    push_authorization(&mut text, &request.authorization)?;
    push_message_size(alloc, &mut text, request.message_size)?;
    push_number(alloc, &mut text, "Content-Length", length)?;
    text.push_str("\r\n")?;
    Ok(text)
}

/// Writes a request (RFC 9112, section 3), after which the connection is to be closed: the head in one write of the sink at
/// best, the body in another, then one flush. Where the sink fails, what it took is a front of the request.
pub fn write_request<W: Sink>(
    alloc: Global,
    sink: &mut W,
    request: &Outgoing,
) -> Result<(), SendFault>
    ensures whole { OnOk result (W.taken sink.new ≡ onto (W.taken sink.old) (request_text request.now)) }
    ensures part { Wrote (W.taken sink.old) (W.taken sink.new) (request_text request.now) }
    ensures nothing { result ≡ Err send_fault.NoMemory → W.taken sink.new ≡ W.taken sink.old }
    ensures flushed { result ≢ Err WriteFault → W.passed sink.old ≡ W.taken sink.old → W.passed sink.new ≡ W.taken sink.new }
    ensures held { OnErr result (W.passed sink.new ≡ W.passed sink.old) }
    ensures no_write_failed { result ≢ Err WriteFault → W.faults sink.new ≡ W.faults sink.old }
    ensures cause { HasCause (W.faults sink.old) (W.faults sink.new) (result ≡ Err WriteFault) }
{
    let head = head_text(alloc, request)?;
    match send_parts(sink, head.as_bytes(), request.body.as_slice()) {
        Ok(()) => Ok(()),
        Err(Failed) => Err(SendFault::WriteFault),
    }
}
