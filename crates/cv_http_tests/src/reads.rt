//! Reads of a source. `head` reads a request's head, `body=SIZE` a body of this size, `some=LEFT` the next bytes of a body of
//! which so many are left, and `reply` a reply.

use cv_base::{Bytes, Text};
use cv_http::{HttpFault, HttpReply, RequestHead, Wire};
use cv_lines::{line_of, source_of};
use cv_ports::{MemorySink, MemorySource};
use std::alloc::Global;
use std::test::Fail;

/// The text of a fault.
fn fault_text(alloc: Global, fault: HttpFault) -> Result<String, Fail> {
    Ok(format!(in alloc; "{fault:?}")?)
}

/// Adds a field of a head, where it's there.
fn push_field(
    alloc: Global,
    text: &mut String,
    name: &str,
    field: &Option<Text>,
) -> Result<(), Fail> {
    if let Some(value) = field {
        let value = line_of(alloc, value.as_str().as_bytes())?;
        let value = value.as_str();
        text.push_str(format!(in alloc; " {name}='{value}'")?.as_str())?;
    }
    Ok(())
}

/// Adds what the standard says of the body and of the connection.
fn push_framing(alloc: Global, text: &mut String, head: &RequestHead) -> Result<(), Fail> {
    if let Some(length) = head.length {
        text.push_str(format!(in alloc; " length={length}")?.as_str())?;
    }
    if head.expects {
        text.push_str(" expects")?;
    }
    if head.last {
        text.push_str(" last")?;
    }
    Ok(())
}

/// The text of a head.
fn head_text(alloc: Global, head: &RequestHead) -> Result<String, Fail> {
    let method = head.method;
    let mut text = format!(in alloc; "{method:?} ")?;
    text.push_str(line_of(alloc, head.target.as_str().as_bytes())?.as_str())?;
    push_framing(alloc, &mut text, head)?;
    push_field(alloc, &mut text, "authorization", &head.authorization)?;
    push_field(alloc, &mut text, "message-size", &head.message_size)?;
    Ok(text)
}

/// What reading a head answers.
fn found_text(
    alloc: Global,
    found: Result<Option<RequestHead>, HttpFault>,
) -> Result<String, Fail> {
    match found {
        Ok(Some(head)) => head_text(alloc, &head),
        Ok(None) => Ok(String::from_str(alloc, "none")?),
        Err(fault) => fault_text(alloc, fault),
    }
}

/// What reading a body answers.
fn body_text(alloc: Global, read: Result<Bytes, HttpFault>) -> Result<String, Fail> {
    match read {
        Ok(bytes) => line_of(alloc, bytes.as_slice()),
        Err(fault) => fault_text(alloc, fault),
    }
}

/// What reading a reply answers.
fn reply_text(alloc: Global, read: Result<HttpReply, HttpFault>) -> Result<String, Fail> {
    match read {
        Ok(reply) => {
            let code = reply.code;
            let body = line_of(alloc, reply.body.as_slice())?;
            let body = body.as_str();
            Ok(format!(in alloc; "{code} {body}")?)
        }
        Err(fault) => fault_text(alloc, fault),
    }
}

/// The next bytes of a body.
fn piece(
    alloc: Global,
    wire: &mut Wire<MemorySource>,
    beside: &MemorySink,
    left: &str,
) -> Result<String, Fail> {
    let left: u64 = left.parse()?;
    if left == 0 {
        return Err(Fail::new("no bytes left"));
    }
    body_text(alloc, wire.read_some(alloc, left, beside))
}

/// What an act answers.
fn read(
    alloc: Global,
    wire: &mut Wire<MemorySource>,
    beside: &MemorySink,
    act: &str,
) -> Result<String, Fail> {
    match act.split_once('=') {
        Some(("body", size)) => {
            let size: u64 = size.parse()?;
            body_text(alloc, wire.read_body(alloc, size, beside))
        }
        Some(("some", left)) => piece(alloc, wire, beside, left),
        None if act == "head" => found_text(alloc, wire.read_head(alloc, beside)),
        None if act == "reply" => reply_text(alloc, wire.read_reply(alloc, beside)),
        _ => Err(Fail::new("no act")),
    }
}

/// What a row of reads prints.
pub(crate) fn answer(alloc: Global, row: &str) -> Result<String, Fail> {
    let mut words = row.split('|');
    let (Some(piece), Some(call), Some(input)) = (words.next(), words.next(), words.next()) else {
        return Err(Fail::new("no row of reads"));
    };
    let mut wire = Wire::new(alloc, source_of(alloc, piece, call, input)?);
    let beside = MemorySink::new(alloc, 0, Vec::new(alloc))?;
    let mut text = String::new(alloc);
    for act in words {
        text.push_str(read(alloc, &mut wire, &beside, act)?.as_str())?;
        text.push('|')?;
    }
    let source = wire.into_source();
    let left = source.left().len();
    text.push_str(format!(in alloc; "{left} left")?.as_str())?;
    Ok(text)
}
