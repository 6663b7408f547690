//! Writes to a sink.
//!
//! ```text
//! continue                                                     asks for the body
//! reply CODE KIND LAST BODY                                    a reply: KIND is json, octets or text, and LAST close or keep
//! say CODE LAST                                                a reply that says no more than its code
//! request VERB HOST TARGET AUTHORIZATION MESSAGE-SIZE BODY     a request, which lacks a field where a minus stands
//! ```
//!
//! All but a body that ends an act has no space in it.

use cv_base::{Bytes, Text};
use cv_http::{
    BodyKind, Code, Outgoing, SendFault, Verb, write_continue, write_reply, write_request,
};
use cv_lines::{bytes_of, line_of, sink_of};
use cv_ports::MemorySink;
use std::alloc::Global;
use std::test::Fail;

/// The codes of replies.
const CODES: [Code; 8] = [
    Code::Success,
    Code::BadRequest,
    Code::NotFound,
    Code::LengthRequired,
    Code::ContentTooLarge,
    Code::FieldsTooLarge,
    Code::ServerError,
    Code::NotImplemented,
];

/// The kinds of bodies, by the words of a row.
const KINDS: [(&str, BodyKind); 3] = [
    ("json", BodyKind::Json),
    ("octets", BodyKind::Octets),
    ("text", BodyKind::Text),
];

/// The code of three digits.
fn code(digits: &str) -> Result<Code, Fail> {
    for code in CODES {
        if code.status().starts_with(digits) {
            return Ok(code);
        }
    }
    Err(Fail::new("no code"))
}

/// The kind of a body.
fn kind(word: &str) -> Result<BodyKind, Fail> {
    for (name, kind) in KINDS {
        if name == word {
            return Ok(kind);
        }
    }
    Err(Fail::new("no kind"))
}

/// The method of a request.
fn verb(name: &str) -> Result<Verb, Fail> {
    for verb in [Verb::Get, Verb::Post, Verb::Delete] {
        if verb.text() == name {
            return Ok(verb);
        }
    }
    Err(Fail::new("no method"))
}

/// The text that a word says, and none where it's a minus.
fn field(alloc: Global, word: &str) -> Result<Option<Text>, Fail> {
    if word == "-" {
        return Ok(None);
    }
    let bytes = bytes_of(alloc, word)?;
    let text = std::str::from_utf8(bytes.as_slice())?;
    Ok(Some(Text::from_str(alloc, text)?))
}

/// The number that a word says, and none where it's a minus.
fn number(word: &str) -> Result<Option<u64>, Fail> {
    if word == "-" {
        return Ok(None);
    }
    Ok(Some(word.parse()?))
}

/// The request that words say.
fn outgoing(alloc: Global, words: &str) -> Result<Outgoing, Fail> {
    let mut words = words.splitn(6, ' ');
    let (Some(name), Some(host), Some(target)) = (words.next(), words.next(), words.next()) else {
        return Err(Fail::new("no request"));
    };
    let (Some(key), Some(size), Some(body)) = (words.next(), words.next(), words.next()) else {
        return Err(Fail::new("no fields of a request"));
    };
    Ok(Outgoing {
        method: verb(name)?,
        host: Text::from_str(alloc, host)?,
        target: Text::from_str(alloc, target)?,
        authorization: field(alloc, key)?,
        message_size: number(size)?,
        body: Bytes::new(bytes_of(alloc, body)?),
    })
}

/// Writes the reply that words say.
fn reply(alloc: Global, sink: &mut MemorySink, words: &str) -> Result<Result<(), SendFault>, Fail> {
    let mut words = words.splitn(4, ' ');
    let (Some(digits), Some(word), Some(last), Some(body)) = (
        words.next(),
        words.next(),
        words.next(),
        words.next(),
    ) else {
        return Err(Fail::new("no reply"));
    };
    let body = bytes_of(alloc, body)?;
    let (code, kind, last) = (code(digits)?, kind(word)?, last == "close");
    Ok(write_reply(alloc, sink, code, kind, last, body.as_slice()))
}

/// Writes a reply that says no more than its code.
fn say(alloc: Global, sink: &mut MemorySink, words: &str) -> Result<Result<(), SendFault>, Fail> {
    let (digits, last) = words.split_once(' ').ok_or("no reply")?;
    let (code, last) = (code(digits)?, last == "close");
    let body = code.text().as_bytes();
    Ok(write_reply(alloc, sink, code, BodyKind::Text, last, body))
}

/// Does what an act says.
fn write(alloc: Global, sink: &mut MemorySink, act: &str) -> Result<Result<(), SendFault>, Fail> {
    match act.split_once(' ') {
        Some(("reply", words)) => reply(alloc, sink, words),
        Some(("say", words)) => say(alloc, sink, words),
        Some(("request", words)) => {
            let request = outgoing(alloc, words)?;
            Ok(write_request(alloc, sink, &request))
        }
        None if act == "continue" => {
            Ok(write_continue(sink).map_err(|_failed| SendFault::WriteFault))
        }
        _ => Err(Fail::new("no act")),
    }
}

/// What an act answers.
fn written(alloc: Global, sink: &mut MemorySink, act: &str) -> Result<String, Fail> {
    match write(alloc, sink, act)? {
        Ok(()) => Ok(String::from_str(alloc, "ok")?),
        Err(fault) => Ok(format!(in alloc; "{fault:?}")?),
    }
}

/// What a row of writes prints.
pub(crate) fn answer(alloc: Global, row: &str) -> Result<String, Fail> {
    let mut words = row.split('|');
    let (Some(room), Some(call)) = (words.next(), words.next()) else {
        return Err(Fail::new("no row of writes"));
    };
    let mut sink = sink_of(alloc, room, call)?;
    let mut text = String::new(alloc);
    for act in words {
        text.push_str(written(alloc, &mut sink, act)?.as_str())?;
        text.push('|')?;
    }
    text.push_str(line_of(alloc, sink.as_slice())?.as_str())?;
    let passed = sink.passed().len();
    text.push_str(format!(in alloc; "|{passed} passed on")?.as_str())?;
    Ok(text)
}
