//! What a whole head says, and whether it is refused.
ghost use Rattle.std.specs.Prelude.{◌≡◌, IfOk};
ghost use Rattle.cv_http.specs.Heads.{is_host_wrong, is_length_lacking, fault_of, method_of, expects, is_last, read_parts};

use crate::fault::HttpFault;
use crate::field_faults::{fields_fault, length_in};
use crate::head::RequestHead;
use crate::head_parts::Parts;
use crate::method::Method;
use crate::values::{any_has_token, any_is, text_value};
use cv_base::{NoMemory, Text};
use std::alloc::{AllocError, Global};

fn is_host_wrong(alloc: Global, parts: &Parts) -> Result<bool, AllocError>
    ensures { IfOk result (λ wrong. wrong ≡ is_host_wrong parts.now) }
{
    if parts.minor() != 1 {
        return Ok(false);
    }
    let hosts = parts.fields().values(alloc, b"host")?;
    Ok(hosts.len() != 1)
}

fn is_length_lacking(alloc: Global, parts: &Parts) -> Result<bool, AllocError>
    ensures { IfOk result (λ lacking. lacking ≡ is_length_lacking parts.now) }
{
    if parts.method() != b"POST".as_slice() {
        return Ok(false);
    }
    let lengths = parts.fields().values(alloc, b"content-length")?;
    Ok(lengths.is_empty())
}

/// The first fault of a whole head, if it has one.
pub fn fault_of(alloc: Global, parts: &Parts) -> Result<Option<HttpFault>, AllocError>
    ensures { IfOk result (λ fault. fault ≡ fault_of parts.now) }
{
    if is_host_wrong(alloc, parts)? {
        return Ok(Some(HttpFault::BadHead));
    }
    if let Some(fault) = fields_fault(alloc, parts.fields())? {
        return Ok(Some(fault));
    }
    if is_length_lacking(alloc, parts)? {
        return Ok(Some(HttpFault::NoLength));
    }
    Ok(None)
}

fn method_of(name: &[u8]) -> Method
    ensures { result ≡ method_of name.now }
{
    if name == b"GET".as_slice() {
        Method::Get
    } else if name == b"POST".as_slice() {
        Method::Post
    } else if name == b"DELETE".as_slice() {
        Method::Delete
    } else {
        Method::Other
    }
}

#[tactic(auto, using(crate::proofs::OneMore::list_any_map))]
fn expects(alloc: Global, parts: &Parts) -> Result<bool, AllocError>
    ensures { IfOk result (λ wanted. wanted ≡ expects parts.now) }
{
    if parts.minor() != 1 {
        return Ok(false);
    }
    let values = parts.fields().values(alloc, b"expect")?;
    Ok(any_is(&values, b"100-continue"))
}

#[tactic(auto, using(crate::proofs::OneMore::list_any_map))]
fn is_last(alloc: Global, parts: &Parts) -> Result<bool, AllocError>
    ensures { IfOk result (λ last. last ≡ is_last parts.now) }
{
    if parts.minor() == 0 {
        return Ok(true);
    }
    let values = parts.fields().values(alloc, b"connection")?;
    Ok(any_has_token(&values, b"close"))
}

/// What a whole head says.
pub fn read_parts(alloc: Global, parts: &Parts) -> Result<RequestHead, NoMemory>
    ensures { IfOk result (λ head. head ≡ read_parts parts.now) }
{
    let authorizations = parts.fields().values(alloc, b"authorization")?;
    let message_sizes = parts.fields().values(alloc, b"message-size")?;
    Ok(RequestHead {
        method: method_of(parts.method()),
        target: Text::from_str(alloc, parts.target())?,
        length: length_in(alloc, parts.fields())?,
        expects: expects(alloc, parts)?,
        last: is_last(alloc, parts)?,
        authorization: text_value(alloc, &authorizations)?,
        message_size: text_value(alloc, &message_sizes)?,
    })
}
