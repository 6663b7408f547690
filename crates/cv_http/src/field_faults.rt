//! Whether the fields of a head are refused.
ghost use Rattle.std.specs.Prelude.{◌≡◌, IfOk};
ghost use Rattle.cv_http.specs.FieldFaults.{lengths_of, is_length_wrong, is_coded, fields_fault};
ghost use Rattle.cv_http.specs.Fields.{length_of};

use crate::fault::HttpFault;
use crate::fields::Fields;
use crate::values::length_of;
use std::alloc::{AllocError, Global};

/// The most fields of a head.
pub const FIELD_LIMIT: usize = 64;

fn is_length_wrong(alloc: Global, fields: &Fields) -> Result<bool, AllocError>
    ensures { IfOk result (λ wrong. wrong ≡ is_length_wrong fields.now) }
{
    let lengths = fields.values(alloc, b"content-length")?;
    Ok(!lengths.is_empty() && length_of(&lengths).is_none())
}

fn is_coded(alloc: Global, fields: &Fields) -> Result<bool, AllocError>
    ensures { IfOk result (λ coded. coded ≡ is_coded fields.now) }
{
    let codings = fields.values(alloc, b"transfer-encoding")?;
    Ok(!codings.is_empty())
}

/// The first fault of the fields, if they have one.
pub fn fields_fault(alloc: Global, fields: &Fields) -> Result<Option<HttpFault>, AllocError>
    ensures { IfOk result (λ fault. fault ≡ fields_fault fields.now) }
{
    if is_length_wrong(alloc, fields)? {
        return Ok(Some(HttpFault::BadHead));
    }
    if fields.len() > FIELD_LIMIT {
        return Ok(Some(HttpFault::HeadTooLarge));
    }
    if is_coded(alloc, fields)? {
        return Ok(Some(HttpFault::Coding));
    }
    Ok(None)
}

/// The length that the fields state. `None` where there is none, or more than one, or no number.
pub fn length_in(alloc: Global, fields: &Fields) -> Result<Option<u64>, AllocError>
    ensures { IfOk result (λ length. length ≡ length_of (lengths_of fields.now)) }
{
    let lengths = fields.values(alloc, b"content-length")?;
    Ok(length_of(&lengths))
}
