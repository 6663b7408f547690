//! The fields of a head.
ghost use Rattle.std.specs.Prelude.{◌≡◌, List, length, map, IfOk, All, option_map};
ghost use Rattle.httparse.specs.Spans.{IsHeaderWithin, header_bytes};
ghost use Rattle.cv_http.specs.Fields.{named, values_of};

use httparse::spans::HeaderSpan;
use std::alloc::{AllocError, Global};
use std::marker::Model;

/// The names and values of the fields of a head, over the bytes that have it.
#[derive(Drop)]
pub struct Fields<'b> {
    bytes: &'b [u8],
    headers: &'b [HeaderSpan],
}

impl<'b> Model for Fields<'b> {
    ghost use Rattle.std.specs.Prelude.{ℕ, List, map, length, All};
    ghost use Rattle.httparse.specs.Spans.{IsHeaderWithin, header_bytes};

    ghost Value = { List (List ℕ × List ℕ) };

    ghost view = { λ f. map (header_bytes f.bytes.now) f.headers.now };

    ghost invariant = { λ f. All (IsHeaderWithin (length f.bytes.now)) f.headers.now };
}

/// The value of a header, if it has that name.
fn value_if<'b>(bytes: &'b [u8], header: &HeaderSpan, name: &[u8]) -> Option<&'b [u8]>
    requires { IsHeaderWithin (length bytes.now) header.now }
    ensures { option_map (λ value. value.now) result ≡ named name.now (header_bytes bytes.now header.now) }
{
    if header.name.of(bytes).eq_ignore_ascii_case(name) {
        Some(header.value.of(bytes))
    } else {
        None
    }
}

/// The values of the headers of that name, in order.
fn values_in<'b>(
    alloc: Global,
    bytes: &'b [u8],
    headers: &[HeaderSpan],
    name: &[u8],
) -> Result<Vec<&'b [u8]>, AllocError>
    requires { All (IsHeaderWithin (length bytes.now)) headers.now }
    ensures { IfOk result (λ found. map (λ value. value.now) found.items ≡ values_of name.now (map (header_bytes bytes.now) headers.now)) }
{
    let mut found = Vec::new(alloc);
    for header in headers {
        if let Some(value) = value_if(bytes, header, name) {
            found.push(value)?;
        }
    }
    Ok(found)
}

impl<'b> Fields<'b> {
    /// The fields of a head that was found in these bytes.
    pub fn new(bytes: &'b [u8], headers: &'b [HeaderSpan]) -> Fields<'b>
        requires { All (IsHeaderWithin (length bytes.now)) headers.now }
        ensures { result ≡ map (header_bytes bytes.now) headers.now }
    {
        Fields { bytes, headers }
    }

    /// How many there are.
    pub fn len(&self) -> usize
        ensures { result ≡ length self.now }
    {
        self.headers.len()
    }

    /// The values of the fields of that name, without regard to case, in order.
    pub fn values(&self, alloc: Global, name: &[u8]) -> Result<Vec<&'b [u8]>, AllocError>
        ensures { IfOk result (λ found. map (λ value. value.now) found.items ≡ values_of name.now self.now) }
    {
        values_in(alloc, self.bytes, self.headers, name)
    }
}
