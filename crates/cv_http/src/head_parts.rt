//! The parts of a request's head that count.
ghost use Rattle.std.specs.Prelude.{◌≡◌};
ghost use Rattle.cv_http.specs.Heads.{HeadParts};

use crate::fields::Fields;
use std::marker::Model;

/// The parts of a request's head, over the bytes that have it.
#[derive(Drop)]
pub struct Parts<'b> {
    method: &'b [u8],
    target: &'b str,
    minor: u8,
    fields: Fields<'b>,
}

impl<'b> Model for Parts<'b> {
    ghost use Rattle.cv_http.specs.Heads.{HeadParts};

    ghost Value = { HeadParts };

    ghost view = { λ p. record { method = p.method.now; target = p.target.now; minor = p.minor; fields = p.fields } };
}

impl<'b> Parts<'b> {
    /// The parts of a head.
    pub fn new(method: &'b [u8], target: &'b str, minor: u8, fields: Fields<'b>) -> Parts<'b>
        ensures { result ≡ record { method = method.now; target = target.now; minor = minor; fields = fields.entry } }
    {
        Parts {
            method,
            target,
            minor,
            fields,
        }
    }

    /// The name of the method.
    pub fn method(&self) -> &'b [u8]
        ensures { result.now ≡ self.now.method }
    {
        self.method
    }

    /// The target as it stands.
    pub fn target(&self) -> &'b str
        ensures { result.now ≡ self.now.target }
    {
        self.target
    }

    /// 0 or 1, for HTTP/1.0 or HTTP/1.1.
    pub fn minor(&self) -> u8
        ensures { result ≡ self.now.minor }
    {
        self.minor
    }

    /// The fields.
    pub fn fields(&self) -> &Fields<'b>
        ensures { result.now ≡ self.now.fields }
    {
        &self.fields
    }
}
