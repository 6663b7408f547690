//! What bytes begin.
ghost use Rattle.std.specs.Prelude.{◌≤◌, length, IfOk, IfSome};
ghost use Rattle.cv_http.specs.Forms.{Form};
ghost use Rattle.cv_http.specs.FormsInner.{EndsEmpty};
ghost use Rattle.cv_http.specs.FaultsInner.{IsRefusal};
ghost use Rattle.cv_http.specs.JudgementsInner.{Judges};
ghost use Rattle.cv_http.specs.declared.judge.TheConstants.{HEAD_LIMIT, FIELDS_ROOM};

use crate::fault::HttpFault;
use cv_base::NoMemory;
use httparse::spans::HeaderSpan;
use std::alloc::Global;

/// The most bytes of a head.
pub const HEAD_LIMIT: usize = 16_384;

/// Room for the fields of a head: each takes three bytes at least, a name, a colon and the end of its line.
pub(crate) const FIELDS_ROOM: usize = HEAD_LIMIT / 3 + 1;

/// What some bytes begin.
#[derive(Debug, Drop)]
pub enum Judged<H> {
    /// A whole head of so many bytes, without fault.
    Whole { head: H, size: usize },
    /// A part of one.
    More,
    /// A whole head with this fault, or no head however the bytes go on.
    Refused(HttpFault),
}

/// What a head says, of a form that `httparse` reads.
pub trait Head: Drop {
    /// A head as it stands.
    ghost Parsed: { Type 0 };

    /// The form.
    ghost form: { Form Parsed Self };

    /// Judges what the bytes begin. Bytes of the limit hold no more fields than there is room for.
    fn parse(alloc: Global, bytes: &[u8], room: &mut [HeaderSpan]) -> Result<Judged<Self>, NoMemory>
        requires limit { length bytes.now ≤ HEAD_LIMIT }
        requires room { FIELDS_ROOM ≤ length room.old }
        ensures { IfOk result (Judges form bytes.now) };

    /// A head ends with an empty line.
    ghost ends: { (head : Parsed) → EndsEmpty (form.print head) };

    /// A head has no other faults than these.
    ghost refusal: { (head : Parsed) → IfSome (form.fault head) IsRefusal };
}

/// Judges what the bytes begin, of which a head may have the first 16,384.
pub fn judge<H: Head>(
    alloc: Global,
    held: &[u8],
    room: &mut [HeaderSpan],
) -> Result<Judged<H>, NoMemory>
    requires { FIELDS_ROOM ≤ length room.old }
    ensures { IfOk result (Judges H.form held.now) }
{
    let count = held.len().min(HEAD_LIMIT);
    H::parse(alloc, &held[..count], room)
}
