//! What bytes begin, where requests are read.
ghost use Rattle.std.specs.Prelude.{◌≡◌, IfOk};
ghost use Rattle.httparse.specs.Grammar.{RequestHead as ParsedHead};
ghost use Rattle.httparse.specs.Spans.{IsRequestWithin, IsRequestOf, IsRequestAt};
ghost use Rattle.cv_http.specs.Heads.{parts_of, fault_of, read_parts, request_form};
ghost use Rattle.cv_http.specs.JudgementsInner.{JudgesWhole, Judges};
ghost use Rattle.cv_http.specs.HeadLawsInner.{request_ends, request_refusal};

use crate::fault::HttpFault;
use crate::fields::Fields;
use crate::head::RequestHead;
use crate::head_parts::Parts;
use crate::judge::{Head, Judged};
use crate::judgement::{fault_of, read_parts};
use cv_base::NoMemory;
use httparse::Status;
use httparse::spans::{HeaderSpan, RequestSpans, parse_request};
use std::alloc::Global;

/// The parts of a head that was found in these bytes.
fn parts_of<'b>(bytes: &'b [u8], room: &'b [HeaderSpan], spans: &RequestSpans) -> Parts<'b>
    requires within { IsRequestWithin bytes.now room.now spans.now }
    requires found { IsRequestOf bytes.now room.now spans.now }
    ensures { (parsed : ParsedHead) → IsRequestAt bytes.now room.now spans.now parsed → result ≡ parts_of parsed }
{
    let Ok(target) = str::from_utf8(spans.path.of(bytes)) else {
        unreachable!();
    };
    let fields = Fields::new(bytes, &room[..spans.headers]);
    Parts::new(spans.method.of(bytes), target, spans.version, fields)
}

/// Judges a whole head of so many bytes.
fn judge_parts(alloc: Global, parts: &Parts, size: usize) -> Result<Judged<RequestHead>, NoMemory>
    ensures { IfOk result (JudgesWhole (fault_of parts.now) (read_parts parts.now) size) }
{
    if let Some(fault) = fault_of(alloc, parts)? {
        return Ok(Judged::Refused(fault));
    }
    let head = read_parts(alloc, parts)?;
    Ok(Judged::Whole { head, size })
}

impl Head for RequestHead {
    ghost Parsed = { ParsedHead };

    ghost form = { request_form };

    fn parse(
        alloc: Global,
        bytes: &[u8],
        room: &mut [HeaderSpan],
    ) -> Result<Judged<RequestHead>, NoMemory> {
        match parse_request(bytes, room) {
            Ok(Status::Complete(spans)) => {
                let parts = parts_of(bytes, room, &spans);
                judge_parts(alloc, &parts, spans.len)
            }
            Ok(Status::Partial) => Ok(Judged::More),
            Err(_) => Ok(Judged::Refused(HttpFault::BadHead)),
        }
    }

    ghost ends = { request_ends };

    ghost refusal = { request_refusal };
}
