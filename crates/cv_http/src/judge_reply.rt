//! What bytes begin, where replies are read.
ghost use Rattle.std.specs.Prelude.{length, IfOk};
ghost use Rattle.httparse.specs.Grammar.{ResponseHead as ParsedReply};
ghost use Rattle.httparse.specs.Spans.{IsResponseWithin, IsResponseAt};
ghost use Rattle.cv_http.specs.ReplyHeads.{fault_of_reply, reply_head_of, reply_form};
ghost use Rattle.cv_http.specs.JudgementsInner.{JudgesWhole, Judges};
ghost use Rattle.cv_http.specs.HeadLawsInner.{reply_ends, reply_refusal};

use crate::fault::HttpFault;
use crate::field_faults::{fields_fault, length_in};
use crate::fields::Fields;
use crate::judge::{Head, Judged};
use crate::reply_head::ReplyHead;
use cv_base::NoMemory;
use httparse::Status;
use httparse::spans::{HeaderSpan, ResponseSpans, parse_response};
use std::alloc::Global;

/// Judges a whole head that was found in these bytes.
fn judge_spans(
    alloc: Global,
    bytes: &[u8],
    room: &[HeaderSpan],
    spans: &ResponseSpans,
) -> Result<Judged<ReplyHead>, NoMemory>
    requires within { IsResponseWithin bytes.now room.now spans.now }
    ensures { (parsed : ParsedReply) → IsResponseAt bytes.now room.now spans.now parsed
        → IfOk result (JudgesWhole (fault_of_reply parsed) (reply_head_of parsed) spans.now.len) }
{
    let fields = Fields::new(bytes, &room[..spans.headers]);
    if let Some(fault) = fields_fault(alloc, &fields)? {
        return Ok(Judged::Refused(fault));
    }
    let head = ReplyHead {
        code: spans.code,
        length: length_in(alloc, &fields)?,
    };
    Ok(Judged::Whole {
        head,
        size: spans.len,
    })
}

impl Head for ReplyHead {
    ghost Parsed = { ParsedReply };

    ghost form = { reply_form };

    fn parse(
        alloc: Global,
        bytes: &[u8],
        room: &mut [HeaderSpan],
    ) -> Result<Judged<ReplyHead>, NoMemory> {
        match parse_response(bytes, room) {
            Ok(Status::Complete(spans)) => judge_spans(alloc, bytes, room, &spans),
            Ok(Status::Partial) => Ok(Judged::More),
            Err(_) => Ok(Judged::Refused(HttpFault::BadHead)),
        }
    }

    ghost ends = { reply_ends };

    ghost refusal = { reply_refusal };
}
