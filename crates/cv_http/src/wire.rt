//! Requests and replies on a stream.
ghost use Rattle.std.specs.Prelude.{◌≡◌, ◌≢◌, ◌≤◌, ◌<◌, ◌+◌, ◌++◌, Some, None, Ok, Err, [], length, drop, true, false, min, OnOk, OnErr, IfOk, IfErr};
ghost use Rattle.cv_base.specs.Counts.{HasCause};
ghost use Rattle.cv_base.specs.Told.{WhereTold};
ghost use Rattle.cv_ports.specs.Streams.{front};
ghost use Rattle.cv_http.specs.Forms.{UnfinishedAs, AwaitedAs};
ghost use Rattle.cv_http.specs.Heads.{IsAwaited};
ghost use Rattle.cv_http.specs.HeadEndsInner.{NoneWithin, may_end};
ghost use Rattle.cv_http.specs.Wires.{WireView, rest, Reads, Draws, Looks, Beside, HasEnded, HeadReadAs, HeadRead, BodyRead, PieceRead, Gets};
ghost use Rattle.cv_http.specs.WiresInner.{HeadFound};
ghost use Rattle.cv_http.specs.ReplyTexts.{IsOpen, IsAwaitedReply, ReplyRead};
ghost use Rattle.cv_http.specs.ReplyTextsInner.{FinalRead, ReplyBodyRead};
ghost use Rattle.cv_http.specs.JudgementsInner.{Judges};
ghost use Rattle.cv_http.specs.Faults.{IsHeadFault, IsBodyFault, IsReplyFault};
ghost use Rattle.cv_http.specs.FaultsInner.{IsPieceFault};
ghost use Rattle.cv_http.specs.declared.buffer.TheConstants.{PIECE};
ghost use Rattle.cv_http.specs.declared.fault.HttpFault.TheVariants.{Short, ReadFault};
ghost use Rattle.cv_http.specs.declared.judge.TheConstants.{HEAD_LIMIT, FIELDS_ROOM};

use crate::buffer::{Buffer, PIECE};
use crate::fault::HttpFault;
use crate::head::RequestHead;
use crate::head_end::has_empty_line;
use crate::http_reply::HttpReply;
use crate::judge::{FIELDS_ROOM, HEAD_LIMIT, Head, Judged, judge};
use crate::reply_head::ReplyHead;
use cv_base::{Bytes, NoMemory};
use cv_ports::Source;
use httparse::spans::{EMPTY_HEADER_SPAN, HeaderSpan};
use std::alloc::Global;
use std::marker::Model;

/// The code of an interim head, 100 Continue (RFC 9110, section 15.2.1).
const INTERIM_CODE: u16 = 100;

/// The most interim heads of a reply.
pub const INTERIM_LIMIT: usize = 16;

/// The most bytes of a reply's body.
pub const BODY_LIMIT: usize = 33_554_432;

/// A source of requests or replies, with the bytes that it gave and that weren't used yet. It holds at most 16,384 bytes and a
/// piece of 65,536, and from the first head on room for the fields of a head.
#[derive(Drop)]
pub struct Wire<R: Source + Drop> {
    buffer: Buffer<R>,
    room: Vec<HeaderSpan>,
}

impl<R: Source + Drop> Model for Wire<R> {
    ghost use Rattle.cv_http.specs.Wires.{WireView};

    ghost Value = { WireView R };

    ghost view = { λ w. w.buffer };
}

/// Makes room for each field of a head.
fn make_room(alloc: Global, room: &mut Vec<HeaderSpan>) -> Result<(), NoMemory>
    ensures { OnOk result (FIELDS_ROOM ≤ length room.new.items) }
{
    if room.len() < FIELDS_ROOM {
        *room = vec![in alloc; EMPTY_HEADER_SPAN; FIELDS_ROOM]?;
    }
    Ok(())
}

impl<R: Source + Drop> Wire<R> {
    /// Nothing of the source was read yet.
    pub fn new(alloc: Global, source: R) -> Wire<R>
        ensures { result ≡ record { source = source; held = [] } }
    {
        Wire {
            buffer: Buffer::new(alloc, source),
            room: Vec::new(alloc),
        }
    }

    /// The source. What was held is lost.
    pub fn into_source(self) -> R
        ensures { result ≡ self.source }
    {
        self.buffer.into_source()
    }

    /// What is held.
    fn bytes(&self) -> &[u8]
        ensures { result.now ≡ self.now.held }
    {
        self.buffer.bytes()
    }

    /// Uses bytes up.
    fn skip(&mut self, count: usize)
        requires { count ≤ length self.old.held }
        ensures { self.new ≡ record self.old { held = drop count self.old.held } }
    {
        self.buffer.skip(count);
    }

    /// Reads more of the source, beside a sink. `false` is its end.
    fn fill(&mut self, beside: &R::Beside) -> Result<bool, HttpFault>
        ensures stream { rest R.left self.new ≡ rest R.left self.old }
        ensures gets { Gets R.left R.given self.old self.new }
        ensures more { result ≡ Ok true → length self.old.held < length self.new.held }
        ensures lost { OnErr result (self.new.held ≡ self.old.held) }
        ensures end { result ≡ Ok false → (self.new.held ≡ self.old.held) × WhereTold (R.left self.new.source) (λ left. left ≡ []) }
        ensures faults { IfErr result IsPieceFault }
        ensures no_read_failed { result ≢ Err ReadFault → R.faults self.new.source ≡ R.faults self.old.source }
        ensures cause { HasCause (R.faults self.old.source) (R.faults self.new.source) (result ≡ Err ReadFault) }
        ensures looks { Looks R.left R.looks self.old self.new (Beside (R.Beside.passed beside.now) (λ b. b ≡ self.old.held)) }
    {
        Ok(self.buffer.fill(beside)?)
    }

    /// Judges what is held.
    fn judge_held<H: Head>(&mut self, alloc: Global) -> Result<Judged<H>, NoMemory>
        ensures same { self.new ≡ self.old }
        ensures judged { IfOk result (Judges H.form self.old.held) }
    {
        make_room(alloc, &mut self.room)?;
        judge(alloc, self.buffer.bytes(), self.room.as_mut_slice())
    }

    /// Takes the head with which what is held begins. `None` where it is a part of one.
    fn take_head<H: Head>(&mut self, alloc: Global) -> Result<Option<H>, HttpFault>
        ensures found { HeadFound H.form (UnfinishedAs H.form) self.old.held self.new.held result }
        ensures source { self.new.source ≡ self.old.source }
    {
        match self.judge_held(alloc)? {
            Judged::Whole { head, size } => {
                self.skip(size);
                Ok(Some(head))
            }
            Judged::Refused(fault) => Err(fault),
            Judged::More => Ok(None),
        }
    }

    /// Whether a head may end behind the first bytes that are held, `seen` of them, or there is no room for more of one.
    fn may_end(&self, seen: usize) -> bool
        requires { seen ≤ length self.now.held }
        ensures { result ≡ may_end seen self.now.held }
    {
        let bytes = self.bytes();
        bytes.len() >= HEAD_LIMIT || has_empty_line(&bytes[seen.saturating_sub(2)..])
    }

    /// Takes the head with which what is held begins, where none begins with the first bytes, `seen` of them, alone. `None`
    /// where more is to come.
    fn seek_head<H: Head>(&mut self, alloc: Global, seen: usize) -> Result<Option<H>, HttpFault>
        requires within { seen ≤ length self.old.held }
        requires none { NoneWithin H.form seen self.old.held }
        ensures found { HeadFound H.form (AwaitedAs H.form) self.old.held self.new.held result }
        ensures source { self.new.source ≡ self.old.source }
    {
        if !self.may_end(seen) {
            return Ok(None);
        }
        match self.take_head::<H>(alloc)? {
            Some(head) => Ok(Some(head)),
            None if self.bytes().len() >= HEAD_LIMIT => Err(HttpFault::HeadTooLarge),
            None => Ok(None),
        }
    }

    /// Takes the head with which the input ends. `None` where it ended before one.
    fn end_head<H: Head>(&mut self, alloc: Global) -> Result<Option<H>, HttpFault>
        requires { length self.old.held < HEAD_LIMIT }
        ensures read { HeadReadAs H.form self.old.held self.new.held result }
        ensures source { self.new.source ≡ self.old.source }
        ensures faults { result ≢ Err ReadFault }
    {
        match self.take_head::<H>(alloc)? {
            Some(head) => Ok(Some(head)),
            None if self.bytes().is_empty() => Ok(None),
            None => Err(HttpFault::Short),
        }
    }

    /// Reads the next head of a form. `None` is the end of the input where a head might begin.
    fn next_head<H: Head>(
        &mut self,
        alloc: Global,
        beside: &R::Beside,
    ) -> Result<Option<H>, HttpFault>
        ensures reads { Draws R.left R.given self.old self.new (λ b. HeadReadAs H.form b self.new.held result) }
        ensures nothing_left { result ≡ Ok None → WhereTold (rest R.left self.new) (λ b. b ≡ []) }
        ensures cut { result ≡ Err Short → WhereTold (R.left self.new.source) (λ left. left ≡ []) }
        ensures faults { IfErr result IsHeadFault }
        ensures no_read_failed { result ≢ Err ReadFault → R.faults self.new.source ≡ R.faults self.old.source }
        ensures cause { HasCause (R.faults self.old.source) (R.faults self.new.source) (result ≡ Err ReadFault) }
        ensures looks { Looks R.left R.looks self.old self.new (Beside (R.Beside.passed beside.now) (AwaitedAs H.form)) }
    {
        let mut seen = 0;
        'pieces: loop {
            if let Some(head) = self.seek_head::<H>(alloc, seen)? {
                return Ok(Some(head));
            }
            seen = self.bytes().len();
            if !self.fill(beside)? {
                return self.end_head(alloc);
            }
        }
    }

    /// Reads the next head (RFC 9112, sections 2 and 3). `None` is the end of the input where a head might begin. A whole
    /// head is answered before more is read: where the source fails, none is there. Bytes that begin no head are refused
    /// once an empty line ends in them, which tests show and no clause, they fill the room for a head, or the input ends. A
    /// fault takes nothing of what is left.
    pub fn read_head(
        &mut self,
        alloc: Global,
        beside: &R::Beside,
    ) -> Result<Option<RequestHead>, HttpFault>
        ensures reads { Draws R.left R.given self.old self.new (λ b. HeadRead b self.new.held result) }
        ensures nothing_left { result ≡ Ok None → WhereTold (rest R.left self.new) (λ b. b ≡ []) }
        ensures cut { result ≡ Err Short → WhereTold (R.left self.new.source) (λ left. left ≡ []) }
        ensures faults { IfErr result IsHeadFault }
        ensures no_read_failed { result ≢ Err ReadFault → R.faults self.new.source ≡ R.faults self.old.source }
        ensures cause { HasCause (R.faults self.old.source) (R.faults self.new.source) (result ≡ Err ReadFault) }
        ensures looks { Looks R.left R.looks self.old self.new (Beside (R.Beside.passed beside.now) IsAwaited) }
    {
        self.next_head(alloc, beside)
    }

    /// Holds a byte at least, unless the source is at its end.
    fn has_some(&mut self, beside: &R::Beside) -> Result<bool, HttpFault>
        ensures stream { rest R.left self.new ≡ rest R.left self.old }
        ensures gets { Gets R.left R.given self.old self.new }
        ensures some { result ≡ Ok true → 0 < length self.new.held }
        ensures end { result ≡ Ok false → (self.new.held ≡ []) × WhereTold (R.left self.new.source) (λ left. left ≡ []) }
        ensures lost { OnErr result ((self.old.held ≡ []) × (self.new.held ≡ [])) }
        ensures faults { IfErr result IsPieceFault }
        ensures no_read_failed { result ≢ Err ReadFault → R.faults self.new.source ≡ R.faults self.old.source }
        ensures cause { HasCause (R.faults self.old.source) (R.faults self.new.source) (result ≡ Err ReadFault) }
        ensures looks { Looks R.left R.looks self.old self.new (Beside (R.Beside.passed beside.now) (λ b. b ≡ [])) }
    {
        if !self.bytes().is_empty() {
            return Ok(true);
        }
        self.fill(beside)
    }

    /// Moves what is held to a body, so many bytes at most.
    #[tactic(auto, using(crate::proofs::Streams::parts_on, crate::proofs::Streams::parted))]
    fn take_part(&mut self, body: &mut Vec<u8>, most: usize) -> Result<(), NoMemory>
        ensures stream { OnOk result (front body.new.items (rest R.left self.new) ≡ front body.old.items (rest R.left self.old)) }
        ensures parts { OnOk result (body.new.items ++ self.new.held ≡ body.old.items ++ self.old.held) }
        ensures moved { OnOk result (length body.new.items ≡ length body.old.items + min (length self.old.held) most) }
        ensures source { self.new.source ≡ self.old.source }
    {
        let count = self.bytes().len().min(most);
        body.extend_from_slice(&self.bytes()[..count])?;
        self.skip(count);
        Ok(())
    }

    /// Reads the next bytes, `left` and 65,536 of them at most, and one at least.
    pub fn read_some(
        &mut self,
        alloc: Global,
        left: u64,
        beside: &R::Beside,
    ) -> Result<Bytes, HttpFault>
        requires { 0 < left }
        ensures reads { Draws R.left R.given self.old self.new (λ b. PieceRead b self.new.held result) }
        ensures some { IfOk result (λ piece. 0 < length piece) }
        ensures most { IfOk result (λ piece. length piece ≤ left) }
        ensures piece { IfOk result (λ piece. length piece ≤ PIECE) }
        ensures cut { result ≡ Err Short → WhereTold (R.left self.new.source) (λ left. left ≡ []) }
        ensures faults { IfErr result IsBodyFault }
        ensures no_read_failed { result ≢ Err ReadFault → R.faults self.new.source ≡ R.faults self.old.source }
        ensures cause { HasCause (R.faults self.old.source) (R.faults self.new.source) (result ≡ Err ReadFault) }
        ensures looks { Looks R.left R.looks self.old self.new (Beside (R.Beside.passed beside.now) (λ b. b ≡ [])) }
    {
        if !self.has_some(beside)? {
            return Err(HttpFault::Short);
        }
        let most = left.min(PIECE as u64) as usize;
        let mut piece = Vec::new(alloc);
        self.take_part(&mut piece, most)?;
        Ok(Bytes::new(piece))
    }

    /// Reads the next `size` bytes. The memory that is taken grows with what has come, not with `size`. After a fault a
    /// part of the bytes may be lost.
    pub fn read_body(
        &mut self,
        alloc: Global,
        size: u64,
        beside: &R::Beside,
    ) -> Result<Bytes, HttpFault>
        ensures reads { Reads R.left self.old self.new (λ b. BodyRead size (λ text body. body ≡ text) b self.new.held result) }
        ensures draws { Draws R.left R.given self.old self.new
            (λ b. BodyRead size (λ text body. body ≡ text) b self.new.held result) }
        ensures whole { IfOk result (λ body. length body ≡ size) }
        ensures body { IfOk result (λ body. front body (rest R.left self.new) ≡ rest R.left self.old) }
        ensures short { result ≡ Err Short → WhereTold (rest R.left self.old) (λ b. length b < size) }
        ensures cut { result ≡ Err Short → WhereTold (R.left self.new.source) (λ left. left ≡ []) }
        ensures faults { IfErr result IsBodyFault }
        ensures no_read_failed { result ≢ Err ReadFault → R.faults self.new.source ≡ R.faults self.old.source }
        ensures cause { HasCause (R.faults self.old.source) (R.faults self.new.source) (result ≡ Err ReadFault) }
        ensures looks { Looks R.left R.looks self.old self.new (Beside (R.Beside.passed beside.now) (λ b. length b < size)) }
    {
        let size = size as usize;
        let mut body = Vec::new(alloc);
        'parts: while body.len() < size {
            if !self.has_some(beside)? {
                return Err(HttpFault::Short);
            }
            let most = size - body.len();
            self.take_part(&mut body, most)?;
        }
        Ok(Bytes::new(body))
    }

    /// Reads the bytes up to the end of the source, the limit of a reply's body at most.
    fn read_rest(&mut self, alloc: Global, beside: &R::Beside) -> Result<Bytes, HttpFault>
        ensures reads { Draws R.left R.given self.old self.new
            (λ b. ReplyBodyRead (HasEnded (R.left self.new.source)) None b self.new.held result) }
        ensures cause { HasCause (R.faults self.old.source) (R.faults self.new.source) (result ≡ Err ReadFault) }
        ensures looks { Looks R.left R.looks self.old self.new (Beside (R.Beside.passed beside.now) (IsOpen None)) }
    {
        let mut body = Vec::new(alloc);
        'parts: while self.has_some(beside)? {
            let most = BODY_LIMIT - body.len();
            if self.bytes().len() > most {
                return Err(HttpFault::BodyTooLarge);
            }
            self.take_part(&mut body, most)?;
        }
        Ok(Bytes::new(body))
    }

    /// Reads the body of a reply, of a stated length or else up to the end of the source.
    fn reply_body(
        &mut self,
        alloc: Global,
        length: Option<u64>,
        beside: &R::Beside,
    ) -> Result<Bytes, HttpFault>
        ensures reads { Draws R.left R.given self.old self.new
            (λ b. ReplyBodyRead (HasEnded (R.left self.new.source)) length b self.new.held result) }
        ensures cut { result ≡ Err Short → HasEnded (R.left self.new.source) }
        ensures cause { HasCause (R.faults self.old.source) (R.faults self.new.source) (result ≡ Err ReadFault) }
        ensures looks { Looks R.left R.looks self.old self.new (Beside (R.Beside.passed beside.now) (IsOpen length)) }
    {
        match length {
            Some(size) if size > BODY_LIMIT as u64 => Err(HttpFault::BodyTooLarge),
            Some(size) => self.read_body(alloc, size, beside),
            None => self.read_rest(alloc, beside),
        }
    }

    /// Reads the head of a reply, behind its interim heads.
    fn final_head(&mut self, alloc: Global, beside: &R::Beside) -> Result<ReplyHead, HttpFault>
        ensures reads { Draws R.left R.given self.old self.new (λ b. FinalRead b self.new.held result) }
        ensures cut { result ≡ Err Short → HasEnded (R.left self.new.source) }
        ensures cause { HasCause (R.faults self.old.source) (R.faults self.new.source) (result ≡ Err ReadFault) }
        ensures looks { Looks R.left R.looks self.old self.new (Beside (R.Beside.passed beside.now) IsAwaitedReply) }
    {
        let mut passed = 0;
        'interim: while passed <= INTERIM_LIMIT {
            let Some(head) = self.next_head::<ReplyHead>(alloc, beside)? else {
                return Err(HttpFault::Short);
            };
            if head.code != INTERIM_CODE {
                return Ok(head);
            }
            passed += 1;
        }
        Err(HttpFault::BadHead)
    }

    /// Reads a reply (RFC 9112, sections 4 and 6): up to 16 interim heads of code 100, which are passed over, a head of
    /// another code, and a body of at most 33,554,432 bytes, as long as its Content-Length says, or else up to the end of
    /// the source. Input that ends before a head is cut. After a fault a part of the bytes may be lost.
    pub fn read_reply(&mut self, alloc: Global, beside: &R::Beside) -> Result<HttpReply, HttpFault>
        ensures reads { Draws R.left R.given self.old self.new
            (λ b. ReplyRead (HasEnded (R.left self.new.source)) b self.new.held result) }
        ensures cut { result ≡ Err Short → HasEnded (R.left self.new.source) }
        ensures faults { IfErr result IsReplyFault }
        ensures cause { HasCause (R.faults self.old.source) (R.faults self.new.source) (result ≡ Err ReadFault) }
        ensures looks { Looks R.left R.looks self.old self.new (Beside (R.Beside.passed beside.now) IsAwaitedReply) }
    {
        let head = self.final_head(alloc, beside)?;
        let body = self.reply_body(alloc, head.length, beside)?;
        Ok(HttpReply {
            code: head.code,
            body,
        })
    }
}
