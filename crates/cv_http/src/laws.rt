//! What bytes are is one thing: at most one head, and either a head or a refusal or a part of a head; and so with replies.
//!
//! The functions do nothing. Their contracts hold of all bytes.
ghost use Rattle.std.specs.Prelude.{◌≡◌, ◌≤◌, ◌++◌, ◌⊎◌, ⊤, ℕ, List, [], length};
ghost use Rattle.httparse.specs.Grammar.{EndsInTarget};
ghost use Rattle.cv_http.specs.Heads.{window, Begins, Never, Refused, IsCut};
ghost use Rattle.cv_http.specs.ReplyTexts.{IsReply, IsRefusedReply, IsCutReply};
ghost use Rattle.cv_http.specs.declared.head.RequestHead.{RequestHead};
ghost use Rattle.cv_http.specs.declared.http_reply.HttpReply.{HttpReply};
ghost use Rattle.cv_http.specs.declared.fault.HttpFault.{HttpFault};
ghost use Rattle.cv_http.specs.declared.fault.HttpFault.TheVariants.{BadHead};
ghost use Rattle.cv_http.specs.declared.judge.TheConstants.{HEAD_LIMIT};

/// Bytes begin with at most one head, which ends at one place.
pub fn one_head()
    ensures { (b later later' : List ℕ) (head head' : RequestHead) → Begins b head later → Begins b head' later' → (head ≡ head') × (later ≡ later') }
{}

/// Bytes that begin with a head are neither refused nor cut inside a head.
pub fn head_or_fault()
    ensures refused { (b later : List ℕ) (head : RequestHead) (fault : HttpFault) → Begins b head later → ¬ (Refused b fault) }
    ensures cut { (b later : List ℕ) (head : RequestHead) → Begins b head later → ¬ (IsCut b) }
{}

/// Bytes are refused by at most one fault, and bytes that are refused aren't cut inside a head. One case is open: the
/// first 16,384 bytes, or all, end inside a target that can't become UTF-8 any more. They may be refused as no head,
/// since nothing completes them, or be too long or cut, since a target is judged at its end.
pub fn one_fault()
    ensures refused { (b : List ℕ) (fault fault' : HttpFault) → Refused b fault → Refused b fault'
        → (fault ≡ fault') ⊎ ((HEAD_LIMIT ≤ length b) × Never b × EndsInTarget (window b)) }
    ensures cut { (b : List ℕ) (fault : HttpFault) → Refused b fault → IsCut b
        → (fault ≡ BadHead) × Never b × EndsInTarget (window b) }
{}

/// Input without bytes has no head, and isn't refused.
pub fn empty_input()
    ensures begun { (later : List ℕ) (head : RequestHead) → ¬ (Begins [] head later) }
    ensures refused { (fault : HttpFault) → ¬ (Refused [] fault) }
{}

/// Bytes that are a reply are neither refused nor cut inside one.
pub fn reply_or_fault()
    ensures refused { (b later : List ℕ) (reply : HttpReply) (fault : HttpFault) → IsReply ⊤ b reply later → ¬ (IsRefusedReply b fault) }
    ensures cut { (b later : List ℕ) (reply : HttpReply) → IsReply ⊤ b reply later → ¬ (IsCutReply b) }
{}

/// A reply with more bytes behind it is one still, and so is what is refused. Behind a reply whose length isn't stated there
/// are none.
pub fn more_behind_a_reply()
    ensures reply { (b more later : List ℕ) (reply : HttpReply) → IsReply (more ≡ []) b reply later → IsReply ⊤ (b ++ more) reply (later ++ more) }
    ensures refused { (b more : List ℕ) (fault : HttpFault) → IsRefusedReply b fault → IsRefusedReply (b ++ more) fault }
{}

/// Bytes are at most one reply, which ends at one place. A reply whose length isn't stated is all of them.
pub fn one_reply()
    ensures { (b later later' : List ℕ) (reply reply' : HttpReply) → IsReply ⊤ b reply later → IsReply ⊤ b reply' later' → (reply ≡ reply') × (later ≡ later') }
{}
