//! What a request asks is one thing, and so is what the bytes of a connection ask; and what was written fixes the answers.
//!
//! The functions do nothing. Their contracts hold of all requests and bytes.
ghost use Rattle.std.specs.Prelude.{◌≡◌, ◌⊎◌, ◌++◌, ℕ, List, [], length, map, Bool};
ghost use Rattle.std.specs.List.{AllByRecursion};
ghost use Rattle.cv_http.specs.declared.head.RequestHead.{RequestHead};
ghost use Rattle.cv_keys.specs.declared.key.Key.{Key};
ghost use Rattle.cv_gate.specs.Heads.{IsFront};
ghost use Rattle.cv_session.specs.Asking.{Turned, Opens, IsAsked};
ghost use Rattle.cv_session.specs.OneAsked.{IsOne, IsOpenBehind};
ghost use Rattle.cv_session.specs.Requests.{WantsAny};
ghost use Rattle.cv_session.specs.Responses.{reply_of};
ghost use Rattle.cv_session.specs.Said.{said, IsLegible};
ghost use Rattle.cv_session.specs.Sessions.{Exchange, turns, sayings, IsWritten, IsAnswered};
ghost use Rattle.cv_session.specs.declared.response.Response.{Response};
ghost use Rattle.cv_session.specs.declared.session_end.SessionEnd.{SessionEnd};
ghost use Rattle.cv_session.specs.declared.turn.Turn.{Turn};

/// A request wants one thing of a repository and its gate.
pub fn one_turn()
    ensures { (repository : List ℕ) (keys : List Key) (head : RequestHead) (body : List ℕ) (turn turn' : Turn)
        → WantsAny repository keys head body turn → WantsAny repository keys head body turn' → turn ≡ turn' }
{}

/// So many bytes ask for one list of turns, with one line or none behind them, and end the session in one way. One case is
/// open: what is left behind some of the turns, or its first 16,384 bytes, ends inside a target, and no head can come of it.
pub fn one_asking()
    ensures { (repository : List ℕ) (keys : List Key) (b : List ℕ) (ts ts' : List Turned) (line line' : Bool) (end end' : SessionEnd)
        → IsAsked repository keys b ts line end → IsAsked repository keys b ts' line' end'
        → IsOne ts line end ts' line' end' ⊎ IsOpenBehind repository keys 0 b }
{}

/// The turns that so many bytes ask first are those of one list: of two of its fronts one begins the other, and two of one
/// length leave the same bytes. So the turns of a session that something else ended than its bytes begin those that they ask.
pub fn one_opening()
    ensures fronts { (repository : List ℕ) (keys : List Key) (n : ℕ) (b : List ℕ) (ts ts' : List Turned) (later later' : List ℕ)
        → Opens repository keys n b ts later → Opens repository keys n b ts' later' → IsFront ts ts' ⊎ IsFront ts' ts }
    ensures left { (repository : List ℕ) (keys : List Key) (n : ℕ) (b : List ℕ) (ts ts' : List Turned) (later later' : List ℕ)
        → Opens repository keys n b ts later → Opens repository keys n b ts' later' → length ts ≡ length ts' → later ≡ later' }
    ensures asked { (repository : List ℕ) (keys : List Key) (b : List ℕ) (ts all : List Turned) (later : List ℕ) (line : Bool) (end : SessionEnd)
        → Opens repository keys 0 b ts later → IsAsked repository keys b all line end → IsFront ts all }
{}

/// What a sink took fixes the answers: where the turns of one list of exchanges begin those of another, and what was taken begins
/// with what is said in either, the answers of the one begin those of the other, of the gate's replies those of the interface;
/// and of the same turns there are the same answers. The exchange in which the output failed may stand last among these, once
/// its reply is whole: it is one as the program writes it (`broken`).
pub fn one_saying()
    ensures fronts { (repository : List ℕ) (keys : List Key) (seal : List ℕ → List ℕ) (es es' : List Exchange) (more more' : List ℕ) → IsFront (turns es) (turns es')
        → AllByRecursion (IsAnswered repository keys seal) es → AllByRecursion (IsAnswered repository keys seal) es'
        → AllByRecursion IsWritten es → AllByRecursion IsWritten es'
        → sayings es ++ more ≡ sayings es' ++ more' → IsFront (map (λ e. said e.answer) es) (map (λ e. said e.answer) es') }
    ensures whole { (repository : List ℕ) (keys : List Key) (seal : List ℕ → List ℕ) (es es' : List Exchange) (more more' : List ℕ) → turns es ≡ turns es'
        → AllByRecursion (IsAnswered repository keys seal) es → AllByRecursion (IsAnswered repository keys seal) es'
        → AllByRecursion IsWritten es → AllByRecursion IsWritten es'
        → sayings es ++ more ≡ sayings es' ++ more' → map (λ e. said e.answer) es ≡ map (λ e. said e.answer) es' }
{}

/// No reply is a proper front of another: where the output failed in one, what was taken of it is no whole reply, or all of it.
pub fn no_reply_begins_another()
    ensures { (answer answer' : Response) (last last' : Bool) (more : List ℕ) → IsLegible answer → IsLegible answer'
        → reply_of answer' last' ≡ reply_of answer last ++ more → more ≡ [] }
{}
