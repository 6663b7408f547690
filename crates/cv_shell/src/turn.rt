//! One line and its answer.
ghost use Rattle.std.specs.Prelude.{◌≡◌, Ok, Err, MatchResult, IfOk};
ghost use Rattle.cv_base.specs.Counts.{HasCause};
ghost use Rattle.cv_client.specs.Asking.{AsksFirst};
ghost use Rattle.cv_client.specs.declared.ask_fault.AskFault.TheVariants.{LinkFailed as LinkLost};
ghost use Rattle.cv_shell.specs.Texts.{refusal, fault_text};
ghost use Rattle.cv_shell.specs.Turns.{said_of_fault, said, Prints, Renews, Turns};
ghost use Rattle.cv_shell.specs.declared.turn.Stop.TheVariants.{LinkFailed, NoMemory as MemoryStop};

use crate::line::{Line, read_line};
use crate::printing::{answer_text, count_line, fault_text, refusal, renewal_text};
use cv_base::{Bytes, NoMemory};
use cv_client::{AskFault, Url, answer, fetch_manifest};
use cv_ports::Dial;
use cv_resolver::{ClientFault, Found, Resolver};
use cv_seal::Signer;
use std::alloc::Global;

/// Why a line has no answer, and no other line is read.
#[derive(Clone, Copy, Debug, PartialEq, Eq)]
pub(crate) enum Stop {
    /// No link could be opened, or one failed.
    LinkFailed,
    /// The server wrote no reply of HTTP, or one of a code that isn't an answer.
    BadReply,
    /// There was no memory.
    NoMemory,
}

impl From<NoMemory> for Stop {
    ghost from_gives = { λ _ stop. stop ≡ MemoryStop };

    fn from(_error: NoMemory) -> Stop {
        Stop::NoMemory
    }
}

/// A text that is printed, if there was memory for it.
fn printed(text: Result<Vec<u8>, NoMemory>) -> Result<Bytes, Stop>
    ensures { MatchResult text (λ text. result ≡ Ok text.items) (λ _. result ≡ Err MemoryStop) }
{
    Ok(Bytes::new(text?))
}

/// The line that tells why nothing was found.
fn refused(alloc: Global, fault: ClientFault) -> Result<Vec<u8>, NoMemory>
    ensures { IfOk result (λ line. line.items ≡ refusal (fault_text fault)) }
{
    let cause = fault_text(alloc, fault)?;
    refusal(alloc, cause.as_str())
}

/// What is printed where there is no answer.
fn say_fault(alloc: Global, fault: AskFault) -> Result<Bytes, Stop>
    ensures prints { Prints (said_of_fault fault) result }
    ensures link { result ≡ Err LinkFailed → fault ≡ LinkLost }
{
    match fault {
        AskFault::LinkFailed => Err(Stop::LinkFailed),
        AskFault::BadReply => Err(Stop::BadReply),
        AskFault::NoMemory => Err(Stop::NoMemory),
        AskFault::BadManifest => printed(refusal(alloc, "bad manifest")),
        AskFault::Refused(fault) => printed(refused(alloc, fault)),
    }
}

/// What is printed where a question was asked.
fn say(alloc: Global, answer: Result<Found, AskFault>) -> Result<Bytes, Stop>
    ensures prints { Prints (said answer) result }
    ensures link { result ≡ Err LinkFailed → answer ≡ Err LinkLost }
{
    match answer {
        Ok(found) => printed(answer_text(alloc, found)),
        Err(fault) => say_fault(alloc, fault),
    }
}

/// Pins a client at the head of the manifest that is served, and says its revision or why it isn't taken.
fn renew<N: Dial, S: Signer>(
    alloc: Global,
    dial: &mut N,
    url: &Url,
    signer: &S,
    resolver: &mut Resolver,
) -> Result<Bytes, Stop>
    ensures renews { Renews (S.is_seal signer.now) url.now (N.came dial.old) (N.came dial.new) resolver.old resolver.new result }
    ensures asks { AsksFirst N.came N.looks dial.old dial.new }
    ensures cause { HasCause (N.faults dial.old) (N.faults dial.new) (result ≡ Err LinkFailed) }
{
    let manifest = match fetch_manifest(alloc, dial, url, signer) {
        Ok(manifest) => manifest,
        Err(fault) => return say_fault(alloc, fault),
    };
    let revision = manifest.head.revision;
    match resolver.renew(manifest) {
        Ok(()) => printed(count_line(alloc, "revision", revision)),
        Err(fault) => printed(refusal(alloc, renewal_text(fault))),
    }
}

/// Answers a line at the revision that a client is pinned at, or pins it at the newest.
pub(crate) fn answer_line<N: Dial, S: Signer>(
    alloc: Global,
    dial: &mut N,
    url: &Url,
    signer: &S,
    resolver: &mut Resolver,
    line: &[u8],
) -> Result<Bytes, Stop>
    ensures turns { Turns (S.is_seal signer.now) url.now line.now (N.came dial.old) (N.came dial.new) resolver.old resolver.new result }
    ensures asks { AsksFirst N.came N.looks dial.old dial.new }
    ensures cause { HasCause (N.faults dial.old) (N.faults dial.new) (result ≡ Err LinkFailed) }
{
    match read_line(alloc, line)? {
        Some(Line::Ask(question)) => {
            let answer = answer(alloc, dial, url, resolver, question);
            say(alloc, answer)
        }
        Some(Line::Renew) => renew(alloc, dial, url, signer, resolver),
        None => printed(refusal(alloc, "bad line")),
    }
}
