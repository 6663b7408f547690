//! The commands of a client.
ghost use Rattle.std.specs.Prelude.{◌≡◌, ◌≢◌};
ghost use Rattle.cv_base.specs.Counts.{HasCause};
ghost use Rattle.cv_client.specs.Asking.{AsksFirst};
ghost use Rattle.cv_client.specs.Texts.{found_text};
ghost use Rattle.cv_top.specs.Complete.{IsSteady};
ghost use Rattle.cv_top.specs.Looks.{Prints, Looks};
ghost use Rattle.cv_top.specs.Wholes.{Answered};
ghost use Rattle.cv_top.specs.declared.status.Status.TheVariants.{InputFailed, OutputFailed, StoreFailed, LinkFailed};

use crate::print::print;
use crate::status::Status;
use cv_client::{Url, ask, found_text};
use cv_ports::{Dial, Failed, Sink};
use cv_resolver::{Found, Question};
use cv_seal::KeyedHash;
use std::alloc::Global;

/// Prints an answer.
fn print_answer<W: Sink>(alloc: Global, found: Found, output: &mut W) -> Status
    ensures prints { Prints W.taken (found_text found) output.old output.new result }
    ensures flushed { result ≢ OutputFailed → W.passed output.old ≡ W.taken output.old → W.passed output.new ≡ W.taken output.new }
    ensures reads { result ≢ InputFailed }
    ensures no_write_failed { result ≢ OutputFailed → W.faults output.new ≡ W.faults output.old }
    ensures writes { HasCause (W.faults output.old) (W.faults output.new) (result ≡ OutputFailed) }
    ensures stores { result ≢ StoreFailed }
    ensures links { result ≢ LinkFailed }
{
    let Ok(text) = found_text(alloc, found) else {
        return Status::OutOfMemory;
    };
    match print(output, text.as_slice()) {
        Ok(()) => Status::Done,
        Err(Failed) => Status::OutputFailed,
    }
}

/// Asks a question at the head that is served under a URL, and prints the answer.
pub(crate) fn look<W: Sink, N: Dial>(
    alloc: Global,
    url: &Url,
    signer: &KeyedHash,
    question: Question,
    output: &mut W,
    dial: &mut N,
) -> Status
    ensures looks { Looks W.taken N.came signer.now url.now question output.old output.new dial.old dial.new result }
    ensures flushed { result ≢ OutputFailed → W.passed output.old ≡ W.taken output.old → W.passed output.new ≡ W.taken output.new }
    ensures reads { result ≢ InputFailed }
    ensures no_write_failed { result ≢ OutputFailed → W.faults output.new ≡ W.faults output.old }
    ensures writes { HasCause (W.faults output.old) (W.faults output.new) (result ≡ OutputFailed) }
    ensures stores { result ≢ StoreFailed }
    ensures asks { AsksFirst N.came N.looks dial.old dial.new }
    ensures links { HasCause (N.faults dial.old) (N.faults dial.new) (result ≡ LinkFailed) }
    ensures answered { IsSteady (W.faults output.old) (W.faults output.new) → IsSteady (N.faults dial.old) (N.faults dial.new)
        → Answered W.taken signer.now url.now question (N.came dial.old) (N.came dial.new) output.old output.new result }
{
    match ask(alloc, dial, url, signer, question) {
        Ok(found) => print_answer(alloc, found, output),
        Err(fault) => Status::of_ask(fault),
    }
}
