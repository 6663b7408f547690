//! The shell's command.
ghost use Rattle.std.specs.Prelude.{◌≡◌, ◌≢◌};
ghost use Rattle.cv_base.specs.Counts.{HasCause};
ghost use Rattle.cv_client.specs.Asking.{AsksFirst};
ghost use Rattle.cv_top.specs.Lines.{AnswersLines};
ghost use Rattle.cv_top.specs.declared.status.Status.TheVariants.{InputFailed, OutputFailed, StoreFailed, LinkFailed};

use crate::status::Status;
use cv_client::{Url, pin};
use cv_ports::{Dial, Sink, Source};
use cv_seal::KeyedHash;
use cv_shell::shell;
use std::alloc::Global;

/// Answers the lines of the input, at first at the head that is served under a URL.
pub(crate) fn answer_lines<R: Source<Beside = W> + Drop, W: Sink, N: Dial>(
    alloc: Global,
    url: &Url,
    signer: &KeyedHash,
    input: R,
    output: &mut W,
    dial: &mut N,
) -> (Status, R)
    ensures answers { AnswersLines R.left R.given R.looks W.taken W.passed signer.now url.now (N.came dial.old) (N.came dial.new)
        input result.1 output.old output.new result.0 }
    ensures flushed { result.0 ≢ OutputFailed → W.passed output.old ≡ W.taken output.old → W.passed output.new ≡ W.taken output.new }
    ensures no_read_failed { result.0 ≢ InputFailed → R.faults result.1 ≡ R.faults input }
    ensures reads { HasCause (R.faults input) (R.faults result.1) (result.0 ≡ InputFailed) }
    ensures no_write_failed { result.0 ≢ OutputFailed → W.faults output.new ≡ W.faults output.old }
    ensures writes { HasCause (W.faults output.old) (W.faults output.new) (result.0 ≡ OutputFailed) }
    ensures stores { result.0 ≢ StoreFailed }
    ensures asks { AsksFirst N.came N.looks dial.old dial.new }
    ensures links { HasCause (N.faults dial.old) (N.faults dial.new) (result.0 ≡ LinkFailed) }
{
    match pin(alloc, dial, url, signer) {
        Ok(mut resolver) => {
            let (end, input) = shell(alloc, dial, url, signer, &mut resolver, input, output);
            (Status::of_shell(end), input)
        }
        Err(fault) => (Status::of_ask(fault), input),
    }
}
