//! The shell over an input and an output.
ghost use Rattle.std.specs.Prelude.{◌≡◌, ◌≢◌, Some, None, OnOk, OnErr, IsErr};
ghost use Rattle.cv_base.specs.Counts.{HasCause};
ghost use Rattle.cv_ports.specs.Streams.{onto, Wrote};
ghost use Rattle.cv_http.specs.Wires.{Draws};
ghost use Rattle.cv_client.specs.Asking.{AsksFirst};
ghost use Rattle.cv_shell.specs.Shells.{unheld, Answered, ReadsUpToDate, Shells};
ghost use Rattle.cv_shell.specs.declared.shell_end.ShellEnd.TheVariants.{LinkFailed, InputFailed, OutputFailed};

use crate::lines::Lines;
use crate::shell_end::ShellEnd;
use crate::turn::answer_line;
use cv_client::Url;
use cv_ports::{Dial, Failed, Sink, Source, write_all};
use cv_resolver::Resolver;
use cv_seal::Signer;
use std::alloc::Global;

/// Writes a text, and passes it on.
fn write_text<W: Sink>(output: &mut W, text: &[u8]) -> Result<(), Failed>
    ensures whole { OnOk result (W.taken output.new ≡ onto (W.taken output.old) text.now) }
    ensures part { Wrote (W.taken output.old) (W.taken output.new) text.now }
    ensures passed { OnOk result (W.passed output.new ≡ W.taken output.new) }
    ensures held { OnErr result (W.passed output.new ≡ W.passed output.old) }
    ensures no_write_failed { OnOk result (W.faults output.new ≡ W.faults output.old) }
    ensures cause { HasCause (W.faults output.old) (W.faults output.new) (IsErr result) }
{
    write_all(output, text)?;
    output.flush()
}

/// Answers a line, and writes its text. How the shell ends with it, if it does.
fn serve_line<N: Dial, S: Signer, W: Sink>(
    alloc: Global,
    dial: &mut N,
    url: &Url,
    signer: &S,
    resolver: &mut Resolver,
    line: &[u8],
    output: &mut W,
) -> Option<ShellEnd>
    ensures answered { Answered (S.is_seal signer.now) url.now line.now (N.came dial.old) (N.came dial.new) resolver.old resolver.new
        (W.taken output.old) (W.taken output.new) result }
    ensures flushed { result ≢ Some OutputFailed → W.passed output.old ≡ W.taken output.old → W.passed output.new ≡ W.taken output.new }
    ensures held { result ≡ Some OutputFailed → W.passed output.new ≡ W.passed output.old }
    ensures no_write_failed { result ≢ Some OutputFailed → W.faults output.new ≡ W.faults output.old }
    ensures writes { HasCause (W.faults output.old) (W.faults output.new) (result ≡ Some OutputFailed) }
    ensures asks { AsksFirst N.came N.looks dial.old dial.new }
    ensures links { HasCause (N.faults dial.old) (N.faults dial.new) (result ≡ Some LinkFailed) }
{
    let text = match answer_line(alloc, dial, url, signer, resolver, line) {
        Ok(text) => text,
        Err(stop) => return Some(ShellEnd::of_stop(stop)),
    };
    match write_text(output, text.as_slice()) {
        Ok(()) => None,
        Err(Failed) => Some(ShellEnd::OutputFailed),
    }
}

/// Answers lines, one after another.
fn serve_lines<N: Dial, S: Signer, R: Source<Beside = W> + Drop, W: Sink>(
    alloc: Global,
    dial: &mut N,
    url: &Url,
    signer: &S,
    resolver: &mut Resolver,
    lines: &mut Lines<R>,
    output: &mut W,
) -> ShellEnd
    ensures shells { Draws R.left R.given lines.old lines.new (λ b.
        Shells (S.is_seal signer.now) url.now
        (ReadsUpToDate (S.is_seal signer.now) url.now R.left R.looks lines.old lines.new (N.came dial.old) resolver.old (W.taken output.old) (W.passed output.old))
        (R.left lines.new.source) b (N.came dial.old) (N.came dial.new) resolver.old resolver.new (W.taken output.old) (W.taken output.new)
        (W.passed output.old) (W.passed output.new) result) }
    ensures flushed { result ≢ OutputFailed → W.passed output.old ≡ W.taken output.old → W.passed output.new ≡ W.taken output.new }
    ensures no_read_failed { result ≢ InputFailed → R.faults lines.new.source ≡ R.faults lines.old.source }
    ensures reads { HasCause (R.faults lines.old.source) (R.faults lines.new.source) (result ≡ InputFailed) }
    ensures no_write_failed { result ≢ OutputFailed → W.faults output.new ≡ W.faults output.old }
    ensures writes { HasCause (W.faults output.old) (W.faults output.new) (result ≡ OutputFailed) }
    ensures asks { AsksFirst N.came N.looks dial.old dial.new }
    ensures links { HasCause (N.faults dial.old) (N.faults dial.new) (result ≡ LinkFailed) }
{
    'turns: for _ in 0..u64::MAX {
        let line = match lines.next_line(alloc, output) {
            Ok(Some(line)) => line,
            Ok(None) => return ShellEnd::Ended,
            Err(fault) => return ShellEnd::of_fault(fault),
        };
        if let Some(end) = serve_line(alloc, dial, url, signer, resolver, line.as_slice(), output) {
            return end;
        }
    }
    ShellEnd::NoMemory
}

/// Answers the lines of an input at the revision that a client is pinned at, until the input ends. A line is `ls`, `stat` or
/// `cat`, one space and a path, or `renew`, which pins the client at the newest revision; it ends with a newline, which the
/// last may lack. Of an answer is printed: how many names, and each name; a line on an entry; how many bytes, and the bytes.
/// What is refused prints `refused: ` and its cause. After each text the output is flushed.
///
/// The input comes back. What was read of it beyond the last line that was answered is lost.
pub fn shell<N: Dial, S: Signer, R: Source<Beside = W> + Drop, W: Sink>(
    alloc: Global,
    dial: &mut N,
    url: &Url,
    signer: &S,
    resolver: &mut Resolver,
    input: R,
    output: &mut W,
) -> (ShellEnd, R)
    // Each line is answered, and its text passed on, before more of the input is read.
    ensures shells { Draws R.left R.given (unheld input) (unheld result.1) (λ b.
        Shells (S.is_seal signer.now) url.now
        (ReadsUpToDate (S.is_seal signer.now) url.now R.left R.looks (unheld input) (unheld result.1) (N.came dial.old) resolver.old (W.taken output.old) (W.passed output.old))
        (R.left result.1) b (N.came dial.old) (N.came dial.new) resolver.old resolver.new (W.taken output.old) (W.taken output.new)
        (W.passed output.old) (W.passed output.new) result.0) }

    // Where the output didn't fail, all that it took is passed on, if it was so at first.
    ensures flushed { result.0 ≢ OutputFailed → W.passed output.old ≡ W.taken output.old → W.passed output.new ≡ W.taken output.new }
    ensures no_read_failed { result.0 ≢ InputFailed → R.faults result.1 ≡ R.faults input }
    ensures reads { HasCause (R.faults input) (R.faults result.1) (result.0 ≡ InputFailed) }
    ensures no_write_failed { result.0 ≢ OutputFailed → W.faults output.new ≡ W.faults output.old }
    ensures writes { HasCause (W.faults output.old) (W.faults output.new) (result.0 ≡ OutputFailed) }
    ensures asks { AsksFirst N.came N.looks dial.old dial.new }
    ensures links { HasCause (N.faults dial.old) (N.faults dial.new) (result.0 ≡ LinkFailed) }
{
    let mut lines = Lines::new(alloc, input);
    let end = serve_lines(alloc, dial, url, signer, resolver, &mut lines, output);
    (end, lines.into_source())
}
