//! The program's own call.
ghost use Rattle.std.specs.Prelude.{◌≡◌, ◌≢◌, ◌⊎◌, [], true, false, map, string_bytes};
ghost use Rattle.cv_base.specs.Counts.{HasCause, Rose};
ghost use Rattle.cv_base.specs.Marker.{marker, ends_in};
ghost use Rattle.cv_ports.specs.Streams.{onto, Wrote};
ghost use Rattle.cv_client.specs.Asking.{AsksFirst};
ghost use Rattle.cv_top.specs.Complete.{IsSteady, Completes};
ghost use Rattle.cv_top.specs.Limits.{AreLimits};
ghost use Rattle.cv_top.specs.Lines.{IsShell, AnswersLines, TellsLines};
ghost use Rattle.cv_top.specs.Looks.{Looks};
ghost use Rattle.cv_top.specs.Publishes.{IsPublisher, Publishes, PublishesAsked};
ghost use Rattle.cv_top.specs.Runs.{Inits, Serves, Keeps, Runs, outside};
ghost use Rattle.cv_top.specs.SealedInner.{Keyed, Sealed};
ghost use Rattle.cv_top.specs.Status.{line_of};
ghost use Rattle.cv_top.specs.Tells.{IsQuestion, Tells, tells_of_tree};
ghost use Rattle.cv_top.specs.Wholes.{Answered, Answers};
ghost use Rattle.cv_top.specs.declared.status.Status.TheVariants.{InputFailed, OutputFailed, StoreFailed, LinkFailed, FolderFailed};

use crate::init::init;
use crate::limits::limits_are;
use crate::look::look;
use crate::parts::Parts;
use crate::publish::publish_sealed;
use crate::seal::{Identity, SealFault, read_seal};
use crate::shell::answer_lines;
use crate::status::Status;
use crate::stdio::serve;
use cv_base::{Name, RepoPath, Text};
use cv_client::Url;
use cv_keys::KeyTable;
use cv_ports::{Clock, Dial, Failed, Folder, Hold, Sink, Source};
use cv_publisher::laws::{a_lease_is_ended_once_after_a_fault, a_revision_is_published_in_order};
use cv_resolver::Question;
use cv_swap::laws::{opening_finds_what_is_kept, opening_keeps_what_is_kept};
use cv_vault::Vault;
use cv_words::{Command, WordsFault, read_words};
use std::alloc::Global;

/// Judges the seal, and then makes the repository.
fn do_init<V: Vault + Drop, W: Sink, C: Clock>(
    alloc: Global,
    name: &Name,
    seal: &str,
    vault: V,
    output: &mut W,
    clock: &mut C,
) -> (Status, V)
    ensures does { Sealed seal.now ((result.1 ≡ vault) × (output.new ≡ output.old) × (clock.new ≡ clock.old))
        (Inits V.disk V.count V.left W.taken C.moments name.now seal.now vault result.1 output.old output.new clock.old clock.new) result.0 }
    ensures flushed { result.0 ≢ OutputFailed → W.passed output.old ≡ W.taken output.old → W.passed output.new ≡ W.taken output.new }
    ensures reads { result.0 ≢ InputFailed }
    ensures no_write_failed { result.0 ≢ OutputFailed → W.faults output.new ≡ W.faults output.old }
    ensures writes { HasCause (W.faults output.old) (W.faults output.new) (result.0 ≡ OutputFailed) }
    ensures stores { HasCause (V.faults vault) (V.faults result.1) (result.0 ≡ StoreFailed) }
    ensures links { result.0 ≢ LinkFailed }
{
    match read_seal(alloc, seal) {
        Ok(signer) => init(alloc, name, &signer, vault, output, clock),
        Err(SealFault::Empty) => (Status::BadKeys, vault),
        Err(SealFault::NoMemory) => (Status::OutOfMemory, vault),
    }
}

/// Judges the seal, and then serves the repository under these keys.
fn do_stdio<V: Vault + Drop, R: Source<Beside = W> + Drop, W: Sink, C: Clock, H: Hold>(
    alloc: Global,
    name: &Name,
    table: &KeyTable,
    seal: &str,
    vault: V,
    input: R,
    output: &mut W,
    clock: &mut C,
    hold: &H,
) -> (Status, V, R)
    ensures does { Sealed seal.now ((result.1 ≡ vault) × (result.2 ≡ input) × (output.new ≡ output.old) × (clock.new ≡ clock.old))
        (Serves V.disk V.count V.left V.faults R.left R.given R.looks W.taken W.passed C.moments name.now table.now seal.now
        vault result.1 input result.2 output.old output.new clock.old clock.new) result.0 }
    ensures flushed { result.0 ≢ OutputFailed → W.passed output.old ≡ W.taken output.old → W.passed output.new ≡ W.taken output.new }
    ensures no_read_failed { result.0 ≢ InputFailed → R.faults result.2 ≡ R.faults input }
    ensures reads { HasCause (R.faults input) (R.faults result.2) (result.0 ≡ InputFailed) }
    ensures no_write_failed { result.0 ≢ OutputFailed → W.faults output.new ≡ W.faults output.old }
    ensures writes { HasCause (W.faults output.old) (W.faults output.new) (result.0 ≡ OutputFailed) }
    ensures stores { HasCause (V.faults vault) (V.faults result.1) (result.0 ≡ StoreFailed) }
    ensures links { result.0 ≢ LinkFailed }
{
    let repository = match Identity::read(alloc, name, seal) {
        Ok(repository) => repository,
        Err(SealFault::Empty) => return (Status::BadKeys, vault, input),
        Err(SealFault::NoMemory) => return (Status::OutOfMemory, vault, input),
    };
    let Ok(signer) = read_seal(alloc, seal) else {
        return (Status::OutOfMemory, vault, input);
    };
    serve(
        alloc, repository, signer, table, vault, input, output, clock, hold,
    )
}

/// Judges the seal, and then asks a server and prints the answer.
fn do_look<W: Sink, N: Dial>(
    alloc: Global,
    url: &Url,
    question: Question,
    seal: &str,
    output: &mut W,
    dial: &mut N,
) -> Status
    ensures does { Sealed seal.now ((output.new ≡ output.old) × (dial.new ≡ dial.old))
        (Looks W.taken N.came seal.now url.now question output.old output.new dial.old dial.new) result }
    ensures flushed { result ≢ OutputFailed → W.passed output.old ≡ W.taken output.old → W.passed output.new ≡ W.taken output.new }
    ensures reads { result ≢ InputFailed }
    ensures no_write_failed { result ≢ OutputFailed → W.faults output.new ≡ W.faults output.old }
    ensures writes { HasCause (W.faults output.old) (W.faults output.new) (result ≡ OutputFailed) }
    ensures stores { result ≢ StoreFailed }
    ensures asks { AsksFirst N.came N.looks dial.old dial.new }
    ensures links { HasCause (N.faults dial.old) (N.faults dial.new) (result ≡ LinkFailed) }
    ensures answered { IsSteady (W.faults output.old) (W.faults output.new) → IsSteady (N.faults dial.old) (N.faults dial.new) → seal.now ≢ []
        → Answered W.taken seal.now url.now question (N.came dial.old) (N.came dial.new) output.old output.new result }
{
    match read_seal(alloc, seal) {
        Ok(signer) => look(alloc, url, &signer, question, output, dial),
        Err(SealFault::Empty) => Status::BadKeys,
        Err(SealFault::NoMemory) => Status::OutOfMemory,
    }
}

/// Judges the seal, and then answers the lines of the input.
fn do_shell<R: Source<Beside = W> + Drop, W: Sink, N: Dial>(
    alloc: Global,
    url: &Url,
    seal: &str,
    input: R,
    output: &mut W,
    dial: &mut N,
) -> (Status, R)
    ensures does { Sealed seal.now ((result.1 ≡ input) × (output.new ≡ output.old) × (dial.new ≡ dial.old))
        (AnswersLines R.left R.given R.looks W.taken W.passed seal.now url.now (N.came dial.old) (N.came dial.new)
        input result.1 output.old output.new) result.0 }
    ensures flushed { result.0 ≢ OutputFailed → W.passed output.old ≡ W.taken output.old → W.passed output.new ≡ W.taken output.new }
    ensures no_read_failed { result.0 ≢ InputFailed → R.faults result.1 ≡ R.faults input }
    ensures reads { HasCause (R.faults input) (R.faults result.1) (result.0 ≡ InputFailed) }
    ensures no_write_failed { result.0 ≢ OutputFailed → W.faults output.new ≡ W.faults output.old }
    ensures writes { HasCause (W.faults output.old) (W.faults output.new) (result.0 ≡ OutputFailed) }
    ensures stores { result.0 ≢ StoreFailed }
    ensures asks { AsksFirst N.came N.looks dial.old dial.new }
    ensures links { HasCause (N.faults dial.old) (N.faults dial.new) (result.0 ≡ LinkFailed) }
{
    match read_seal(alloc, seal) {
        Ok(signer) => answer_lines(alloc, url, &signer, input, output, dial),
        Err(SealFault::Empty) => (Status::BadKeys, input),
        Err(SealFault::NoMemory) => (Status::OutOfMemory, input),
    }
}

/// Judges the keys, and then publishes a folder of changes.
fn do_publish<W: Sink, C: Clock, F: Folder, N: Dial>(
    alloc: Global,
    url: &Url,
    path: RepoPath,
    root: &Text,
    keys: &str,
    seal: &str,
    output: &mut W,
    clock: &mut C,
    folder: &mut F,
    dial: &mut N,
) -> Status
    requires { ends_in marker path ≡ false }
    ensures does { Keyed keys.now seal.now ((output.new ≡ output.old) × (clock.new ≡ clock.old) × (folder.new ≡ folder.old) × (dial.new ≡ dial.old))
        (λ table. Publishes W.taken C.moments F.holds F.named N.came table seal.now url.now path root.now
        output.old output.new clock.old clock.new folder.old folder.new dial.old dial.new) result }
    ensures flushed { result ≢ OutputFailed → W.passed output.old ≡ W.taken output.old → W.passed output.new ≡ W.taken output.new }
    ensures reads { result ≢ InputFailed }
    ensures no_write_failed { result ≢ OutputFailed → W.faults output.new ≡ W.faults output.old }
    ensures writes { HasCause (W.faults output.old) (W.faults output.new) (result ≡ OutputFailed) }
    ensures stores { result ≢ StoreFailed }
    ensures asks { AsksFirst N.came N.looks dial.old dial.new }
    ensures links { HasCause (N.faults dial.old) (N.faults dial.new) (result ≡ LinkFailed) }
    ensures folders { HasCause (F.faults folder.old) (F.faults folder.new) (result ≡ FolderFailed) }
{
    match KeyTable::read(alloc, keys.as_bytes()) {
        Ok(table) => publish_sealed(
            alloc, url, path, root, &table, seal, output, clock, folder, dial,
        ),
        Err(fault) => Status::of_keys(fault),
    }
}

/// Does what the words ask for.
fn do_command<
    V: Vault + Drop,
    R: Source<Beside = W> + Drop,
    W: Sink,
    C: Clock,
    F: Folder,
    N: Dial,
    H: Hold,
>(
    alloc: Global,
    words: &[String],
    keys: &str,
    seal: &str,
    vault: V,
    input: R,
    output: &mut W,
    clock: &mut C,
    folder: &mut F,
    dial: &mut N,
    hold: &H,
) -> (Status, V, R)
    ensures runs { Runs V.disk V.count V.left V.faults R.left R.given R.looks W.taken W.passed C.moments F.holds F.named N.came (map string_bytes words.now) keys.now seal.now
        (outside vault input output.old clock.old folder.old dial.old) (outside result.1 result.2 output.new clock.new folder.new dial.new) result.0 }
    ensures flushed { result.0 ≢ OutputFailed → W.passed output.old ≡ W.taken output.old → W.passed output.new ≡ W.taken output.new }
    ensures no_read_failed { result.0 ≢ InputFailed → R.faults result.2 ≡ R.faults input }
    ensures reads { HasCause (R.faults input) (R.faults result.2) (result.0 ≡ InputFailed) }
    ensures no_write_failed { result.0 ≢ OutputFailed → W.faults output.new ≡ W.faults output.old }
    ensures writes { HasCause (W.faults output.old) (W.faults output.new) (result.0 ≡ OutputFailed) }
    ensures stores { HasCause (V.faults vault) (V.faults result.1) (result.0 ≡ StoreFailed) }
    ensures asks { AsksFirst N.came N.looks dial.old dial.new }
    ensures links { HasCause (N.faults dial.old) (N.faults dial.new) (result.0 ≡ LinkFailed) }
    ensures folders { HasCause (F.faults folder.old) (F.faults folder.new) (result.0 ≡ FolderFailed) }
    ensures answered { IsSteady (W.faults output.old) (W.faults output.new) → IsSteady (N.faults dial.old) (N.faults dial.new)
        → IsQuestion (map string_bytes words.now) → seal.now ≢ []
        → Answers W.taken (map string_bytes words.now) seal.now (N.came dial.old) (N.came dial.new) output.old output.new result.0 }
{
    match read_words(alloc, words) {
        Ok(Command::Init(name)) => {
            let (status, vault) = do_init(alloc, &name, seal, vault, output, clock);
            (status, vault, input)
        }
        Ok(Command::Stdio(name)) => match KeyTable::read(alloc, keys.as_bytes()) {
            Ok(table) => do_stdio(
                alloc, &name, &table, seal, vault, input, output, clock, hold,
            ),
            Err(fault) => (Status::of_keys(fault), vault, input),
        },
        Ok(Command::Look(url, question)) => {
            let status = do_look(alloc, &url, question, seal, output, dial);
            (status, vault, input)
        }
        Ok(Command::Shell(url)) => {
            let (status, input) = do_shell(alloc, &url, seal, input, output, dial);
            (status, vault, input)
        }
        Ok(Command::Publish(url, path, root)) => {
            let status = do_publish(
                alloc, &url, path, &root, keys, seal, output, clock, folder, dial,
            );
            (status, vault, input)
        }
        Err(WordsFault::Usage) => (Status::Usage, vault, input),
        Err(WordsFault::NoMemory) => (Status::OutOfMemory, vault, input),
    }
}

/// Writes the line of a status. A line that can't be written whole is a fault of the sink.
fn say<E: Sink>(errors: &mut E, status: &Status)
    ensures whole { (E.taken errors.new ≡ onto (E.taken errors.old) (line_of status.now)) ⊎ Rose 1 (E.faults errors.old) (E.faults errors.new) }
    ensures part { Wrote (E.taken errors.old) (E.taken errors.new) (line_of status.now) }
{
    match status.write_line(errors) {
        Ok(()) => {}
        Err(Failed) => {}
    }
}

/// Does what the words after the program's name ask for, on these parts. Answers how the program ends, whose line it wrote
/// on `errors`, and the parts again.
///
/// `init <repository>` makes the first revision of a repository in the vault, and prints `revision 1`. `stdio <repository>`
/// opens it, reads requests (RFC 9112) from the input and answers them on the output: it serves the manifest and the
/// objects, grants and ends leases on the repository's paths, stores payloads, and makes commits. `ls`, `stat` and `cat`,
/// each with the URL under which a repository is served and a path, print the names of a directory, a line on an entry, or
/// the content of a file, as they are in the tree of the manifest that is served. `shell`, with a URL, answers the lines of
/// the input, each of which is such a command with a path alone, or `renew`: all in the tree of the manifest that was served
/// first, or of the one that the last `renew` took. A line is answered, and the output flushed, before more is read.
/// `publish`, with a URL, a path and the name of a folder, publishes the folder's changes at the path through the gateway that
/// serves the repository, signed by the first key, and prints the revision that they became.
pub fn run<
    V: Vault + Drop,
    R: Source<Beside = W> + Drop,
    W: Sink,
    E: Sink,
    C: Clock,
    F: Folder,
    N: Dial,
    H: Hold,
>(
    alloc: Global,
    words: &[String],
    parts: Parts<V, R, W, E, C, F, N, H>,
) -> (Status, Parts<V, R, W, E, C, F, N, H>)
    ensures runs { Runs V.disk V.count V.left V.faults R.left R.given R.looks W.taken W.passed C.moments F.holds F.named N.came (map string_bytes words.now) (string_bytes parts.keys) (string_bytes parts.seal)
        (outside parts.vault parts.input parts.output parts.clock parts.folder parts.dial) (outside result.1.vault result.1.input result.1.output result.1.clock result.1.folder result.1.dial) result.0 }

    // The headline: what is kept stays on one line of revisions, whatever is asked, and whenever the program is cut.
    ensures headline { Keeps V.disk V.count V.left V.faults R.left R.given R.looks W.taken W.passed C.moments (map string_bytes words.now) (string_bytes parts.keys) (string_bytes parts.seal)
        (outside parts.vault parts.input parts.output parts.clock parts.folder parts.dial) (outside result.1.vault result.1.input result.1.output result.1.clock result.1.folder result.1.dial) }
    ensures texts { (result.1.keys ≡ parts.keys) × (result.1.seal ≡ parts.seal) × (result.1.hold ≡ parts.hold) }

    // Where the output didn't fail, all that it took is passed on.
    ensures flushed { result.0 ≢ OutputFailed → W.passed parts.output ≡ W.taken parts.output → W.passed result.1.output ≡ W.taken result.1.output }

    // Each failure has its cause in this call.
    ensures reads { HasCause (R.faults parts.input) (R.faults result.1.input) (result.0 ≡ InputFailed) }
    ensures writes { HasCause (W.faults parts.output) (W.faults result.1.output) (result.0 ≡ OutputFailed) }
    ensures stores { HasCause (V.faults parts.vault) (V.faults result.1.vault) (result.0 ≡ StoreFailed) }
    ensures links { HasCause (N.faults parts.dial) (N.faults result.1.dial) (result.0 ≡ LinkFailed) }
    ensures folders { HasCause (F.faults parts.folder) (F.faults result.1.folder) (result.0 ≡ FolderFailed) }

    // Where the input or the output failed, the program ends by that: behind a failed write nothing is read, and the other way.
    ensures no_read_failed { result.0 ≢ InputFailed → R.faults result.1.input ≡ R.faults parts.input }
    ensures no_write_failed { result.0 ≢ OutputFailed → W.faults result.1.output ≡ W.faults parts.output }

    // Each read of a link began when that link had passed on a whole request, and had given no whole reply.
    ensures asks { AsksFirst N.came N.looks parts.dial result.1.dial }

    // Where no count rose, `init` and `stdio` do their work, or want memory.
    ensures completes { IsSteady (R.faults parts.input) (R.faults result.1.input) → IsSteady (W.faults parts.output) (W.faults result.1.output) → IsSteady (V.faults parts.vault) (V.faults result.1.vault)
        → Completes (map string_bytes words.now) (string_bytes parts.keys) (string_bytes parts.seal) (V.disk parts.vault) result.0 }

    // And a client's command tells the answer, where each link that came back sent what the server has, and it has the answer.
    ensures answered { IsSteady (W.faults parts.output) (W.faults result.1.output) → IsSteady (N.faults parts.dial) (N.faults result.1.dial)
        → IsQuestion (map string_bytes words.now) → string_bytes parts.seal ≢ []
        → Answers W.taken (map string_bytes words.now) (string_bytes parts.seal) (N.came parts.dial) (N.came result.1.dial) parts.output result.1.output result.0 }

    // Whatever its links give: what a client's command tells is so in the tree of the head that is served.
    ensures tells { IsQuestion (map string_bytes words.now) → tells_of_tree result.0 ≡ true
        → Tells W.taken (map string_bytes words.now) (string_bytes parts.seal) (N.came parts.dial) (N.came result.1.dial) parts.output result.1.output result.0 }

    // The same of a shell, line by line, in the tree of the head at which its client is pinned; and where the links of a line sent
    // what a server has, which is all that it wants, the line is answered by the tree.
    ensures shell { IsShell (map string_bytes words.now)
        → TellsLines R.left R.given W.taken (map string_bytes words.now) (string_bytes parts.seal) (N.came parts.dial) (N.came result.1.dial)
        parts.input result.1.input parts.output result.1.output result.0 }

    // And of a publisher: what went over its links was one publication of the folder's changes, whose end is told.
    ensures published { IsPublisher (map string_bytes words.now)
        → PublishesAsked W.taken C.moments F.holds F.named N.came (map string_bytes words.now) (string_bytes parts.keys) (string_bytes parts.seal)
        parts.output result.1.output parts.clock result.1.clock parts.folder result.1.folder parts.dial result.1.dial result.0 }

    // The line of the status is written whole, unless the sink failed. That changes no status.
    ensures line { (E.taken result.1.errors ≡ onto (E.taken parts.errors) (line_of result.0)) ⊎ Rose 1 (E.faults parts.errors) (E.faults result.1.errors) }
    ensures errors { Wrote (E.taken parts.errors) (E.taken result.1.errors) (line_of result.0) }

    // The limits of the definitions are these numbers.
    ensures limits { AreLimits }
{
    opening_keeps_what_is_kept();
    opening_finds_what_is_kept();
    a_revision_is_published_in_order();
    a_lease_is_ended_once_after_a_fault();
    limits_are();
    let Parts {
        vault,
        input,
        mut output,
        mut errors,
        mut clock,
        keys,
        seal,
        mut folder,
        mut dial,
        hold,
    } = parts;
    let (status, vault, input) = do_command(
        alloc,
        words,
        keys.as_str(),
        seal.as_str(),
        vault,
        input,
        &mut output,
        &mut clock,
        &mut folder,
        &mut dial,
        &hold,
    );
    say(&mut errors, &status);
    let parts = Parts {
        vault,
        input,
        output,
        errors,
        clock,
        keys,
        seal,
        folder,
        dial,
        hold,
    };
    (status, parts)
}
