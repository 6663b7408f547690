//! The command that publishes a folder of changes.
ghost use Rattle.std.specs.Prelude.{◌≡◌, ◌≢◌, false, IfOk, IsErrOf, Err};
ghost use Rattle.cv_base.specs.Counts.{HasCause};
ghost use Rattle.cv_base.specs.Marker.{marker, ends_in};
ghost use Rattle.cv_tree.specs.Changes.{FitsUnder};
ghost use Rattle.cv_overlay.specs.Changes.{AreContents};
ghost use Rattle.cv_overlay.specs.declared.read_fault.ReadFault.TheVariants as read_fault;
ghost use Rattle.cv_client.specs.Asking.{AsksFirst};
ghost use Rattle.cv_client.specs.declared.exchanging.ExchangeFault.TheVariants as exchange_fault;
ghost use Rattle.cv_shell.specs.Texts.{revision_line};
ghost use Rattle.cv_top.specs.Looks.{Prints};
ghost use Rattle.cv_top.specs.Publishes.{Exchanged, Publishes, ReadsRoot, Steps, start_of};
ghost use Rattle.cv_top.specs.PublishesInner.{PublishesOnce};
ghost use Rattle.cv_top.specs.Seal.{is_seal_by};
ghost use Rattle.cv_top.specs.SealedInner.{Sealed};
ghost use Rattle.cv_top.specs.declared.status.Status.TheVariants.{InputFailed, OutputFailed, StoreFailed, LinkFailed, FolderFailed};

use crate::print::print;
use crate::seal::{SealFault, read_seal};
use crate::status::Status;
use cv_base::{NoMemory, RepoPath, Text};
use cv_client::{ExchangeFault, Url, exchange};
use cv_keys::KeyTable;
use cv_overlay::{Changes, ReadFault, read_folder};
use cv_ports::{Clock, Dial, Failed, Folder, Sink};
use cv_publisher::laws::{a_lease_is_ended_once_after_a_fault, a_revision_is_published_in_order};
use cv_publisher::{PublishFault, Publisher, Want};
use cv_seal::KeyedHash;
use cv_shell::count_line;
use std::alloc::Global;

/// The changes that the folder of this name is, where they will be published at a path.
fn read_changes<F: Folder>(
    alloc: Global,
    folder: &mut F,
    root: &str,
    path: &RepoPath,
) -> Result<Changes, ReadFault>
    ensures reads { ReadsRoot F.holds F.named path.now root.now folder.old folder.new result }
    ensures cause { HasCause (F.faults folder.old) (F.faults folder.new) (IsErrOf result read_fault.Failed) }
    ensures limits { IfOk result (λ changes. FitsUnder path.now changes.nodes) }
    ensures contents { IfOk result (λ changes. AreContents changes.nodes changes.objects) }
{
    folder.root(alloc, root)?;
    read_folder(alloc, folder, path)
}

/// A publisher of changes at a path of the repository that is served under a URL.
fn publisher_of(
    alloc: Global,
    url: &Url,
    path: RepoPath,
    changes: Changes,
    now: u64,
) -> Result<Publisher, NoMemory>
    requires unmarked { ends_in marker path ≡ false }
    requires limits { FitsUnder path changes.nodes }
    ensures { IfOk result (λ publisher. publisher ≡ start_of url.now path changes now) }
{
    let name = url.repository.copy(alloc)?;
    let host = url.authority.copy(alloc)?;
    Publisher::new(alloc, name, host, path, changes, now)
}

/// Sends the request that a publisher wants, and gives it the reply. Answers its end where it wants nothing.
fn exchange_once<N: Dial>(
    alloc: Global,
    dial: &mut N,
    url: &Url,
    keys: &KeyTable,
    signer: &KeyedHash,
    publisher: &mut Publisher,
) -> Result<Option<Result<u64, PublishFault>>, ExchangeFault>
    ensures steps { Steps (is_seal_by signer.now) keys.now url.now (N.came dial.old) (N.came dial.new) publisher.old publisher.new result }
    ensures asks { AsksFirst N.came N.looks dial.old dial.new }
    ensures cause { HasCause (N.faults dial.old) (N.faults dial.new) (result ≡ Err exchange_fault.LinkFailed) }
{
    match publisher.want(alloc, keys)? {
        Want::Exchange(request) => {
            let reply = exchange(alloc, dial, url, &request)?;
            publisher.take(alloc, reply, signer);
            Ok(None)
        }
        Want::Done(end) => Ok(Some(end)),
    }
}

/// Sends what a publisher wants, exchange by exchange, until it wants nothing, and answers its end. After an exchange that has
/// no reply none follows. What can't be done in 2 to the 64th exchanges is answered as want of memory.
fn exchange_each<N: Dial>(
    alloc: Global,
    dial: &mut N,
    url: &Url,
    keys: &KeyTable,
    signer: &KeyedHash,
    publisher: &mut Publisher,
) -> Result<Result<u64, PublishFault>, ExchangeFault>
    ensures exchanged { Exchanged (is_seal_by signer.now) keys.now url.now (N.came dial.old) (N.came dial.new) publisher.old result }
    ensures asks { AsksFirst N.came N.looks dial.old dial.new }
    ensures cause { HasCause (N.faults dial.old) (N.faults dial.new) (result ≡ Err exchange_fault.LinkFailed) }
{
    'exchanges: for _ in 0..u64::MAX {
        match exchange_once(alloc, dial, url, keys, signer, publisher) {
            Ok(None) => {}
            Ok(Some(end)) => return Ok(end),
            Err(fault) => return Err(fault),
        }
    }
    Err(ExchangeFault::NoMemory)
}

/// Does so with a publisher of its own, which is done with then.
fn exchange_all<N: Dial>(
    alloc: Global,
    dial: &mut N,
    url: &Url,
    keys: &KeyTable,
    signer: &KeyedHash,
    publisher: Publisher,
) -> Result<Result<u64, PublishFault>, ExchangeFault>
    ensures exchanged { Exchanged (is_seal_by signer.now) keys.now url.now (N.came dial.old) (N.came dial.new) publisher result }
    ensures asks { AsksFirst N.came N.looks dial.old dial.new }
    ensures cause { HasCause (N.faults dial.old) (N.faults dial.new) (result ≡ Err exchange_fault.LinkFailed) }
{
    let mut publisher = publisher;
    exchange_each(alloc, dial, url, keys, signer, &mut publisher)
}

/// Prints the revision that was published.
fn print_revision<W: Sink>(alloc: Global, revision: u64, output: &mut W) -> Status
    ensures prints { Prints W.taken (revision_line revision) output.old output.new result }
    ensures flushed { result ≢ OutputFailed → W.passed output.old ≡ W.taken output.old → W.passed output.new ≡ W.taken output.new }
    ensures reads { result ≢ InputFailed }
    ensures no_write_failed { result ≢ OutputFailed → W.faults output.new ≡ W.faults output.old }
    ensures writes { HasCause (W.faults output.old) (W.faults output.new) (result ≡ OutputFailed) }
    ensures stores { result ≢ StoreFailed }
    ensures links { result ≢ LinkFailed }
    ensures folders { result ≢ FolderFailed }
{
    let Ok(line) = count_line(alloc, "revision", revision) else {
        return Status::OutOfMemory;
    };
    match print(output, line.as_slice()) {
        Ok(()) => Status::Done,
        Err(Failed) => Status::OutputFailed,
    }
}

/// Publishes the changes of the folder of this name at a path of the repository that is served under a URL, at the clock's
/// moment, and prints the revision that they became.
fn publish<W: Sink, C: Clock, F: Folder, N: Dial>(
    alloc: Global,
    url: &Url,
    path: RepoPath,
    root: &str,
    keys: &KeyTable,
    signer: &KeyedHash,
    output: &mut W,
    clock: &mut C,
    folder: &mut F,
    dial: &mut N,
) -> Status
    requires { ends_in marker path ≡ false }
    ensures publishes { Publishes W.taken C.moments F.holds F.named N.came keys.now signer.now url.now path root.now
        output.old output.new clock.old clock.new folder.old folder.new dial.old dial.new result }
    ensures published { PublishesOnce W.taken C.moments F.holds F.named N.came keys.now signer.now url.now path root.now
        output.old output.new clock.old clock.new folder.old folder.new dial.old dial.new result }
    ensures flushed { result ≢ OutputFailed → W.passed output.old ≡ W.taken output.old → W.passed output.new ≡ W.taken output.new }
    ensures reads { result ≢ InputFailed }
    ensures no_write_failed { result ≢ OutputFailed → W.faults output.new ≡ W.faults output.old }
    ensures writes { HasCause (W.faults output.old) (W.faults output.new) (result ≡ OutputFailed) }
    ensures stores { result ≢ StoreFailed }
    ensures asks { AsksFirst N.came N.looks dial.old dial.new }
    ensures links { HasCause (N.faults dial.old) (N.faults dial.new) (result ≡ LinkFailed) }
    ensures folders { HasCause (F.faults folder.old) (F.faults folder.new) (result ≡ FolderFailed) }
{
    a_revision_is_published_in_order();
    a_lease_is_ended_once_after_a_fault();
    let changes = match read_changes(alloc, folder, root, &path) {
        Ok(changes) => changes,
        Err(fault) => return Status::of_read(alloc, fault),
    };
    let now = clock.now();
    let Ok(publisher) = publisher_of(alloc, url, path, changes, now) else {
        return Status::OutOfMemory;
    };
    match exchange_all(alloc, dial, url, keys, signer, publisher) {
        Ok(Ok(revision)) => print_revision(alloc, revision, output),
        Ok(Err(fault)) => Status::of_publish(alloc, fault),
        Err(fault) => Status::of_exchange(fault),
    }
}

/// Judges the seal, and then publishes a folder of changes.
pub(crate) fn publish_sealed<W: Sink, C: Clock, F: Folder, N: Dial>(
    alloc: Global,
    url: &Url,
    path: RepoPath,
    root: &Text,
    table: &KeyTable,
    seal: &str,
    output: &mut W,
    clock: &mut C,
    folder: &mut F,
    dial: &mut N,
) -> Status
    requires { ends_in marker path ≡ false }
    ensures does { Sealed seal.now ((output.new ≡ output.old) × (clock.new ≡ clock.old) × (folder.new ≡ folder.old) × (dial.new ≡ dial.old))
        (Publishes W.taken C.moments F.holds F.named N.came table.now seal.now url.now path root.now
        output.old output.new clock.old clock.new folder.old folder.new dial.old dial.new) result }
    ensures flushed { result ≢ OutputFailed → W.passed output.old ≡ W.taken output.old → W.passed output.new ≡ W.taken output.new }
    ensures reads { result ≢ InputFailed }
    ensures no_write_failed { result ≢ OutputFailed → W.faults output.new ≡ W.faults output.old }
    ensures writes { HasCause (W.faults output.old) (W.faults output.new) (result ≡ OutputFailed) }
    ensures stores { result ≢ StoreFailed }
    ensures asks { AsksFirst N.came N.looks dial.old dial.new }
    ensures links { HasCause (N.faults dial.old) (N.faults dial.new) (result ≡ LinkFailed) }
    ensures folders { HasCause (F.faults folder.old) (F.faults folder.new) (result ≡ FolderFailed) }
{
    match read_seal(alloc, seal) {
        Ok(signer) => publish(
            alloc,
            url,
            path,
            root.as_str(),
            table,
            &signer,
            output,
            clock,
            folder,
            dial,
        ),
        Err(SealFault::Empty) => Status::BadKeys,
        Err(SealFault::NoMemory) => Status::OutOfMemory,
    }
}
