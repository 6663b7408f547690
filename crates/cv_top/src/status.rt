//! How the program ends.
ghost use Rattle.std.specs.Prelude.{◌≡◌, OnOk, IsErr};
ghost use Rattle.cv_base.specs.Counts.{HasCause};
ghost use Rattle.cv_ports.specs.Streams.{onto, Wrote};
ghost use Rattle.cv_base.specs.Path.{text_of as path_text_of};
ghost use Rattle.cv_top.specs.Publishes.{IsOrMemory, exchange_status, read_status, refusal_status, publish_status};
ghost use Rattle.cv_top.specs.declared.status.Status.TheVariants.{Changes};
ghost use Rattle.cv_top.specs.Status.{code_of, text_of, what_of, detail_of, said, line_of, init_status, open_status, end_status, ask_status, refused_status, shell_status};
ghost use Rattle.cv_top.specs.StatusInner.{keys_status};

use crate::client_fault::{LookFault, ServedFault};
use crate::publish_fault::{ChangesFault, RefusedFor};
use cv_answers::{Answer, Reason, Refusal};
use cv_base::{RepoPath, Text};
use cv_client::{AskFault, ExchangeFault};
use cv_keys::KeyFault;
use cv_overlay::ReadFault;
use cv_ports::{Failed, Sink, write_all};
use cv_publisher::PublishFault;
use cv_resolver::ClientFault;
use cv_session::SessionEnd;
use cv_shell::ShellEnd;
use cv_swap::{InitFault, OpenFault};
use std::alloc::Global;

/// What is wrong with the files of a repository.
#[derive(Clone, Copy, Debug, PartialEq, Eq)]
pub enum RepositoryFault {
    /// There is one already.
    Exists,
    /// Other bytes stand under the id of an object of the first revision.
    Collision,
    /// The bytes under the id of an object of the first revision are damaged.
    Damaged,
    /// There is none.
    Missing,
    /// The manifest's file is none.
    BadManifest,
    /// The manifest is that of another repository.
    OtherName,
    /// The records of the revisions are no chain.
    BadHistory,
    /// The epoch's file is none.
    BadEpoch,
    /// The repository was opened as often as can be.
    EpochsSpent,
}

impl RepositoryFault {
    /// What the line on standard error says.
    fn text(self) -> &'static str
        ensures { result.now ≡ text_of self }
    {
        match self {
            RepositoryFault::Exists => "exists",
            RepositoryFault::Collision => "collision",
            RepositoryFault::Damaged => "damaged",
            RepositoryFault::Missing => "missing",
            RepositoryFault::BadManifest => "bad manifest",
            RepositoryFault::OtherName => "other name",
            RepositoryFault::BadHistory => "bad history",
            RepositoryFault::BadEpoch => "bad epoch",
            RepositoryFault::EpochsSpent => "epochs spent",
        }
    }
}

/// How the program ends. Each status but `Done` has a line on standard error.
#[derive(Debug, Drop)]
pub enum Status {
    /// What was asked is done. A session over standard input ended where the input ends, or by a
    /// request that asked for the end or was the last that a session takes; a shell ended with its input.
    Done,
    /// The words aren't in the grammar of the command line.
    Usage,
    /// The repository can't be made or opened as its files stand.
    Repository(RepositoryFault),
    /// The gateway refused what a publisher asked.
    Refused(RefusedFor),
    /// The input failed.
    InputFailed,
    /// The output failed.
    OutputFailed,
    /// The vault failed when a repository was made or opened.
    StoreFailed,
    /// No link to a server could be opened, or one failed.
    LinkFailed,
    /// The journal of the gate was full, and a request was answered so.
    JournalFull,
    /// There is no answer to a question in the tree that is served.
    NoAnswer(LookFault),
    /// What a server serves is no repository under the seal, or lacks an object.
    Served(ServedFault),
    /// A server wrote no reply that answers the request.
    BadReply,
    /// The changes of a folder can't be published, by what is at the path of this text.
    Changes(ChangesFault, Text),
    /// A request that no further one can follow: it was faulty, or was cut; or a line of more than 8,192 bytes.
    BadRequest,
    /// The folder of changes failed.
    FolderFailed,
    /// The keys text has a fault, or the seal is empty.
    BadKeys,
    /// There was no memory.
    OutOfMemory,
}

impl Status {
    /// How the program ends where its session over standard input and output ended so.
    pub(crate) fn of_end(end: SessionEnd) -> Status
        ensures { result ≡ end_status end }
    {
        match end {
            SessionEnd::Clean | SessionEnd::Closed => Status::Done,
            SessionEnd::Bad(_) => Status::BadRequest,
            SessionEnd::ReadFault => Status::InputFailed,
            SessionEnd::WriteFault => Status::OutputFailed,
            SessionEnd::JournalFull => Status::JournalFull,
            SessionEnd::NoMemory => Status::OutOfMemory,
        }
    }

    /// How the program ends by a fault of the keys text.
    pub(crate) fn of_keys(fault: KeyFault) -> Status
        ensures { result ≡ keys_status fault }
    {
        match fault {
            KeyFault::NoMemory => Status::OutOfMemory,
            _ => Status::BadKeys,
        }
    }

    /// How the program ends where no first revision was made.
    pub(crate) fn of_init(fault: InitFault) -> Status
        ensures { result ≡ init_status fault }
    {
        match fault {
            InitFault::Exists => Status::Repository(RepositoryFault::Exists),
            InitFault::Collision(_) => Status::Repository(RepositoryFault::Collision),
            InitFault::Failed => Status::StoreFailed,
            InitFault::Damaged { .. } => Status::Repository(RepositoryFault::Damaged),
            InitFault::NoMemory => Status::OutOfMemory,
        }
    }

    /// How the program ends where the repository wasn't opened.
    pub(crate) fn of_open(fault: OpenFault) -> Status
        ensures { result ≡ open_status fault }
    {
        match fault {
            OpenFault::NoRepository => Status::Repository(RepositoryFault::Missing),
            OpenFault::BadManifest(_) => Status::Repository(RepositoryFault::BadManifest),
            OpenFault::OtherName => Status::Repository(RepositoryFault::OtherName),
            OpenFault::BadHistory(_) => Status::Repository(RepositoryFault::BadHistory),
            OpenFault::BadEpoch => Status::Repository(RepositoryFault::BadEpoch),
            OpenFault::EpochsSpent => Status::Repository(RepositoryFault::EpochsSpent),
            OpenFault::Failed => Status::StoreFailed,
            OpenFault::NoMemory => Status::OutOfMemory,
        }
    }

    /// How the program ends where a client refuses what it was given, or finds nothing.
    fn of_client(fault: ClientFault) -> Status
        ensures { result ≡ refused_status fault }
    {
        match fault {
            ClientFault::NotFound => Status::NoAnswer(LookFault::NotFound),
            ClientFault::NotDirectory => Status::NoAnswer(LookFault::NotDirectory),
            ClientFault::NotFile => Status::NoAnswer(LookFault::NotFile),
            ClientFault::TooManyLinks => Status::NoAnswer(LookFault::TooManyLinks),
            ClientFault::BadObject { id, .. } => Status::Served(ServedFault::BadObject(id)),
            ClientFault::BadCatalogue(id) => Status::Served(ServedFault::BadCatalogue(id)),
            ClientFault::NotServed(id) => Status::Served(ServedFault::NotServed(id)),
            ClientFault::NoMemory => Status::OutOfMemory,
        }
    }

    /// How the program ends where a question to a server has no answer.
    pub(crate) fn of_ask(fault: AskFault) -> Status
        ensures { result ≡ ask_status fault }
    {
        match fault {
            AskFault::LinkFailed => Status::LinkFailed,
            AskFault::BadReply => Status::BadReply,
            AskFault::BadManifest => Status::Served(ServedFault::BadManifest),
            AskFault::Refused(fault) => Status::of_client(fault),
            AskFault::NoMemory => Status::OutOfMemory,
        }
    }

    /// How the program ends where a shell ended so.
    pub(crate) fn of_shell(end: ShellEnd) -> Status
        ensures { result ≡ shell_status end }
    {
        match end {
            ShellEnd::Ended => Status::Done,
            ShellEnd::LinkFailed => Status::LinkFailed,
            ShellEnd::BadReply => Status::BadReply,
            ShellEnd::TooLong => Status::BadRequest,
            ShellEnd::InputFailed => Status::InputFailed,
            ShellEnd::OutputFailed => Status::OutputFailed,
            ShellEnd::NoMemory => Status::OutOfMemory,
        }
    }

    /// How the program ends where an exchange of a publisher had no reply.
    pub(crate) fn of_exchange(fault: ExchangeFault) -> Status
        ensures { result ≡ exchange_status fault }
    {
        match fault {
            ExchangeFault::LinkFailed => Status::LinkFailed,
            ExchangeFault::BadReply => Status::BadReply,
            ExchangeFault::NoMemory => Status::OutOfMemory,
        }
    }

    /// How the program ends by a fault of the changes, whose path is told by its text.
    fn of_changes(alloc: Global, fault: ChangesFault, path: &RepoPath) -> Status
        ensures { IsOrMemory (Changes fault (path_text_of path.now)) result }
    {
        match path.text(alloc) {
            Ok(text) => Status::Changes(fault, Text::new(text)),
            Err(_) => Status::OutOfMemory,
        }
    }

    /// How the program ends where the changes of a folder weren't read.
    pub(crate) fn of_read(alloc: Global, fault: ReadFault) -> Status
        ensures { IsOrMemory (read_status fault) result }
    {
        match fault {
            ReadFault::Special(path) => Status::of_changes(alloc, ChangesFault::Special, &path),
            ReadFault::BadName(path) => Status::of_changes(alloc, ChangesFault::BadName, &path),
            ReadFault::TooLarge(path) => Status::of_changes(alloc, ChangesFault::TooLarge, &path),
            ReadFault::Failed => Status::FolderFailed,
            ReadFault::NoMemory => Status::OutOfMemory,
        }
    }

    /// How the program ends by the gateway's answer, which refuses what a publisher asked.
    fn of_refusal(answer: Answer) -> Status
        ensures { result ≡ refusal_status answer }
    {
        match answer {
            Answer::PathBusy { .. } => Status::Refused(RefusedFor::PathBusy),
            Answer::Refused(refusal) => Status::Refused(RefusedFor::Said(refusal)),
            Answer::Granted { .. }
            | Answer::Done
            | Answer::Committed { .. }
            | Answer::Leases(_)
            | Answer::Repos(_) => Status::BadReply,
        }
    }

    /// How the program ends where a publisher published nothing.
    pub(crate) fn of_publish(alloc: Global, fault: PublishFault) -> Status
        ensures { IsOrMemory (publish_status fault) result }
    {
        match fault {
            PublishFault::Refused(answer) => Status::of_refusal(answer),
            PublishFault::BadReply => Status::BadReply,
            PublishFault::BadManifest(_) => Status::Served(ServedFault::BadManifest),
            PublishFault::BadObject { id, .. } => Status::Served(ServedFault::BadObject(id)),
            PublishFault::NotServed(id) => Status::Served(ServedFault::NotServed(id)),
            PublishFault::BadCatalogue(id) => Status::Served(ServedFault::BadCatalogue(id)),
            PublishFault::BadWhiteout(path) => {
                Status::of_changes(alloc, ChangesFault::BadWhiteout, &path)
            }
            PublishFault::PathCollision { first, .. } => {
                Status::of_changes(alloc, ChangesFault::PathCollision, &first)
            }
            PublishFault::CatalogueFull(path) => {
                Status::of_changes(alloc, ChangesFault::CatalogueFull, &path)
            }
            PublishFault::NoParent => {
                Status::Refused(RefusedFor::Said(Refusal::Plain(Reason::NoParent)))
            }
            PublishFault::NoMemory => Status::OutOfMemory,
        }
    }

    /// The exit status of the program.
    pub fn code(&self) -> u8
        ensures { result ≡ code_of self.now }
    {
        match self {
            Status::Done => 0,
            Status::Usage => 2,
            Status::Repository(_) => 3,
            Status::Refused(_) => 4,
            Status::InputFailed => 5,
            Status::OutputFailed => 6,
            Status::StoreFailed => 7,
            Status::LinkFailed => 8,
            Status::JournalFull => 9,
            Status::NoAnswer(_) => 10,
            Status::Served(_) => 11,
            Status::BadReply => 12,
            Status::Changes(_, _) => 13,
            Status::BadRequest => 14,
            Status::FolderFailed => 15,
            Status::BadKeys => 16,
            Status::OutOfMemory => 70,
        }
    }

    /// What the line on standard error says.
    fn what(&self) -> &'static str
        ensures { result.now ≡ what_of self.now }
    {
        match self {
            Status::Done => "",
            Status::Usage => "usage",
            Status::Repository(_) => "repository: ",
            Status::Refused(_) => "refused: ",
            Status::InputFailed => "input failed",
            Status::OutputFailed => "output failed",
            Status::StoreFailed => "store failed",
            Status::LinkFailed => "link failed",
            Status::JournalFull => "journal full",
            Status::NoAnswer(fault) => fault.text(),
            Status::Served(fault) => fault.text(),
            Status::BadReply => "bad reply",
            Status::Changes(fault, _) => fault.text(),
            Status::BadRequest => "bad request",
            Status::FolderFailed => "folder failed",
            Status::BadKeys => "bad keys",
            Status::OutOfMemory => "out of memory",
        }
    }

    /// Writes of what the line says that.
    fn write_detail<E: Sink>(&self, errors: &mut E) -> Result<(), Failed>
        ensures whole { OnOk result (E.taken errors.new ≡ onto (E.taken errors.old) (detail_of self.now)) }
        ensures part { Wrote (E.taken errors.old) (E.taken errors.new) (detail_of self.now) }
        ensures cause { HasCause (E.faults errors.old) (E.faults errors.new) (IsErr result) }
    {
        match self {
            Status::Repository(fault) => write_all(errors, fault.text().as_bytes()),
            Status::Refused(cause) => write_all(errors, cause.text().as_bytes()),
            Status::Served(fault) => fault.write_object(errors),
            Status::Changes(_, path) => write_all(errors, path.as_str().as_bytes()),
            _ => write_all(errors, b"".as_slice()),
        }
    }

    /// Writes a line of the program: its name, what is said, and of what.
    fn write_said<E: Sink>(&self, errors: &mut E) -> Result<(), Failed>
        ensures whole { OnOk result (E.taken errors.new ≡ onto (E.taken errors.old) (said (what_of self.now) (detail_of self.now))) }
        ensures part { Wrote (E.taken errors.old) (E.taken errors.new) (said (what_of self.now) (detail_of self.now)) }
        ensures cause { HasCause (E.faults errors.old) (E.faults errors.new) (IsErr result) }
    {
        write_all(errors, b"cvkit: ".as_slice())?;
        write_all(errors, self.what().as_bytes())?;
        self.write_detail(errors)?;
        write_all(errors, b"\n".as_slice())?;
        Ok(())
    }

    /// Writes the line of the status on standard error, which `Done` has none of. It takes no memory.
    pub fn write_line<E: Sink>(&self, errors: &mut E) -> Result<(), Failed>
        ensures whole { OnOk result (E.taken errors.new ≡ onto (E.taken errors.old) (line_of self.now)) }
        ensures part { Wrote (E.taken errors.old) (E.taken errors.new) (line_of self.now) }
        ensures cause { HasCause (E.faults errors.old) (E.faults errors.new) (IsErr result) }
    {
        match self {
            Status::Done => Ok(()),
            status => status.write_said(errors),
        }
    }
}
