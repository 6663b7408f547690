//! How a shell ends.
ghost use Rattle.std.specs.Prelude.{◌≡◌};
ghost use Rattle.cv_shell.specs.Ends.{end_of_stop};
ghost use Rattle.cv_shell.specs.EndsInner.{end_of_fault};

use crate::lines::LineFault;
use crate::turn::Stop;

/// How a shell ends.
#[derive(Clone, Copy, Debug, PartialEq, Eq)]
pub enum ShellEnd {
    /// The input ended, and each line was answered.
    Ended,
    /// No link could be opened, or one failed.
    LinkFailed,
    /// The server wrote no reply of HTTP, or one of a code that isn't an answer.
    BadReply,
    /// A line has more than 8,192 bytes.
    TooLong,
    /// The input failed.
    InputFailed,
    /// The output failed.
    OutputFailed,
    /// There was no memory.
    NoMemory,
}

impl ShellEnd {
    /// The end where no line was read.
    pub(crate) fn of_fault(fault: LineFault) -> ShellEnd
        ensures { result ≡ end_of_fault fault }
    {
        match fault {
            LineFault::TooLong => ShellEnd::TooLong,
            LineFault::ReadFault => ShellEnd::InputFailed,
            LineFault::NoMemory => ShellEnd::NoMemory,
        }
    }

    /// The end where a line has no answer.
    pub(crate) fn of_stop(stop: Stop) -> ShellEnd
        ensures { result ≡ end_of_stop stop }
    {
        match stop {
            Stop::LinkFailed => ShellEnd::LinkFailed,
            Stop::BadReply => ShellEnd::BadReply,
            Stop::NoMemory => ShellEnd::NoMemory,
        }
    }
}
