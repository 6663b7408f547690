//! Why a question has no answer.
ghost use Rattle.std.specs.Prelude.{◌≡◌};
ghost use Rattle.cv_client.specs.Faults.{lost_by, bad_by, refused_by};
ghost use Rattle.cv_client.specs.declared.ask_fault.AskFault.TheVariants as faults;

use crate::exchanging::ExchangeFault;
use cv_base::NoMemory;
use cv_manifest::ManifestFault;
use cv_resolver::ClientFault;

/// Why a question has no answer.
#[derive(Clone, Copy, Debug, PartialEq, Eq)]
pub enum AskFault {
    /// No link could be opened, or one failed.
    LinkFailed,
    /// The server wrote no reply of HTTP, or one of a code that isn't an answer.
    BadReply,
    /// The manifest that is served has a fault.
    BadManifest,
    /// The client refuses it, for any cause but want of memory.
    Refused(ClientFault),
    /// There was no memory.
    NoMemory,
}

impl From<NoMemory> for AskFault {
    ghost from_gives = { λ _ fault. fault ≡ faults.NoMemory };

    fn from(_error: NoMemory) -> AskFault {
        AskFault::NoMemory
    }
}

impl AskFault {
    /// The fault where an exchange was lost.
    pub(crate) fn of_exchange(fault: ExchangeFault) -> AskFault
        ensures { result ≡ lost_by fault }
    {
        match fault {
            ExchangeFault::LinkFailed => AskFault::LinkFailed,
            ExchangeFault::BadReply => AskFault::BadReply,
            ExchangeFault::NoMemory => AskFault::NoMemory,
        }
    }

    /// The fault where the manifest has one.
    pub(crate) fn of_manifest(fault: ManifestFault) -> AskFault
        ensures { result ≡ bad_by fault }
    {
        match fault {
            ManifestFault::NoMemory => AskFault::NoMemory,
            _ => AskFault::BadManifest,
        }
    }

    /// The fault where the client refuses.
    pub(crate) fn of_client(fault: ClientFault) -> AskFault
        ensures { result ≡ refused_by fault }
    {
        match fault {
            ClientFault::NoMemory => AskFault::NoMemory,
            fault => AskFault::Refused(fault),
        }
    }
}
