//! Why no request or reply was read.
ghost use Rattle.std.specs.Prelude.{◌≡◌};
ghost use Rattle.cv_http.specs.Faults.{filling};
ghost use Rattle.cv_http.specs.declared.fault.HttpFault.TheVariants as faults;

use crate::buffer::FillFault;
use cv_base::NoMemory;

/// Why a head, a body or a reply wasn't read.
#[derive(Clone, Copy, Debug, PartialEq, Eq)]
pub enum HttpFault {
    /// The bytes begin no head, or one that the standard refuses: with a Content-Length that is no decimal number of 64
    /// bits, or with two, or, of a request of HTTP/1.1, without exactly one Host. Or a reply has more than 16 interim heads.
    BadHead,
    /// No whole head is in the first 16,384 bytes, or it has more than 64 header fields.
    HeadTooLarge,
    /// The limit of a body is passed: of a reply's, 33,554,432 bytes. A session has limits of its own for those of
    /// requests, which no call of this crate judges.
    BodyTooLarge,
    /// A POST has no Content-Length.
    NoLength,
    /// The head has a Transfer-Encoding.
    Coding,
    /// The input ended inside a head or a body, or before the head of a reply.
    Short,
    /// The source failed.
    ReadFault,
    /// There was no memory.
    NoMemory,
}

impl From<NoMemory> for HttpFault {
    ghost from_gives = { λ _ e. e ≡ faults.NoMemory };

    fn from(_fault: NoMemory) -> HttpFault {
        HttpFault::NoMemory
    }
}

impl From<FillFault> for HttpFault {
    ghost from_gives = { λ fault e. e ≡ filling fault };

    fn from(fault: FillFault) -> HttpFault {
        match fault {
            FillFault::ReadFault => HttpFault::ReadFault,
            FillFault::NoMemory => HttpFault::NoMemory,
        }
    }
}
