//! One exchange with a server.
ghost use Rattle.std.specs.Prelude.{◌≡◌, ◌≤◌, ◌⊎◌, [], IsSome};
ghost use Rattle.cv_base.specs.Counts.{HasCause, Rose};
ghost use Rattle.cv_base.specs.Told.{WhereTold};
ghost use Rattle.cv_ports.specs.Dial.{came_of};
ghost use Rattle.cv_ports.specs.Streams.{Look};
ghost use Rattle.cv_client.specs.Asking.{IsBehind, IsRead};
ghost use Rattle.cv_client.specs.Exchange.{Converses, Exchanges, IsTold};
ghost use Rattle.cv_client.specs.FaultsInner.{of_send, of_read};
ghost use Rattle.cv_client.specs.declared.exchanging.ExchangeFault.TheVariants.{LinkFailed};
ghost use Rattle.cv_client.specs.declared.exchanging.ExchangeFault.TheVariants as faults;

use crate::url::Url;
use cv_base::NoMemory;
use cv_http::{HttpFault, HttpReply, Outgoing, SendFault, Wire, write_request};
use cv_ports::{Dial, Link, Sink, Source};
use std::alloc::Global;

/// Why an exchange has no reply.
#[derive(Clone, Copy, Debug, PartialEq, Eq)]
pub enum ExchangeFault {
    /// No link could be opened, or it failed.
    LinkFailed,
    /// What the server wrote is no reply of HTTP (RFC 9112), or ends inside one.
    BadReply,
    /// There was no memory.
    NoMemory,
}

impl From<NoMemory> for ExchangeFault {
    ghost from_gives = { λ _ fault. fault ≡ faults.NoMemory };

    fn from(_error: NoMemory) -> ExchangeFault {
        ExchangeFault::NoMemory
    }
}

impl ExchangeFault {
    /// The fault where a request wasn't written.
    fn of_send(fault: SendFault) -> ExchangeFault
        ensures { result ≡ of_send fault }
    {
        match fault {
            SendFault::WriteFault => ExchangeFault::LinkFailed,
            SendFault::NoMemory => ExchangeFault::NoMemory,
        }
    }

    /// The fault where no reply was read.
    fn of_read(fault: HttpFault) -> ExchangeFault
        ensures { result ≡ of_read fault }
    {
        match fault {
            HttpFault::ReadFault => ExchangeFault::LinkFailed,
            HttpFault::NoMemory => ExchangeFault::NoMemory,
            HttpFault::BadHead
            | HttpFault::HeadTooLarge
            | HttpFault::BodyTooLarge
            | HttpFault::NoLength
            | HttpFault::Coding
            | HttpFault::Short => ExchangeFault::BadReply,
        }
    }
}

/// Sends a request on a link, and reads its reply there.
fn converse<R: Source<Beside = W> + Drop, W: Sink + Drop>(
    alloc: Global,
    mut link: Link<R, W>,
    request: &Outgoing,
) -> (Link<R, W>, Result<HttpReply, ExchangeFault>)
    requires given { WhereTold (R.given link.reads) (λ bytes. bytes ≡ []) }
    requires taken { WhereTold (W.taken link.writes) (λ bytes. bytes ≡ []) }
    requires passed { W.passed link.writes ≡ W.taken link.writes }
    requires unread { (look : Look) → R.looks link.reads look → ⊥ }
    ensures host { result.0.host ≡ link.host }
    ensures port { result.0.port ≡ link.port }
    ensures told { IsTold (came_of R.given R.left W.taken W.passed link) → IsTold (came_of R.given R.left W.taken W.passed result.0) }
    ensures converses { Converses request.now (came_of R.given R.left W.taken W.passed result.0) result.1 }
    ensures looks { (look : Look) → R.looks result.0.reads look
        → IsBehind request.now (came_of R.given R.left W.taken W.passed result.0) (IsSome (W.passed link.writes)) look }
    ensures reads { R.faults link.reads ≤ R.faults result.0.reads }
    ensures writes { W.faults link.writes ≤ W.faults result.0.writes }
    ensures cause { result.1 ≡ Err LinkFailed
        → Rose 1 (R.faults link.reads) (R.faults result.0.reads) ⊎ Rose 1 (W.faults link.writes) (W.faults result.0.writes) }
{
    if let Err(fault) = write_request(alloc, &mut link.writes, request) {
        return (link, Err(ExchangeFault::of_send(fault)));
    }
    let mut wire = Wire::new(alloc, link.reads);
    let reply = wire.read_reply(alloc, &link.writes);
    link.reads = wire.into_source();
    match reply {
        Ok(reply) => (link, Ok(reply)),
        Err(fault) => (link, Err(ExchangeFault::of_read(fault))),
    }
}

/// Sends one request on a link of its own (RFC 9112), and reads its reply. The link goes back to the dial, whatever comes.
/// When a read of the link begins the whole request was passed on, and no whole reply was read.
pub fn exchange<N: Dial>(
    alloc: Global,
    dial: &mut N,
    url: &Url,
    request: &Outgoing,
) -> Result<HttpReply, ExchangeFault>
    ensures exchanges { Exchanges url.now request.now (N.came dial.old) (N.came dial.new) result }
    ensures looks { (look : Look) → N.looks dial.new look
        → N.looks dial.old look ⊎ IsRead request.now (N.came dial.old) (N.came dial.new) look }
    ensures cause { HasCause (N.faults dial.old) (N.faults dial.new) (result ≡ Err LinkFailed) }
{
    let Ok(link) = dial.dial(url.host.as_str(), url.port) else {
        return Err(ExchangeFault::LinkFailed);
    };
    let (link, reply) = converse(alloc, link, request);
    dial.back(link);
    reply
}
