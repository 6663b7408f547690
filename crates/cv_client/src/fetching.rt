//! Files of a served repository.
ghost use Rattle.std.specs.Prelude.{◌≡◌, ℕ, List, Some, IfOk};
ghost use Rattle.cv_base.specs.Counts.{HasCause};
ghost use Rattle.cv_client.specs.Asking.{AsksFirst};
ghost use Rattle.cv_client.specs.Fetch.{Fetches, SaysFile};
ghost use Rattle.cv_client.specs.Requests.{file_request};
ghost use Rattle.cv_client.specs.Served.{Files, ServedBy, IsFetched};
ghost use Rattle.cv_client.specs.declared.exchanging.ExchangeFault.TheVariants.{LinkFailed};

use crate::exchanging::{ExchangeFault, exchange};
use crate::url::Url;
use cv_base::{Bytes, NoMemory};
use cv_http::laws::{more_behind_a_reply, one_reply, reply_or_fault};
use cv_http::{HttpReply, NOT_FOUND, OK, Outgoing, request_for_file};
use cv_ports::Dial;
use std::alloc::Global;

/// The request for a file of a repository.
fn request(alloc: Global, url: &Url, file: &str) -> Result<Outgoing, NoMemory>
    ensures { IfOk result (λ request. request ≡ file_request url.now file.now) }
{
    request_for_file(alloc, &url.authority, url.repository.text(), file)
}

/// What a reply says of a file: its content, or that there is none.
fn file_in(reply: HttpReply) -> Result<Option<Bytes>, ExchangeFault>
    ensures { SaysFile reply result }
{
    if reply.code == OK {
        Ok(Some(reply.body))
    } else if reply.code == NOT_FOUND {
        Ok(None)
    } else {
        Err(ExchangeFault::BadReply)
    }
}

/// Fetches a file of a repository in one exchange. `None` is the reply of code 404; any code but that and 200 is a bad
/// reply.
pub fn fetch<N: Dial>(
    alloc: Global,
    dial: &mut N,
    url: &Url,
    file: &str,
) -> Result<Option<Bytes>, ExchangeFault>
    ensures fetches { Fetches url.now file.now (N.came dial.old) (N.came dial.new) result }
    ensures asks { AsksFirst N.came N.looks dial.old dial.new }
    ensures cause { HasCause (N.faults dial.old) (N.faults dial.new) (result ≡ Err LinkFailed) }

    // Where the server has the file, and each link that came back sent it, that is what is fetched.
    ensures completes { (files : Files) (content : List ℕ) → files file.now ≡ Some content
        → ServedBy url.now files (N.came dial.old) (N.came dial.new) → IsFetched content result }
{
    one_reply();
    reply_or_fault();
    more_behind_a_reply();
    let request = request(alloc, url, file)?;
    file_in(exchange(alloc, dial, url, &request)?)
}
