//! Exchanges over links in memory, byte for byte.

use cv_base::{Bytes, Kind, Name, ObjectId, RepoPath};
use cv_client::{AskFault, ExchangeFault, Url, answer, fetch, pin};
use cv_manifest::{Head, Manifest};
use cv_ports::{Dial, MemoryDial, MemoryLink, MemorySink, MemorySource};
use cv_resolver::{ClientFault, Question, Resolver};
use cv_seal::KeyedHash;
use std::alloc::Global;
use std::test::Fail;

/// A link that gives a reply.
fn link_of(alloc: Global, reply: &[u8]) -> Result<MemoryLink, Fail> {
    let bytes = Vec::from_slice(alloc, reply)?;
    let reads = MemorySource::new(bytes, 16, Vec::new(alloc));
    let writes = MemorySink::new(alloc, 4096, Vec::new(alloc))?;
    Ok(MemoryLink::new(alloc, reads, writes)?)
}

/// A dial that gives one link, which gives a reply.
fn dial_of(alloc: Global, reply: &[u8]) -> Result<MemoryDial, Fail> {
    let links = vec![in alloc; link_of(alloc, reply)?]?;
    Ok(MemoryDial::new(alloc, links, Vec::new(alloc))?)
}

/// Where the repository is served.
fn url(alloc: Global) -> Result<Url, Fail> {
    match Url::read(alloc, "http://h:81/cvmfs/r")? {
        Some(url) => Ok(url),
        None => Err(Fail::from("no URL")),
    }
}

/// What is fetched as the file `f`.
fn fetched<N: Dial>(
    alloc: Global,
    dial: &mut N,
    url: &Url,
) -> Result<Option<Bytes>, ExchangeFault> {
    fetch(alloc, dial, url, "f")
}

/// The fault that a server's reply shows to a fetch.
fn fault_of(alloc: Global, reply: &[u8]) -> Result<Option<ExchangeFault>, Fail> {
    let url = url(alloc)?;
    let mut dial = dial_of(alloc, reply)?;
    Ok(fetched(alloc, &mut dial, &url).err())
}

/// What a server replies, and the fault that it shows.
static BAD: [(&[u8], ExchangeFault); 4] = [
    (b"hello", ExchangeFault::BadReply),
    (
        b"HTTP/1.1 200 OK\r\nContent-Length: 6\r\n\r\nhell",
        ExchangeFault::BadReply,
    ),
    (
        b"HTTP/1.1 500 Oh\r\nContent-Length: 0\r\n\r\n",
        ExchangeFault::BadReply,
    ),
    (
        b"HTTP/1.1 301 Go\r\nContent-Length: 0\r\n\r\n",
        ExchangeFault::BadReply,
    ),
];

#[test]
fn replies_of_other_forms_are_bad(rt: HostRuntime) -> Result<(), Fail> {
    for (reply, fault) in &BAD {
        assert!(rt; fault_of(rt.alloc(), reply)? == Some(*fault));
    }
    Ok(())
}

/// Whether this content was fetched.
fn is_content(found: &Result<Option<Bytes>, ExchangeFault>, content: &[u8]) -> bool {
    match found {
        Ok(Some(bytes)) => bytes.as_slice() == content,
        _ => false,
    }
}

/// What was written over the first link of a dial.
fn request_of(alloc: Global, dial: MemoryDial) -> Result<Vec<u8>, Fail> {
    let links = dial.into_links(alloc)?;
    let link = links.first().ok_or("no link came back")?;
    Ok(Vec::from_slice(alloc, link.writes.as_slice())?)
}

/// What is fetched where a server replies so, and what was written for it.
fn fetched_by(
    alloc: Global,
    reply: &[u8],
) -> Result<(Result<Option<Bytes>, ExchangeFault>, Vec<u8>), Fail> {
    let url = url(alloc)?;
    let mut dial = dial_of(alloc, reply)?;
    let found = fetched(alloc, &mut dial, &url);
    Ok((found, request_of(alloc, dial)?))
}

const HELLO: &[u8] = b"HTTP/1.1 200 OK\r\nContent-Length: 6\r\n\r\nhello\n";

const REQUEST: &[u8] =
    b"GET /cvmfs/r/f HTTP/1.1\r\nHost: h:81\r\nConnection: close\r\nContent-Length: 0\r\n\r\n";

#[test]
fn a_file_is_fetched_by_one_request(rt: HostRuntime) -> Result<(), Fail> {
    let (found, request) = fetched_by(rt.alloc(), HELLO)?;
    assert!(rt; is_content(&found, b"hello\n"));
    assert!(rt; request.as_slice() == REQUEST);
    Ok(())
}

/// A client that is pinned at a root of zero bytes.
fn pinned(alloc: Global) -> Result<Resolver, Fail> {
    let Some(name) = Name::read(alloc, "r")? else {
        return Err(Fail::from("no name"));
    };
    let head = Head {
        revision: 1,
        root: [0; 20],
        size: 81,
        history: [0; 20],
        time: 0,
    };
    let manifest = Manifest {
        name,
        ttl: 240,
        head,
    };
    Ok(Resolver::new(alloc, manifest, 1)?)
}

/// The fault of a listing of the root over a dial.
fn listing_fault<N: Dial>(
    alloc: Global,
    dial: &mut N,
    url: &Url,
    resolver: &mut Resolver,
) -> Option<AskFault> {
    let question = Question::List(RepoPath::root(alloc));
    answer(alloc, dial, url, resolver, question).err()
}

/// The same where a server replies so.
fn fault_of_listing(alloc: Global, reply: &[u8]) -> Result<Option<AskFault>, Fail> {
    let url = url(alloc)?;
    let mut resolver = pinned(alloc)?;
    let mut dial = dial_of(alloc, reply)?;
    Ok(listing_fault(alloc, &mut dial, &url, &mut resolver))
}

const NOT_FOUND: &[u8] = b"HTTP/1.1 404 Not Found\r\nContent-Length: 0\r\n\r\n";

#[test]
fn an_object_that_is_not_there_is_named(rt: HostRuntime) -> Result<(), Fail> {
    let id = ObjectId {
        hash: [0; 20],
        kind: Kind::Catalogue,
    };
    let fault = AskFault::Refused(ClientFault::NotServed(id));
    assert!(rt; fault_of_listing(rt.alloc(), NOT_FOUND)? == Some(fault));
    Ok(())
}

/// The fault of a client that is to be pinned over a dial.
fn pinning_fault<N: Dial>(alloc: Global, dial: &mut N) -> Result<Option<AskFault>, Fail> {
    let signer = KeyedHash::new(String::from_str(alloc, "seal")?);
    let url = url(alloc)?;
    Ok(pin(alloc, dial, &url, &signer).err())
}

/// The same where a server replies so.
fn fault_of_pinning(alloc: Global, reply: &[u8]) -> Result<Option<AskFault>, Fail> {
    let mut dial = dial_of(alloc, reply)?;
    pinning_fault(alloc, &mut dial)
}

const NO_MANIFEST: &[u8] = b"HTTP/1.1 200 OK\r\nContent-Length: 2\r\n\r\nM\n";

#[test]
fn a_text_that_is_no_manifest_is_refused(rt: HostRuntime) -> Result<(), Fail> {
    assert!(rt; fault_of_pinning(rt.alloc(), NO_MANIFEST)? == Some(AskFault::BadManifest));
    Ok(())
}
