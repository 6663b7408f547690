//! What no clause says: that calls find memory. Lines, replies and texts are those of a script.

use cv_base::Name;
use cv_client::Url;
use cv_manifest::{Head, Manifest};
use cv_ports::{Dial, MemoryDial, MemoryLink, MemorySink, MemorySource, Sink, Source};
use cv_resolver::Resolver;
use cv_seal::KeyedHash;
use cv_shell::{ShellEnd, shell};
use std::alloc::Global;
use std::test::Fail;

// Made by tools/shell_vectors.py.

const ROOT: [u8; 20] = [
    0xd8, 0x2a, 0x91, 0xeb, 0xc3, 0x49, 0xab, 0x62, 0xe5, 0x10, 0x97, 0x3e, 0xd2, 0xa6, 0xb8, 0x77,
    0xae, 0x2d, 0x2c, 0xcb,
];

static REPLIES: [&[u8]; 11] = [
    b"HTTP/1.1 200 OK\r\nContent-Length: 242\r\n\r\nCVR1\x00\x00\x00\x03\x00\x00\x00\x00\xa4\xbb\xfbX\xe4<|m\x1b\x1e9\xd79\xea\xb66\xd4\x1d\x8c\xd9\x8f\x00\xb2\x04\xe9\x80\x09\x98\xec\xf8B~\x00\x00\x00\x0c\x00\x00\xa1\xff\x00\x00\x00\x00eS\xf1\x00\x00\x00\x00\x00\x00\x00\x00\x00\x00\x00\x00\x00\x00\x00\x00\x01\x00\x00\x01l\x00\x01f\xd4\x1d\x8c\xd9\x8f\x00\xb2\x04\xe9\x80\x09\x98\xec\xf8B~\x00\x00\x00\x00\x00\x00\x00\x00\x00\x00\x00\x00\x00\x00\x00\x00\x00\x00\x00\x01\x00\x00A\xed\x00\x00\x00\x00eS\xf1\x00\x00\x00\x00\x00\x00\x00\x00\x00\x00\x00\x00\x00\x00\x00\x00\x00\x00\x00\x00\x00\x00\xe7\xbd\xb8\x9c\xcd\xf7(\xc9\x1a\xb1\x816 \xa7m\xb0\xd4\x1d\x8c\xd9\x8f\x00\xb2\x04\xe9\x80\x09\x98\xec\xf8B~\x00\x00\x00\x04\x00\x00\x81\xa4\x00\x00\x00\x00eS\xf1\x00\x00\x00\x00\x00\x00\x00\x00\x00\x00\x00\x00\x00\x00\x00\x00\x06\x14\xf5r\xd3\x96\xfa\xe9 f(qO\xb2\xce\x00\xf7.\x94\xf2%\x8f\x00\x01f\x00\x00",
    b"HTTP/1.1 200 OK\r\nContent-Length: 6\r\n\r\nhello\n",
    b"HTTP/1.1 404 Not Found\r\nContent-Length: 0\r\n\r\n",
    b"HTTP/1.1 200 OK\r\nContent-Length: 6\r\n\r\nhallo\n",
    b"HTTP/1.1 200 OK\r\nContent-Length: 210\r\n\r\nCd82a91ebc349ab62e510973ed2a6b877ae2d2ccb\nB242\nRd41d8cd98f00b204e9800998ecf8427e\nD240\nS4\nNr\nHda39a3ee5e6b4b0d3255bfef95601890afd80709\nT1700000000\n--\n68bfa623b680ebcd06e46eba0ed55259d6b396a0\n`]\xfe\xdeb|\x1at\xde\x98\x18\xf0Q\x84\xea\xac$\x97\xfcA",
    b"HTTP/1.1 200 OK\r\nContent-Length: 210\r\n\r\nCc911297212d955d650502555d84de2c922b6e4f9\nB242\nRd41d8cd98f00b204e9800998ecf8427e\nD240\nS5\nNr\nHda39a3ee5e6b4b0d3255bfef95601890afd80709\nT1700000000\n--\n5fe2477885e46b782a9dc8f4ce82dfde64e410b3\n\x81\xd8}\x1c\x07\x87\x97E\xcc\x01rT\x99krKe\xfd=?",
    b"HTTP/1.1 200 OK\r\nContent-Length: 210\r\n\r\nCd82a91ebc349ab62e510973ed2a6b877ae2d2ccb\nB242\nRd41d8cd98f00b204e9800998ecf8427e\nD240\nS6\nNs\nHda39a3ee5e6b4b0d3255bfef95601890afd80709\nT1700000000\n--\n095d648874eed7227ee7e08312fd8f9f9150dc1f\n\x93\x91\xbej\xf5\x15\r\xac\xb0<3r2 D\xd4\x11>\xd0N",
    b"HTTP/1.1 200 OK\r\nContent-Length: 2\r\n\r\nM\n",
    b"HTTP/1.1 200 OK\r\nContent-Length: 210\r\n\r\nCc911297212d955d650502555d84de2c922b6e4f9\nB242\nRd41d8cd98f00b204e9800998ecf8427e\nD240\nS6\nNr\nHda39a3ee5e6b4b0d3255bfef95601890afd80709\nT1700000000\n--\n3aa0c5a1c88f3010e3017e804151063b8878c283\n\xc9\x0bBND\"\x80\xea\xee\xde\x187\xa1\x98\xa9\xe4z\x0c\xf7\x87",
    b"HTTP/1.1 200 OK\r\nContent-Length: 4\r\n\r\njunk",
    b"HTTP/1.1 200 OK\r\nContent-Length: 210\r\n\r\nCd82a91ebc349ab62e510973ed2a6b877ae2d2ccb\nB242\nRd41d8cd98f00b204e9800998ecf8427e\nD240\nS7\nNr\nHda39a3ee5e6b4b0d3255bfef95601890afd80709\nT1700000000\n--\n660e364f664bb6b052e09fb79c8c2a71cd7b9781\n\xdd/@\x85\xa1\x0e\xc8)e\xdc1\xb2\x93H\xa9\xb33\x90~ ",
];

const INPUT: &[u8] =
    b"ls \nstat /f\nstat /l/\ncat /l\nls /f\ncat /\nstat /x\ncat /f\ncat /f\nls\n\nrenew \ncat f\ncat /\xff\nrenew\nrenew\nrenew\nrenew\nrenew\nls /\nrenew\nls /";

const OUTPUT: &[u8] =
    b"names 2\nf\nl\nfile 0644 0 0 6 1700000000\nlink 0777 0 0 1 1700000000 -> f\nbytes 6\nhello\n\nrefused: not a directory\nrefused: not a file\nrefused: not found\nrefused: not served f572d396fae9206628714fb2ce00f72e94f2258f\nrefused: bad object f572d396fae9206628714fb2ce00f72e94f2258f\nrefused: bad line\nrefused: bad line\nrefused: bad line\nrefused: bad line\nrefused: bad line\nrefused: older\nrefused: forked\nrefused: other repository\nrefused: bad manifest\nrevision 6\nrefused: bad catalogue c911297212d955d650502555d84de2c922b6e4f9C\nrevision 7\nnames 2\nf\nl\n";

/// A link that gives a reply.
fn link_of(alloc: Global, reply: &[u8]) -> Result<MemoryLink, Fail> {
    let bytes = Vec::from_slice(alloc, reply)?;
    let reads = MemorySource::new(bytes, 16, Vec::new(alloc));
    let writes = MemorySink::new(alloc, 4096, Vec::new(alloc))?;
    Ok(MemoryLink::new(alloc, reads, writes)?)
}

/// A dial that gives one link for each of these replies.
fn dial_of(alloc: Global, replies: &[&[u8]]) -> Result<MemoryDial, Fail> {
    let mut links = Vec::new(alloc);
    for reply in replies {
        links.push(link_of(alloc, reply)?)?;
    }
    Ok(MemoryDial::new(alloc, links, Vec::new(alloc))?)
}

/// A client that is pinned at revision 5.
fn pinned(alloc: Global) -> Result<Resolver, Fail> {
    let name = Name::read(alloc, "r")?.ok_or("no name")?;
    let head = Head {
        revision: 5,
        root: ROOT,
        size: 0,
        history: [0; 20],
        time: 0,
    };
    let manifest = Manifest {
        name,
        ttl: 240,
        head,
    };
    Ok(Resolver::new(alloc, manifest, 8)?)
}

/// Where the repository is served, and its seal.
fn server(alloc: Global) -> Result<(Url, KeyedHash), Fail> {
    let seal = String::from_str(alloc, "seal")?;
    let url = Url::read(alloc, "http://h/cvmfs/r")?.ok_or("no URL")?;
    Ok((url, KeyedHash::new(seal)))
}

/// An input of these bytes, of which the read of this number fails (none for 0).
fn input_of(alloc: Global, bytes: &[u8], failing: u64) -> Result<MemorySource, Fail> {
    let failing = Vec::from_slice(alloc, &[failing])?;
    let bytes = Vec::from_slice(alloc, bytes)?;
    Ok(MemorySource::new(bytes, 4096, failing))
}

/// How a shell ends.
fn run<N: Dial, R: Source<Beside = W> + Drop, W: Sink>(
    alloc: Global,
    dial: &mut N,
    server: &(Url, KeyedHash),
    resolver: &mut Resolver,
    input: R,
    output: &mut W,
) -> ShellEnd {
    let (end, _) = shell(alloc, dial, &server.0, &server.1, resolver, input, output);
    end
}

/// How a shell over a dial ends that is pinned at revision 5.
fn run_pinned<N: Dial, R: Source<Beside = W> + Drop, W: Sink>(
    alloc: Global,
    dial: &mut N,
    input: R,
    output: &mut W,
) -> Result<ShellEnd, Fail> {
    let server = server(alloc)?;
    let mut resolver = pinned(alloc)?;
    Ok(run(alloc, dial, &server, &mut resolver, input, output))
}

/// How a shell ends over this input, where the read of this number fails (none for 0), and what has passed of an output with so
/// much room.
fn ended(
    alloc: Global,
    replies: &[&[u8]],
    input: &[u8],
    failing: u64,
    room: usize,
) -> Result<(ShellEnd, Vec<u8>), Fail> {
    let input = input_of(alloc, input, failing)?;
    let mut dial = dial_of(alloc, replies)?;
    let mut output = MemorySink::new(alloc, room, Vec::new(alloc))?;
    let end = run_pinned(alloc, &mut dial, input, &mut output)?;
    Ok((end, Vec::from_slice(alloc, output.passed())?))
}

#[test]
fn lines_are_answered_in_order(rt: HostRuntime) -> Result<(), Fail> {
    let (end, passed) = ended(rt.alloc(), &REPLIES, INPUT, 0, 4096)?;
    assert!(rt; end == ShellEnd::Ended && passed.as_slice() == OUTPUT);
    Ok(())
}

/// An input, the number of its read that fails, the room of the output, and how the shell ends without a reply.
static ENDS: [(&[u8], u64, usize, ShellEnd); 4] = [
    (b"x\ny", 1, 64, ShellEnd::InputFailed),
    (b"x\ny", 2, 64, ShellEnd::InputFailed),
    (b"x\ny", 0, 20, ShellEnd::OutputFailed),
    (b"renew\nx\n", 0, 64, ShellEnd::LinkFailed),
];

#[test]
fn faults_end_the_shell(rt: HostRuntime) -> Result<(), Fail> {
    for (input, failing, room, end) in &ENDS {
        let (found, _) = ended(rt.alloc(), &[], input, *failing, *room)?;
        assert!(rt; found == *end);
    }
    Ok(())
}

/// The text for a line that isn't one.
const REFUSED: &[u8] = b"refused: bad line\n";

#[test]
fn a_bad_reply_ends_the_shell(rt: HostRuntime) -> Result<(), Fail> {
    let (end, passed) = ended(rt.alloc(), &[b"hello"], b"x\nrenew\nx\n", 0, 64)?;
    assert!(rt; end == ShellEnd::BadReply && passed.as_slice() == REFUSED);
    Ok(())
}

#[test]
fn a_line_has_8192_bytes_at_most(rt: HostRuntime) -> Result<(), Fail> {
    let mut line = vec![in rt.alloc(); b'x'; 8_192]?;
    line.push(b'\n')?;
    let (end, passed) = ended(rt.alloc(), &[], line.as_slice(), 0, 64)?;
    assert!(rt; end == ShellEnd::Ended && passed.as_slice() == REFUSED);
    line.insert(0, b'x')?;
    let (end, _) = ended(rt.alloc(), &[], line.as_slice(), 0, 64)?;
    assert!(rt; end == ShellEnd::TooLong);
    Ok(())
}
