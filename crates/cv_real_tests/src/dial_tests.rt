//! Links over loopback.

use cv_ports::{Dial, Source, write_all};
use cv_real::TcpDial;
use std::alloc::Global;
use std::io;
use std::io::{Read, Write};
use std::net::TcpListener;
use std::test::Fail;

// A peer that takes three bytes, says them again with one more, and closes.
fn answer(listener: &TcpListener) -> io::Result<()> {
    let (peer, _) = listener.accept()?;
    let mut peer = peer;
    let mut asked = [0; 3];
    peer.read_exact(&mut asked)?;
    peer.write_all(&[asked[0], asked[1], asked[2], b'!'])
}

// What a link gives in four reads of two bytes each, with a stroke after each.
fn pieces_of<R: Source>(alloc: Global, reads: &mut R, writes: &R::Beside) -> Result<Vec<u8>, Fail> {
    let mut told = Vec::new(alloc);
    let mut piece = [0u8; 2];
    for _ in 0..4 {
        if let Ok(count) = reads.read(&mut piece, writes) {
            told.extend_from_slice(&piece[..count])?;
            told.push(b'|')?;
        }
    }
    Ok(told)
}

// What a link to a peer that answers gives.
fn answered<D: Dial>(
    alloc: Global,
    dial: &mut D,
    listener: &TcpListener,
    port: u16,
) -> Result<Vec<u8>, Fail> {
    let Ok(link) = dial.dial("localhost", port) else {
        return Ok(Vec::new(alloc));
    };
    let mut link = link;
    let _ = write_all(&mut link.writes, b"ask");
    answer(listener)?;
    let told = pieces_of(alloc, &mut link.reads, &link.writes)?;
    dial.back(link);
    Ok(told)
}

// Whether a read fails where the peer closes and leaves what it was sent.
fn hung_up<D: Dial>(dial: &mut D, listener: &TcpListener, port: u16) -> Result<bool, Fail> {
    let Ok(link) = dial.dial("127.0.0.1", port) else {
        return Ok(false);
    };
    let mut link = link;
    let _ = write_all(&mut link.writes, b"ask");
    drop(listener.accept()?);
    let mut piece = [0u8; 2];
    let failed = link.reads.read(&mut piece, &link.writes).is_err();
    dial.back(link);
    Ok(failed)
}

// Whether a peer that is gone gives no link.
fn refused<D: Dial>(dial: &mut D, port: u16) -> bool {
    dial.dial("127.0.0.1", port).is_err()
}

#[test]
fn a_dial_talks_over_loopback(rt: HostRuntime) -> Result<(), Fail> {
    let listener = TcpListener::bind(&rt, "127.0.0.1:0")?;
    let port = listener.local_addr()?.port();
    let mut dial = TcpDial::new(rt);
    let told = answered(rt.alloc(), &mut dial, &listener, port)?;
    assert!(rt; told.as_slice() == b"as|k!|||".as_slice() && dial.faults() == 0);
    assert!(rt; hung_up(&mut dial, &listener, port)? && dial.faults() == 1);
    drop(listener);
    assert!(rt; refused(&mut dial, port) && dial.faults() == 2);
    Ok(())
}
