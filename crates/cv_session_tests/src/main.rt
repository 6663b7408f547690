//! The tests of cv_session, as a table: each line of standard input is a session, and prints what it wrote, how it ended, what was
//! asked of the desk, with each store behind how many holds, and how often it was held where a payload was read and where a lease
//! was answered; with a bar between each two.
//!
//! A row is a word for the desk, how many bytes the source gives a call, the number of the source's call that fails and of the
//! sink's (0 for none), and the input, with a bar between each two. `told_desk` says what the words are; `seat` is a desk whose
//! seat isn't the only one, which asks nothing of its gate. `cv_lines` says how bytes stand in a line.
#![tactic(auto)]

mod replies;
mod seat_desk;
mod told_desk;

use cv_gate::Desk;
use cv_http::Wire;
use cv_keys::KeyTable;
use cv_lines::{line_of, sink_of, source_of};
use cv_ports::{MemoryClock, MemoryHold, MemorySink, MemorySource, Point};
use cv_seal::KeyedHash;
use cv_session::{SessionEnd, session};
use std::alloc::Global;
use std::test::Fail;
use told_desk::ToldDesk;

/// The keys text of two keys.
const KEYS: &[u8] = br#"{"keys":[{"id":"k1","secret":"s1"},{"id":"k2","secret":"s2"}]}"#;

/// The room of a sink.
const ROOM: &str = "200000";

/// What came of a session, but what was asked of the desk.
#[derive(Drop)]
struct Served {
    sink: MemorySink,
    end: SessionEnd,
    payloads: u64,
    leases: u64,
}

/// Serves the requests of a source over a desk.
fn serve<K: Desk>(
    alloc: Global,
    desk: &mut K,
    hold: &MemoryHold,
    source: MemorySource,
    sink: MemorySink,
) -> Result<Served, Fail> {
    let keys = KeyTable::read(alloc, KEYS)?;
    let signer = KeyedHash::new(String::from_str(alloc, "seal")?);
    let mut clock = MemoryClock::new(Vec::from_slice(alloc, &[1_700_000_000])?);
    let mut wire = Wire::new(alloc, source);
    let mut sink = sink;
    let end = session(
        alloc, desk, &keys, &signer, &mut clock, hold, &mut wire, &mut sink,
    );
    Ok(Served {
        payloads: hold.count(Point::PayloadRead),
        leases: hold.count(Point::LeaseAnswered),
        sink,
        end,
    })
}

/// The text of what came of a session.
fn text_of(alloc: Global, served: &Served, asked: &str) -> Result<String, Fail> {
    let mut text = line_of(alloc, served.sink.as_slice())?;
    let (end, payloads, leases) = (served.end, served.payloads, served.leases);
    text.push_str(format!(in alloc; "|{end:?}|{asked}|{payloads} {leases}")?.as_str())?;
    Ok(text)
}

/// What a line prints.
fn answer(alloc: Global, line: &str) -> Result<String, Fail> {
    let mut words = line.split('|');
    let (Some(desk), Some(piece), Some(reading)) = (words.next(), words.next(), words.next()) else {
        return Err(Fail::new("no row"));
    };
    let (Some(writing), Some(input)) = (words.next(), words.next()) else {
        return Err(Fail::new("no input"));
    };
    let source = source_of(alloc, piece, reading, input)?;
    let sink = sink_of(alloc, ROOM, writing)?;
    let hold = MemoryHold::new(None);
    if desk == "seat" {
        let served = serve(alloc, &mut seat_desk::seat(alloc)?, &hold, source, sink)?;
        return text_of(alloc, &served, "");
    }
    let mut desk = ToldDesk::new(alloc, desk, &hold)?;
    let served = serve(alloc, &mut desk, &hold, source, sink)?;
    text_of(alloc, &served, desk.told())
}

fn main(rt: HostRuntime) -> Result<(), Fail> {
    let alloc = rt.alloc();
    for line in rt.lines(alloc) {
        let text = answer(alloc, line?.as_str())?;
        rt.println(text)?;
    }
    Ok(())
}
