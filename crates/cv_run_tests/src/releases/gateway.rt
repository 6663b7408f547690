//! A gateway in memory, which lives across links.

use crate::outside::{KEYS, REPOSITORY, SEAL, START, clock_at};
use crate::releases::peer::Peer;
use cv_base::{Name, NoMemory};
use cv_desk::{Gate, OneDesk};
use cv_http::Wire;
use cv_keys::KeyTable;
use cv_ports::{MemoryClock, MemorySink, MemorySource, NoHold};
use cv_seal::KeyedHash;
use cv_session::session;
use cv_swap::Line;
use cv_vault::MemoryVault;
use std::alloc::Global;
use std::marker::Model;
use std::test::Fail;

/// The most bytes that one read of a connection gives.
const PIECE: usize = 65_536;

/// The most bytes that a session may reply.
const ROOM: usize = 100_000;

/// One gate over a vault in memory, which sessions ask one after another. Its leases live as long as it does. No clause says what
/// stands in it.
#[derive(Drop)]
pub(crate) struct Gateway {
    alloc: Global,
    desk: OneDesk<MemoryVault, KeyedHash>,
    keys: KeyTable,
    signer: KeyedHash,
    seconds: u32,
}

impl Model for Gateway {
    ghost use Rattle.std.specs.Prelude.{⊤};

    ghost Value = { ⊤ };

    ghost view = { λ g. tt };
}

/// What signs manifests.
fn signer(alloc: Global) -> Result<KeyedHash, Fail> {
    Ok(KeyedHash::new(String::from_str(alloc, SEAL)?))
}

/// An empty vault in which a repository was made.
fn made(alloc: Global, name: &Name, signer: &KeyedHash) -> Result<MemoryVault, Fail> {
    let vault = MemoryVault::new(alloc, Vec::new(alloc))?;
    match Line::init(vault, alloc, name, signer, START) {
        Ok(vault) => Ok(vault),
        Err(_) => Err(Fail::new("not made")),
    }
}

/// The desk over a vault in which this repository stands.
fn opened(
    alloc: Global,
    vault: MemoryVault,
    name: Name,
    signer: KeyedHash,
) -> Result<OneDesk<MemoryVault, KeyedHash>, Fail> {
    match Gate::open(vault, alloc, name, signer) {
        Ok(gate) => Ok(OneDesk::new(gate)),
        Err(_) => Err(Fail::new("not opened")),
    }
}

/// The desk over a new repository.
fn desk(alloc: Global) -> Result<OneDesk<MemoryVault, KeyedHash>, Fail> {
    let name = Name::read(alloc, REPOSITORY)?.ok_or("no name")?;
    let signer = signer(alloc)?;
    let vault = made(alloc, &name, &signer)?;
    opened(alloc, vault, name, signer)
}

/// The wire of a connection that brings these bytes alone.
fn wire_of(alloc: Global, bytes: &[u8]) -> Result<Wire<MemorySource>, NoMemory> {
    let input = Vec::from_slice(alloc, bytes)?;
    Ok(Wire::new(alloc, MemorySource::new(input, PIECE, Vec::new(alloc))))
}

impl Gateway {
    /// Serves a connection.
    fn serve(
        &mut self,
        clock: &mut MemoryClock,
        wire: &mut Wire<MemorySource>,
        sink: &mut MemorySink,
    ) {
        let _end = session(
            self.alloc,
            &mut self.desk,
            &self.keys,
            &self.signer,
            clock,
            &NoHold,
            wire,
            sink,
        );
    }
}

impl Peer for Gateway {
    /// Over a new repository.
    fn new(alloc: Global) -> Result<Gateway, Fail> {
        let keys = KeyTable::read(alloc, KEYS.as_bytes())?;
        let signer = signer(alloc)?;
        let desk = desk(alloc)?;
        Ok(Gateway {
            alloc,
            desk,
            keys,
            signer,
            seconds: 0,
        })
    }

    fn come_to(&mut self, seconds: u32) {
        self.seconds = seconds;
    }

    /// What a session replies.
    fn reply(&mut self, requests: &[u8]) -> Result<Vec<u8>, NoMemory> {
        let alloc = self.alloc;
        let mut clock = clock_at(alloc, [self.seconds, self.seconds, self.seconds])?;
        let mut wire = wire_of(alloc, requests)?;
        let mut sink = MemorySink::new(alloc, ROOM, Vec::new(alloc))?;
        self.serve(&mut clock, &mut wire, &mut sink);
        Ok(sink.into_vec())
    }
}
