//! A seat of a gate that others ask too, whose journal has entries of theirs between its own.
ghost use Rattle.std.specs.Prelude.{◌≡◌, IfOk};
ghost use Rattle.cv_gate.specs.Desk.{DeskView};
ghost use Rattle.cv_gate.specs.Step.{HasTypes};
ghost use Rattle.cv_manifest.specs.Manifest.{IsHead};
ghost use Rattle.cv_session_tests.specs.Seats.{IsSeat, refusal_of};

use cv_base::{Bytes, Name, NoMemory, ObjectId};
use cv_gate::{Desk, LeaseLine, Op, Reply};
use cv_manifest::Head;
use cv_ports::ShelfFault;
use cv_seal::KeyedHash;
use cv_swap::first_parts;
use std::alloc::Global;
use std::test::Fail;

/// A seat that is refused whatever it asks: no lease is live.
#[derive(Drop)]
pub(crate) struct SeatDesk {
    name: Name,
    head: Head,
    ghost is_head: { IsHead head },
}

/// What is replied to an op.
fn refuse(op: Op) -> Reply
    ensures reply { result ≡ refusal_of op }
    ensures types { HasTypes op }
{
    match op {
        Op::Lease {
            key: _key,
            path: _path,
        } => Reply::NoMemory,
        Op::Store {
            key: _key,
            token: _token,
            digest: _digest,
            batch: _batch,
        } => Reply::InvalidToken,
        Op::Commit {
            key: _key,
            token: _token,
            old_root: _old_root,
            new_root: _new_root,
            tag: _tag,
        } => Reply::InvalidToken,
        Op::Cancel {
            key: _key,
            token: _token,
        } => Reply::InvalidToken,
    }
}

impl Desk for SeatDesk {
    ghost use Rattle.cv_session_tests.specs.Seats.{IsSeat, SeatDoes, seat_none, seat_more};

    ghost stands = { λ d. IsSeat d.head };

    ghost does = { λ a calls b. SeatDoes a.head calls b.head };

    ghost named = { λ d. d.name };

    ghost faults = { λ d. 0 };

    fn name(&self) -> &Name {
        &self.name
    }

    fn ask(&mut self, _alloc: Global, _now: u64, op: Op) -> Reply {
        refuse(op)
    }

    fn live(&mut self, alloc: Global, _now: u64) -> Result<Vec<LeaseLine>, NoMemory> {
        Ok(Vec::new(alloc))
    }

    fn object(&mut self, _alloc: Global, _id: &ObjectId) -> Result<Option<Bytes>, ShelfFault> {
        Err(ShelfFault::NoMemory)
    }

    fn newest(&mut self) -> Head {
        self.head
    }

    ghost does_lead = { λ a b calls does. does };

    ghost does_none = { λ a. seat_none a.head };

    ghost does_more = { λ a b c calls more first then. seat_more a.head b.head c.head calls more first then };
}

/// The seat, over a gate whose newest revision is the first one. It may be seen.
pub(crate) fn seat(alloc: Global) -> Result<SeatDesk, Fail>
    ensures { IfOk result (λ desk. (v : DeskView) × IsSeat desk.head v) }
{
    let name = Name::read(alloc, "sw.example.org")?.ok_or("no name")?;
    let signer = KeyedHash::new(String::from_str(alloc, "seal")?);
    let parts = first_parts(alloc, &name, &signer, 1_700_000_000)?;
    Ok(SeatDesk {
        name,
        head: parts.head,
    })
}
