//! The chain of records.
ghost use Rattle.std.specs.Prelude.{◌≡◌, ◌≤◌, ◌+◌, List, reverse, IfOk, IsErrOf};
ghost use Rattle.cv_base.specs.Counts.{HasCause, raised};
ghost use Rattle.cv_base.specs.Told.{WhereTold};
ghost use Rattle.cv_history.specs.Chain.{Names, Chain, StandsAt, Breaks, Gives, IsList, IsBroken};
ghost use Rattle.cv_history.specs.ChainInner.{GivesBack, Reads, IsParsed};
ghost use Rattle.cv_history.specs.declared.chain_fault.ChainFault.{ChainFault as Fault};
ghost use Rattle.cv_history.specs.declared.chain_fault.ChainFault.TheVariants as fault;
ghost use Rattle.cv_history.specs.declared.record.Record.{Record as Value};

use crate::chain_fault::ChainFault;
use crate::record::Record;
use crate::record_fault::RecordFault;
use cv_base::{Bytes, Kind, ObjectId};
use cv_ports::{Shelf, ShelfFault};
use std::alloc::Global;

/// The record that the bytes under an id are.
fn record_of(alloc: Global, id: &ObjectId, bytes: &Bytes) -> Result<Record, ChainFault>
    ensures { IsParsed id.now bytes.now result }
{
    match Record::read(alloc, bytes.as_slice()) {
        Ok(record) => Ok(record),
        Err(RecordFault::BadRecord(_)) => Err(ChainFault::BadRecord(*id)),
        Err(RecordFault::NoMemory) => Err(ChainFault::NoMemory),
    }
}

/// The record that stands under an id.
fn record_at<S: Shelf>(alloc: Global, shelf: &mut S, id: &ObjectId) -> Result<Record, ChainFault>
    ensures told { WhereTold (S.shelf shelf.old) (λ standing. Reads standing id.now result) }
    ensures named { IfOk result (Names id.now) }
    ensures reads { S.reads shelf.old shelf.new }
    ensures unchanged { S.shelf shelf.new ≡ S.shelf shelf.old }
    ensures cause { HasCause (S.faults shelf.old) (S.faults shelf.new) (IsErrOf result fault.Failed) }
    ensures taken { S.taken shelf.new ≡ raised (S.taken shelf.old) }
{
    match shelf.fetch(alloc, id) {
        Ok(Some(bytes)) => record_of(alloc, id, &bytes),
        Ok(None) => Err(ChainFault::Missing(*id)),
        Err(ShelfFault::Failed) => Err(ChainFault::Failed),
        Err(ShelfFault::Damaged { id, found }) => Err(ChainFault::Damaged { id, found }),
        Err(ShelfFault::NoMemory) => Err(ChainFault::NoMemory),
    }
}

/// The records from revision 1 to this one, from the last one back.
fn records_back<S: Shelf>(
    alloc: Global,
    shelf: &mut S,
    last: &ObjectId,
    revision: u64,
) -> Result<Vec<Record>, ChainFault>
    ensures told { WhereTold (S.shelf shelf.old) (λ standing. GivesBack standing revision last.now result) }
    ensures linked { IfOk result (λ rs. Chain Names revision last.now (reverse rs.items)) }
    ensures reads { S.reads shelf.old shelf.new }
    ensures unchanged { S.shelf shelf.new ≡ S.shelf shelf.old }
    ensures cause { HasCause (S.faults shelf.old) (S.faults shelf.new) (IsErrOf result fault.Failed) }
    ensures fetches { S.taken shelf.new ≤ S.taken shelf.old + revision }
{
    let mut records = Vec::new(alloc);
    let mut id = *last;
    let mut wanted = revision;
    'records: while wanted > 0 {
        let record = record_at(alloc, shelf, &id)?;
        if record.revision != wanted {
            return Err(ChainFault::BadLink {
                id,
                revision: record.revision,
                wanted,
            });
        }
        let hash = record.previous;
        id = ObjectId {
            hash,
            kind: Kind::History,
        };
        records.push(record)?;
        wanted -= 1;
    }
    Ok(records)
}

/// The records from revision 1 to this one, in their order.
///
/// The last is what stands under the id `last`, of whatever kind it is; each earlier one stands, as an object of the
/// history, under the previous hash of the one behind it. Revision 0 asks nothing of the shelf and has no record.
pub fn chain<S: Shelf>(
    alloc: Global,
    shelf: &mut S,
    last: &ObjectId,
    revision: u64,
) -> Result<Vec<Record>, ChainFault>
    ensures told { WhereTold (S.shelf shelf.old) (λ standing. Gives standing revision last.now result) }
    ensures found { WhereTold (S.shelf shelf.old) (λ standing. (rs : List Value) → Chain (StandsAt standing) revision last.now rs → IsList result rs) }
    ensures broken { WhereTold (S.shelf shelf.old) (λ standing. (f : Fault) → Breaks standing revision last.now f → IsBroken result f) }

    // Also where the shelf doesn't tell, each record has the hash by which it was named.
    ensures linked { IfOk result (λ rs. Chain Names revision last.now rs.items) }
    ensures reads { S.reads shelf.old shelf.new }
    ensures unchanged { S.shelf shelf.new ≡ S.shelf shelf.old }
    ensures cause { HasCause (S.faults shelf.old) (S.faults shelf.new) (IsErrOf result fault.Failed) }
    ensures fetches { S.taken shelf.new ≤ S.taken shelf.old + revision }
{
    let mut records = records_back(alloc, shelf, last, revision)?;
    records.reverse();
    Ok(records)
}
