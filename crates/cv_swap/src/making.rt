//! What a revision is made of: its record as an object, and its manifest.
ghost use Rattle.std.specs.Prelude.{◌≡◌, ◌++◌, ◌∷◌, [], ◌≤◌, Some, IfOk};
ghost use Rattle.sha1.specs.Sha1.{sha1};
ghost use Rattle.cv_base.specs.declared.limits.TheConstants.{LAST_TIME};
ghost use Rattle.cv_history.specs.Record.{IsRecord, record_bytes};
ghost use Rattle.cv_manifest.specs.Manifest.{IsHead};
ghost use Rattle.cv_swap.specs.Kept.{object_of};
ghost use Rattle.cv_swap.specs.Stands.{head_with, head_text, Publishes};

use cv_base::{Bytes, Items, Kind, Name, NoMemory, Object, ObjectId};
use cv_history::Record;
use cv_manifest::{Head, Manifest, TIME_TO_LIVE};
use cv_seal::Signer;
use std::alloc::Global;

/// The object of a record.
pub fn record_object(alloc: Global, next: &Record) -> Result<Object, NoMemory>
    requires limits { IsRecord next.now }
    ensures { IfOk result (λ object. object ≡ object_of next.now) }
{
    let bytes = next.write(alloc)?;
    let id = ObjectId::of(Kind::History, bytes.as_slice());
    Ok(Object {
        id,
        bytes: Bytes::new(bytes),
    })
}

/// A batch of objects with one behind them.
pub fn with_object(others: Vec<Object>, object: Object) -> Result<Items<Object>, NoMemory>
    ensures { IfOk result (λ batch. batch ≡ others.items ++ object ∷ []) }
{
    let mut batch = others;
    batch.push(object)?;
    Ok(Items::new(batch))
}

/// The head of a record whose root catalogue has this size, by the hash of its bytes.
pub fn head_of(next: &Record, size: u64, history: [u8; 20]) -> Head
    ensures { history ≡ sha1 (record_bytes next.now) → result ≡ head_with next.now size }
{
    let root = next.root;
    Head {
        revision: next.revision,
        root,
        size,
        history,
        time: next.time,
    }
}

/// The manifest of a head.
pub fn write_manifest<S: Signer>(
    alloc: Global,
    name: &Name,
    head: Head,
    signer: &S,
) -> Result<Bytes, NoMemory>
    requires revision { 1 ≤ head.revision }
    requires time { head.time ≤ LAST_TIME }
    ensures text { IfOk result (λ bytes. bytes ≡ head_text (S.seal_of signer.now) name.now head) }
    ensures says { IfOk result (λ bytes. Publishes name.now (S.is_seal signer.now) (Some bytes) head) }
{
    let manifest = Manifest {
        name: name.copy(alloc)?,
        ttl: TIME_TO_LIVE,
        head,
    };
    Ok(Bytes::new(manifest.write(alloc, signer)?))
}

/// What a revision is prepared from: its objects, its head and its manifest.
#[derive(Drop)]
pub struct Parts {
    /// The objects, the record's last.
    pub batch: Items<Object>,
    /// The head.
    pub head: Head,
    /// The manifest's text.
    pub manifest: Bytes,
}

/// The parts of a revision with this record, whose root catalogue has this size.
pub fn make_parts<S: Signer>(
    alloc: Global,
    name: &Name,
    signer: &S,
    next: &Record,
    size: u64,
    others: Vec<Object>,
) -> Result<Parts, NoMemory>
    requires limits { IsRecord next.now }
    ensures batch { IfOk result (λ parts. parts.batch ≡ others.items ++ object_of next.now ∷ []) }
    ensures head { IfOk result (λ parts. parts.head ≡ head_with next.now size) }
    ensures writable { IfOk result (λ parts. IsHead parts.head) }
    ensures text { IfOk result (λ parts. parts.manifest ≡ head_text (S.seal_of signer.now) name.now parts.head) }
    ensures says { IfOk result (λ parts. Publishes name.now (S.is_seal signer.now) (Some parts.manifest) parts.head) }
{
    let object = record_object(alloc, next)?;
    let hash = object.id.hash;
    let head = head_of(next, size, hash);
    let manifest = write_manifest(alloc, name, head, signer)?;
    let batch = with_object(others, object)?;
    Ok(Parts {
        batch,
        head,
        manifest,
    })
}
