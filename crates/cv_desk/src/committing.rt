//! Commits.
ghost use Rattle.std.specs.Prelude.{◌≡◌, ◌≢◌, ◌⊎◌, ◌<◌, ◌++◌, ◌∷◌, [], ℕ, List, None, Some, true, false, IfOk, IfErr, OnOk, OnErr, Err, IsErrOf, bytes_eq, option_copied};
ghost use Rattle.std.specs.List.{find};
ghost use Rattle.cv_base.specs.Counts.{HasCause};
ghost use Rattle.cv_base.specs.Told.{WhereTold};
ghost use Rattle.cv_base.specs.declared.id.Kind.TheVariants as kinds;
ghost use Rattle.cv_base.specs.declared.limits.TheConstants.{LAST_REVISION};
ghost use Rattle.cv_base.specs.Marker.{marker, ends_in};
ghost use Rattle.cv_history.specs.Record.{IsRecord};
ghost use Rattle.cv_vault.specs.Names.{on_way};
ghost use Rattle.cv_vault.specs.Walks.{Walks};
ghost use Rattle.cv_swap.specs.declared.stage.Stage.TheVariants as stage;
ghost use Rattle.cv_swap.specs.Kept.{object_of};
ghost use Rattle.cv_swap.specs.Publishing.{Prepared};
ghost use Rattle.cv_swap.specs.Stands.{head_with, Publishes};
ghost use Rattle.cv_objects.specs.Names.{standing_on};
ghost use Rattle.cv_base.specs.Objects.{AreNamed};
ghost use Rattle.cv_objects.specs.Batches.{Brings};
ghost use Rattle.cv_objects.specs.declared.store_fault.StoreFault.TheVariants as fault;
ghost use Rattle.cv_gate.specs.Step.{is_key_id, is_tag};
ghost use Rattle.cv_gate.specs.declared.reply.Reply.TheVariants as replies;
ghost use Rattle.cv_swap.specs.Line.{published, LineReads, IsReady, IsDropped};
ghost use Rattle.cv_desk.specs.Refusals.{is_unmade};
ghost use Rattle.cv_base.specs.Path.{Path};
ghost use Rattle.cv_base.specs.Moment.{IsMoment};
ghost use Rattle.cv_load.specs.Known.{is_known, HasPair};
ghost use Rattle.cv_load.specs.NewFetches.{FetchesNew};
ghost use Rattle.cv_desk.specs.Known.{KnowsOn, Remembers, Learns, LearnsWhole};
ghost use Rattle.cv_desk.specs.KnownInner.{KnowsWhole};
ghost use Rattle.cv_desk.specs.Committing.{has_base, holder_of, taken_by, opposition, FetchesOffered, next_record, Readies};
ghost use Rattle.cv_desk.specs.CommittingInner.{Offers, GraftsOffered};

use crate::answer::Answer;
use cv_base::{Kind, LAST_REVISION, NoMemory, Object, ObjectId, RepoPath, Target, Text};
use cv_gate::Reply;
use cv_graft::{Grafted, graft};
use cv_history::Record;
use cv_leases::Lease;
use cv_load::{KnownSet, whole};
use cv_manifest::Head;
use cv_objects::StoreFault;
use cv_seal::Signer;
use cv_swap::Line;
use cv_vault::Vault;
use std::alloc::Global;

/// Whether a root is that of a revision from this one on.
fn has_base(records: &[Record], from: u64, root: &[u8; 20]) -> bool
    ensures { result ≡ has_base records.now from root.now }
{
    records
        .iter()
        .any(|record| from <= record.revision && record.root == *root)
}

/// The record that has the tag.
fn find_tag<'a>(records: &'a [Record], tag: &str) -> Option<&'a Record>
    ensures { option_copied result ≡ find (λ r. bytes_eq r.tag tag.now) records.now }
{
    records.iter().find(|record| record.tag.text() == tag)
}

/// That a revision has the tag, if one has it, and it isn't empty.
fn taken_by(records: &[Record], tag: &Text) -> Option<Answer>
    ensures { result ≡ taken_by (holder_of tag.now records.now) }
{
    if tag.as_str().is_empty() {
        return None;
    }
    match find_tag(records, tag.as_str()) {
        Some(record) => {
            let revision = record.revision;
            Some(answer!(Reply::TagTaken { revision }))
        },
        None => None,
    }
}

/// Why the published revisions refuse a commit under a lease that was granted at a revision, if they do.
pub(crate) fn opposition<V: Vault + Drop, S: Signer + Drop>(
    line: &Line<V, S>,
    from: u64,
    old_root: &[u8; 20],
    tag: &Text,
) -> Option<Answer>
    ensures { result ≡ opposition line.now from old_root.now tag.now }
{
    if line.head().revision >= LAST_REVISION {
        return Some(answer!(Reply::RevisionsFull));
    }
    if !has_base(line.records(), from, old_root) {
        return Some(answer!(Reply::StaleBase { revision: from }));
    }
    taken_by(line.records(), tag)
}

/// Adds pairs of a catalogue's id and its path to the known ones.
fn learn(alloc: Global, known: &mut KnownSet, pairs: &[(ObjectId, RepoPath)]) -> Result<(), Answer>
    ensures only { (h : List ℕ) (p : Path) → is_known known.new h p ≡ true → (is_known known.old h p ≡ true) ⊎ HasPair pairs.now h p }
    ensures remembers { Remembers known.old known.new }
    ensures added { OnOk result ((h : List ℕ) (p : Path) → HasPair pairs.now h p → is_known known.new h p ≡ true) }
    ensures memory { IfErr result (λ r. r ≡ replies.NoMemory) }
    ensures failed { result ≢ Err replies.StoreFailed }
{
    known.add_all(alloc, pairs)?;
    Ok(())
}

/// Judges the offered root: all that it reaches is there, and each catalogue is one. What stands below known catalogues
/// isn't fetched, and those that were found whole are known then.
fn judge<V: Vault + Drop, S: Signer + Drop>(
    alloc: Global,
    line: &mut Line<V, S>,
    known: &mut KnownSet,
    offered: &ObjectId,
) -> Result<(), Answer>
    requires kind { offered.now.kind ≡ kinds.Catalogue }
    requires known { KnowsWhole V.disk line.old.vault known.old }
    ensures known { KnowsWhole V.disk line.new.vault known.new }
    ensures remembers { Remembers known.old known.new }
    ensures learns { WhereTold (V.disk line.old.vault) (λ d. OnOk result (Learns (standing_on d) known.old offered.now.hash known.new)) }
    ensures only { WhereTold (V.disk line.old.vault) (λ d. LearnsWhole (standing_on d) known.old known.new) }
    ensures offers { WhereTold (V.disk line.old.vault) (λ d. Offers (standing_on d) offered.now.hash result) }
    ensures kind { IfErr result (λ r. is_unmade r ≡ true) }
    ensures reads { LineReads V.disk V.count V.left line.old line.new }
    ensures fetches { WhereTold (V.disk line.old.vault) (λ d. FetchesNew (standing_on d) known.old offered.now.hash line.old.taken line.new.taken) }
    ensures cause { HasCause (V.faults line.old.vault) (V.faults line.new.vault) (result ≡ Err replies.StoreFailed) }
{
    match whole(alloc, line, offered, known) {
        Ok(pairs) => learn(alloc, known, pairs.as_slice()),
        Err(fault) => Err(Answer::of_offered(fault)),
    }
}

/// The newest tree with the offered subtree at a path, or why there is none. It is made of the catalogues on the way to the path
/// in both, whether or not the newest root means a tree; and at the root it is the offered one as it is.
fn graft_offered<V: Vault + Drop, S: Signer + Drop>(
    alloc: Global,
    line: &mut Line<V, S>,
    known: &mut KnownSet,
    offered: &ObjectId,
    path: &RepoPath,
) -> Result<Grafted, Answer>
    requires kind { offered.now.kind ≡ kinds.Catalogue }
    requires unmarked { ends_in marker path.now ≡ false }
    requires known { KnowsWhole V.disk line.old.vault known.old }
    ensures known { KnowsWhole V.disk line.new.vault known.new }
    ensures knows { KnowsOn V.disk line.old.vault known.old offered.now.hash result known.new }
    ensures grafts { WhereTold (V.disk line.old.vault) (λ d. GraftsOffered (standing_on d) line.old.head.root offered.now.hash path.now result) }
    ensures kind { IfErr result (λ r. is_unmade r ≡ true) }
    ensures own { IfOk result (λ g. AreNamed g.added) }
    ensures reads { LineReads V.disk V.count V.left line.old line.new }
    ensures fetches { WhereTold (V.disk line.old.vault) (λ d.
        FetchesOffered (standing_on d) known.old line.old.head.root offered.now.hash path.now line.old.taken line.new.taken) }
    ensures cause { HasCause (V.faults line.old.vault) (V.faults line.new.vault) (result ≡ Err replies.StoreFailed) }
{
    if let Err(answer) = judge(alloc, line, known, offered) {
        return Err(answer);
    }
    let hash = line.head().root;
    let newest = ObjectId {
        hash,
        kind: Kind::Catalogue,
    };
    match graft(alloc, line, &newest, offered, path) {
        Ok(grafted) => Ok(grafted),
        Err(fault) => Err(Answer::of_graft(alloc, fault)),
    }
}

/// The text of a key or a tag, as a record has it.
fn target_of(alloc: Global, text: &Text) -> Result<Target, NoMemory>
    ensures { IfOk result (λ target. target ≡ text.now) }
{
    match Target::read(alloc, text.as_str())? {
        Some(target) => Ok(target),
        None => Err(NoMemory),
    }
}

/// The record of the next revision.
fn next_record(
    alloc: Global,
    head: &Head,
    lease: &Lease,
    key: &Text,
    moment: u64,
    grafted: &Grafted,
    offered: [u8; 20],
    tag: &Text,
) -> Result<Record, NoMemory>
    requires { head.now.revision < LAST_REVISION }
    ensures { IfOk result (λ r. r ≡ next_record head.now lease.now key.now moment grafted.now offered tag.now) }
{
    let previous = head.history;
    let root = grafted.root.hash;
    Ok(Record {
        revision: head.revision + 1,
        previous,
        root,
        offered,
        token: lease.token,
        path: lease.path.copy(alloc)?,
        key: target_of(alloc, key)?,
        time: moment,
        tag: target_of(alloc, tag)?,
    })
}

/// Brings all of a revision into the vault but its head, whose file is put on its way: its record in one batch with the objects
/// that its commit made, and then its manifest, whose sync settles them all.
fn make_ready<V: Vault + Drop, S: Signer + Drop>(
    alloc: Global,
    line: &mut Line<V, S>,
    next: Record,
    size: u64,
    others: Vec<Object>,
) -> Result<Head, StoreFault>
    requires limits { IsRecord next }
    requires named { AreNamed others.items }
    requires doubt { line.old.stage ≢ stage.Doubtful }
    ensures walks { WhereTold (V.disk line.old.vault) (λ d.
        Walks V.disk V.count V.left on_way (Brings d (others.items ++ object_of next ∷ [])) (Prepared d (others.items ++ object_of next ∷ []) line.new.manifest result) d line.old.vault line.new.vault) }
    ensures silent { V.disk line.old.vault ≡ None → V.disk line.new.vault ≡ None }
    ensures head { IfOk result (λ head. head ≡ head_with next size) }
    ensures ready { IfOk result (λ head. IsReady line.old next head line.new) }
    ensures published { IfOk result (λ head. published line.new ≡ published line.old) }
    ensures says { IfOk result (λ head. Publishes line.old.name (S.is_seal line.old.signer) (Some line.new.manifest) head) }
    ensures dropped { OnErr result (IsDropped line.old line.new) }
    ensures cause { HasCause (V.faults line.old.vault) (V.faults line.new.vault) (IsErrOf result fault.Failed) }
{
    line.shelve(alloc, &next, others)?;
    line.prepare(alloc, next, size)
}

/// Brings all of a commit's revision into the vault but its head, or says why not.
pub(crate) fn ready<V: Vault + Drop, S: Signer + Drop>(
    alloc: Global,
    line: &mut Line<V, S>,
    known: &mut KnownSet,
    lease: &Lease,
    key: &Text,
    moment: u64,
    offered: [u8; 20],
    tag: &Text,
) -> Result<Head, Answer>
    requires room { line.old.head.revision < LAST_REVISION }
    requires calm { line.old.stage ≢ stage.Doubtful }
    requires unmarked { ends_in marker lease.now.path ≡ false }
    requires key { is_key_id key.now ≡ true }
    requires tag { is_tag tag.now ≡ true }
    requires moment { IsMoment moment }
    requires known { KnowsWhole V.disk line.old.vault known.old }
    ensures known { KnowsWhole V.disk line.new.vault known.new }
    ensures knows { KnowsOn V.disk line.old.vault known.old offered result known.new }
    ensures readies { Readies V.disk V.count V.left S.is_seal known.old lease.now key.now moment offered tag.now line.old line.new result }
    ensures cause { HasCause (V.faults line.old.vault) (V.faults line.new.vault) (result ≡ Err replies.StoreFailed) }
{
    let id = ObjectId {
        hash: offered,
        kind: Kind::Catalogue,
    };
    let grafted = match graft_offered(alloc, line, known, &id, &lease.path) {
        Ok(grafted) => grafted,
        Err(answer) => return Err(answer),
    };
    let head = line.head();
    let next = next_record(alloc, &head, lease, key, moment, &grafted, offered, tag)?;
    let Grafted {
        root: _,
        size,
        added,
    } = grafted;
    match make_ready(alloc, line, next, size, added.into_vec()) {
        Ok(head) => Ok(head),
        Err(fault) => Err(Answer::of_store(fault)),
    }
}
