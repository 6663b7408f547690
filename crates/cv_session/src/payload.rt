//! What a payload asks. Its pack is read in pieces, and held as its objects alone.
ghost use Rattle.std.specs.Prelude.{◌≡◌, ◌++◌, ◌≢◌, ℕ, List, [], length, take, true, Err, option_map, IfOk, IfErr, MatchResult};
ghost use Rattle.sha1.specs.Sha1.{sha1, Holds};
ghost use Rattle.cv_base.specs.Counts.{HasCause};
ghost use Rattle.cv_base.specs.Told.{WhereTold};
ghost use Rattle.cv_http.specs.Faults.{IsBodyFault};
ghost use Rattle.cv_http.specs.declared.fault.HttpFault.TheVariants.{Short, ReadFault, NoMemory};
ghost use Rattle.cv_gate.specs.Step.{is_key_id};
ghost use Rattle.cv_messages.specs.PayloadAsk.{payload_ask_of};
ghost use Rattle.cv_pack.specs.Pack.{IsPack};
ghost use Rattle.cv_pack.specs.PackReader.{Fed, pack_of};
ghost use Rattle.cv_session.specs.DenialsInner.{Denies};
ghost use Rattle.cv_session.specs.Payloads.{message_size, payload_by_ask, payload_on, payload_turn, store_on};
ghost use Rattle.cv_session.specs.PayloadsInner.{ReadsBody, LooksWithin, Says, refused_pack};
ghost use Rattle.cv_session.specs.declared.turn.Turn.{Turn as TurnData};
ghost use Rattle.cv_session.specs.Turns.{signed, denied};
ghost use Rattle.cv_session.specs.TurnsInner.{IsGood};

use crate::asked_op::{read_signer, read_token};
use crate::denial::Denial;
use crate::find_turn::authorization;
use crate::turn::Turn;
use cv_answers::{Reason, Refusal};
use cv_base::Text;
use cv_gate::Op;
use cv_http::{HttpFault, RequestHead, Wire};
use cv_keys::KeyTable;
use cv_messages::{PayloadAsk, decimal_in};
use cv_pack::{Pack, PackFault, PackReader};
use cv_ports::{Sink, Source};
use sha1::Sha1;
use std::alloc::Global;

/// The most bytes of a payload's message, and of the body of another request.
pub const MESSAGE_LIMIT: u64 = 65_536;

/// A payload's message under the id of the key that signed it.
#[derive(Drop)]
pub(crate) struct Announced {
    pub(crate) key: Text,
    pub(crate) ask: PayloadAsk,
}

/// The bytes of the message at the front of a body of so many bytes, by the value of Message-Size.
fn message_size(text: Option<&str>, size: u64) -> Option<u64>
    ensures { result ≡ message_size (option_map (λ t. t.now) text.entry) size }
{
    let text = text?;
    let count = decimal_in(text)?;
    if count <= MESSAGE_LIMIT && count <= size {
        Some(count)
    } else {
        None
    }
}

/// The turn of a refusal that says its reason alone.
fn deny(reason: Reason) -> Turn
    ensures { result ≡ denied reason }
{
    Turn::Deny(Refusal::Plain(reason))
}

/// What a message announces, by its Authorization header.
fn read_announced(
    alloc: Global,
    keys: &KeyTable,
    header: Option<&str>,
    message: &[u8],
) -> Result<Announced, Denial>
    ensures says { (pack : List ℕ) →
        let turn = signed keys.now (option_map (λ text. text.now) header.entry) message.now (payload_by_ask (payload_ask_of message.now) pack) in
        MatchResult result (λ a. turn ≡ payload_on a.key a.ask pack) (Denies turn) }
    ensures key { IfOk result (λ a. is_key_id a.key ≡ true) }
{
    let key = read_signer(alloc, keys, header, message)?;
    let ask = PayloadAsk::read(alloc, message)?;
    Ok(Announced {
        key: key.id.copy(alloc)?,
        ask,
    })
}

/// Passes over so many bytes.
fn pass_over<R: Source<Beside = W> + Drop, W: Sink>(
    alloc: Global,
    wire: &mut Wire<R>,
    size: u64,
    beside: &W,
) -> Result<(), HttpFault>
    ensures reads { ReadsBody R.left R.given wire.old wire.new size (λ body made. Unit {0}) result }
    ensures cut { result ≡ Err Short → WhereTold (R.left wire.new.source) (λ left. left ≡ []) }
    ensures faults { IfErr result IsBodyFault }
    ensures no_read_failed { result ≢ Err ReadFault → R.faults wire.new.source ≡ R.faults wire.old.source }
    ensures cause { HasCause (R.faults wire.old.source) (R.faults wire.new.source) (result ≡ Err ReadFault) }
    ensures looks { LooksWithin R.left R.looks wire.old wire.new (W.passed beside.now) size }
{
    let mut count = 0;
    'pieces: while count < size {
        let piece = wire.read_some(alloc, size - count, beside)?;
        count += piece.as_slice().len() as u64;
    }
    Ok(())
}

/// Hashes of a piece what belongs to the first bytes, where so many came before it.
fn hash_front(hasher: &mut Sha1, most: u64, before: u64, piece: &[u8])
    ensures { (fed : List ℕ) → length fed ≡ before → Holds hasher.old (take most fed) → Holds hasher.new (take most (fed ++ piece.now)) }
{
    let count = most.saturating_sub(before).min(piece.len() as u64) as usize;
    hasher.update(&piece[..count]);
}

/// Feeds a piece to a reader. A fault stays in it.
fn feed(reader: &mut PackReader, piece: &[u8])
    ensures { (bytes : List ℕ) → Fed reader.old bytes → Fed reader.new (bytes ++ piece.now) }
{
    let _ = reader.feed(piece);
}

/// The turn of a pack with a fault.
fn refuse_pack(fault: PackFault) -> Result<Turn, HttpFault>
    ensures { result ≡ refused_pack fault }
{
    match fault {
        PackFault::BadHeader(_)
        | PackFault::TooLarge
        | PackFault::TooMany
        | PackFault::HashDiffers(_)
        | PackFault::Short
        | PackFault::Trailing
        | PackFault::Duplicate(_) => Ok(deny(Reason::BadPack)),
        PackFault::NoMemory => Err(HttpFault::NoMemory),
    }
}

/// The turn of a pack that was read, whose header has the digest that was announced.
fn store_turn(announced: Announced, pack: Pack) -> Turn
    requires { is_key_id announced.key ≡ true }
    ensures turn { pack ≡ pack_of pack.objects → result ≡ store_on announced.key announced.ask pack.objects }
    ensures good { IsPack pack.objects → IsGood result }
{
    if pack.header != announced.ask.header_size {
        return deny(Reason::BadHeaderSize);
    }
    let token = read_token(announced.ask.token.as_str());
    Turn::Step(Op::Store {
        key: announced.key,
        token,
        digest: announced.ask.digest,
        batch: pack.objects,
    })
}

/// The turn of a pack that was fed to a reader, and whose first bytes have this digest.
fn finish_pack(
    announced: Announced,
    reader: PackReader,
    digest: [u8; 20],
) -> Result<Turn, HttpFault>
    requires { is_key_id announced.key ≡ true }
    ensures turn { (pack : List ℕ) → Fed reader pack → digest ≡ sha1 (take announced.ask.header_size pack)
        → IfOk result (λ turn. (turn ≡ payload_on announced.key announced.ask pack) × IsGood turn) }
    ensures faults { IfErr result (λ fault. fault ≡ NoMemory) }
{
    if digest != announced.ask.digest {
        return Ok(deny(Reason::BadDigest));
    }
    match reader.finish() {
        Ok(pack) => Ok(store_turn(announced, pack)),
        Err(fault) => refuse_pack(fault),
    }
}

/// Reads a pack of so many bytes, and what it asks.
fn read_pack<R: Source<Beside = W> + Drop, W: Sink>(
    alloc: Global,
    wire: &mut Wire<R>,
    announced: Announced,
    size: u64,
    beside: &W,
) -> Result<Turn, HttpFault>
    requires { is_key_id announced.key ≡ true }
    ensures reads { ReadsBody R.left R.given wire.old wire.new size (Says (payload_on announced.key announced.ask)) result }
    ensures cut { result ≡ Err Short → WhereTold (R.left wire.new.source) (λ left. left ≡ []) }
    ensures faults { IfErr result IsBodyFault }
    ensures no_read_failed { result ≢ Err ReadFault → R.faults wire.new.source ≡ R.faults wire.old.source }
    ensures cause { HasCause (R.faults wire.old.source) (R.faults wire.new.source) (result ≡ Err ReadFault) }
    ensures looks { LooksWithin R.left R.looks wire.old wire.new (W.passed beside.now) size }
{
    let mut reader = PackReader::new(alloc);
    let mut hasher = Sha1::new();
    let mut count = 0;
    'pieces: while count < size {
        let piece = wire.read_some(alloc, size - count, beside)?;
        hash_front(
            &mut hasher,
            announced.ask.header_size,
            count,
            piece.as_slice(),
        );
        feed(&mut reader, piece.as_slice());
        count += piece.as_slice().len() as u64;
    }
    finish_pack(announced, reader, hasher.finalize())
}

/// Passes over what follows a message that was denied, so many bytes.
fn pass_denied<R: Source<Beside = W> + Drop, W: Sink>(
    alloc: Global,
    wire: &mut Wire<R>,
    denial: Denial,
    size: u64,
    beside: &W,
) -> Result<Turn, HttpFault>
    ensures reads { (says : List ℕ → TurnData) → ((pack : List ℕ) → Denies (says pack) denial)
        → ReadsBody R.left R.given wire.old wire.new size (Says says) result }
    ensures cut { result ≡ Err Short → WhereTold (R.left wire.new.source) (λ left. left ≡ []) }
    ensures faults { IfErr result IsBodyFault }
    ensures no_read_failed { result ≢ Err ReadFault → R.faults wire.new.source ≡ R.faults wire.old.source }
    ensures cause { HasCause (R.faults wire.old.source) (R.faults wire.new.source) (result ≡ Err ReadFault) }
    ensures looks { LooksWithin R.left R.looks wire.old wire.new (W.passed beside.now) size }
{
    match denial {
        Denial::Refused(refusal) => {
            pass_over(alloc, wire, size, beside)?;
            Ok(Turn::Deny(refusal))
        }
        Denial::NoMemory => Err(HttpFault::NoMemory),
    }
}

/// Reads what follows a message, so many bytes, and what the payload asks.
fn read_rest<R: Source<Beside = W> + Drop, W: Sink>(
    alloc: Global,
    wire: &mut Wire<R>,
    announced: Result<Announced, Denial>,
    size: u64,
    beside: &W,
) -> Result<Turn, HttpFault>
    requires { IfOk announced (λ a. is_key_id a.key ≡ true) }
    ensures reads { (says : List ℕ → TurnData) → ((pack : List ℕ) → MatchResult announced (λ a. says pack ≡ payload_on a.key a.ask pack) (Denies (says pack)))
        → ReadsBody R.left R.given wire.old wire.new size (Says says) result }
    ensures cut { result ≡ Err Short → WhereTold (R.left wire.new.source) (λ left. left ≡ []) }
    ensures faults { IfErr result IsBodyFault }
    ensures no_read_failed { result ≢ Err ReadFault → R.faults wire.new.source ≡ R.faults wire.old.source }
    ensures cause { HasCause (R.faults wire.old.source) (R.faults wire.new.source) (result ≡ Err ReadFault) }
    ensures looks { LooksWithin R.left R.looks wire.old wire.new (W.passed beside.now) size }
{
    match announced {
        Ok(announced) => read_pack(alloc, wire, announced, size, beside),
        Err(denial) => pass_denied(alloc, wire, denial, size, beside),
    }
}

/// The value of the Message-Size header.
fn message_header(head: &RequestHead) -> Option<&str>
    ensures { option_map (λ text. text.now) result ≡ head.now.message_size }
{
    head.message_size.as_ref().map(|text| text.as_str())
}

/// Reads the body of a payload, so many bytes, and what it asks.
pub(crate) fn read_payload<R: Source<Beside = W> + Drop, W: Sink>(
    alloc: Global,
    keys: &KeyTable,
    wire: &mut Wire<R>,
    head: &RequestHead,
    size: u64,
    beside: &W,
) -> Result<Turn, HttpFault>
    ensures reads { let says = payload_turn keys.now head.now.authorization head.now.message_size in
        ReadsBody R.left R.given wire.old wire.new size (Says says) result }
    ensures cut { result ≡ Err Short → WhereTold (R.left wire.new.source) (λ left. left ≡ []) }
    ensures faults { IfErr result IsBodyFault }
    ensures no_read_failed { result ≢ Err ReadFault → R.faults wire.new.source ≡ R.faults wire.old.source }
    ensures cause { HasCause (R.faults wire.old.source) (R.faults wire.new.source) (result ≡ Err ReadFault) }
    ensures looks { LooksWithin R.left R.looks wire.old wire.new (W.passed beside.now) size }
{
    let Some(count) = message_size(message_header(head), size) else {
        pass_over(alloc, wire, size, beside)?;
        return Ok(deny(Reason::BadMessageSize));
    };
    let message = wire.read_body(alloc, count, beside)?;
    let announced = read_announced(alloc, keys, authorization(head), message.as_slice());
    read_rest(alloc, wire, announced, size - count, beside)
}
