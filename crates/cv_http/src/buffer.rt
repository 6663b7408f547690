//! A source, with what it gave and nothing was made of yet.
ghost use Rattle.std.specs.Prelude.{◌≡◌, ◌≤◌, ◌<◌, ◌+◌, ◌⊎◌, ◌≢◌, Ok, Err, [], length, drop, true, false, OnErr};
ghost use Rattle.cv_base.specs.Counts.{HasCause};
ghost use Rattle.cv_ports.specs.Streams.{Look, front};
ghost use Rattle.cv_http.specs.Wires.{rest, Looks, Beside, HasEnded, Gets};
ghost use Rattle.cv_http.specs.declared.buffer.FillFault.TheVariants as faults;
ghost use Rattle.cv_http.specs.declared.buffer.TheConstants.{PIECE};
ghost use Rattle.cv_http.specs.declared.buffer.FillFault.TheVariants.{ReadFault};

use cv_base::NoMemory;
use cv_ports::Source;
use std::alloc::Global;
use std::marker::Model;

/// The most bytes of a read.
pub const PIECE: usize = 65_536;

/// Why no more was read.
#[derive(Clone, Copy, Debug, PartialEq, Eq)]
pub enum FillFault {
    /// The source failed.
    ReadFault,
    /// There was no memory.
    NoMemory,
}

impl From<NoMemory> for FillFault {
    ghost from_gives = { λ _ e. e ≡ faults.NoMemory };

    fn from(_fault: NoMemory) -> FillFault {
        FillFault::NoMemory
    }
}

/// A source, with the bytes that it gave and that weren't used yet. Beside them it holds a piece of 65,536 bytes, from the first
/// read on.
#[derive(Drop)]
pub struct Buffer<R: Source + Drop> {
    source: R,
    held: Vec<u8>,
    used: usize,
    piece: Vec<u8>,
}

impl<R: Source + Drop> Model for Buffer<R> {
    ghost use Rattle.std.specs.Prelude.{◌≤◌, drop, vec_len};
    ghost use Rattle.cv_http.specs.Wires.{WireView};

    ghost Value = { WireView R };

    ghost view = { λ b. record { source = b.source; held = drop b.used b.held.items } };

    ghost invariant = { λ b. b.used ≤ vec_len b.held };
}

/// Reads a piece to the end of what is held, beside a sink. `false` is the end of the source.
#[tactic(auto, using(crate::proofs::Streams::reads_on))]
fn read_piece<R: Source>(
    source: &mut R,
    piece: &mut [u8],
    held: &mut Vec<u8>,
    beside: &R::Beside,
) -> Result<bool, FillFault>
    requires { 0 < length piece.old }
    ensures stream { front held.new.items (R.left source.new) ≡ front held.old.items (R.left source.old) }
    ensures gets { Gets R.left R.given (record { source = source.old; held = held.old.items })
        (record { source = source.new; held = held.new.items }) }
    ensures more { result ≡ Ok true → length held.old.items < length held.new.items }
    ensures most { length held.new.items ≤ length held.old.items + length piece.old }
    ensures lost { OnErr result (held.new.items ≡ held.old.items) }
    ensures end { result ≡ Ok false → (held.new.items ≡ held.old.items) × HasEnded (R.left source.new) }
    ensures no_read_failed { result ≢ Err ReadFault → R.faults source.new ≡ R.faults source.old }
    ensures cause { HasCause (R.faults source.old) (R.faults source.new) (result ≡ Err ReadFault) }
    ensures looks { (look : Look) → R.looks source.new look
        → R.looks source.old look ⊎ (look ≡ record { left = R.left source.old; passed = R.Beside.passed beside.now }) }
{
    held.reserve(piece.len()).map_err(NoMemory::from)?;
    let Ok(count) = source.read(piece, beside) else {
        return Err(FillFault::ReadFault);
    };
    if held.extend_from_slice(&piece[..count]).is_err() {
        unreachable!();
    }
    Ok(count > 0)
}

impl<R: Source + Drop> Buffer<R> {
    /// Nothing of the source was read yet.
    pub fn new(alloc: Global, source: R) -> Buffer<R>
        ensures { result ≡ record { source = source; held = [] } }
    {
        Buffer {
            source,
            held: Vec::new(alloc),
            used: 0,
            piece: Vec::new(alloc),
        }
    }

    /// The source. What was held is lost.
    pub fn into_source(self) -> R
        ensures { result ≡ self.source }
    {
        self.source
    }

    /// What is held.
    pub fn bytes(&self) -> &[u8]
        ensures { result.now ≡ self.now.held }
    {
        &self.held[self.used..]
    }

    /// Uses bytes up.
    pub fn skip(&mut self, count: usize)
        requires { count ≤ length self.old.held }
        ensures { self.new ≡ record self.old { held = drop count self.old.held } }
    {
        self.used += count;
    }

    /// Reads more of the source, beside a sink, a piece of 64 KiB at most. `false` is its end.
    pub fn fill(&mut self, beside: &R::Beside) -> Result<bool, FillFault>
        ensures stream { rest R.left self.new ≡ rest R.left self.old }
        ensures gets { Gets R.left R.given self.old self.new }
        ensures more { result ≡ Ok true → length self.old.held < length self.new.held }
        ensures most { length self.new.held ≤ length self.old.held + PIECE }
        ensures lost { OnErr result (self.new.held ≡ self.old.held) }
        ensures end { result ≡ Ok false → (self.new.held ≡ self.old.held) × HasEnded (R.left self.new.source) }
        ensures no_read_failed { result ≢ Err ReadFault → R.faults self.new.source ≡ R.faults self.old.source }
        ensures cause { HasCause (R.faults self.old.source) (R.faults self.new.source) (result ≡ Err ReadFault) }
        ensures looks { Looks R.left R.looks self.old self.new (Beside (R.Beside.passed beside.now) (λ b. b ≡ self.old.held)) }
    {
        self.held.drain(..self.used);
        self.used = 0;
        self.piece.resize(PIECE, 0).map_err(NoMemory::from)?;
        read_piece(
            &mut self.source,
            self.piece.as_mut_slice(),
            &mut self.held,
            beside,
        )
    }
}
