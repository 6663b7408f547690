//! Lines of a source.
ghost use Rattle.std.specs.Prelude.{◌≡◌, ◌≤◌, ◌<◌, ◌≢◌, [], length, drop, true, false, Ok, Err, OnErr, IfErr};
ghost use Rattle.cv_base.specs.Counts.{HasCause};
ghost use Rattle.cv_http.specs.Wires.{Draws, Looks, Beside, HasEnded, Gets};
ghost use Rattle.cv_shell.specs.Lines.{IsLine, LineRead, filling};
ghost use Rattle.cv_shell.specs.LinesInner.{LineFound, IsPieceFault};
ghost use Rattle.cv_shell.specs.declared.lines.LineFault.TheVariants.{ReadFault};
ghost use Rattle.cv_shell.specs.declared.lines.LineFault.TheVariants as faults;

use cv_base::{Bytes, NoMemory, newline_at};
use cv_http::{Buffer, FillFault};
use cv_ports::Source;
use std::alloc::Global;
use std::marker::Model;

/// The most bytes of a line, for which its newline doesn't count.
pub const LINE_LIMIT: usize = 8_192;

/// Why no line was read.
#[derive(Clone, Copy, Debug, PartialEq, Eq)]
pub enum LineFault {
    /// The next line has more than 8,192 bytes.
    TooLong,
    /// The source failed.
    ReadFault,
    /// There was no memory.
    NoMemory,
}

impl From<FillFault> for LineFault {
    ghost from_gives = { λ fault e. e ≡ filling fault };

    fn from(fault: FillFault) -> LineFault {
        match fault {
            FillFault::ReadFault => LineFault::ReadFault,
            FillFault::NoMemory => LineFault::NoMemory,
        }
    }
}

impl From<NoMemory> for LineFault {
    ghost from_gives = { λ _ fault. fault ≡ faults.NoMemory };

    fn from(_error: NoMemory) -> LineFault {
        LineFault::NoMemory
    }
}

/// A source of lines, with the bytes that it gave and that no line was made of yet.
#[derive(Drop)]
pub struct Lines<R: Source + Drop> {
    buffer: Buffer<R>,
}

impl<R: Source + Drop> Model for Lines<R> {
    ghost use Rattle.cv_http.specs.Wires.{WireView};

    ghost Value = { WireView R };

    ghost view = { λ l. l.buffer };
}

impl<R: Source + Drop> Lines<R> {
    /// Nothing of the source was read yet.
    pub fn new(alloc: Global, source: R) -> Lines<R>
        ensures { result ≡ record { source = source; held = [] } }
    {
        Lines {
            buffer: Buffer::new(alloc, source),
        }
    }

    /// The source. What was held is lost.
    pub fn into_source(self) -> R
        ensures { result ≡ self.source }
    {
        self.buffer.into_source()
    }

    /// What is held.
    fn bytes(&self) -> &[u8]
        ensures { result.now ≡ self.now.held }
    {
        self.buffer.bytes()
    }

    /// Uses bytes up.
    fn skip(&mut self, count: usize)
        requires { count ≤ length self.old.held }
        ensures { self.new ≡ record self.old { held = drop count self.old.held } }
    {
        self.buffer.skip(count);
    }

    /// Reads more of the source, beside a sink. `false` is its end.
    fn fill(&mut self, beside: &R::Beside) -> Result<bool, LineFault>
        ensures gets { Gets R.left R.given self.old self.new }
        ensures more { result ≡ Ok true → length self.old.held < length self.new.held }
        ensures lost { OnErr result (self.new.held ≡ self.old.held) }
        ensures end { result ≡ Ok false → (self.new.held ≡ self.old.held) × HasEnded (R.left self.new.source) }
        ensures faults { IfErr result IsPieceFault }
        ensures no_read_failed { result ≢ Err ReadFault → R.faults self.new.source ≡ R.faults self.old.source }
        ensures cause { HasCause (R.faults self.old.source) (R.faults self.new.source) (result ≡ Err ReadFault) }
        ensures looks { Looks R.left R.looks self.old self.new (Beside (R.Beside.passed beside.now) (λ b. b ≡ self.old.held)) }
    {
        Ok(self.buffer.fill(beside)?)
    }

    /// Takes the line with which what is held begins, with its newline. `None` where a part of one is held.
    fn take_line(&mut self, alloc: Global) -> Result<Option<Bytes>, LineFault>
        ensures found { LineFound self.old.held self.new.held result }
        ensures source { self.new.source ≡ self.old.source }
    {
        let bytes = self.bytes();
        let room = bytes.len().min(LINE_LIMIT + 1);
        match newline_at(&bytes[..room]) {
            Some(size) => {
                let line = Bytes::from_slice(alloc, &bytes[..size])?;
                self.skip(size + 1);
                Ok(Some(line))
            }
            None if room > LINE_LIMIT => Err(LineFault::TooLong),
            None => Ok(None),
        }
    }

    /// Takes what is held as the last line, where the source has ended. `None` where nothing is held.
    fn last_line(&mut self, alloc: Global) -> Result<Option<Bytes>, LineFault>
        requires part { IsLine self.old.held }
        requires end { HasEnded (R.left self.old.source) }
        ensures read { LineRead (R.left self.new.source) self.old.held self.new.held result }
        ensures source { self.new.source ≡ self.old.source }
        ensures faults { result ≡ Err ReadFault → ⊥ }
    {
        let bytes = self.bytes();
        let size = bytes.len();
        if size == 0 {
            return Ok(None);
        }
        let line = Bytes::from_slice(alloc, bytes)?;
        self.skip(size);
        Ok(Some(line))
    }

    /// Reads the next line, without its newline; the last may lack one. `None` is the end of the input. A whole line is
    /// answered before more is read. A fault takes nothing of what is left.
    pub fn next_line(
        &mut self,
        alloc: Global,
        beside: &R::Beside,
    ) -> Result<Option<Bytes>, LineFault>
        ensures reads { Draws R.left R.given self.old self.new (λ b. LineRead (R.left self.new.source) b self.new.held result) }
        ensures no_read_failed { result ≢ Err ReadFault → R.faults self.new.source ≡ R.faults self.old.source }
        ensures cause { HasCause (R.faults self.old.source) (R.faults self.new.source) (result ≡ Err ReadFault) }
        ensures looks { Looks R.left R.looks self.old self.new (Beside (R.Beside.passed beside.now) IsLine) }
    {
        'pieces: loop {
            if let Some(line) = self.take_line(alloc)? {
                return Ok(Some(line));
            }
            if !self.fill(beside)? {
                return self.last_line(alloc);
            }
        }
    }
}
