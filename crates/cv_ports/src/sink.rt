//! Where bytes go.
ghost use Rattle.std.specs.Prelude.{◌≡◌, ◌≤◌, ◌<◌, ℕ, List, Option, length, take, OnOk, OnErr, IfOk, IsErr};
ghost use Rattle.cv_base.specs.Counts.{HasCause};
ghost use Rattle.cv_ports.specs.Streams.{onto, Wrote};

use crate::failed::Failed;

/// Where bytes go, as a file, a pipe or a connection. Once a call failed each later one fails, so that nothing comes behind a gap.
pub trait Sink {
    /// The bytes that it took so far, where it tells.
    ghost taken: { Self → Option (List ℕ) };

    /// What it passed on of them: all that it had taken at its last flush that didn't fail, where it tells.
    ghost passed: { Self → Option (List ℕ) };

    /// How many of its calls failed, so far as 64 bits can count.
    ghost faults: { Self → ℕ };

    /// Takes bytes from the front of the piece, at least one unless the piece is empty, and answers how many. A write
    /// that failed took nothing.
    fn write(&mut self, bytes: &[u8]) -> Result<usize, Failed>
        ensures fits { IfOk result (λ count. count ≤ length bytes.now) }
        ensures some { IfOk result (λ count. 0 < length bytes.now → 0 < count) }
        ensures takes { IfOk result (λ count. taken self.new ≡ onto (taken self.old) (take count bytes.now)) }
        ensures unchanged { OnErr result (taken self.new ≡ taken self.old) }
        ensures held { passed self.new ≡ passed self.old }
        ensures sticks { 0 < faults self.old → IsErr result }
        ensures no_write_failed { OnOk result (faults self.new ≡ faults self.old) }
        ensures cause { HasCause (faults self.old) (faults self.new) (IsErr result) };

    /// Passes on what was taken and may still be held. What was taken stays taken.
    fn flush(&mut self) -> Result<(), Failed>
        ensures same { taken self.new ≡ taken self.old }
        ensures passes { OnOk result (passed self.new ≡ taken self.new) }
        ensures held { OnErr result (passed self.new ≡ passed self.old) }
        ensures sticks { 0 < faults self.old → IsErr result }
        ensures no_write_failed { OnOk result (faults self.new ≡ faults self.old) }
        ensures cause { HasCause (faults self.old) (faults self.new) (IsErr result) };
}

/// Writes all of the bytes. Where a write fails, the sink took a front of them.
pub fn write_all<W: Sink>(sink: &mut W, bytes: &[u8]) -> Result<(), Failed>
    ensures whole { OnOk result (W.taken sink.new ≡ onto (W.taken sink.old) bytes.now) }
    ensures part { Wrote (W.taken sink.old) (W.taken sink.new) bytes.now }
    ensures held { W.passed sink.new ≡ W.passed sink.old }
    ensures no_write_failed { OnOk result (W.faults sink.new ≡ W.faults sink.old) }
    ensures cause { HasCause (W.faults sink.old) (W.faults sink.new) (IsErr result) }
{
    let mut written = 0;
    'writes: while written < bytes.len() {
        written += sink.write(&bytes[written..])?;
    }
    Ok(())
}
