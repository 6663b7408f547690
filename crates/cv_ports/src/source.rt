//! Where bytes come from.
ghost use Rattle.std.specs.Prelude.{◌≡◌, ◌≤◌, ◌<◌, ◌⊎◌, ℕ, List, Option, [], length, take, OnErr, IfOk, IsErr, OnOk};
ghost use Rattle.cv_base.specs.Counts.{HasCause};
ghost use Rattle.cv_base.specs.Told.{WhereTold};
ghost use Rattle.cv_ports.specs.Streams.{Look, front, onto};

use crate::failed::Failed;
use crate::sink::Sink;

/// Where bytes come from, as a file, a pipe or a connection.
pub trait Source {
    /// The sink beside it, whose bytes go to where these come from.
    type Beside: Sink;

    /// The bytes that it will give from here on, where it tells.
    ghost left: { Self → Option (List ℕ) };

    /// The bytes that it gave so far, where it tells.
    ghost given: { Self → Option (List ℕ) };

    /// How many of its calls failed, so far as 64 bits can count.
    ghost faults: { Self → ℕ };

    /// When its reads began, each with what it had left then and what the sink beside it had passed on, where it tells.
    ghost looks: { Self → Look → Type 0 };

    /// Puts the next bytes at the front of the buffer, and answers how many. 0 of a buffer that isn't empty is the
    /// end of the input. A read that failed took nothing. The sink beside it is only looked at.
    fn read(&mut self, buf: &mut [u8], beside: &Self::Beside) -> Result<usize, Failed>
        ensures fits { IfOk result (λ count. count ≤ length buf.old) }
        ensures gives { IfOk result (λ count. left self.old ≡ front (take count buf.new) (left self.new)) }
        ensures given { IfOk result (λ count. given self.new ≡ onto (given self.old) (take count buf.new)) }
        ensures end { IfOk result (λ count. count ≡ 0 → 0 < length buf.old → WhereTold (left self.new) (λ more. more ≡ [])) }
        ensures unchanged { OnErr result (left self.new ≡ left self.old) }
        ensures ungiven { OnErr result (given self.new ≡ given self.old) }
        ensures no_read_failed { OnOk result (faults self.new ≡ faults self.old) }
        ensures cause { HasCause (faults self.old) (faults self.new) (IsErr result) }
        ensures noted { (look : Look) → looks self.new look
            → looks self.old look ⊎ (look ≡ record { left = left self.old; passed = Self.Beside.passed beside.now }) };
}
