//! What the program prints.
ghost use Rattle.std.specs.Prelude.{◌≡◌, OnOk, IsErr};
ghost use Rattle.cv_base.specs.Counts.{HasCause};
ghost use Rattle.cv_ports.specs.Streams.{onto, Wrote};

use cv_ports::{Failed, Sink, write_all};

/// Writes a text on the output, and passes it on.
pub(crate) fn print<W: Sink>(output: &mut W, text: &[u8]) -> Result<(), Failed>
    ensures whole { OnOk result (W.taken output.new ≡ onto (W.taken output.old) text.now) }
    ensures part { Wrote (W.taken output.old) (W.taken output.new) text.now }
    ensures passed { OnOk result (W.passed output.new ≡ W.taken output.new) }
    ensures no_write_failed { OnOk result (W.faults output.new ≡ W.faults output.old) }
    ensures cause { HasCause (W.faults output.old) (W.faults output.new) (IsErr result) }
{
    write_all(output, text)?;
    output.flush()
}
