//! The command that makes a repository.
ghost use Rattle.std.specs.Prelude.{◌≡◌, ◌≢◌, IsErr, OnOk};
ghost use Rattle.cv_base.specs.Counts.{HasCause};
ghost use Rattle.cv_ports.specs.Streams.{onto, Wrote};
ghost use Rattle.cv_top.specs.Runs.{Inits, first_line};
ghost use Rattle.cv_top.specs.declared.status.Status.TheVariants.{InputFailed, OutputFailed, StoreFailed, LinkFailed};

use crate::print::print;
use crate::status::Status;
use cv_base::Name;
use cv_ports::{Clock, Failed, Sink};
use cv_seal::KeyedHash;
use cv_swap::Line;
use cv_vault::Vault;
use std::alloc::Global;

/// Says on the output that the first revision was made.
fn write_first<W: Sink>(output: &mut W) -> Result<(), Failed>
    ensures whole { OnOk result (W.taken output.new ≡ onto (W.taken output.old) first_line) }
    ensures part { Wrote (W.taken output.old) (W.taken output.new) first_line }
    ensures passed { OnOk result (W.passed output.new ≡ W.taken output.new) }
    ensures no_write_failed { OnOk result (W.faults output.new ≡ W.faults output.old) }
    ensures cause { HasCause (W.faults output.old) (W.faults output.new) (IsErr result) }
{
    print(output, b"revision 1\n".as_slice())
}

/// Makes the first revision of a repository in the vault at the clock's moment, and says so on the output.
pub(crate) fn init<V: Vault + Drop, W: Sink, C: Clock>(
    alloc: Global,
    name: &Name,
    signer: &KeyedHash,
    vault: V,
    output: &mut W,
    clock: &mut C,
) -> (Status, V)
    ensures inits { Inits V.disk V.count V.left W.taken C.moments name.now signer.now vault result.1 output.old output.new clock.old clock.new result.0 }
    ensures flushed { result.0 ≢ OutputFailed → W.passed output.old ≡ W.taken output.old → W.passed output.new ≡ W.taken output.new }
    ensures reads { result.0 ≢ InputFailed }
    ensures no_write_failed { result.0 ≢ OutputFailed → W.faults output.new ≡ W.faults output.old }
    ensures writes { HasCause (W.faults output.old) (W.faults output.new) (result.0 ≡ OutputFailed) }
    ensures stores { HasCause (V.faults vault) (V.faults result.1) (result.0 ≡ StoreFailed) }
    ensures links { result.0 ≢ LinkFailed }
{
    match Line::init(vault, alloc, name, signer, clock.now()) {
        Ok(vault) => match write_first(output) {
            Ok(()) => (Status::Done, vault),
            Err(Failed) => (Status::OutputFailed, vault),
        },
        Err((fault, vault)) => (Status::of_init(fault), vault),
    }
}
