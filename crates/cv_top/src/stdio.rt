//! The command that serves one connection.
ghost use Rattle.std.specs.Prelude.{◌≡◌, ◌≢◌, ◌≤◌};
ghost use Rattle.cv_base.specs.Counts.{HasCause};
ghost use Rattle.cv_session.specs.declared.session_end.SessionEnd.TheVariants.{ReadFault, WriteFault};
ghost use Rattle.cv_top.specs.Runs.{Serves, Talks};
ghost use Rattle.cv_top.specs.declared.status.Status.TheVariants.{InputFailed, OutputFailed, StoreFailed, LinkFailed};

use crate::seal::Identity;
use crate::status::Status;
use cv_desk::{Gate, OneDesk};
use cv_gate::desk_laws::alone_is_in_order;
use cv_gate::laws::leases_stay_apart;
use cv_http::Wire;
use cv_keys::KeyTable;
use cv_ports::{Clock, Hold, Sink, Source};
use cv_seal::KeyedHash;
use cv_session::{SessionEnd, session};
use cv_swap::laws::opening_keeps_what_is_kept;
use cv_vault::Vault;
use std::alloc::Global;

/// Answers the requests of the input on the output.
fn talk<V: Vault + Drop, R: Source<Beside = W> + Drop, W: Sink, C: Clock, H: Hold>(
    alloc: Global,
    desk: &mut OneDesk<V, KeyedHash>,
    keys: &KeyTable,
    signer: &KeyedHash,
    input: R,
    output: &mut W,
    clock: &mut C,
    hold: &H,
) -> (SessionEnd, R)
    ensures talks { Talks V.disk V.count V.left V.faults R.left R.given R.looks W.taken W.passed C.moments desk.old.gate.state.line.name keys.now signer.now desk.old desk.new
        input result.1 output.old output.new clock.old clock.new result.0 }
    ensures flushed { result.0 ≢ WriteFault → W.passed output.old ≡ W.taken output.old → W.passed output.new ≡ W.taken output.new }
    ensures no_read_failed { result.0 ≢ ReadFault → R.faults result.1 ≡ R.faults input }
    ensures reads { HasCause (R.faults input) (R.faults result.1) (result.0 ≡ ReadFault) }
    ensures no_write_failed { result.0 ≢ WriteFault → W.faults output.new ≡ W.faults output.old }
    ensures writes { HasCause (W.faults output.old) (W.faults output.new) (result.0 ≡ WriteFault) }
    ensures stores { V.faults desk.old.gate.state.line.vault ≤ V.faults desk.new.gate.state.line.vault }
{
    let mut wire = Wire::new(alloc, input);
    let end = session(alloc, desk, keys, signer, clock, hold, &mut wire, output);
    (end, wire.into_source())
}

/// Opens the gate of the repository, and answers the requests of the input on the output. The signer is given twice: for the
/// gate, and for what is served.
pub(crate) fn serve<V: Vault + Drop, R: Source<Beside = W> + Drop, W: Sink, C: Clock, H: Hold>(
    alloc: Global,
    repository: Identity,
    signer: KeyedHash,
    keys: &KeyTable,
    vault: V,
    input: R,
    output: &mut W,
    clock: &mut C,
    hold: &H,
) -> (Status, V, R)
    requires signed { signer ≡ repository.signer }
    ensures serves { Serves V.disk V.count V.left V.faults R.left R.given R.looks W.taken W.passed C.moments repository.name keys.now repository.signer
        vault result.1 input result.2 output.old output.new clock.old clock.new result.0 }
    ensures flushed { result.0 ≢ OutputFailed → W.passed output.old ≡ W.taken output.old → W.passed output.new ≡ W.taken output.new }
    ensures no_read_failed { result.0 ≢ InputFailed → R.faults result.2 ≡ R.faults input }
    ensures reads { HasCause (R.faults input) (R.faults result.2) (result.0 ≡ InputFailed) }
    ensures no_write_failed { result.0 ≢ OutputFailed → W.faults output.new ≡ W.faults output.old }
    ensures writes { HasCause (W.faults output.old) (W.faults output.new) (result.0 ≡ OutputFailed) }
    ensures stores { HasCause (V.faults vault) (V.faults result.1) (result.0 ≡ StoreFailed) }
    ensures links { result.0 ≢ LinkFailed }
{
    alone_is_in_order();
    leases_stay_apart();
    opening_keeps_what_is_kept();
    let gate = match Gate::open(vault, alloc, repository.name, repository.signer) {
        Ok(gate) => gate,
        Err((fault, vault)) => return (Status::of_open(fault), vault, input),
    };
    let mut desk = OneDesk::new(gate);
    let (end, input) = talk(alloc, &mut desk, keys, &signer, input, output, clock, hold);
    (Status::of_end(end), desk.into_gate().into_vault(), input)
}
