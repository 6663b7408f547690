//! A question at the head that is served.
ghost use Rattle.std.specs.Prelude.{◌≡◌, Err};
ghost use Rattle.cv_base.specs.Counts.{HasCause, Rose};
ghost use Rattle.cv_tree.specs.Tree.{Nodes};
ghost use Rattle.cv_manifest.specs.declared.manifest.Manifest.{Manifest};
ghost use Rattle.cv_resolver.specs.Look.{look};
ghost use Rattle.cv_client.specs.Asking.{AsksFirst};
ghost use Rattle.cv_client.specs.Served.{Files, ServedBy, HasAnswer, IsWhole};
ghost use Rattle.cv_client.specs.Told.{Told};
ghost use Rattle.cv_client.specs.declared.ask_fault.AskFault.TheVariants.{LinkFailed};

use crate::answering::answer;
use crate::ask_fault::AskFault;
use crate::pinning::pin;
use crate::url::Url;
use cv_ports::Dial;
use cv_resolver::{Found, Question};
use cv_seal::Signer;
use std::alloc::Global;

/// Asks one question at the head of the manifest that is served: one exchange for the manifest, and one for each object that
/// the question wants.
pub fn ask<N: Dial, S: Signer>(
    alloc: Global,
    dial: &mut N,
    url: &Url,
    signer: &S,
    question: Question,
) -> Result<Found, AskFault>
    ensures told { Told (S.is_seal signer.now) url.now question (N.came dial.old) (N.came dial.new) result }
    ensures asks { AsksFirst N.came N.looks dial.old dial.new }
    ensures cause { HasCause (N.faults dial.old) (N.faults dial.new) (result ≡ Err LinkFailed) }

    // Where no fault was counted, and each link that came back sent what the server has, which has the answer in a tree: that is
    // told.
    ensures completes { (Rose 1 (N.faults dial.old) (N.faults dial.new) → ⊥) → (files : Files)
        → ServedBy url.now files (N.came dial.old) (N.came dial.new) → (t : Nodes) (m : Manifest)
        → HasAnswer (S.is_seal signer.now) files t m question → IsWhole (look m.name t question) result }
{
    match pin(alloc, dial, url, signer) {
        Ok(mut resolver) => answer(alloc, dial, url, &mut resolver, question),
        Err(fault) => Err(fault),
    }
}
