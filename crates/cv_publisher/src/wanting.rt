//! The request of each stage.
ghost use Rattle.std.specs.Prelude.{◌≡◌, IfOk};
ghost use Rattle.cv_publisher.specs.Holding.{IsHeld};
ghost use Rattle.cv_publisher.specs.Wanting.{Wants};

use crate::fault::PublishFault;
use crate::plan::Plan;
use crate::requests::{
    cancel_request, commit_request, lease_request, manifest_request, object_request,
    payload_request,
};
use crate::stage::Stage;
use crate::want::Want;
use cv_base::NoMemory;
use cv_http::Outgoing;
use cv_keys::KeyTable;
use std::alloc::Global;

/// An equal end.
fn copy_end(
    alloc: Global,
    end: &Result<u64, PublishFault>,
) -> Result<Result<u64, PublishFault>, NoMemory>
    ensures { IfOk result (λ made. made ≡ end.now) }
{
    match end {
        Ok(revision) => Ok(Ok(*revision)),
        Err(fault) => Ok(Err(fault.copy(alloc)?)),
    }
}

/// What is wanted in a stage.
pub(crate) fn want_in(
    alloc: Global,
    keys: &KeyTable,
    plan: &Plan,
    stage: &Stage,
) -> Result<Want, NoMemory>
    requires { IsHeld plan.now stage.now }
    ensures { IfOk result (Wants keys.now plan.now stage.now) }
{
    let request = match stage {
        Stage::Leasing => lease_request(alloc, keys, plan),
        Stage::Reading(_) => manifest_request(alloc, plan),
        Stage::Fetching { checkout, .. } => {
            let Some(id) = checkout.want() else {
                unreachable!("a catalogue is wanted");
            };
            object_request(alloc, plan, &id)
        }
        Stage::Sending {
            offer,
            catalogues,
            left,
        } => {
            let token = offer.token;
            payload_request(
                alloc,
                keys,
                plan,
                token,
                catalogues.as_slice(),
                left.as_slice(),
            )
        }
        Stage::Committing(offer) => {
            commit_request(alloc, keys, plan, offer.token, offer.base, offer.root)
        }
        Stage::Cancelling { token, .. } => cancel_request(alloc, keys, plan, *token),
        Stage::Ended(end) => return Ok(Want::Done(copy_end(alloc, end)?)),
    };
    Ok(Want::Exchange(request?))
}
