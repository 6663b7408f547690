//! What follows the reply to the request for a catalogue.
ghost use Rattle.std.specs.Prelude.{◌≡◌, ◌⊎◌, None, IfOk};
ghost use Rattle.cv_checkout.specs.Progress.{begun};
ghost use Rattle.cv_checkout.specs.Wanting.{next_of};
ghost use Rattle.cv_publisher.specs.Holding.{IsFetching, IsHeld, IsPlan};
ghost use Rattle.cv_publisher.specs.Taking.{AfterCatalogue, AfterCheckout, behind_checkout, sending};
ghost use Rattle.cv_publisher.specs.declared.stage.Stage.TheVariants.{Fetching, Cancelling};
ghost use Rattle.cv_publisher.specs.declared.fault.PublishFault.TheVariants as faults;

use crate::assembling::{Delivery, assemble};
use crate::fault::PublishFault;
use crate::plan::Plan;
use crate::replies::served_in;
use crate::stage::{Offer, Stage};
use cv_base::{Items, Kind, NoMemory, Object, ObjectId, Token};
use cv_checkout::{Base, Checkout};
use cv_http::HttpReply;
use std::alloc::Global;

/// A checkout of the path of the tree of a root.
fn checkout_of(alloc: Global, plan: &Plan, base: [u8; 20]) -> Result<Checkout, NoMemory>
    ensures { IfOk result (λ made. made ≡ begun base plan.now.path) }
{
    let root = ObjectId {
        hash: base,
        kind: Kind::Catalogue,
    };
    Checkout::new(alloc, &root, plan.path.copy(alloc)?)
}

/// The stage in which the catalogues of a root are fetched.
pub(crate) fn begun(alloc: Global, plan: &Plan, token: Token, base: [u8; 20]) -> Stage
    ensures stage { (result ≡ Fetching token base (begun base plan.now.path)) ⊎ (result ≡ Cancelling token faults.NoMemory) }
    ensures held { IsHeld plan.now result }
{
    match checkout_of(alloc, plan, base) {
        Ok(checkout) => Stage::Fetching {
            token,
            base,
            checkout,
        },
        Err(NoMemory) => Stage::Cancelling {
            token,
            fault: PublishFault::NoMemory,
        },
    }
}

/// The stage in which what is left is sent, or else the commit.
pub(crate) fn sending(offer: Offer, catalogues: Items<Object>, left: Vec<usize>) -> Stage
    ensures { result ≡ sending offer catalogues left.items }
{
    if left.is_empty() {
        return Stage::Committing(offer);
    }
    Stage::Sending {
        offer,
        catalogues,
        left: Items::new(left),
    }
}

/// The stage behind what was assembled of a checkout.
fn behind_checkout(token: Token, base: [u8; 20], assembled: Result<Delivery, PublishFault>) -> Stage
    ensures { result ≡ behind_checkout token base assembled }
{
    match assembled {
        Ok(delivery) => {
            let Delivery {
                root,
                catalogues,
                places,
            } = delivery;
            sending(Offer { token, base, root }, catalogues, places.into_vec())
        }
        Err(fault) => Stage::Cancelling { token, fault },
    }
}

/// The stage behind a checkout to which all was given.
fn after_checkout(
    alloc: Global,
    plan: &Plan,
    token: Token,
    base: [u8; 20],
    checkout: Checkout,
) -> Stage
    requires plan { IsPlan plan.now }
    requires path { checkout.path ≡ plan.now.path }
    requires whole { next_of checkout.wanted ≡ None }
    ensures after { AfterCheckout plan.now token base checkout result }
    ensures held { IsHeld plan.now result }
{
    match checkout.finish(alloc) {
        Ok(found) => {
            let Base {
                catalogues,
                part,
                has_place,
            } = found;
            let assembled = assemble(alloc, plan, base, catalogues, part.as_ref(), has_place);
            behind_checkout(token, base, assembled)
        }
        Err(NoMemory) => Stage::Cancelling {
            token,
            fault: PublishFault::NoMemory,
        },
    }
}

/// The stage behind the reply to the request for a catalogue.
pub(crate) fn after_catalogue(
    alloc: Global,
    plan: &Plan,
    token: Token,
    base: [u8; 20],
    checkout: Checkout,
    reply: HttpReply,
) -> Stage
    requires plan { IsPlan plan.now }
    requires fetching { IsFetching plan.now checkout }
    ensures after { AfterCatalogue reply plan.now token base checkout result }
    ensures held { IsHeld plan.now result }
{
    let Some(given) = served_in(reply) else {
        return Stage::Cancelling {
            token,
            fault: PublishFault::BadReply,
        };
    };
    let mut checkout = checkout;
    if let Err(fault) = checkout.give(alloc, given) {
        return Stage::Cancelling {
            token,
            fault: PublishFault::of_checkout(fault),
        };
    }
    if checkout.want().is_none() {
        return after_checkout(alloc, plan, token, base, checkout);
    }
    Stage::Fetching {
        token,
        base,
        checkout,
    }
}
