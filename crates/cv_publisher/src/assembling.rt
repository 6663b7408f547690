//! What is offered for what was fetched.
ghost use Rattle.std.specs.Prelude.{◌≡◌, false, All, IfOk, IsTrue};
ghost use Rattle.std.specs.Option.{option_copied};
ghost use Rattle.cv_base.specs.Marker.{marker, ends_in};
ghost use Rattle.cv_base.specs.Objects.{AreNamed};
ghost use Rattle.cv_ports.specs.MemoryShelf.{standing};
ghost use Rattle.cv_tree.specs.Changes.{FitsUnder, IsTreeAtRoot, nodes_of};
ghost use Rattle.cv_publisher.specs.Assembling.{Assembles, Delivers, Sets, unfetched};
ghost use Rattle.cv_publisher.specs.PackingInner.{IsCatalogueObject};

use crate::fault::PublishFault;
use crate::ordering::in_order;
use crate::plan::Plan;
use cv_base::{Items, Kind, NoMemory, OBJECT_LIMIT, Object, ObjectId};
use cv_graft::{GraftFault, Grafted, place};
use cv_overlay::overlay;
use cv_ports::{MemoryShelf, Shelf};
use cv_tree::Part;
use std::alloc::Global;

/// What is offered: a root, and what of its tree is to be sent.
#[derive(Drop)]
pub struct Delivery {
    /// The digest of the root's catalogue.
    pub root: [u8; 20],
    /// The catalogues that were made and not fetched.
    pub catalogues: Items<Object>,
    /// The places of what is to be sent, in order: among the contents of the changes, and behind them the catalogues.
    pub places: Items<usize>,
}

/// Whether objects are catalogues, each of which a pack may have.
fn are_catalogues(objects: &[Object]) -> bool
    ensures { IsTrue result → All IsCatalogueObject objects.now }
{
    for object in objects {
        if object.id.kind != Kind::Catalogue || object.bytes.as_slice().len() > OBJECT_LIMIT {
            return false;
        }
    }
    true
}

/// The objects that weren't fetched.
fn unfetched(
    alloc: Global,
    made: Items<Object>,
    fetched: &mut MemoryShelf,
) -> Result<Vec<Object>, NoMemory>
    ensures { IfOk result (λ new. new.items ≡ unfetched (standing fetched.old) made) }
{
    let mut new = Vec::new(alloc);
    for object in made.into_vec() {
        let Ok(there) = fetched.length(alloc, &object.id) else {
            return Err(NoMemory);
        };
        if there.is_some() {
            continue;
        }
        new.push(object)?;
    }
    Ok(new)
}

/// What is to be sent of a tree that was made. An object that is no catalogue, or too large, is told as want
/// of memory: none is made.
fn delivered(
    alloc: Global,
    plan: &Plan,
    grafted: Grafted,
    fetched: &mut MemoryShelf,
) -> Result<Delivery, NoMemory>
    requires { AreNamed grafted.added }
    ensures { IfOk result (Delivers plan.now.changes.objects (standing fetched.old) grafted) }
{
    if !are_catalogues(grafted.added.as_slice()) {
        return Err(NoMemory);
    }
    let root = grafted.root.hash;
    let catalogues = unfetched(alloc, grafted.added, fetched)?;
    let places = in_order(alloc, plan.changes.objects(), &catalogues)?;
    Ok(Delivery {
        root,
        catalogues: Items::new(catalogues),
        places: Items::new(places),
    })
}

/// The tree in which a part stands at the path, by the catalogues that were fetched, and what is to be sent of it.
fn placed(
    alloc: Global,
    plan: &Plan,
    base: [u8; 20],
    fetched: MemoryShelf,
    part: &Part,
) -> Result<Delivery, PublishFault>
    requires unmarked { ends_in marker plan.now.path ≡ false }
    requires root { IsTreeAtRoot plan.now.path part.now }
    requires limits { FitsUnder plan.now.path part.now }
    ensures { Sets plan.now base (standing fetched) part.now result }
{
    let mut shelf = fetched;
    let root = ObjectId {
        hash: base,
        kind: Kind::Catalogue,
    };
    match place(alloc, &mut shelf, &root, &plan.path, Some(part)) {
        Ok(grafted) => Ok(delivered(alloc, plan, grafted, &mut shelf)?),
        Err(GraftFault::PathCollision { first, second }) => {
            Err(PublishFault::PathCollision { first, second })
        }
        Err(GraftFault::CatalogueFull(path)) => Err(PublishFault::CatalogueFull(path)),
        Err(_) => Err(PublishFault::NoMemory),
    }
}

/// What is offered on a base, by the catalogues of it that were fetched and its part at the path, or nothing. The changes
/// are laid over that part, and what comes of it is set in its place.
pub(crate) fn assemble(
    alloc: Global,
    plan: &Plan,
    base: [u8; 20],
    fetched: MemoryShelf,
    part: Option<&Part>,
    has_place: bool,
) -> Result<Delivery, PublishFault>
    requires unmarked { ends_in marker plan.now.path ≡ false }
    requires changes { FitsUnder plan.now.path plan.now.changes.nodes }
    requires part { FitsUnder plan.now.path (nodes_of (option_copied part)) }
    ensures { Assembles plan.now base (standing fetched) (nodes_of (option_copied part.entry)) has_place result }
{
    let _ = plan.path.names();
    let made = match overlay(alloc, part, &plan.changes, plan.moment) {
        Ok(made) => made,
        Err(fault) => return Err(PublishFault::of_overlay(fault)),
    };
    if !has_place {
        return Err(PublishFault::NoParent);
    }
    placed(alloc, plan, base, fetched, &made)
}
