//! The walk of a directory as a list of events.
ghost use Rattle.std.specs.Prelude.{◌≡◌, ◌≤◌, [], IfOk, OnOk, string_bytes};
ghost use Rattle.std.specs.VecDeque.{deque_len};
ghost use Rattle.cv_base.specs.Path.{with_slash};
ghost use Rattle.cv_overlay.specs.EventsInner.{goes_before, place_in, put_below, placed, placed_all};
ghost use Rattle.cv_overlay.specs.Walk.{is_dir};

use cv_base::{NoMemory, Text};
use cv_ports::{FolderItem, FoundKind};
use std::alloc::Global;
use std::collections::VecDeque;

/// What the walk of a directory comes to.
#[derive(Debug, Drop)]
pub(crate) enum Event {
    /// An item of the directory.
    Item(FolderItem),
    /// The walk of the directory of this name in it.
    Below(Text),
}

/// A directory's name as it stands before the names in it.
fn with_slash(alloc: Global, name: &str) -> Result<String, NoMemory>
    ensures { IfOk result (λ key. string_bytes key ≡ with_slash name.now) }
{
    let mut key = String::from_str(alloc, name)?;
    key.push('/')?;
    Ok(key)
}

/// Whether the walk of the directory of this name comes before an event.
fn goes_before(alloc: Global, key: &str, event: &Event) -> Result<bool, NoMemory>
    ensures { IfOk result (λ before. before ≡ goes_before key.now event.now) }
{
    match event {
        Event::Item(item) => Ok(key < item.name.as_str()),
        Event::Below(name) => {
            let other = with_slash(alloc, name.as_str())?;
            Ok(key < other.as_str())
        }
    }
}

/// How many of the events come before that walk.
fn place_in(alloc: Global, key: &str, events: &VecDeque<Event>) -> Result<usize, NoMemory>
    ensures place { IfOk result (λ place. place ≡ place_in key.now events.now.items) }
    ensures bound { IfOk result (λ place. place ≤ deque_len events.now) }
{
    for i in 0..events.len() {
        if goes_before(alloc, key, &events[i])? {
            return Ok(i);
        }
    }
    Ok(events.len())
}

/// Puts the walk of the directory of this name among the events.
#[tactic(auto, using(crate::proofs::Events::put_is))]
fn put_below(alloc: Global, events: &mut VecDeque<Event>, name: &Text) -> Result<(), NoMemory>
    ensures { OnOk result (events.new.items ≡ put_below name.now events.old.items) }
{
    let key = with_slash(alloc, name.as_str())?;
    let place = place_in(alloc, key.as_str(), events)?;
    let below = Event::Below(name.copy(alloc)?);
    events.insert(place, below)?;
    Ok(())
}

/// Whether an item is a directory.
fn is_dir(kind: &FoundKind) -> bool
    ensures { result ≡ is_dir kind.now }
{
    matches!(kind, FoundKind::Dir)
}

/// Puts an item before the events of those behind it.
fn place(alloc: Global, events: &mut VecDeque<Event>, item: FolderItem) -> Result<(), NoMemory>
    ensures { OnOk result (events.new.items ≡ placed item events.old.items) }
{
    if !is_dir(&item.kind) {
        events.push_front(Event::Item(item))?;
        return Ok(());
    }
    put_below(alloc, events, &item.name)?;
    events.push_front(Event::Item(item))?;
    Ok(())
}

/// The events of a directory of these items, in their order.
#[tactic(auto, using(crate::proofs::Events::one_placed))]
pub(crate) fn in_order(alloc: Global, items: Vec<FolderItem>) -> Result<VecDeque<Event>, NoMemory>
    ensures { IfOk result (λ events. events.items ≡ placed_all items.items []) }
{
    let mut left = items;
    let mut events = VecDeque::new(alloc);
    'items: while let Some(item) = left.pop() {
        place(alloc, &mut events, item)?;
    }
    Ok(events)
}
