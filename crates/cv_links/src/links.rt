//! Where a node stands in each lane.
ghost use Rattle.std.specs.Prelude.{◌≡◌};
ghost use Rattle.cv_links.specs.declared.links.Link.TheVariants.{Free};
ghost use Rattle.cv_links.specs.Links.{link_in};
ghost use Rattle.cv_links.specs.LinksInner.{with_link, with_before, with_after};

use crate::id::Id;
use crate::lane::Lane;

/// Where a node stands in one lane.
#[derive(Clone, Copy)]
pub(crate) enum Link {
    /// In no list.
    Free,
    /// In a list, between the node before it and the one after it, if there are such.
    Held(Option<Id>, Option<Id>),
}

impl Link {
    /// The same, but with another node before it.
    pub(crate) fn with_before(self, before: Option<Id>) -> Link
        ensures { result ≡ with_before before self }
    {
        match self {
            Link::Free => Link::Free,
            Link::Held(_, after) => Link::Held(before, after),
        }
    }

    /// The same, but with another node after it.
    pub(crate) fn with_after(self, after: Option<Id>) -> Link
        ensures { result ≡ with_after after self }
    {
        match self {
            Link::Free => Link::Free,
            Link::Held(before, _) => Link::Held(before, after),
        }
    }
}

/// Where a node stands in each lane.
#[derive(Clone, Copy)]
pub(crate) struct Links {
    tree: Link,
    time: Link,
}

impl Links {
    /// In no list.
    pub(crate) fn none() -> Links
        ensures { (lane : _) → link_in result lane ≡ Free }
    {
        Links {
            tree: Link::Free,
            time: Link::Free,
        }
    }

    /// Where the node stands in this lane.
    pub(crate) fn get(&self, lane: Lane) -> Link
        ensures { result ≡ link_in self.now lane }
    {
        match lane {
            Lane::Tree => self.tree,
            Lane::Time => self.time,
        }
    }

    /// Says where the node stands in this lane.
    pub(crate) fn set(&mut self, lane: Lane, link: Link)
        ensures { self.new ≡ with_link self.old lane link }
    {
        match lane {
            Lane::Tree => self.tree = link,
            Lane::Time => self.time = link,
        }
    }
}
