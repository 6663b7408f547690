//! What follows from the definitions of a publisher, for every talk that it has with a server.
//!
//! The functions do nothing. Their contracts hold of all talks.
ghost use Rattle.std.specs.Prelude.{◌≡◌, ◌⊎◌, ℕ, Bool, List, Ok, Err};
ghost use Rattle.cv_keys.specs.declared.key.Key.{Key as TheKey};
ghost use Rattle.cv_publisher.specs.Holding.{PublisherView};
ghost use Rattle.cv_publisher.specs.Talks.{Cancelled, Exchanged, Published, Talks, Unleased, begun};
ghost use Rattle.cv_publisher.specs.declared.fault.PublishFault.{PublishFault as TheFault};
ghost use Rattle.cv_publisher.specs.declared.plan.Plan.{Plan as ThePlan};
ghost use Rattle.cv_publisher.specs.declared.stage.Stage.TheVariants.{Ended};

/// Where a publisher ends with a revision, it asked for a lease, for the manifest, for catalogues, that packs be stored, and
/// for the commit, in this order and for nothing else, and each was done. The commit is on the root that the manifest names.
/// The catalogues are the root's, and of each those that it names on the way to the path, and at and below it, all of them, in
/// the order of its nested entries, and before those that were named earlier and weren't asked for yet; each is one at the
/// place at which it is named, and is asked for once for each such place. No whiteout of the changes is bad. What the packs
/// hold is all that is to be sent, each object once and none that was fetched, in order, and each pack is the longest that it
/// can be. For each tree of that root, with no catalogue of which other bytes that were served share a digest, the catalogues
/// are of cuts on the way to the path and at and below it, the path has a place in it, and the root that was committed is that
/// of the tree with the changes laid over what it has at the path; each of the new tree's catalogues that may differ from
/// those of the old one is sent or was fetched.
pub fn a_revision_is_published_in_order()
    ensures { (is_seal : List ℕ → List ℕ → Bool) (keys : List TheKey) (plan : ThePlan)
        (es : List Exchanged) (end : PublisherView) (revision : ℕ)
        → Talks is_seal keys (begun plan) es end → end.stage ≡ Ended (Ok revision)
        → Published is_seal keys plan es revision }
{}

/// Where a publisher ends with a fault, either it asked for a lease alone, which wasn't granted, or which couldn't be read for
/// want of memory; or its requests are a front of those of a publication, each but the last was done, the last one had the
/// fault, and one more request, the last, cancels the lease. What the reply to that one says changes nothing. Catalogues are
/// asked for in the order that is described above, and packs and the commit only once all were given; the packs are the first
/// of those above. BadCatalogue says that the bytes which came last have the digest of the catalogue that was asked for, and
/// are none at the place at which it is named. BadWhiteout, NoParent, PathCollision and CatalogueFull are told of the reply
/// that gives the last catalogue. For each tree as above, no catalogue is bad; NoParent says that the path has no place in it,
/// and PathCollision and CatalogueFull what is so in the tree with the changes.
pub fn a_lease_is_ended_once_after_a_fault()
    ensures { (is_seal : List ℕ → List ℕ → Bool) (keys : List TheKey) (plan : ThePlan)
        (es : List Exchanged) (end : PublisherView) (fault : TheFault)
        → Talks is_seal keys (begun plan) es end → end.stage ≡ Ended (Err fault)
        → Unleased is_seal keys plan es fault ⊎ Cancelled is_seal keys plan es fault }
{}
