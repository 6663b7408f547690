//! How far a publisher has come.

use crate::fault::PublishFault;
use cv_base::{Items, Object, Token};
use cv_checkout::Checkout;

/// What a commit offers under a lease.
#[derive(Clone, Copy, Debug)]
pub struct Offer {
    /// The token of the lease.
    pub token: Token,
    /// The digest of the root on which the offered tree was made.
    pub base: [u8; 20],
    /// The digest of its own root.
    pub root: [u8; 20],
}

/// How far a publisher has come: what it asks for next.
#[derive(Drop)]
pub enum Stage {
    /// A lease.
    Leasing,
    /// The manifest, under this lease.
    Reading(Token),
    /// A catalogue of the tree of this root.
    Fetching {
        token: Token,
        base: [u8; 20],
        checkout: Checkout,
    },
    /// That objects be stored: some are left at these places, among the contents of the changes and behind them these
    /// catalogues.
    Sending {
        offer: Offer,
        catalogues: Items<Object>,
        left: Items<usize>,
    },
    /// The commit.
    Committing(Offer),
    /// The end of the lease, after a fault.
    Cancelling {
        token: Token,
        fault: PublishFault,
    },
    /// Nothing: it published this revision, or didn't.
    Ended(Result<u64, PublishFault>),
}
