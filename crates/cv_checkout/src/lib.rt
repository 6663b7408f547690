//! What is fetched of a published tree before a part of it is changed.
#![tactic(auto)]

mod base;
mod checkout;
mod fault;
mod growing;
pub mod laws;
mod naming;
mod opening;
mod wanted;

pub use base::Base;
pub use checkout::Checkout;
pub use fault::CheckoutFault;
