//! The tests of cv_leases, over what it offers.
#![tactic(auto)]

#[cfg(test)]
mod tests;
