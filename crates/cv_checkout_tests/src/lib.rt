//! The tests of cv_checkout, over what it offers.
#![tactic(auto)]

#[cfg(test)]
mod tests;
