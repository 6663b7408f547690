//! The tests of cv_graft, over what it offers.
#![tactic(auto)]

#[cfg(test)]
mod tests;
