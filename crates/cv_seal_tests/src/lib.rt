//! The tests of cv_seal, over what it offers.
#![tactic(auto)]

#[cfg(test)]
mod tests;
