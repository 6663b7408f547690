//! The tests of cv_base, over what it offers.
#![tactic(auto)]

#[cfg(test)]
mod tests;
