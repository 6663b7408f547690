//! The tests of cv_vault, over what it offers.
#![tactic(auto)]

#[cfg(test)]
mod crash_tests;
#[cfg(test)]
mod tests;
