//! The tests of cv_swap, over what it offers.
#![tactic(auto)]

#[cfg(test)]
mod opening_tests;
#[cfg(test)]
mod tests;
