//! The tests of cv_cut, over what it offers.
#![tactic(auto)]

#[cfg(test)]
mod tests;
