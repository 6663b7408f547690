//! The tests of cv_load, over what it offers.
#![tactic(auto)]

#[cfg(test)]
mod tests;
#[cfg(test)]
mod tests_whole;
