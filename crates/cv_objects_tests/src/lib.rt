//! The tests of cv_objects, over what it offers.
#![tactic(auto)]

#[cfg(test)]
mod tests;
