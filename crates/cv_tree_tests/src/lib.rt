//! The tests of cv_tree, over what it offers.
#![tactic(auto)]

#[cfg(test)]
mod tests;
