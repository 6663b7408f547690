//! The tests of cv_publisher, over what it offers.
#![tactic(auto)]

#[cfg(test)]
mod tests;
