//! The tests of cv_history, over what it offers.
#![tactic(auto)]

#[cfg(test)]
mod tests;
