//! The tests of cv_messages, over what it offers.
#![tactic(auto)]

#[cfg(test)]
mod tests;
