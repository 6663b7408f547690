//! The tests of cv_shell, over what it offers.
#![tactic(auto)]

#[cfg(test)]
mod tests;
