//! The tests of cv_json, over what it offers.
#![tactic(auto)]

#[cfg(test)]
mod tests;
