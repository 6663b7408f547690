//! The tests of cv_pack, over what it offers.
#![tactic(auto)]

#[cfg(test)]
mod tests;
