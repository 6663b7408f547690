//! The tests of cv_manifest, over what it offers.
#![tactic(auto)]

#[cfg(test)]
mod tests;
