//! The tests of cv_links, over what it offers.
#![tactic(auto)]

#[cfg(test)]
mod tests;
