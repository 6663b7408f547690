//! The tests of cv_client, over what it offers.
#![tactic(auto)]

#[cfg(test)]
mod story_tests;
#[cfg(test)]
mod text_tests;
