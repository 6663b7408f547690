//! The tests of cv_real, over what it offers.
#![tactic(auto)]

#[cfg(test)]
mod ahead_tests;
#[cfg(test)]
mod dial_tests;
#[cfg(test)]
mod folder_tests;
#[cfg(test)]
mod made;
#[cfg(test)]
mod small_tests;
#[cfg(test)]
mod tests;
