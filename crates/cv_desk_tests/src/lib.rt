//! The tests of cv_desk, over what it offers.
#![tactic(auto)]

#[cfg(test)]
mod test_gates;
#[cfg(test)]
mod tests;
#[cfg(test)]
mod tests_known;
