//! The tests of cv_ports, over what it offers.
#![tactic(auto)]

#[cfg(test)]
mod tests;
