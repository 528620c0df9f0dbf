//! The tests of a host's runs over simulated targets: what they report and what the memory logs. They stand apart, so
//! that no crate is proved a second time for its tests.
#![tactic(auto)]

#[cfg(test)]
mod tests;
