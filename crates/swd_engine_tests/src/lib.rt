//! The tests of a host's engine that is driven by hand, reply by reply. They stand apart, so that no crate is proved a
//! second time for its tests.
#![tactic(auto)]

#[cfg(test)]
mod tests;
