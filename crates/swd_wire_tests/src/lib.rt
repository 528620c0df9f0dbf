//! The tests of wires under a host: both simulated targets step by step, a recorder over them, and transports that
//! fail. They stand apart, so that no crate is proved a second time for its tests.
#![tactic(auto)]

#[cfg(test)]
mod tests;
