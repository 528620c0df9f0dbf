//! The tests by recorded sessions of a host in another language at a target in another language: a script's run sends
//! what that host sent, and a served target answers what that one answered. They stand apart, so that no crate is
//! proved a second time for its tests.
#![tactic(auto)]

#[cfg(test)]
mod tests;
