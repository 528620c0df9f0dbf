//! The tests of scripts that are run over a simulated target. They stand apart, so that no crate is proved a second
//! time for its tests.
#![tactic(auto)]

#[cfg(test)]
mod tests;
