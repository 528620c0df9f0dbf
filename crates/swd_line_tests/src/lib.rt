//! The tests of hosts and images over a line to a server in memory, which fails at each place. They stand apart, so
//! that no crate is proved a second time for its tests.
#![tactic(auto)]

#[cfg(test)]
mod tests;
