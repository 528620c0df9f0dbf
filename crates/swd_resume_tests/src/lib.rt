//! The tests of lost acknowledgements and of what a host sends: runs at every request of which something goes wrong,
//! and runs that are resumed. They stand apart, so that no crate is proved a second time for its tests.
#![tactic(auto)]

#[cfg(test)]
mod tests;
