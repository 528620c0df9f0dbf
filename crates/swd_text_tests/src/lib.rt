//! The tests of the texts: pieces and blocks, traces and listings, scripts and plans. They stand apart, so that no
//! crate is proved a second time for its tests.
#![tactic(auto)]

#[cfg(test)]
mod tests;
