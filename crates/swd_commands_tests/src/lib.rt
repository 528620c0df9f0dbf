//! The tests of what the program does with its words, over files and streams that are given. They stand apart, so that
//! no crate is proved a second time for its tests.
#![tactic(auto)]

#[cfg(test)]
mod tests;
