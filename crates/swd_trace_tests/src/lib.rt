//! The tests of the wire as bits, of traces and of their listings. They stand apart, so that no crate is proved a
//! second time for them.
#![tactic(auto)]

#[cfg(test)]
mod tests;
