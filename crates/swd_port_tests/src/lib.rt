//! The tests of the registers, and of the wires of the port machine's crate.
#![tactic(auto)]

#[cfg(test)]
mod tests;
