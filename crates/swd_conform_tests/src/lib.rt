//! The tests of conformance runs.
#![tactic(auto)]

#[cfg(test)]
mod tests;
