//! The tests of the checker.
#![tactic(auto)]

#[cfg(test)]
mod tests;
