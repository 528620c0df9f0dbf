//! The tests of what `swd check` says of a trace.
#![tactic(auto)]

#[cfg(test)]
mod tests;
