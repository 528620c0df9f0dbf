//! The tests of a probe that is served by its packets: a session of bytes at a simulated target, with its log.
#![tactic(auto)]

#[cfg(test)]
mod tests;
