//! The tests of captures: of their parts, of what is printed and drawn of them, and of the accesses that they show.
#![tactic(auto)]

#[cfg(test)]
mod tests;
