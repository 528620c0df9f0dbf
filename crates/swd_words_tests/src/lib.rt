//! The tests of the program's arguments. They stand apart from those of its commands, so that they wait for no command.
#![tactic(auto)]

#[cfg(test)]
mod tests;
