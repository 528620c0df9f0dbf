//! The exports as a program in C calls them.
mod checks;
mod cues;
mod driver;
mod expect;
mod failing;
mod items;
mod planning;
mod refusals;
mod sessions;
mod target;
