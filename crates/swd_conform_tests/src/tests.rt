//! The tests.
mod aims;
mod plans;
mod runs;
