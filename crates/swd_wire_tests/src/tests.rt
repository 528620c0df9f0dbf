//! What simulated targets, a recorder and a transport do, call by call.
mod bench_steps;
mod expect;
mod recorder;
mod sinks;
mod tables;
mod target;
mod transports;
mod walks;
