//! Worked values of the wire and of traces.
mod bits;
mod decoder;
mod encoder;
mod expect;
mod listing;
mod words;
