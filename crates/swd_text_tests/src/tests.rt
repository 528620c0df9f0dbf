//! Worked texts, cut in pieces, at ends that fail and on heaps of each size.
mod byte_by_byte;
mod cut_traces;
mod expect;
mod pieces;
mod refused;
mod scripts;
mod traces;
