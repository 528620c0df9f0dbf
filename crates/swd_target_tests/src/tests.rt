//! Worked requests at a target, and worked cycles at a clocked target and at its bench.
mod buffered;
mod cores;
mod cycle_texts;
mod cycles;
mod devices;
mod expect;
mod faults;
mod fields;
mod lists;
mod marks;
mod memory;
mod recorded;
mod refusals;
mod register_rows;
mod registers;
