mod lines;
mod memory;
