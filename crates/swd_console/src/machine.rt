//! The machine that a command works at.

/// The machine that a command works at: its memory, its files, its clock, and its standard error.
#[derive(Drop)]
pub struct Console<'a, A, F, C, E> {
    pub alloc: A,
    pub files: &'a F,
    pub clock: &'a C,
    pub errors: &'a mut E,
}
