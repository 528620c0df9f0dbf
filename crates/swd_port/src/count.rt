//! A counter for contracts alone.
ghost use Rattle.std.specs.Prelude.{◌≡◌, ◌+◌, ℕ};
ghost use base.Fml.{ftrue};

use std::fmt;
use std::marker::{Model, PhantomData};
use std::mem::size_of;

/// A counter that only contracts see, as `ticks`. It never overflows, a program can't read it, and it takes no bytes.
#[derive(Drop)]
pub struct Count {
    marker: PhantomData<()>,
    pub ghost ticks: { ℕ },
}

impl Model for Count {
    ghost also_owns = { λ _. ftrue };
}

const _: () = prove!(size_of::<Count>() == 0);

impl Count {
    /// Creates a counter at 0.
    pub fn new() -> Count
        ensures { result.ticks ≡ 0 }
    {
        Count {
            marker: PhantomData,
        }
    }

    /// Adds one.
    pub fn tick(&mut self)
        ensures { self.new.ticks ≡ self.old.ticks + 1 }
    {}
}

impl fmt::Debug for Count {
    fn fmt<W: fmt::Write>(&self, f: &mut fmt::Formatter<W>) -> fmt::Result {
        f.write_str("Count")
    }
}
