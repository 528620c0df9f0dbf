//! Lists of accesses, however the caller stores them.
ghost use Rattle.std.specs.Prelude.{◌≡◌, List, length, slice_get};
ghost use Rattle.swd_port.specs.declared.access.Access.{Access};

use swd_port::Access;

/// A list of accesses.
pub trait Accesses {
    /// The accesses in order.
    ghost list: { Self → List Access };

    /// Returns the number of accesses.
    fn count(&self) -> usize
        ensures { result ≡ length (list self.now) };

    /// Returns the access at this index, from 0.
    fn access(&self, index: usize) -> Option<Access>
        ensures { result ≡ slice_get (list self.now) index };
}

impl Accesses for &[Access] {
    ghost list = { λ accesses. accesses.now };

    fn count(&self) -> usize {
        self.len()
    }

    fn access(&self, index: usize) -> Option<Access> {
        self.get(index).copied()
    }
}
