//! What looks on at a session.
ghost use Rattle.swd_bitbang.specs.Watching.{PinsReach};

use crate::pins::Pins;
use std::alloc::Allocator;
use swd_target::Device;

/// A value that is shown the pins of a session after each piece of input. It can't change them.
///
/// Its clauses relate the watch at some pins to the watch at later ones, so they say the same however the input is
/// divided into pieces.
pub trait Watch<D: Device, A: Allocator> {
    ghost use Rattle.swd_bitbang.specs.declared.pins.Pins.{Pins};

    // What the watch at these pins has to do with the watch at earlier ones of the same session.
    ghost follows: { Self × Pins D A → Self × Pins D A → Type 0 };

    /// Takes the pins after a piece.
    fn see(&mut self, pins: &Pins<D, A>)
        ensures { (s : Pins D A) → PinsReach D.bus s pins.now → follows (self.old, s) (self.new, pins.now) };

    ghost stays: { (a : Self × Pins D A) → follows a a };

    ghost goes_on: { (a b c : Self × Pins D A) → follows a b → follows b c → follows a c };
}

/// A watch that does nothing.
#[derive(Clone, Copy)]
pub(crate) struct Unwatched;

impl<D: Device, A: Allocator> Watch<D, A> for Unwatched {
    ghost follows = { λ _ _. Unit {0} };

    fn see(&mut self, _pins: &Pins<D, A>) {}

    ghost stays = { λ _. tt };

    ghost goes_on = { λ _ _ _ _ _. tt };
}
