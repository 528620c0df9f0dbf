//! ABORT: the register that a host writes to clear the sticky flags.
ghost use Rattle.std.specs.Prelude.{⊤, ◌≡◌, [], ◌∷◌, codes};
ghost use Rattle.std.specs.Int.RustNames.{bit_and};

use bitflags::{Flag, Flags, bitflag_items};

/// The flags of the ABORT register (IHI 0031, B2, "ABORT, AP Abort register").
#[derive(Clone, Copy, PartialEq, Eq, Debug)]
pub struct Abort(u32);

bitflag_items! {
    impl Abort: u32 {
        /// Aborts the transfer that is in progress at an access port.
        const DAPABORT = 0x1;
        /// Clears STICKYCMP.
        const STKCMPCLR = 0x2;
        /// Clears STICKYERR.
        const STKERRCLR = 0x4;
        /// Clears WDATAERR.
        const WDERRCLR = 0x8;
        /// Clears STICKYORUN.
        const ORUNERRCLR = 0x10;
    }
}

impl Flags for Abort {
    type Bits = u32;

    ghost exact = { ⊤ };

    ghost table = { (codes "DAPABORT", 0x1) ∷ (codes "STKCMPCLR", 0x2) ∷ (codes "STKERRCLR", 0x4)
        ∷ (codes "WDERRCLR", 0x8) ∷ (codes "ORUNERRCLR", 0x10) ∷ [] };

    ghost set_of = { λ flags. flags.0 };

    fn flags<'a>() -> &'a [Flag<Abort>] {
        Abort::FLAGS
    }

    fn bits(&self) -> u32 {
        self.0
    }

    fn from_bits_retain(bits: u32) -> Abort {
        Abort(bits)
    }
}

impl Abort {
    ghost use Rattle.swd_port.specs.Words.{abort_word, abort_mask};

    /// Reads the flags from a word, bit 0 least significant. Bits that the register doesn't name are dropped.
    pub fn of(word: u32) -> Abort
        ensures { abort_word result ≡ bit_and word abort_mask }
    {
        Abort(word & 0x1f)
    }

    /// Returns the register's word.
    pub fn bits(&self) -> u32
        ensures { result ≡ abort_word self.now }
    {
        Flags::bits(self)
    }
}
