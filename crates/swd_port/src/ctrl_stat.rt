//! CTRL/STAT: the control and status register of the debug port.
ghost use Rattle.std.specs.Prelude.{⊤, ◌≡◌, [], ◌∷◌, codes};
ghost use Rattle.std.specs.Int.RustNames.{bit_and};

use bitflags::{Flag, Flags, bitflag_items};

/// The flags and fields of the CTRL/STAT register (IHI 0031, B2, "CTRL/STAT, Control/Status
/// register").
#[derive(Clone, Copy, PartialEq, Eq, Debug)]
pub struct CtrlStat(u32);

bitflag_items! {
    impl CtrlStat: u32 {
        /// Overrun detection is on.
        const ORUNDETECT = 0x1;
        /// An overrun was detected.
        const STICKYORUN = 0x2;
        /// The mode of access port transfers, bits [3:2].
        const TRNMODE = 0xc;
        /// A pushed transfer matched.
        const STICKYCMP = 0x10;
        /// A transfer of an access port was a bus error.
        const STICKYERR = 0x20;
        /// The last read of an access port or of RDBUFF was answered OK.
        const READOK = 0x40;
        /// The data of a write arrived with wrong parity, or didn't arrive.
        const WDATAERR = 0x80;
        /// The bytes that a pushed transfer compares, bits [11:8].
        const MASKLANE = 0xf00;
        /// The transaction counter, bits [23:12].
        const TRNCNT = 0xff_f000;
        /// Debug reset is requested.
        const CDBGRSTREQ = 0x400_0000;
        /// Debug reset is acknowledged.
        const CDBGRSTACK = 0x800_0000;
        /// Debug power-up is requested.
        const CDBGPWRUPREQ = 0x1000_0000;
        /// Debug power-up is acknowledged.
        const CDBGPWRUPACK = 0x2000_0000;
        /// System power-up is requested.
        const CSYSPWRUPREQ = 0x4000_0000;
        /// System power-up is acknowledged.
        const CSYSPWRUPACK = 0x8000_0000;
    }
}

impl Flags for CtrlStat {
    type Bits = u32;

    ghost exact = { ⊤ };

    ghost table = { (codes "ORUNDETECT", 0x1) ∷ (codes "STICKYORUN", 0x2) ∷ (codes "TRNMODE", 0xc)
        ∷ (codes "STICKYCMP", 0x10) ∷ (codes "STICKYERR", 0x20) ∷ (codes "READOK", 0x40)
        ∷ (codes "WDATAERR", 0x80) ∷ (codes "MASKLANE", 0xf00) ∷ (codes "TRNCNT", 0xff_f000)
        ∷ (codes "CDBGRSTREQ", 0x400_0000) ∷ (codes "CDBGRSTACK", 0x800_0000) ∷ (codes "CDBGPWRUPREQ", 0x1000_0000)
        ∷ (codes "CDBGPWRUPACK", 0x2000_0000) ∷ (codes "CSYSPWRUPREQ", 0x4000_0000)
        ∷ (codes "CSYSPWRUPACK", 0x8000_0000) ∷ [] };

    ghost set_of = { λ flags. flags.0 };

    fn flags<'a>() -> &'a [Flag<CtrlStat>] {
        CtrlStat::FLAGS
    }

    fn bits(&self) -> u32 {
        self.0
    }

    fn from_bits_retain(bits: u32) -> CtrlStat {
        CtrlStat(bits)
    }
}

impl CtrlStat {
    ghost use Rattle.swd_port.specs.Registers.{ctrl_stat_mask};
    ghost use Rattle.swd_port.specs.Words.{ctrl_stat_word};

    /// Reads the flags and fields from a word, bit 0 least significant. Bits that the register doesn't name are
    /// dropped.
    pub fn of(word: u32) -> CtrlStat
        ensures { ctrl_stat_word result ≡ bit_and word ctrl_stat_mask }
    {
        CtrlStat(word & 0xfcff_ffff)
    }

    /// Returns the register's word.
    pub fn bits(&self) -> u32
        ensures { result ≡ ctrl_stat_word self.now }
    {
        Flags::bits(self)
    }
}
