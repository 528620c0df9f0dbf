//! CSW: the control register of the memory access port.
ghost use Rattle.std.specs.Prelude.{◌≡◌};

/// The fields of the CSW register (IHI 0031, MEM-AP, "CSW, Control/Status Word register").
#[derive(Clone, Copy, Debug, PartialEq, Eq)]
pub struct Csw {
    /// Size, [2:0]: 010 is a word.
    pub size: u8,
    /// AddrInc, [5:4]: 00 is off, 01 single.
    pub addr_inc: u8,
    /// DeviceEn, bit 6.
    pub device_en: bool,
    /// TrInProg, bit 7.
    pub tr_in_prog: bool,
    /// Bits [30:24].
    pub upper: u8,
}

impl Csw {
    ghost use Rattle.swd_port.specs.Registers.{csw_of};
    ghost use Rattle.swd_port.specs.Words.{csw_word, IsCsw};

    /// Reads the fields from a word. Bits that the register doesn't name are dropped.
    pub fn of(word: u32) -> Csw
        ensures { result ≡ csw_of word }
    {
        Csw {
            size: (word & 7) as u8,
            addr_inc: (word >> 4 & 3) as u8,
            device_en: word >> 6 & 1 == 1,
            tr_in_prog: word >> 7 & 1 == 1,
            upper: (word >> 24 & 0x7f) as u8,
        }
    }

    /// Returns the register's word: each field in its place, truncated to its width, and 0 in all other bits.
    pub fn bits(&self) -> u32
        ensures word { result ≡ csw_word self.now }
        ensures same { IsCsw self.now → csw_of result ≡ self.now }
    {
        u32::from(self.size & 7)
            | u32::from(self.addr_inc & 3) << 4
            | u32::from(self.device_en) << 6
            | u32::from(self.tr_in_prog) << 7
            | u32::from(self.upper & 0x7f) << 24
    }
}
