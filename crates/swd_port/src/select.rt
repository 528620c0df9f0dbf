//! SELECT: the register that selects the access port and the banks of a request.
ghost use Rattle.std.specs.Prelude.{◌≡◌};

/// The fields of the SELECT register (IHI 0031, B2, "SELECT, AP Select register").
#[derive(Clone, Copy, Debug, PartialEq, Eq)]
pub struct Select {
    /// APSEL, [31:24]: the access port.
    pub apsel: u8,
    /// APBANKSEL, [7:4]: the bank of four registers in the access port.
    pub apbanksel: u8,
    /// DPBANKSEL, [3:0]: the bank of the debug port, on which its address 4 depends.
    pub dpbanksel: u8,
}

impl Select {
    ghost use Rattle.swd_port.specs.Registers.{select_of};
    ghost use Rattle.swd_port.specs.Words.{select_word, IsSelect};

    /// Reads the fields from a word. Bits that the register doesn't name are dropped.
    pub fn of(word: u32) -> Select
        ensures { result ≡ select_of word }
    {
        Select {
            apsel: (word >> 24) as u8,
            apbanksel: (word >> 4 & 0xf) as u8,
            dpbanksel: (word & 0xf) as u8,
        }
    }

    /// Returns the register's word: each field in its place, truncated to its width, and 0 in all other bits.
    pub fn bits(&self) -> u32
        ensures word { result ≡ select_word self.now }
        ensures same { IsSelect self.now → select_of result ≡ self.now }
    {
        u32::from(self.apsel) << 24
            | u32::from(self.apbanksel & 0xf) << 4
            | u32::from(self.dpbanksel & 0xf)
    }
}
