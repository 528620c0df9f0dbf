//! The sticky flags of the debug port, which a host reads and clears.
ghost use Rattle.std.specs.Prelude.{◌≡◌};
ghost use Rattle.swd_host.specs.Flags.{host_flags_in, host_abort_word, host_reads_power, host_csw_is_configured};

use bitflags::Flags as _;
use swd_port::{Abort, Csw, CtrlStat};

/// The sticky flags of CTRL/STAT that a host may find set.
#[derive(Clone, Copy, PartialEq, Eq)]
pub struct Flags {
    /// STICKYERR: a transfer was a bus error.
    pub error: bool,
    /// WDATAERR: the data of a write arrived with wrong parity.
    pub damaged: bool,
}

// Reads the flags from a word of CTRL/STAT.
pub(crate) fn flags_of(word: u32) -> Flags
    ensures { result ≡ host_flags_in word }
{
    let status = CtrlStat::of(word);
    Flags {
        error: status.contains(CtrlStat::STICKYERR),
        damaged: status.contains(CtrlStat::WDATAERR),
    }
}

impl Flags {
    // Returns the word of ABORT that clears these flags.
    pub(crate) fn clearing(self) -> u32
        ensures { result ≡ host_abort_word self }
    {
        let error = if self.error {
            Abort::STKERRCLR.bits()
        } else {
            0
        };
        let damaged = if self.damaged {
            Abort::WDERRCLR.bits()
        } else {
            0
        };
        error + damaged
    }
}

// Returns whether both power-up acknowledgements are set in a word of CTRL/STAT.
pub(crate) fn is_powered(word: u32) -> bool
    ensures { result ≡ host_reads_power word }
{
    let status = CtrlStat::of(word);
    status.contains(CtrlStat::CDBGPWRUPACK) && status.contains(CtrlStat::CSYSPWRUPACK)
}

// Returns whether CSW has Size word, AddrInc single and DeviceEn set.
pub(crate) fn is_configured(word: u32) -> bool
    ensures { result ≡ host_csw_is_configured word }
{
    let csw = Csw::of(word);
    csw.size == 2 && csw.addr_inc == 1 && csw.device_en
}
