//! What the commands of a host set.
ghost use Rattle.std.specs.Prelude.{◌≡◌};
ghost use Rattle.swd_dap_probe.specs.Plain.{dap_settings_before};

/// How transactions are made: what DAP_TransferConfigure and DAP_SWD_Configure set.
#[derive(Clone, Copy)]
pub(crate) struct Settings {
    /// Cycles behind a transaction that was OK, driven low.
    pub(crate) idle: u8,
    /// How often a transaction is repeated at WAIT.
    pub(crate) retries: u16,
    /// How many more words are compared at most, behind a first one that didn't match.
    pub(crate) matches: u16,
    /// Cycles of a turnaround, 1 to 4.
    pub(crate) turnaround: u8,
    /// Whether a data phase follows WAIT and FAULT.
    pub(crate) data_phase: bool,
}

impl Settings {
    /// Returns those before the first command.
    pub(crate) fn first() -> Settings
        ensures { result ≡ dap_settings_before }
    {
        Settings {
            idle: 0,
            retries: 100,
            matches: 0,
            turnaround: 1,
            data_phase: false,
        }
    }
}
