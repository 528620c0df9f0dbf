//! The mode in which the next bits of a trace are read.

/// What the bits so far imply for the next ones.
#[derive(Clone, Copy, Debug)]
pub enum Mode {
    /// Idle cycles or a transaction may follow.
    Synced,
    /// Directly after a line reset.
    AfterReset,
    /// Directly after the sixteen bits of the switch from JTAG.
    AfterSwitch,
    /// Nothing is known until the next line reset.
    Lost,
}
