//! The commands of a host, by their first byte.
ghost use Rattle.std.specs.Prelude.{◌≡◌};
ghost use Rattle.swd_dap_probe.specs.Commands.{dap_command_of};

/// A command.
#[derive(Clone, Copy)]
pub(crate) enum Command {
    /// `DAP_Info`.
    Info,
    /// `DAP_HostStatus`.
    HostStatus,
    /// `DAP_Connect`.
    Connect,
    /// `DAP_Disconnect`.
    Disconnect,
    /// `DAP_TransferConfigure`.
    TransferConfigure,
    /// `DAP_Transfer`.
    Transfer,
    /// `DAP_TransferBlock`.
    TransferBlock,
    /// `DAP_TransferAbort`.
    TransferAbort,
    /// `DAP_WriteABORT`.
    WriteAbort,
    /// `DAP_Delay`.
    Delay,
    /// `DAP_ResetTarget`.
    ResetTarget,
    /// `DAP_SWJ_Pins`.
    Pins,
    /// `DAP_SWJ_Clock`.
    Clock,
    /// `DAP_SWJ_Sequence`.
    DriveSequence,
    /// `DAP_SWD_Configure`.
    WireConfigure,
    /// `DAP_SWD_Sequence`.
    WireSequence,
    /// `DAP_ExecuteCommands`.
    Execute,
    /// Any other.
    Unknown,
}

impl Command {
    /// Returns the command with this number.
    pub(crate) fn of(number: u8) -> Command
        ensures { result ≡ dap_command_of number }
    {
        match number {
            0x00 => Command::Info,
            0x01 => Command::HostStatus,
            0x02 => Command::Connect,
            0x03 => Command::Disconnect,
            0x04 => Command::TransferConfigure,
            0x05 => Command::Transfer,
            0x06 => Command::TransferBlock,
            0x07 => Command::TransferAbort,
            0x08 => Command::WriteAbort,
            0x09 => Command::Delay,
            0x0a => Command::ResetTarget,
            0x10 => Command::Pins,
            0x11 => Command::Clock,
            0x12 => Command::DriveSequence,
            0x13 => Command::WireConfigure,
            0x1d => Command::WireSequence,
            0x7f => Command::Execute,
            _ => Command::Unknown,
        }
    }
}
