//! The commands of a packet, each by what it does.
ghost use Rattle.std.specs.Prelude.{◌≡◌, ◌≤◌, ◌+◌, [], length, slice_index};
ghost use Rattle.swd_dap_probe.specs.Shapes.{dap_shape_by, dap_fixed_shape, dap_command_shape, dap_packet_shape};
ghost use Rattle.swd_dap_probe.specs.Shapes.{dap_packet_shape_by, dap_long, dap_most};
ghost use Rattle.swd_dap_probe.specs.Packets.{DapAppends, ProbeDoes, DapCommandGoes, DapCommandsGo, DapPacketGoes};
ghost use Rattle.swd_dap_probe.specs.Packets.{DapTransfersMade, DapBlockMade, DapAborts, DapDrives};
ghost use Rattle.swd_dap_probe.specs.Packets.{DapSequencesMade, DapSetsPins, DapSets};
ghost use Rattle.swd_dap_probe.specs.Plain.{dap_info_reply, dap_settings_after};
ghost use Rattle.swd_dap_probe.specs.Commands.{dap_command_of};
ghost use Rattle.swd_dap_probe.specs.declared.command.Command.{Command};

use crate::block::transfer_block;
use crate::command::Command;
use crate::line::ProbeLine;
use crate::processor::Processor;
use crate::reply::{Reply, put};
use crate::sequences::{drive_sequence, sequences};
use crate::settings::Settings;
use crate::shape::{byte_at, command_shape, skip};
use crate::transaction::{ABORT, transact};
use crate::transfers::{transfer, word_at};

/// Performs a packet that is whole.
pub(crate) fn perform<L: ProbeLine>(probe: &mut Processor<L>, request: &[u8], reply: &mut Reply)
    requires whole { (dap_packet_shape request.now).request ≤ length request.now }
    requires room { (dap_packet_shape request.now).reply ≤ 512 }
    requires first { reply.old.items ≡ [] }
    ensures { DapAppends (λ told. DapPacketGoes L.clocks L.resets (dap_command_of (slice_index request.now 0))
        request.now told probe.old probe.new) (dap_packet_shape request.now).reply reply.old.items reply.new.items }
{
    match Command::of(byte_at(request, 0)) {
        Command::Execute => execute(probe, request, reply),
        other => command(probe, other, request, reply),
    }
}

// Performs DAP_ExecuteCommands.
fn execute<L: ProbeLine>(probe: &mut Processor<L>, request: &[u8], reply: &mut Reply)
    requires whole { (dap_packet_shape_by Command.Execute request.now).request ≤ length request.now }
    requires room { (dap_packet_shape_by Command.Execute request.now).reply ≤ 512 }
    requires first { reply.old.items ≡ [] }
    ensures { DapAppends (λ told. DapPacketGoes L.clocks L.resets Command.Execute request.now
        told probe.old probe.new) (dap_packet_shape_by Command.Execute request.now).reply reply.old.items
        reply.new.items }
{
    put(reply, &[0x7f, request[1]]);
    commands(probe, request[1], &request[2..], reply);
}

// Performs so many commands.
fn commands<L: ProbeLine>(probe: &mut Processor<L>, count: u8, bytes: &[u8], reply: &mut Reply)
    requires whole { dap_long dap_command_shape count bytes.now ≤ length bytes.now }
    requires room { length reply.old.items + dap_most dap_command_shape count bytes.now ≤ 512 }
    ensures { DapAppends (λ told. DapCommandsGo L.clocks L.resets count bytes.now told probe.old probe.new)
        (dap_most dap_command_shape count bytes.now) reply.old.items reply.new.items }
{
    let mut rest = bytes;
    for place in 0..count {
        command_at(probe, rest, reply);
        rest = skip(rest, command_shape(rest).request);
    }
}

// Performs the command at the head of these bytes.
fn command_at<L: ProbeLine>(probe: &mut Processor<L>, bytes: &[u8], reply: &mut Reply)
    requires whole { (dap_command_shape bytes.now).request ≤ length bytes.now }
    requires room { length reply.old.items + (dap_command_shape bytes.now).reply ≤ 512 }
    ensures { DapAppends (λ told. DapCommandGoes L.clocks L.resets bytes.now told probe.old probe.new)
        (dap_command_shape bytes.now).reply reply.old.items reply.new.items }
{
    command(probe, Command::of(byte_at(bytes, 0)), bytes, reply);
}

// Performs this command, which is at the head of these bytes.
fn command<L: ProbeLine>(
    probe: &mut Processor<L>,
    command: Command,
    bytes: &[u8],
    reply: &mut Reply,
)
    requires whole { (dap_shape_by command bytes.now).request ≤ length bytes.now }
    requires room { length reply.old.items + (dap_shape_by command bytes.now).reply ≤ 512 }
    ensures { DapAppends (λ told. ProbeDoes L.clocks L.resets command bytes.now told probe.old probe.new)
        (dap_shape_by command bytes.now).reply reply.old.items reply.new.items }
{
    match command {
        Command::Transfer => transfers(probe, bytes, reply),
        Command::TransferBlock => block(probe, bytes, reply),
        Command::WriteAbort => write_abort(probe, bytes, reply),
        Command::DriveSequence => drive(probe, bytes, reply),
        Command::WireSequence => wire(probe, bytes, reply),
        Command::Pins => pins(probe, bytes, reply),
        other => set(probe, other, bytes, reply),
    }
}

// Performs DAP_Transfer.
fn transfers<L: ProbeLine>(probe: &mut Processor<L>, bytes: &[u8], reply: &mut Reply)
    requires whole { (dap_shape_by Command.Transfer bytes.now).request ≤ length bytes.now }
    requires room { length reply.old.items + (dap_shape_by Command.Transfer bytes.now).reply ≤ 512 }
    ensures { DapAppends (λ told. DapTransfersMade L.clocks bytes.now told probe.old probe.new)
        (dap_shape_by Command.Transfer bytes.now).reply reply.old.items reply.new.items }
{
    transfer(
        &mut probe.line,
        &probe.settings,
        &mut probe.mask,
        bytes,
        reply,
    );
}

// Performs DAP_TransferBlock.
fn block<L: ProbeLine>(probe: &mut Processor<L>, bytes: &[u8], reply: &mut Reply)
    requires whole { (dap_shape_by Command.TransferBlock bytes.now).request ≤ length bytes.now }
    requires room { length reply.old.items + (dap_shape_by Command.TransferBlock bytes.now).reply ≤ 512 }
    ensures { DapAppends (λ told. DapBlockMade L.clocks bytes.now told probe.old probe.new)
        (dap_shape_by Command.TransferBlock bytes.now).reply reply.old.items reply.new.items }
{
    transfer_block(&mut probe.line, &probe.settings, bytes, reply);
}

// Performs DAP_SWJ_Sequence.
fn drive<L: ProbeLine>(probe: &mut Processor<L>, bytes: &[u8], reply: &mut Reply)
    requires whole { (dap_shape_by Command.DriveSequence bytes.now).request ≤ length bytes.now }
    requires room { length reply.old.items + (dap_shape_by Command.DriveSequence bytes.now).reply ≤ 512 }
    ensures { DapAppends (λ told. DapDrives L.clocks bytes.now told probe.old probe.new)
        (dap_shape_by Command.DriveSequence bytes.now).reply reply.old.items reply.new.items }
{
    drive_sequence(&mut probe.line, bytes);
    put(reply, &[0x12, 0]);
}

// Performs DAP_SWD_Sequence.
fn wire<L: ProbeLine>(probe: &mut Processor<L>, bytes: &[u8], reply: &mut Reply)
    requires whole { (dap_shape_by Command.WireSequence bytes.now).request ≤ length bytes.now }
    requires room { length reply.old.items + (dap_shape_by Command.WireSequence bytes.now).reply ≤ 512 }
    ensures { DapAppends (λ told. DapSequencesMade L.clocks bytes.now told probe.old probe.new)
        (dap_shape_by Command.WireSequence bytes.now).reply reply.old.items reply.new.items }
{
    put(reply, &[0x1d, 0]);
    sequences(&mut probe.line, bytes[1], &bytes[2..], reply);
}

// Performs DAP_WriteABORT: one transaction.
fn write_abort<L: ProbeLine>(probe: &mut Processor<L>, bytes: &[u8], reply: &mut Reply)
    requires whole { 6 ≤ length bytes.now }
    requires room { length reply.old.items + 2 ≤ 512 }
    ensures { DapAppends (λ told. DapAborts L.clocks bytes.now told probe.old probe.new) 2
        reply.old.items reply.new.items }
{
    let _ = transact(&mut probe.line, &probe.settings, ABORT, word_at(bytes, 2));
    put(reply, &[0x08, 0]);
}

// Sets nRESET if it is selected, and tells the levels: SWCLK and SWDIO are high between two packets.
fn pins<L: ProbeLine>(probe: &mut Processor<L>, bytes: &[u8], reply: &mut Reply)
    requires whole { 7 ≤ length bytes.now }
    requires room { length reply.old.items + 2 ≤ 512 }
    ensures { DapAppends (λ told. DapSetsPins L.resets bytes.now told probe.old probe.new) 2
        reply.old.items reply.new.items }
{
    if bytes[2] >= 0x80 {
        probe.reset = bytes[1] >= 0x80;
        probe.line.reset(probe.reset);
    }
    let levels = if probe.reset { 0x83 } else { 0x03 };
    put(reply, &[0x10, levels]);
}

// Performs a command that sets or tells something, without the line.
fn set<L: ProbeLine>(probe: &mut Processor<L>, command: Command, bytes: &[u8], reply: &mut Reply)
    requires whole { (dap_fixed_shape command bytes.now).request ≤ length bytes.now }
    requires room { length reply.old.items + (dap_fixed_shape command bytes.now).reply ≤ 512 }
    ensures { DapAppends (λ told. DapSets command bytes.now told probe.old probe.new)
        (dap_fixed_shape command bytes.now).reply reply.old.items reply.new.items }
{
    match command {
        Command::Info => info(probe.size.bytes, bytes[1], reply),
        Command::HostStatus => put(reply, &[0x01, 0]),
        Command::Connect => put(reply, &[0x02, if bytes[1] < 2 { 1 } else { 0 }]),
        Command::Disconnect => put(reply, &[0x03, 0]),
        Command::TransferConfigure => {
            configure_transfers(&mut probe.settings, bytes);
            put(reply, &[0x04, 0]);
        }
        Command::TransferAbort => {}
        Command::Delay => put(reply, &[0x09, 0]),
        Command::ResetTarget => put(reply, &[0x0a, 0, 0]),
        Command::Clock => {
            let status = if word_at(bytes, 1) == 0 { 0xff } else { 0 };
            put(reply, &[0x11, status]);
        }
        Command::WireConfigure => {
            configure_wire(&mut probe.settings, bytes);
            put(reply, &[0x13, 0]);
        }
        _ => put(reply, &[0xff]),
    }
}

// Performs DAP_Info: of a size in bytes.
fn info(size: usize, what: u8, reply: &mut Reply)
    requires size { size ≤ 512 }
    requires room { length reply.old.items + 8 ≤ 512 }
    ensures { DapAppends (λ told. told ≡ dap_info_reply size what) 8 reply.old.items reply.new.items }
{
    match what {
        0x04 => put(reply, &[0x00, 6, 0x31, 0x2e, 0x32, 0x2e, 0x30, 0]),
        0xf0 => put(reply, &[0x00, 1, 0x11]),
        0xfe => put(reply, &[0x00, 1, 1]),
        0xff => put(reply, &[0x00, 2, (size % 256) as u8, (size / 256) as u8]),
        _ => put(reply, &[0x00, 0]),
    }
}

// Performs DAP_TransferConfigure.
fn configure_transfers(settings: &mut Settings, bytes: &[u8])
    requires { 6 ≤ length bytes.now }
    ensures { settings.new ≡ dap_settings_after Command.TransferConfigure bytes.now settings.old }
{
    settings.idle = bytes[1];
    settings.retries = u16::from_le_bytes([bytes[2], bytes[3]]);
    settings.matches = u16::from_le_bytes([bytes[4], bytes[5]]);
}

// Performs DAP_SWD_Configure.
fn configure_wire(settings: &mut Settings, bytes: &[u8])
    requires { 2 ≤ length bytes.now }
    ensures { settings.new ≡ dap_settings_after Command.WireConfigure bytes.now settings.old }
{
    settings.turnaround = 1 + bytes[1] % 4;
    settings.data_phase = bytes[1] / 4 % 2 == 1;
}
