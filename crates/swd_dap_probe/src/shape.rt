//! How long a command is, and how long its reply may be: known before any clock.
ghost use Rattle.std.specs.Prelude.{◌≡◌, ◌^◌, ◌≤◌, drop, slice_index};
ghost use Rattle.swd_dap_probe.specs.Shapes.{dap_clocks, dap_drive_clocks, dap_samples, dap_bytes_for, dap_reads};
ghost use Rattle.swd_dap_probe.specs.Shapes.{dap_matches, dap_block_count, dap_block_shape, dap_item_shape};
ghost use Rattle.swd_dap_probe.specs.Shapes.{dap_items_shape, dap_fixed_shape, dap_command_shape, dap_packet_shape};
ghost use Rattle.swd_dap_probe.specs.Shapes.{dap_sequence_shape_at, dap_transfer_shape_at};

use crate::command::Command;

/// The bytes of a request, and the most bytes of its reply.
#[derive(Clone, Copy)]
pub(crate) struct Shape {
    pub(crate) request: usize,
    pub(crate) reply: usize,
}

/// What a command has several of.
#[derive(Clone, Copy)]
pub(crate) enum Items {
    /// Sequences of `DAP_SWD_Sequence`.
    Sequences,
    /// Requests of `DAP_Transfer`.
    Transfers,
}

/// Returns a byte, or 0 where there is none.
pub(crate) fn byte_at(bytes: &[u8], place: usize) -> u8
    ensures { result ≡ slice_index bytes.now place }
{
    match bytes.get(place) {
        Some(byte) => *byte,
        None => 0,
    }
}

/// Returns the clocks of a sequence of `DAP_SWD_Sequence`, 1 to 64.
pub(crate) fn clocks_of(info: u8) -> u8
    ensures clocks { result ≡ dap_clocks info }
    ensures bound { (1 ≤ result) × (result ≤ 64) }
{
    match info % 64 {
        0 => 64,
        count => count,
    }
}

/// Returns the clocks of `DAP_SWJ_Sequence`, 1 to 256.
pub(crate) fn drives_of(count: u8) -> u16
    ensures clocks { result ≡ dap_drive_clocks count }
    ensures bound { (1 ≤ result) × (result ≤ 256) }
{
    match count {
        0 => 256,
        count => u16::from(count),
    }
}

/// Returns whether a sequence samples.
pub(crate) fn samples(info: u8) -> bool
    ensures { result ≡ dap_samples info }
{
    info / 128 % 2 == 1
}

/// Returns how many bytes so many bits fill.
pub(crate) fn bytes_for(bits: u16) -> usize
    requires { bits ≤ 256 }
    ensures { result ≡ dap_bytes_for bits }
{
    (usize::from(bits) + 7) / 8
}

/// Returns whether a request of `DAP_Transfer` is a read.
pub(crate) fn reads(code: u8) -> bool
    ensures { result ≡ dap_reads code }
{
    code / 2 % 2 == 1
}

/// Returns whether a read waits for a word that matches.
pub(crate) fn matches(code: u8) -> bool
    ensures { result ≡ dap_matches code }
{
    code / 16 % 2 == 1
}

// Returns the sequence with this first byte.
fn sequence_shape(info: u8) -> Shape
    ensures { result ≡ dap_sequence_shape_at info }
{
    let long = bytes_for(u16::from(clocks_of(info)));
    if samples(info) {
        Shape {
            request: 1,
            reply: long,
        }
    } else {
        Shape {
            request: 1 + long,
            reply: 0,
        }
    }
}

// Returns the request of `DAP_Transfer` with this first byte.
fn transfer_shape(code: u8) -> Shape
    ensures { result ≡ dap_transfer_shape_at code }
{
    if reads(code) && !matches(code) {
        Shape {
            request: 1,
            reply: 4,
        }
    } else {
        Shape {
            request: 5,
            reply: 0,
        }
    }
}

/// Returns the item at the head of these bytes.
pub(crate) fn item_shape(items: Items, bytes: &[u8]) -> Shape
    ensures shape { result ≡ dap_item_shape items bytes.now }
    ensures bound { (1 ≤ result.request) × (result.request ≤ 9) × (result.reply ≤ 8) }
{
    let first = byte_at(bytes, 0);
    match items {
        Items::Sequences => sequence_shape(first),
        Items::Transfers => transfer_shape(first),
    }
}

/// Returns what is behind so many bytes; nothing, if there are fewer.
pub(crate) fn skip(bytes: &[u8], count: usize) -> &[u8]
    ensures { result.now ≡ drop count bytes.now }
{
    &bytes[count.min(bytes.len())..]
}

// Returns so many items behind some bytes, whose reply comes behind as many.
fn items_shape(items: Items, before: usize, count: u8, bytes: &[u8]) -> Shape
    requires { before ≤ 3 }
    ensures shape { result ≡ dap_items_shape (dap_item_shape items) before before count bytes.now }
    ensures few { (result.request ≤ 2 ^ 19) × (result.reply ≤ 2 ^ 18) }
{
    let mut rest = skip(bytes, before);
    let mut shape = Shape {
        request: before,
        reply: before,
    };
    for place in 0..count {
        let one = item_shape(items, rest);
        rest = skip(rest, one.request);
        shape.request += one.request;
        shape.reply += one.reply;
    }
    shape
}

/// Returns how many words `DAP_TransferBlock` moves.
pub(crate) fn block_count(bytes: &[u8]) -> u16
    ensures { result ≡ dap_block_count bytes.now }
{
    u16::from(byte_at(bytes, 2)) + 256 * u16::from(byte_at(bytes, 3))
}

// Returns `DAP_TransferBlock`.
fn block_shape(bytes: &[u8]) -> Shape
    ensures shape { result ≡ dap_block_shape bytes.now }
    ensures few { (result.request ≤ 2 ^ 19) × (result.reply ≤ 2 ^ 18) }
{
    let words = 4 * usize::from(block_count(bytes));
    if reads(byte_at(bytes, 4)) {
        Shape {
            request: 5,
            reply: 4 + words,
        }
    } else {
        Shape {
            request: 5 + words,
            reply: 4,
        }
    }
}

// Returns a command without items.
fn fixed_shape(command: Command, bytes: &[u8]) -> Shape
    ensures shape { result ≡ dap_fixed_shape command bytes.now }
    ensures few { (result.request ≤ 2 ^ 19) × (result.reply ≤ 2 ^ 18) }
{
    let (request, reply) = match command {
        Command::TransferBlock => return block_shape(bytes),
        Command::Info => (2, 8),
        Command::HostStatus => (3, 2),
        Command::Connect => (2, 2),
        Command::Disconnect => (1, 2),
        Command::TransferConfigure => (6, 2),
        Command::TransferAbort => (1, 0),
        Command::WriteAbort => (6, 2),
        Command::Delay => (3, 2),
        Command::ResetTarget => (1, 3),
        Command::Pins => (7, 2),
        Command::Clock => (5, 2),
        Command::WireConfigure => (2, 2),
        Command::DriveSequence => (2 + bytes_for(drives_of(byte_at(bytes, 1))), 2),
        _ => (1, 1),
    };
    Shape { request, reply }
}

/// Returns the command at the head of these bytes. `DAP_ExecuteCommands` is an unknown one here.
pub(crate) fn command_shape(bytes: &[u8]) -> Shape
    ensures shape { result ≡ dap_command_shape bytes.now }
    ensures few { (result.request ≤ 2 ^ 19) × (result.reply ≤ 2 ^ 18) }
{
    let command = Command::of(byte_at(bytes, 0));
    match command {
        Command::Transfer => items_shape(Items::Transfers, 3, byte_at(bytes, 2), bytes),
        Command::WireSequence => items_shape(Items::Sequences, 2, byte_at(bytes, 1), bytes),
        other => fixed_shape(other, bytes),
    }
}

// Returns `DAP_ExecuteCommands`.
fn commands_shape(bytes: &[u8]) -> Shape
    ensures { result ≡ dap_items_shape dap_command_shape 2 2 (slice_index bytes.now 1) bytes.now }
{
    let mut rest = skip(bytes, 2);
    let mut shape = Shape {
        request: 2,
        reply: 2,
    };
    for place in 0..byte_at(bytes, 1) {
        let one = command_shape(rest);
        rest = skip(rest, one.request);
        shape.request += one.request;
        shape.reply += one.reply;
    }
    shape
}

/// Returns the shape of a packet. Where it ends too early, the missing bytes stand as zeros.
pub(crate) fn packet_shape(bytes: &[u8]) -> Shape
    ensures { result ≡ dap_packet_shape bytes.now }
{
    match Command::of(byte_at(bytes, 0)) {
        Command::Execute => commands_shape(bytes),
        _ => command_shape(bytes),
    }
}
