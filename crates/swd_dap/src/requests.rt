//! The bytes of requests.
ghost use Rattle.std.specs.Prelude.{◌≡◌, ◌≤◌, ◌+◌, ◌∷◌, ◌++◌, length};
ghost use Rattle.swd_dap.specs.Transfers.{dap_transfer_request, dap_transfer_bytes};
ghost use Rattle.swd_dap.specs.Sequences.{dap_drive_request, dap_byte_of, dap_bit_at};
ghost use Rattle.swd_dap.specs.Sequences.{dap_ask_request, dap_take_request, dap_give_request, dap_release_request};
ghost use Rattle.std.specs.Int.{w32, to_le_bytes};

use crate::beginning::HEAD;
use crate::packets::LONGEST;
use crate::transfer::Transfer;
use arrayvec::ArrayVec;
use swd_bits::Request;

/// `DAP_Transfer`.
pub(crate) const TRANSFER: u8 = 0x05;

/// `DAP_SWJ_Sequence`.
pub(crate) const DRIVE: u8 = 0x12;

/// `DAP_SWD_Sequence`.
pub(crate) const SEQUENCE: u8 = 0x1d;

/// A packet.
pub(crate) type Packet = ArrayVec<u8, LONGEST>;

// Appends these bytes.
fn put(packet: &mut Packet, bytes: &[u8])
    requires { length packet.old.items + length bytes.now ≤ 512 }
    ensures { packet.new.items ≡ packet.old.items ++ bytes.now }
{
    match packet.try_extend_from_slice(bytes) {
        Ok(()) => {}
        Err(_) => unreachable!(),
    }
}

// Appends a request, and the word of a write.
fn put_transfer(packet: &mut Packet, transfer: &Transfer)
    requires { length packet.old.items + length (dap_transfer_bytes transfer.now) ≤ 512 }
    ensures { packet.new.items ≡ packet.old.items ++ dap_transfer_bytes transfer.now }
{
    put(packet, &[transfer.code()]);
    if !transfer.request.read {
        put(packet, &transfer.word.to_le_bytes());
    }
}

/// Returns the packet of these transactions.
pub(crate) fn transfer_request(transfers: &[Transfer]) -> Packet
    requires few { length transfers.now ≤ 255 }
    requires fits { length (dap_transfer_request transfers.now) ≤ 512 }
    ensures { result.items ≡ dap_transfer_request transfers.now }
{
    let mut packet = Packet::new();
    put(&mut packet, &[TRANSFER, 0, transfers.len() as u8]);
    for transfer in transfers {
        put_transfer(&mut packet, transfer);
    }
    packet
}

// Returns a bit as a number; 0 where there is none.
fn bit_at(bits: &[bool], place: usize) -> u8
    ensures { result ≡ dap_bit_at bits.now place }
{
    match bits.get(place) {
        Some(true) => 1,
        _ => 0,
    }
}

// Returns the byte of the first eight bits, the first in time least significant.
fn byte_of(bits: &[bool]) -> u8
    ensures { result ≡ dap_byte_of bits.now }
{
    bit_at(bits, 0)
        + 2 * bit_at(bits, 1)
        + 4 * bit_at(bits, 2)
        + 8 * bit_at(bits, 3)
        + 16 * bit_at(bits, 4)
        + 32 * bit_at(bits, 5)
        + 64 * bit_at(bits, 6)
        + 128 * bit_at(bits, 7)
}

/// Returns the packet that drives these bits.
pub(crate) fn drive_request(bits: &[bool]) -> Packet
    requires { length bits.now ≤ 256 }
    ensures { result.items ≡ dap_drive_request bits.now }
{
    let mut packet = Packet::new();
    put(&mut packet, &[DRIVE, (bits.len() % 256) as u8]);
    let mut rest = bits;
    for _ in 0..bits.len().div_ceil(8) {
        put(&mut packet, &[byte_of(rest)]);
        rest = &rest[rest.len().min(8)..];
    }
    packet
}

/// Returns the packet that sets the clock's rate in hertz.
pub(crate) fn clock_request(speed: u32) -> [u8; 5]
    ensures { result ≡ 0x11 ∷ to_le_bytes w32 speed }
{
    let [first, second, third, last] = speed.to_le_bytes();
    [0x11, first, second, third, last]
}

/// Returns the packet that sends a request, and samples the turnaround and the acknowledgement.
pub(crate) fn ask_request(request: Request) -> [u8; 5]
    ensures { result ≡ dap_ask_request request }
{
    [SEQUENCE, 2, 8, request.bits(), 0x84]
}

/// Returns the packet that samples the 33 bits of a data phase and the turnaround.
pub(crate) fn take_request() -> [u8; 3]
    ensures { result ≡ dap_take_request }
{
    [SEQUENCE, 1, 0xa2]
}

/// Returns the packet that releases the line for one clock, and drives these 33 bits.
pub(crate) fn give_request(bits: u64) -> [u8; 9]
    ensures { result ≡ dap_give_request bits }
{
    let [first, second, third, fourth, last, _, _, _] = bits.to_le_bytes();
    [SEQUENCE, 2, 0x81, 33, first, second, third, fourth, last]
}

/// Returns the packet that releases the line for 1 to 64 clocks.
pub(crate) fn release_request(clocks: u8) -> [u8; 3]
    ensures { result ≡ dap_release_request clocks }
{
    [SEQUENCE, 1, 0x80 + clocks % 64]
}
