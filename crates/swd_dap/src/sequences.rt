//! A way to a probe that stands for serial wire, and clocks by sequences over it.
ghost use Rattle.swd_dap.specs.Packets.{DapReplies, DapDoes, dap_seen_in, dap_bits_in};
ghost use Rattle.swd_dap.specs.Sequences.{dap_ask_request, dap_take_request, dap_give_request, dap_release_request};
ghost use Rattle.swd_dap.specs.Leading.{DapQueues, DapReleases, dap_switch_and, dap_lead_bits, DapClocksLead};
ghost use Rattle.swd_dap.specs.Opening.{IsDapSize, DapTellsSize, DapConnects, DapOpens};
ghost use Rattle.std.specs.Prelude.{◌∷◌, if◌then◌else◌, replicate, take, List, ℕ, ◌≡◌, ◌≤◌, ◌<◌, ◌+◌, ◌^◌, length, []};
ghost use Rattle.std.specs.Prelude.{IfOk, OnOk};

use crate::packets::{DapFault, LONGEST, Packets};
use crate::replies::check_reply;
use crate::requests::{
    ask_request, clock_request, drive_request, give_request, release_request, take_request,
};
use arrayvec::ArrayVec;
use swd_bits::Request;

// The most bits of a packet that drives bits.
const MOST_BITS: usize = 256;

// The sixteen bits of the switch from JTAG, in time order.
const SWITCH_IN_TIME: [bool; 16] = [
    false, true, true, true, true, false, false, true, true, true, true, false, false, true, true,
    true,
];

// Bits that wait to be driven.
type Bits = ArrayVec<bool, MOST_BITS>;

// Sends a request, and returns the length of its reply, which has at least so many bytes.
fn answer<P: Packets>(
    packets: &mut P,
    request: &[u8],
    least: usize,
    reply: &mut [u8; 512],
) -> Result<usize, DapFault>
    requires { (1 ≤ length request.now) × (length request.now ≤ 512) }
    ensures bound { IfOk result (λ n. (n ≤ 512) × (least ≤ n)) }
    ensures ok { IfOk result (λ n. DapReplies P.exchanged request.now least (take n reply.new) packets.old
        packets.new) }
{
    let length = packets.exchange(request, reply)?;
    match check_reply(request[0], &reply[..length], least) {
        Ok(()) => Ok(length),
        Err(fault) => Err(fault),
    }
}

// Sends a request whose reply is a status and so many bytes more.
fn levels<P: Packets>(
    packets: &mut P,
    request: &[u8],
    more: usize,
    reply: &mut [u8; 512],
) -> Result<usize, DapFault>
    requires request { (1 ≤ length request.now) × (length request.now ≤ 512) }
    requires more { more ≤ 8 }
    ensures bound { IfOk result (λ n. (n ≤ 512) × (2 + more ≤ n)) }
    ensures ok { IfOk result (λ n. DapDoes P.exchanged request.now (2 + more) (take n reply.new) packets.old
        packets.new) }
{
    let length = answer(packets, request, 2 + more, reply)?;
    if reply[1] == 0 {
        Ok(length)
    } else {
        Err(DapFault::Refused(request[0]))
    }
}

/// Sends a request whose reply is a status.
pub(crate) fn perform<P: Packets>(packets: &mut P, request: &[u8]) -> Result<(), DapFault>
    requires { (1 ≤ length request.now) × (length request.now ≤ 512) }
    ensures { OnOk result ((reply : List ℕ)
        × DapDoes P.exchanged request.now 2 reply packets.old packets.new) }
{
    let mut reply = [0u8; LONGEST];
    match levels(packets, request, 0, &mut reply) {
        Ok(_) => Ok(()),
        Err(fault) => Err(fault),
    }
}

// Returns the size of packets that a reply tells.
fn size_of_reply(reply: &[u8]) -> Result<usize, DapFault>
    ensures { IfOk result (λ size. IsDapSize size reply.now) }
{
    let [0x00, 0x02, low, high, ..] = reply else {
        return Err(DapFault::NoDap);
    };
    let size = u16::from_le_bytes([*low, *high]);
    if size < 64 || size > 512 {
        return Err(DapFault::PacketSize(size));
    }
    Ok(usize::from(size))
}

// Returns the size of the probe's packets.
fn packet_size<P: Packets>(packets: &mut P) -> Result<usize, DapFault>
    ensures { IfOk result (λ size. DapTellsSize P.exchanged size packets.old packets.new) }
{
    let mut reply = [0u8; LONGEST];
    let length = packets.exchange(&[0x00, 0xff], &mut reply)?;
    size_of_reply(&reply[..length])
}

// Has the probe drive its pins for serial wire.
fn connect<P: Packets>(packets: &mut P) -> Result<(), DapFault>
    ensures { OnOk result (DapConnects P.exchanged packets.old packets.new) }
{
    let mut reply = [0u8; LONGEST];
    let _ = answer(packets, &[0x02, 1], 2, &mut reply)?;
    if reply[1] == 1 {
        Ok(())
    } else {
        Err(DapFault::NoSerialWire)
    }
}

/// Has the probe drive its pins for serial wire, at this many hertz. Eight idle cycles follow each transfer that is OK,
/// and none is repeated. Returns the size of its packets.
pub(crate) fn open<P: Packets>(packets: &mut P, speed: u32) -> Result<usize, DapFault>
    ensures bound { IfOk result (λ size. (64 ≤ size) × (size ≤ 512)) }
    ensures ok { IfOk result (λ size. DapOpens P.exchanged speed size packets.old packets.new) }
{
    let size = packet_size(packets)?;
    connect(packets)?;
    perform(packets, &clock_request(speed))?;
    perform(packets, &[0x04, 8, 0, 0, 0, 0])?;
    perform(packets, &[0x13, 0])?;
    Ok(size)
}

/// Sends a request, and returns the three bits of its acknowledgement.
pub(crate) fn ask<P: Packets>(packets: &mut P, request: Request) -> Result<u8, DapFault>
    ensures bound { IfOk result (λ seen. seen < 8) }
    ensures ok { IfOk result (λ seen. (reply : List ℕ) × (seen ≡ dap_seen_in reply)
        × DapDoes P.exchanged (dap_ask_request request) 3 reply packets.old packets.new) }
{
    let mut reply = [0u8; LONGEST];
    let _ = levels(packets, &ask_request(request), 1, &mut reply)?;
    Ok(reply[2] / 2 % 8)
}

/// Returns the 33 bits of a data phase, and passes the turnaround.
pub(crate) fn take<P: Packets>(packets: &mut P) -> Result<u64, DapFault>
    ensures bound { IfOk result (λ bits. bits < 2 ^ 33) }
    ensures ok { IfOk result (λ bits. (reply : List ℕ) × (bits ≡ dap_bits_in reply)
        × DapDoes P.exchanged dap_take_request 7 reply packets.old packets.new) }
{
    let mut reply = [0u8; LONGEST];
    let _ = levels(packets, &take_request(), 5, &mut reply)?;
    let bits = u64::from_le_bytes([reply[2], reply[3], reply[4], reply[5], reply[6], 0, 0, 0]);
    Ok(bits % 0x2_0000_0000)
}

/// Passes the turnaround, and sends the 33 bits of a data phase.
pub(crate) fn give<P: Packets>(packets: &mut P, bits: u64) -> Result<(), DapFault>
    ensures { OnOk result ((reply : List ℕ)
        × DapDoes P.exchanged (dap_give_request bits) 3 reply packets.old packets.new) }
{
    let mut reply = [0u8; LONGEST];
    match levels(packets, &give_request(bits), 1, &mut reply) {
        Ok(_) => Ok(()),
        Err(fault) => Err(fault),
    }
}

// Releases the line for 1 to 64 clocks.
fn release_some<P: Packets>(packets: &mut P, clocks: u8) -> Result<(), DapFault>
    requires { (1 ≤ clocks) × (clocks ≤ 64) }
    ensures { OnOk result ((reply : List ℕ) × (least : ℕ)
        × DapDoes P.exchanged (dap_release_request clocks) least reply packets.old packets.new) }
{
    let mut reply = [0u8; LONGEST];
    let more = usize::from(clocks).div_ceil(8);
    match levels(packets, &release_request(clocks), more, &mut reply) {
        Ok(_) => Ok(()),
        Err(fault) => Err(fault),
    }
}

/// Releases the line for so many clocks.
pub(crate) fn release<P: Packets>(packets: &mut P, clocks: u32) -> Result<(), DapFault>
    ensures { OnOk result (DapReleases P.exchanged clocks packets.old packets.new) }
{
    let mut left = clocks;
    while left > 0 {
        let now = left.min(64);
        release_some(packets, now as u8)?;
        left -= now;
    }
    Ok(())
}

// Drives the bits that wait.
fn flush<P: Packets>(packets: &mut P, bits: &mut Bits) -> Result<(), DapFault>
    ensures none { OnOk result (bits.new.items ≡ []) }
    ensures drives { OnOk result (DapQueues P.exchanged [] packets.old bits.old.items packets.new bits.new.items) }
{
    if bits.is_empty() {
        return Ok(());
    }
    let request = drive_request(bits.as_slice());
    bits.clear();
    perform(packets, request.as_slice())?;
    Ok(())
}

// Drives one bit, by the packet of its neighbours.
fn drive<P: Packets>(packets: &mut P, bits: &mut Bits, bit: bool) -> Result<(), DapFault>
    ensures { OnOk result (DapQueues P.exchanged (bit ∷ []) packets.old bits.old.items packets.new bits.new.items) }
{
    if bits.is_full() {
        flush(packets, bits)?;
    }
    bits.push(bit);
    Ok(())
}

// Drives one level for so many clocks.
fn hold<P: Packets>(
    packets: &mut P,
    bits: &mut Bits,
    level: bool,
    clocks: u32,
) -> Result<(), DapFault>
    ensures { OnOk result (DapQueues P.exchanged (replicate clocks level) packets.old bits.old.items packets.new
        bits.new.items) }
{
    for _ in 0..clocks {
        drive(packets, bits, level)?;
    }
    Ok(())
}

// Drives these bits.
fn drive_all<P: Packets>(packets: &mut P, bits: &mut Bits, more: &[bool]) -> Result<(), DapFault>
    ensures { OnOk result (DapQueues P.exchanged more.now packets.old bits.old.items packets.new bits.new.items) }
{
    for bit in more {
        drive(packets, bits, *bit)?;
    }
    Ok(())
}

// Drives the bits of the switch and so many ones, if any.
fn drive_switch<P: Packets>(
    packets: &mut P,
    bits: &mut Bits,
    again: Option<u32>,
) -> Result<(), DapFault>
    ensures { OnOk result (DapQueues P.exchanged (dap_switch_and again) packets.old bits.old.items packets.new
        bits.new.items) }
{
    let Some(ones) = again else {
        return Ok(());
    };
    drive_all(packets, bits, &SWITCH_IN_TIME)?;
    hold(packets, bits, true, ones)?;
    Ok(())
}

// Drives `ones` cycles high, if `again` the bits of the switch and so many cycles high, and then `zeros` cycles low.
fn drive_lead<P: Packets>(
    packets: &mut P,
    ones: u32,
    again: Option<u32>,
    zeros: u32,
) -> Result<(), DapFault>
    ensures { OnOk result (DapQueues P.exchanged (dap_lead_bits ones again zeros) packets.old [] packets.new []) }
{
    let mut bits = Bits::new();
    hold(packets, &mut bits, true, ones)?;
    drive_switch(packets, &mut bits, again)?;
    hold(packets, &mut bits, false, zeros)?;
    flush(packets, &mut bits)?;
    Ok(())
}

// Returns how many ones follow the switch, if it is sent.
fn ones_again(ones: u32, switch: bool) -> Option<u32>
    ensures { result ≡ (if switch then Some ones else None) }
{
    if switch { Some(ones) } else { None }
}

/// Drives `ones` cycles high, of which the first `undriven` are released. With `switch` the bits of the switch and the
/// ones again follow. Then drives `zeros` cycles low.
pub(crate) fn lead<P: Packets>(
    packets: &mut P,
    ones: u32,
    undriven: u32,
    switch: bool,
    zeros: u32,
) -> Result<(), DapFault>
    ensures { OnOk result (DapClocksLead P.exchanged ones undriven switch zeros packets.old packets.new) }
{
    let undriven = undriven.min(ones);
    release(packets, undriven)?;
    drive_lead(packets, ones - undriven, ones_again(ones, switch), zeros)?;
    Ok(())
}
