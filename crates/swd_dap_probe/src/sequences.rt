//! Sequences of clocks: `DAP_SWJ_Sequence` and `DAP_SWD_Sequence`.
ghost use Rattle.std.specs.Prelude.{ℕ, ◌≡◌, ◌≤◌, ◌+◌, ◌*◌, ◌++◌, Bool, List, Some, length, map, drop};
ghost use Rattle.std.specs.Prelude.{slice_index};
ghost use Rattle.swd_sequences.specs.Going.{SequenceClocksGoBy};
ghost use Rattle.swd_dap_probe.specs.Shapes.{dap_drive_clocks, dap_item_shape, dap_long, dap_most, dap_bytes_for};
ghost use Rattle.swd_dap_probe.specs.Sequences.{dap_bits, dap_sequences, DapSequencesGo, DapSequenceGoes};
ghost use Rattle.swd_dap_probe.specs.Sequences.{DapLevelsSampled, dap_sequence_at};
ghost use Rattle.swd_dap_probe.specs.declared.shape.Items.{Items};

use crate::clocks::sample;
use crate::line::ProbeLine;
use crate::reply::{Reply, put};
use crate::shape::{Items, bytes_for, clocks_of, drives_of, item_shape, samples, skip};

// Drives so many bits of these bytes, the first in time in bit 0 of the first byte.
fn drive_bits<L: ProbeLine>(line: &mut L, bytes: &[u8], count: u16)
    requires { count ≤ 8 * length bytes.now }
    ensures { (levels : List Bool) × SequenceClocksGoBy L.clocks (map Some (dap_bits bytes.now 0 count)) levels
        line.old line.new }
{
    for place in 0..count {
        let byte = bytes[usize::from(place / 8)];
        let _ = line.clock(Some((byte >> (place % 8)) % 2 == 1));
    }
}

// Samples so many levels, at most 64, and appends their bytes.
fn sample_bytes<L: ProbeLine>(line: &mut L, count: u8, reply: &mut Reply)
    requires count { count ≤ 64 }
    requires room { length reply.old.items + dap_bytes_for count ≤ 512 }
    ensures { DapLevelsSampled L.clocks count reply.old.items reply.new.items line.old line.new }
{
    let mut left = count;
    while left > 0 {
        let now = left.min(8);
        let levels = sample(line, now);
        put(reply, &[levels as u8]);
        left -= now;
    }
}

/// Performs `DAP_SWJ_Sequence`, of bytes that have its bits.
pub(crate) fn drive_sequence<L: ProbeLine>(line: &mut L, request: &[u8])
    requires { 2 + dap_bytes_for (dap_drive_clocks (slice_index request.now 1)) ≤ length request.now }
    ensures { (levels : List Bool) × SequenceClocksGoBy L.clocks
        (map Some (dap_bits (drop 2 request.now) 0 (dap_drive_clocks (slice_index request.now 1)))) levels
        line.old line.new }
{
    drive_bits(line, &request[2..], drives_of(request[1]));
}

// Performs the sequence at the head of these bytes.
fn sequence<L: ProbeLine>(line: &mut L, bytes: &[u8], reply: &mut Reply)
    requires whole { (dap_item_shape Items.Sequences bytes.now).request ≤ length bytes.now }
    requires room { length reply.old.items + (dap_item_shape Items.Sequences bytes.now).reply ≤ 512 }
    ensures { DapSequenceGoes L.clocks (dap_sequence_at bytes.now) reply.old.items reply.new.items line.old line.new }
{
    let clocks = clocks_of(bytes[0]);
    if samples(bytes[0]) {
        sample_bytes(line, clocks, reply);
    } else {
        drive_bits(line, &bytes[1..], u16::from(clocks));
    }
}

/// Performs so many sequences, and appends the bytes of their levels.
pub(crate) fn sequences<L: ProbeLine>(line: &mut L, count: u8, bytes: &[u8], reply: &mut Reply)
    requires whole { dap_long (dap_item_shape Items.Sequences) count bytes.now ≤ length bytes.now }
    requires room { length reply.old.items + dap_most (dap_item_shape Items.Sequences) count bytes.now ≤ 512 }
    ensures { (told : List ℕ) × DapSequencesGo L.clocks (dap_sequences count bytes.now) told line.old line.new
        × (reply.new.items ≡ reply.old.items ++ told)
        × (length told ≤ dap_most (dap_item_shape Items.Sequences) count bytes.now) }
{
    let mut rest = bytes;
    for place in 0..count {
        sequence(line, rest, reply);
        rest = skip(rest, item_shape(Items::Sequences, rest).request);
    }
}
