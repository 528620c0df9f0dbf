//! Sessions of packets, each with its length before it.

use std::alloc::Global;
use std::process::Abort;
use std::test::Fail;
use swd_bitbang::{Pins, Served, Trace};
use swd_clocked::FaultyClocked;
use swd_ends::serve_logged;
use swd_packets::SimulatedProbe;
use swd_target::{Memory, Quirks};

const QUIRKS: Quirks = Quirks {
    wrap: true,
    late: false,
    filler: 0,
    idr: None,
};

// The port is connected, opened, and a word written and read: the worked packets of the protocol's page.
const ASKED: &[u8] = &[
    2, 0, 0x02, 0x01, 6, 0, 0x04, 0x08, 0, 0, 0, 0, 19, 0, 0x12, 0x88, 0xff, 0xff, 0xff, 0xff,
    0xff, 0xff, 0xff, 0x9e, 0xe7, 0xff, 0xff, 0xff, 0xff, 0xff, 0xff, 0xff, 0x00, 4, 0, 0x05, 0, 1,
    0x02, 9, 0, 0x05, 0, 2, 0x00, 0x1e, 0, 0, 0, 0x06, 14, 0, 0x05, 0, 3, 0x08, 0, 0, 0, 0, 0x04,
    0, 0, 0, 0x50, 0x06, 9, 0, 0x05, 0, 2, 0x01, 0x12, 0, 0, 0x23, 0x03, 14, 0, 0x05, 0, 3, 0x05,
    0, 0, 0, 0x20, 0x0d, 0xef, 0xbe, 0xad, 0xde, 0x0e, 9, 0, 0x05, 0, 2, 0x05, 0, 0, 0, 0x20, 0x0f,
];

const TOLD: &[u8] = &[
    2, 0, 0x02, 0x01, 2, 0, 0x04, 0x00, 2, 0, 0x12, 0x00, 7, 0, 0x05, 1, 1, 0x77, 0x14, 0xa0, 0x2b,
    7, 0, 0x05, 2, 1, 0, 0, 0, 0, 7, 0, 0x05, 3, 1, 0, 0, 0, 0xf0, 7, 0, 0x05, 2, 1, 0x52, 0, 0,
    0x23, 7, 0, 0x05, 3, 1, 0, 0, 0, 0, 7, 0, 0x05, 2, 1, 0xef, 0xbe, 0xad, 0xde,
];

// DAP_TransferAbort, a packet of no bytes, and a command that there isn't.
const ABORTED: &[u8] = &[1, 0, 0x07, 0, 0, 1, 0, 0x77];

const ABORTED_TOLD: &[u8] = &[1, 0, 0xff, 1, 0, 0xff];

// A packet, and then a length of 513.
const TOO_LONG: &[u8] = &[2, 0, 0x02, 0x01, 1, 2, 0x07];

const CONNECTED: &[u8] = &[2, 0, 0x02, 0x01];

// What a session of these bytes makes of a memory of sixteen words, and its log.
fn served<R: Abort>(
    rt: &R,
    alloc: Global,
    asked: &[u8],
    told: &[u8],
    ended: Served,
    log: &[u8],
) -> Result<(), Fail> {
    let memory = Memory::new(alloc, 0x2000_0000, 16, 16)?;
    let target = FaultyClocked::new(memory, QUIRKS, Vec::new(alloc));
    let probe = SimulatedProbe::new(Pins::new(target, Trace::none(alloc)), 64);
    let (mut input, mut output) = (asked, Vec::new(alloc));
    let (served, probe, files) = serve_logged(
        &mut input,
        &mut output,
        probe,
        Some(Vec::new(alloc)),
        None,
    );
    assert_eq!(rt; served, ended);
    assert_eq!(rt; output.as_slice(), told);
    let lines = files.into_writers().0.unwrap_or(Vec::new(alloc));
    assert!(rt; lines.as_slice().starts_with(log));
    let _ = probe.into_pins();
    Ok(())
}

#[test]
fn a_word_is_written_and_read_by_packets(rt: HostRuntime) -> Result<(), Fail> {
    let log = b"w 20000000 deadbeef\nr 20000000 deadbeef\ncycles ";
    served(&rt, rt.alloc(), ASKED, TOLD, Served::Ended, log.as_slice())
}

#[test]
fn an_aborted_transfer_has_no_reply(rt: HostRuntime) -> Result<(), Fail> {
    served(
        &rt,
        rt.alloc(),
        ABORTED,
        ABORTED_TOLD,
        Served::Ended,
        b"cycles 0 ".as_slice(),
    )
}

#[test]
fn a_packet_above_512_bytes_ends_the_session(rt: HostRuntime) -> Result<(), Fail> {
    let bad = Served::Bad { place: 5, byte: 2 };
    served(
        &rt,
        rt.alloc(),
        TOO_LONG,
        CONNECTED,
        bad,
        b"cycles 0 ".as_slice(),
    )
}
