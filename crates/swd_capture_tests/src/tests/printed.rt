//! What is printed of worked captures.
use super::expect::expect_eq_at;
use super::{BOTH, NAMES, PLACES, trace_of};
use std::alloc::Global;
use std::io::Read;
use std::process::Abort;
use std::test::Fail;
use swd_capture::Printed;
use swd_capture_text::{Reading, print_capture};
use swd_fakes::{FailingReader, OneByteReader, ShortWriter};
use swd_text::{DecodeFault, TextFault};

// A session with each kind of acknowledgement, and each kind of item but a cut end.
const SESSION: &[u8] = b"reset 56\nswitch\nreset 56\nidle 2\ndp 0 read ok 2ba01477\n\
    dp 0 write ok 0000001e\ndp 4 read ok 000000a0\ndp 8 write ok 00000000\n\
    dp 4 write ok 50000000\ndp 4 read wait\ndp 4 read ok f0000040\nap 0 write ok 23000012\n\
    ap 4 write ok 20000000\nap c write ok deadbeef\nap 0 read ok 23000052\n\
    dp c read bad 23000052\ndp 8 read ok 23000052\ndp 8 write ok 010000f4\n\
    ap c read ok 00000000\ndp 4 read ok 00000001\ndp c write fault\ndp 8 write bad 00000010\n\
    dp 4 read ok 00000020\nap 8 write ok 00000007\nidle 8\nap 4 read none 7\njunk 1\njunk 0\n";

// A reset has its ones, the switch 16 bits, a word that moved 46, WAIT and FAULT 13, and no acknowledgement 12.
const PLACED: &[u8] =
    b"@0 reset 56\n@56 switch\n@72 reset 56\n@128 idle 2\n@130 dp 0 read ok 2ba01477\n\
    @176 dp 0 write ok 0000001e\n@222 dp 4 read ok 000000a0\n@268 dp 8 write ok 00000000\n\
    @314 dp 4 write ok 50000000\n@360 dp 4 read wait\n@373 dp 4 read ok f0000040\n\
    @419 ap 0 write ok 23000012\n@465 ap 4 write ok 20000000\n@511 ap c write ok deadbeef\n\
    @557 ap 0 read ok 23000052\n@603 dp c read bad 23000052\n@649 dp 8 read ok 23000052\n\
    @695 dp 8 write ok 010000f4\n@741 ap c read ok 00000000\n@787 dp 4 read ok 00000001\n\
    @833 dp c write fault\n@846 dp 8 write bad 00000010\n@892 dp 4 read ok 00000020\n\
    @938 ap 8 write ok 00000007\n@984 idle 8\n@992 ap 4 read none 7\n@1004 junk 1\n@1005 junk 0\n";

const NAMED: &[u8] = b"reset 56\nswitch\nreset 56\nidle 2\ndp dpidr read ok 2ba01477\n\
    dp abort write ok 0000001e stkcmpclr stkerrclr wderrclr orunerrclr\ndp 4 read ok 000000a0\n\
    dp select write ok 00000000\ndp ctrl/stat write ok 50000000 cdbgpwrupreq csyspwrupreq\n\
    dp ctrl/stat read wait\ndp ctrl/stat read ok f0000040 read_ok cdbgpwrupreq cdbgpwrupack \
    csyspwrupreq csyspwrupack\nap csw write ok 23000012\nap tar write ok 20000000\n\
    ap drw write ok deadbeef\nap csw read ok 23000052\ndp rdbuff read bad 23000052\n\
    dp resend read ok 23000052\ndp select write ok 010000f4\nap 1 bank f idr read ok 00000000\n\
    dp bank 4 eventstat read ok 00000001\ndp targetsel write fault\ndp select write bad 00000010\n\
    dp 4 read ok 00000020\nap 8 write ok 00000007\nidle 8\nap 4 read none 7\njunk 1\njunk 0\n";

const COUNTED: &[u8] = b"1 dp 0 read ok\n1 dp 0 write ok\n4 dp 4 read ok\n1 dp 4 read wait\n\
    1 dp 4 write ok\n1 dp 8 read ok\n2 dp 8 write ok\n1 dp 8 write bad\n1 dp c read bad\n\
    1 dp c write fault\n1 ap 0 read ok\n1 ap 0 write ok\n1 ap 4 read none\n1 ap 4 write ok\n\
    1 ap 8 write ok\n1 ap c read ok\n1 ap c write ok\n2 reset\n1 switch\n10 idle\n2 junk\n";

// The registers of the banks of access port 0.
const BANKS: &[u8] =
    b"dp 8 write ok 00000000\nap 8 read ok 00000000\ndp 8 write ok 00000010\nap 0 read ok 00000000\n\
    ap 4 read ok 00000000\nap 8 read ok 00000000\nap c read ok 00000000\n\
    dp 8 write ok 00000020\nap 0 read ok 00000000\nap 4 read ok 00000000\n\
    dp 8 write ok 000000f0\nap 0 read ok 00000000\nap 4 read ok 00000000\nap 8 read ok 00000000\n\
    dp 8 write ok ff000030\nap 8 read ok 00000000\n";

const BANKS_NAMED: &[u8] = b"dp select write ok 00000000\nap tar_high read ok 00000000\n\
    dp select write ok 00000010\nap bank 1 bd0 read ok 00000000\nap bank 1 bd1 read ok 00000000\n\
    ap bank 1 bd2 read ok 00000000\nap bank 1 bd3 read ok 00000000\ndp select write ok 00000020\n\
    ap bank 2 mbt read ok 00000000\nap bank 2 4 read ok 00000000\ndp select write ok 000000f0\n\
    ap bank f base_high read ok 00000000\nap bank f cfg read ok 00000000\n\
    ap bank f base read ok 00000000\ndp select write ok ff000030\nap 255 bank 3 8 read ok 00000000\n";

// Those of the debug port at address 4.
const DP_BANKS: &[u8] = b"dp 8 write ok 00000001\ndp 4 write ok 00000000\ndp 8 write ok 00000002\n\
    dp 4 read ok 00000000\ndp 8 write ok 00000003\ndp 4 read ok 00000000\n\
    dp 8 write ok 00000005\ndp 4 read ok 00000000\n";

const DP_BANKS_NAMED: &[u8] = b"dp select write ok 00000001\ndp bank 1 dlcr write ok 00000000\n\
    dp select write ok 00000002\ndp bank 2 targetid read ok 00000000\ndp select write ok 00000003\n\
    dp bank 3 dlpidr read ok 00000000\ndp select write ok 00000005\ndp bank 5 4 read ok 00000000\n";

// Each flag of each word, and words that have none of their own.
const FLAGS: &[u8] = b"dp 0 write ok ffffffff\ndp 8 write ok 00000000\ndp 4 read ok 0fffffff\n\
    dp 4 read ok f0000000\nap 0 write ok ffffffff\nap 0 write ok 7f7fff3f\nap 0 read ok ffffffff\n\
    dp 4 read bad ffffffff\ndp 8 write ok 00000010\nap 0 write ok ffffffff\n";

const FLAGS_NAMED: &[u8] =
    b"dp abort write ok ffffffff dapabort stkcmpclr stkerrclr wderrclr orunerrclr\n\
    dp select write ok 00000000\ndp ctrl/stat read ok 0fffffff orun_detect sticky_orun \
    sticky_cmp sticky_err read_ok wdata_err cdbgrstreq cdbgrstack\n\
    dp ctrl/stat read ok f0000000 cdbgpwrupreq cdbgpwrupack csyspwrupreq csyspwrupack\n\
    ap csw write ok ffffffff device_en tr_in_prog spiden dbg_sw_enable\nap csw write ok 7f7fff3f\n\
    ap csw read ok ffffffff\ndp ctrl/stat read bad ffffffff\ndp select write ok 00000010\n\
    ap bank 1 bd0 write ok ffffffff\n";

// What makes SELECT unknown, and what leaves it as it was.
const FORGOTTEN: &[u8] = b"dp 8 write ok 00000000\nidle 3\ndp 8 write wait\ndp 8 write fault\n\
    dp 8 read ok 00000010\nap 8 write ok 00000010\ndp 4 read ok 00000000\nreset 50\nidle 2\n\
    dp 4 read ok 00000000\n";

const FORGOTTEN_NAMED: &[u8] = b"dp select write ok 00000000\nidle 3\ndp select write wait\n\
    dp select write fault\ndp resend read ok 00000010\nap tar_high write ok 00000010\n\
    dp ctrl/stat read ok 00000000\nreset 50\nidle 2\ndp 4 read ok 00000000\n";

const CUT: &[u8] = b"idle 3\nap 0 write ok 00000001\ncut 100\n";

// A name, what is printed, a listing, and what is printed of its trace.
type Row<'a> = (&'a str, Printed, &'a [u8], &'a [u8]);

const ROWS: &[Row] = &[
    ("nothing, counted", Printed::Counts, b"", b""),
    ("nothing, placed", PLACES, b"", b""),
    ("a session, placed", PLACES, SESSION, PLACED),
    ("a session, named", NAMES, SESSION, NAMED),
    ("a session, counted", Printed::Counts, SESSION, COUNTED),
    ("the access port's banks", NAMES, BANKS, BANKS_NAMED),
    ("the debug port's banks", NAMES, DP_BANKS, DP_BANKS_NAMED),
    ("flags", NAMES, FLAGS, FLAGS_NAMED),
    ("SELECT is forgotten", NAMES, FORGOTTEN, FORGOTTEN_NAMED),
    (
        "places and names",
        BOTH,
        CUT,
        b"@0 idle 3\n@3 ap 0 write ok 00000001\n@49 cut 100\n",
    ),
    (
        "a cut end is counted by its bits",
        Printed::Counts,
        CUT,
        b"1 ap 0 write ok\n3 idle\n3 cut\n",
    ),
];

// What is printed of a row's trace, which a reader gives.
fn expect_printed<R: Abort, I: Read>(rt: &R, alloc: Global, row: &Row, reader: &mut I) {
    let (name, printed, _, wanted) = row;
    let mut out = Vec::new(alloc);
    let answer = print_capture(Reading::Trace, *printed, reader, &mut out);
    expect_eq_at(rt, name, &answer, &Ok(()));
    expect_eq_at(rt, name, &out.as_slice(), wanted);
}

#[test]
fn each_row(rt: HostRuntime) -> Result<(), Fail> {
    for row in ROWS {
        let trace = trace_of(rt.alloc(), row.2)?;
        expect_printed(&rt, rt.alloc(), row, &mut trace.as_slice());
        // A byte at a read.
        let mut bytes = OneByteReader::new(trace.as_slice());
        expect_printed(&rt, rt.alloc(), row, &mut bytes);
    }
    Ok(())
}

// A writer that fails, once at each byte, has taken exactly the bytes before it.
#[test]
fn each_write_that_fails(rt: HostRuntime) -> Result<(), Fail> {
    for (name, printed, listing, wanted) in ROWS {
        let trace = trace_of(rt.alloc(), listing)?;
        for room in 0..wanted.len() {
            let mut whole = trace.as_slice();
            let mut writer = ShortWriter::new(rt.alloc(), room, true);
            let answer = print_capture(Reading::Trace, *printed, &mut whole, &mut writer);
            let fault = DecodeFault::Write {
                written: room as u64,
            };
            expect_eq_at(&rt, name, &answer, &Err(fault));
            expect_eq_at(&rt, name, &writer.taken(), &&wanted[..room]);
        }
    }
    Ok(())
}

// A name, what is printed, a trace, the number of the read that fails, the answer, and what has been written.
type Stopped<'a> = (
    &'a str,
    Printed,
    &'a [u8],
    usize,
    Result<(), DecodeFault>,
    &'a [u8],
);

const BAD_SIXTH: Result<(), DecodeFault> = Err(DecodeFault::Text(TextFault::BadChar { place: 6 }));

const STOPS: &[Stopped] = &[
    (
        "a line is written once it is decided",
        PLACES,
        b"0001",
        4,
        Err(DecodeFault::Read),
        b"@0 idle 3\n",
    ),
    (
        "and not before",
        PLACES,
        b"0001",
        3,
        Err(DecodeFault::Read),
        b"",
    ),
    (
        "no counts where a read fails",
        Printed::Counts,
        b"0001",
        4,
        Err(DecodeFault::Read),
        b"",
    ),
    (
        "a bad character behind a comment",
        PLACES,
        b"001#x\n2",
        99,
        BAD_SIXTH,
        b"@0 idle 2\n",
    ),
    (
        "no counts where the trace is bad",
        Printed::Counts,
        b"001#x\n2",
        99,
        BAD_SIXTH,
        b"",
    ),
];

#[test]
fn each_stop(rt: HostRuntime) {
    for (name, printed, trace, fails_at, wanted, written) in STOPS {
        let mut reader = FailingReader::new(trace, *fails_at);
        let mut out = Vec::new(rt.alloc());
        let answer = print_capture(Reading::Trace, *printed, &mut reader, &mut out);
        expect_eq_at(&rt, name, &answer, wanted);
        expect_eq_at(&rt, name, &out.as_slice(), written);
    }
}
