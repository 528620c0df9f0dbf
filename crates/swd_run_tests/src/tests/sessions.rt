//! Scripts of several calls.
use super::expect::expect_eq;
use super::{reported, unwritten};
use swd_fakes::ShortWriter;

// A write, the same word read by a block, and the word told.
const CALLS: &[u8] = b"memory 20000000 16\nw 20000004 deadbeef\nnext\nblock 20000000 3\nnext\n\
    verify 20000004 deadbeef\nr 30000000\n";

const REPORTS: &[u8] = b"w 20000004 written\nend all 1\nr 20000000 00000000\nr 20000004 deadbeef\n\
    r 20000008 00000000\nend all 3\nr 20000004 deadbeef\nr 30000000 busfault\nend all 2\n";

// A writer that takes so many bytes, and then none, in whichever call's report.
#[test]
fn a_writer_that_fails_has_the_first_bytes_of_all_reports(rt: HostRuntime) {
    for fails in [false, true] {
        for room in 0..REPORTS.len() {
            let mut writer = ShortWriter::new(rt.alloc(), room, fails);
            let answer = reported(rt.alloc(), CALLS, b"", 0, &mut writer);
            expect_eq(&rt, &answer, &unwritten(room));
            expect_eq(&rt, &writer.taken(), &&REPORTS[..room]);
        }
    }
}
