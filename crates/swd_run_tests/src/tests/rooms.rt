//! Scripts whose target has room for so many transfers.
use super::expect::expect_eq_at;
use super::{has_bus_fault, reported};
use swd_host::End;
use swd_run::{Finished, RunFault};

// Transfers without room are bus errors. A name, a script, a plan, how the run ends, the room where it is used up, and
// the report.
type Room<'a> = (&'a str, &'a [u8], &'a [u8], End, Option<u32>, &'a [u8]);

const ROOMS: &[Room] = &[
    (
        "no room",
        b"memory 20000000 2\nroom 0\nr 20000000\n",
        b"",
        End::All,
        Some(0),
        b"r 20000000 busfault\nend all 1\n",
    ),
    (
        "room for the first",
        b"memory 20000000 2\nroom 1\nw 20000000 1\nr 20000000\nw 20000008 1\n",
        b"",
        End::All,
        Some(1),
        b"w 20000000 written\nr 20000000 busfault\nw 20000008 busfault\nend all 3\n",
    ),
    (
        "room for all",
        b"memory 20000000 2\nroom 2\nw 20000000 1\nnext\nr 20000000\n",
        b"",
        End::All,
        Some(2),
        b"w 20000000 written\nend all 1\nr 20000000 00000001\nend all 1\n",
    ),
    (
        "room for one more",
        b"memory 20000000 2\nroom 3\nw 20000000 1\nr 20000000\nr 20000008\n",
        b"",
        End::All,
        None,
        b"w 20000000 written\nr 20000000 00000001\nr 20000008 busfault\nend all 3\n",
    ),
    // The opening is nine requests, and TAR, DRW and RDBUFF follow. The target doesn't see RDBUFF. A write takes effect
    // as soon as its data arrived, so it has used the room up, although nothing told the host so.
    (
        "room for a write that isn't confirmed",
        b"memory 20000000 2\nroom 1\nw 20000000 1\n",
        b".\n.\n.\n.\n.\n.\n.\n.\n.\n.\n.\ndeaf\n",
        End::Lost,
        Some(1),
        b"end lost 0 begun 1\n",
    ),
];

// A run that ended so, with the room that is used up.
fn ended_at(ended: End, full: Option<u32>, report: &[u8]) -> Result<Finished, RunFault> {
    Ok(Finished {
        ended,
        never_came: false,
        differs: None,
        bus_fault: has_bus_fault(report),
        full,
    })
}

#[test]
fn a_room_that_is_used_up_is_told(rt: HostRuntime) {
    for (name, script, plan, end, full, report) in ROOMS {
        let mut text = Vec::new(rt.alloc());
        let answer = reported(rt.alloc(), script, plan, 0, &mut text);
        expect_eq_at(&rt, name, &answer, &ended_at(*end, *full, report));
        expect_eq_at(&rt, name, &text.as_slice(), report);
    }
}
