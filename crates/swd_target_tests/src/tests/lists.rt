//! All short lists of bits.
use super::expect::expect_eq;
use std::alloc::Global;
use std::test::Fail;
use swd_clocked::Clocked;
use swd_target::{Memory, Quirks};

// How many of the lists of twelve bits, after so many ones, don't stand on the line as they are
// driven, since the target drives.
fn answered(alloc: Global, ones: u32, quirks: Quirks) -> Result<u32, Fail> {
    let mut count = 0u32;
    for list in 0..4096u16 {
        let mut target = Clocked::new(Memory::new(alloc, 0, 1, 0)?, quirks);
        for _ in 0..ones {
            let _ = target.cycle(Some(true));
        }
        if is_answered(&mut target, list) {
            count = count.saturating_add(1);
        }
    }
    Ok(count)
}

fn is_answered(target: &mut Clocked<Memory>, list: u16) -> bool {
    let mut answered = false;
    for place in 0..12u16 {
        let bit = list >> place & 1 == 1;
        if target.cycle(Some(bit)) != bit {
            answered = true;
        }
    }
    answered
}

// Without a line reset nothing is answered. After one, DPIDR's request is, once a zero has ended the
// ones. In the lists that begin with this zero the request is followed by a turnaround and two bits
// of OK: six of these eight differ there. Where another one or another zero stands before it, one bit
// of OK is left: two of four differ, each. After forty-nine ones that other one makes the reset.
#[test]
fn each_list_of_twelve_bits_is_taken(rt: HostRuntime) -> Result<(), Fail> {
    let quirks = Quirks {
        wrap: true,
        late: false,
        filler: 0,
        idr: None,
    };
    expect_eq(&rt, &answered(rt.alloc(), 37, quirks)?, &0);
    expect_eq(&rt, &answered(rt.alloc(), 0, quirks)?, &0);
    expect_eq(&rt, &answered(rt.alloc(), 49, quirks)?, &2);
    expect_eq(&rt, &answered(rt.alloc(), 50, quirks)?, &10);
    Ok(())
}
