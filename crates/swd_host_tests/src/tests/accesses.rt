//! What a run leaves in a memory.
use super::expect::expect_eq;
use std::test::Fail;
use swd_port::Access;
use swd_simulated::{BASE, QUIRKS, RUN, Run, Simulated as _, report_of, target_of};
use swd_target::{Bench, Memory, Quirks};

// Two words, on both sides of a kilobyte's end.
const KILOBYTE: Run = Run {
    accesses: &[
        Access::Write(0x2000_03fc, 0x1111_1111),
        Access::Write(0x2000_0400, 0x2222_2222),
    ],
    words: 512,
    ..RUN
};

const WORDS: &[(u32, Option<u32>)] = &[
    (0x2000_03fc, Some(0x1111_1111)),
    (0x2000_0400, Some(0x2222_2222)),
    (BASE, Some(0)),
];

#[test]
fn words_on_both_sides_of_a_kilobyte_stand_where_they_were_written(
    rt: HostRuntime,
) -> Result<(), Fail> {
    for wrap in [true, false] {
        let quirks = Quirks { wrap, ..QUIRKS };
        let mut bench = target_of::<Bench<Memory>>(rt.alloc(), &KILOBYTE, quirks)?;
        let _ = report_of(rt.alloc(), &mut bench, &KILOBYTE)?;
        for (addr, word) in WORDS {
            expect_eq(&rt, &bench.memory().word(*addr), word);
        }
    }
    Ok(())
}
