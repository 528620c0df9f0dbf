//! What is said of ends and refusals.
use super::expect::expect_eq_at;
use std::alloc::{AllocError, Global};
use std::fmt::Display;
use std::process::Abort;
use std::test::Fail;
use swd_host::{End, Refused};

// Each value is printed so.
fn are_printed<R: Abort, T: Display>(
    rt: &R,
    alloc: Global,
    rows: &[(T, &str)],
) -> Result<(), AllocError> {
    for (value, words) in rows {
        let printed = format!(in alloc; "{value}")?;
        expect_eq_at(rt, words, &printed.as_str(), &&words[..]);
    }
    Ok(())
}

// Ends have the words of a report.
const ENDS: &[(End, &str)] = &[
    (End::All, "all"),
    (End::Lost, "lost"),
    (End::TriesOut, "tries"),
    (End::WrongId(0x0ba0_1476), "id 0ba01476"),
    (End::Confused, "confused"),
];

const REFUSALS: &[(Refused, &str)] = &[
    (Refused::Memory, "out of memory for the answers"),
    (
        Refused::Unaligned { index: 65_535 },
        "the address of access 65535 is no multiple of 4",
    ),
    (Refused::TooMany, "more than 65536 accesses"),
];

#[test]
fn ends_and_refusals_have_their_words(rt: HostRuntime) -> Result<(), Fail> {
    are_printed(&rt, rt.alloc(), ENDS)?;
    are_printed(&rt, rt.alloc(), REFUSALS)?;
    Ok(())
}
