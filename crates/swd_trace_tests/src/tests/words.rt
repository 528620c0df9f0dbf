//! What is said of acknowledgements and of faults of a transaction's text.
use super::expect::expect_eq_at;
use std::alloc::{AllocError, Global};
use std::fmt::Display;
use std::process::Abort;
use std::test::Fail;
use swd_bits::{Ack, OneFault};

// Each value is printed so.
fn are_printed<R: Abort, T: Display>(
    rt: &R,
    alloc: Global,
    rows: &[(T, &str)],
) -> Result<(), AllocError> {
    for (value, words) in rows {
        let printed = format!(in alloc; "{value}")?;
        expect_eq_at(rt, words, &printed.as_str(), &&words[..]);
    }
    Ok(())
}

const ACKNOWLEDGEMENTS: &[(Ack, &str)] = &[
    (Ack::Ok, "OK"),
    (Ack::Wait, "WAIT"),
    (Ack::Fault, "FAULT"),
];

const FAULTS: &[(OneFault, &str)] = &[
    (
        OneFault::BadChar {
            place: 18446744073709551615,
        },
        "trace byte 18446744073709551615: bad character",
    ),
    (OneFault::NotOne, "not one transaction"),
    (OneFault::Read, "read failed"),
    (OneFault::Write, "write failed"),
];

#[test]
fn acknowledgements_and_faults_have_their_words(rt: HostRuntime) -> Result<(), Fail> {
    are_printed(&rt, rt.alloc(), ACKNOWLEDGEMENTS)?;
    are_printed(&rt, rt.alloc(), FAULTS)?;
    Ok(())
}
