//! What is said where overrun detection may be on. Each other verdict is text (transcripts/).
use std::alloc::Global;
use std::test::Fail;
use swd_capture_text::Reading;
use swd_check::{Check, CheckOptions, Checked, PlainMemory, check_text};
use swd_checker::CheckStart;
use swd_text::encode_text;

const MADE: CheckOptions = CheckOptions {
    start: CheckStart::Made,
    clean: false,
    exact_registers: false,
    overrun: false,
};

const OVERRUN: CheckOptions = CheckOptions {
    overrun: true,
    ..MADE
};

// What is said of a listing; `untold`: of a way that doesn't tell the bits of a damaged word.
fn checked(
    alloc: Global,
    options: CheckOptions,
    untold: bool,
    listing: &[u8],
) -> Result<Checked, Fail> {
    let mut listing = listing;
    let mut trace = Vec::new(alloc);
    if encode_text(alloc, &mut listing, &mut trace).is_err() {
        return Err(Fail::from("no normal listing"));
    }
    let check = Check::new(options, PlainMemory::new(alloc)).with_untold(untold);
    let mut text = trace.as_slice();
    match check_text(Reading::Trace, check, &mut text) {
        Ok(checked) => Ok(checked),
        Err(_) => Err(Fail::from("no trace")),
    }
}

const AT_FIRST: &[(CheckOptions, &str)] = &[
    (OVERRUN, "outside @104: overrun detection may have acted"),
    (MADE, "fits 4"),
];

// Overrun detection may be on before the first item.
#[test]
fn overrun_detection_is_on_at_first(rt: HostRuntime) -> Result<(), Fail> {
    let listing = b"reset 56\nidle 2\ndp 0 read ok 2ba01477\ndp c read wait\n".as_slice();
    for (options, said) in AT_FIRST {
        let line = checked(rt.alloc(), *options, false, listing)?.line();
        assert_eq!(rt; line.as_str(), *said);
    }
    Ok(())
}

const DAMAGED: &[(bool, &str)] = &[(true, "outside @104"), (false, "breaks @104")];

// A word of zeros with wrong parity is none that DPIDR has become by one bit.
#[test]
fn bits_that_are_not_told_decide_nothing(rt: HostRuntime) -> Result<(), Fail> {
    let listing = b"reset 56\nidle 2\ndp 0 read ok 2ba01477\ndp 0 read bad 00000000\n".as_slice();
    for (untold, said) in DAMAGED {
        let line = checked(rt.alloc(), MADE, *untold, listing)?.line();
        assert!(rt; line.as_str().starts_with(said));
    }
    Ok(())
}

const FIRST: &[(CheckOptions, &[u8], bool)] = &[
    (
        MADE,
        b"reset 56\nidle 2\ndp 0 read ok 2ba01477\ndp 0 read ok 00000001\n",
        true,
    ),
    (
        OVERRUN,
        b"reset 56\nidle 2\ndp 0 read ok 2ba01477\ndp c read wait\nreset 56\nidle 2\ndp 0 read ok 00000001\n",
        false,
    ),
];

// The item that breaks a rule is the first where all before it was decided.
#[test]
fn a_break_behind_an_undecided_item_is_not_the_first(rt: HostRuntime) -> Result<(), Fail> {
    for (options, listing, is_first) in FIRST {
        let Checked::Breaks(broken) = checked(rt.alloc(), *options, false, listing)? else {
            return Err(Fail::from("no rule is broken"));
        };
        assert_eq!(rt; broken.is_first, *is_first);
    }
    Ok(())
}
