//! A recorder over a simulated target, call by call.
use super::expect::expect_eq;
use std::test::Fail;
use swd_bits::Request;
use swd_clocked::ClockedBench;
use swd_port::{Due, Register, Wire};
use swd_simulated::{QUIRKS, RUN, Simulated, recorder_over, run_of, target_of};
use swd_target::{Bench, Mark, Memory};
use swd_trace::Item;

// The calls with their conditions looked at, so that a test may make any.
fn lead_with<W: Wire>(wire: &mut W, ones: u32, switch: bool, zeros: u32) {
    let inside = ones >= 100 && !switch;
    if (wire.due() == Due::Nothing || inside)
        && (ones == 0 && !switch || ones >= 50 && zeros >= 2)
    {
        wire.lead(ones, switch, zeros);
    }
}

fn lead<W: Wire>(wire: &mut W, ones: u32, zeros: u32) {
    lead_with(wire, ones, false, zeros);
}

fn ask<W: Wire>(wire: &mut W, request: Request) -> u8 {
    if wire.due() == Due::Nothing {
        wire.ask(request)
    } else {
        8
    }
}

fn take<W: Wire>(wire: &mut W) -> Option<u64> {
    if wire.due() == Due::Take {
        Some(wire.take())
    } else {
        None
    }
}

// Calls of `lead`, and how many cycles each drives.
const LEADS: &[(u32, bool, u32, u64)] = &[
    (0, false, 1, 1),
    (0, false, 8, 8),
    (50, false, 2, 52),
    (56, true, 2, 130),
    (56, false, 9, 65),
    (50, true, 7, 123),
    (100, false, 3, 103),
];

// A recorder drives what it keeps: the cycles are as many as on a bare wire.
#[test]
fn a_recorded_wire_has_the_cycles_of_a_bare_one(rt: HostRuntime) -> Result<(), Fail> {
    for (ones, switch, zeros, cycles) in LEADS {
        let mut bare = target_of::<ClockedBench<Memory>>(rt.alloc(), &RUN, QUIRKS)?;
        lead_with(&mut bare, *ones, *switch, *zeros);
        expect_eq(&rt, &bare.cycles(), cycles);
        let target = target_of::<ClockedBench<Memory>>(rt.alloc(), &RUN, QUIRKS)?;
        let mut wire = recorder_over(rt.alloc(), target)?;
        lead_with(&mut wire, *ones, *switch, *zeros);
        expect_eq(&rt, &wire.into_wire().cycles(), cycles);
    }
    Ok(())
}

// The same inside a transaction, where the recording is cut off: 58 cycles, the request with its
// acknowledgement, and then a line reset, a request, and its data phase.
#[test]
fn a_recorded_wire_goes_on_inside_a_transaction(rt: HostRuntime) -> Result<(), Fail> {
    let target = target_of::<ClockedBench<Memory>>(rt.alloc(), &RUN, QUIRKS)?;
    let mut wire = recorder_over(rt.alloc(), target)?;
    let request = Register::DpidrRead.request();
    lead(&mut wire, 56, 2);
    expect_eq(&rt, &ask(&mut wire, request), &1);
    lead(&mut wire, 101, 5);
    expect_eq(&rt, &ask(&mut wire, request), &1);
    assert!(rt; take(&mut wire).is_some());
    assert!(rt; wire.is_cut());
    expect_eq(&rt, &wire.into_wire().cycles(), &(58 + 12 + 106 + 46));
    Ok(())
}

const BETWEEN: &[Item] = &[Item::Idle(7), Item::Reset(50), Item::Idle(7)];

#[test]
fn zeros_after_zeros_are_one_item(rt: HostRuntime) -> Result<(), Fail> {
    let bench = target_of::<Bench<Memory>>(rt.alloc(), &RUN, QUIRKS)?;
    let mut wire = recorder_over(rt.alloc(), bench)?;
    lead(&mut wire, 0, 0);
    assert!(rt; wire.items().is_empty());
    lead(&mut wire, 0, 3);
    lead(&mut wire, 0, 4);
    lead(&mut wire, 50, 2);
    lead(&mut wire, 0, 5);
    expect_eq(&rt, &wire.items(), &BETWEEN);
    assert!(rt; !wire.is_cut());
    Ok(())
}

const RESET: &[Item] = &[Item::Reset(56), Item::Idle(2)];

// What the line carries in a line reset inside a transaction is no item. The run goes on as it would.
#[test]
fn a_line_reset_inside_a_transaction_cuts_the_items(rt: HostRuntime) -> Result<(), Fail> {
    let bench = target_of::<Bench<Memory>>(rt.alloc(), &RUN, QUIRKS)?;
    let mut wire = recorder_over(rt.alloc(), bench)?;
    let request = Register::DpidrRead.request();
    lead(&mut wire, 56, 2);
    expect_eq(&rt, &ask(&mut wire, request), &1);
    // A transaction is an item once it is whole.
    expect_eq(&rt, &wire.items(), &RESET);
    lead(&mut wire, 100, 2);
    assert!(rt; wire.is_cut());
    expect_eq(&rt, &wire.due(), &Due::Nothing);
    expect_eq(&rt, &ask(&mut wire, request), &1);
    assert!(rt; take(&mut wire).is_some());
    expect_eq(&rt, &wire.items(), &RESET);
    Ok(())
}

const LOST_AND_RESET: &[&str] = &[
    "reset 56",
    "idle 2",
    "dp 0 read none 7",
    "reset 100",
    "idle 2",
    "dp 0 read ok 2ba01477",
];

// After a lost acknowledgement a line reset goes on with the items, and the wire under them is handed back.
#[test]
fn items_go_on_after_a_lost_acknowledgement(rt: HostRuntime) -> Result<(), Fail> {
    let run = run_of(&[(1, Mark::Deaf)], &[]);
    let bench = target_of::<Bench<Memory>>(rt.alloc(), &run, QUIRKS)?;
    let mut wire = recorder_over(rt.alloc(), bench)?;
    let request = Register::DpidrRead.request();
    lead(&mut wire, 56, 2);
    expect_eq(&rt, &ask(&mut wire, request), &7);
    expect_eq(&rt, &wire.due(), &Due::Lost);
    lead(&mut wire, 100, 2);
    expect_eq(&rt, &ask(&mut wire, request), &1);
    assert!(rt; take(&mut wire).is_some());
    expect_eq(&rt, &wire.items().len(), &LOST_AND_RESET.len());
    for (item, wanted) in wire.items().iter().zip(LOST_AND_RESET.iter()) {
        assert!(rt; item.line().as_str() == *wanted, "{wanted}");
    }
    let bench = wire.into_wire();
    assert!(rt; Simulated::memory(&bench).log().is_empty());
    Ok(())
}
