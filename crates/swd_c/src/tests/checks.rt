//! The checker by the exports, over worked lists of items: those of the rows of `swd_checker_tests`, by the rules of
//! IHI 0031, B1 to B4 and MEM-AP, and of docs/PROTOCOL.md.
use super::expect::{expect_at, expect_eq_at};
use super::items::{NONE, counted, transaction};
use crate::{SwdItem, SwdVerdict, swd_check_new, swd_check_verdict, swd_check_watch};
use std::process::Abort;
use swd_checker::{CheckerFields, HeldFields, IntervalFields, WorldFields};

const NO_HELD: HeldFields = HeldFields {
    places: 0,
    word: 0,
    kind: 0,
};

const NO_WORLD: WorldFields = WorldFields {
    faults: 0,
    buffer: NO_HELD,
    last_returned: NO_HELD,
    tar: IntervalFields {
        first: 0,
        more: 0,
        known: 0,
    },
    reset: 0,
    sticky_error: 0,
    write_error: 0,
    read_ok: 0,
    debug: 0,
    system: 0,
    mem_ap: 0,
    bank0: 0,
    increments: 0,
    pending: 0,
    awaits: 0,
};

const ZEROS: CheckerFields = CheckerFields {
    worlds: [NO_WORLD; 64],
    identification: NO_HELD,
    began: 0,
    faults_before: 0,
    gaps: 0,
    broken: 0,
    crowded: 0,
    select: 0,
    count: 0,
    overfull: 0,
    opening: 0,
    clean: 0,
    has_began: 0,
    in_gap: 0,
    stray: 0,
    rule: 0,
    is_crowded: 0,
};

const NO_VERDICT: SwdVerdict = SwdVerdict {
    place: 0,
    began: 0,
    faults: 0,
    gaps: 0,
    kind: 0,
    rule: 0,
    has_began: 0,
};

// The requests.
const DPIDR: u8 = 0xa5;

const ABORT: u8 = 0x81;

const CTRL_STAT_READ: u8 = 0x8d;

const CTRL_STAT_WRITE: u8 = 0xa9;

const RESEND: u8 = 0x95;

const RDBUFF: u8 = 0xbd;

const CSW_READ: u8 = 0x87;

const CSW_WRITE: u8 = 0xa3;

const TAR_READ: u8 = 0xaf;

const TAR_WRITE: u8 = 0x8b;

const DRW_READ: u8 = 0x9f;

const DRW_WRITE: u8 = 0xbb;

const IDENTIFICATION: u32 = 0x2ba0_1477;

fn ok(request: u8, word: u32) -> SwdItem {
    transaction(request, 1, word, 1)
}

fn bad(request: u8, word: u32) -> SwdItem {
    transaction(request, 1, word, 0)
}

// WAIT, FAULT or no acknowledgement.
fn ends(request: u8, ack: u8) -> SwdItem {
    transaction(request, ack, 0, 0)
}

// How many bits an item has (IHI 0031, B4).
fn bits_in(item: &SwdItem) -> u64 {
    match (item.kind, item.ack) {
        (4, 1) => 46,
        (4, 2 | 4) => 13,
        (4, _) => 12,
        (2, _) => 16,
        (5, _) => 1,
        _ => item.count,
    }
}

// A trace to a checker, and the number of bits so far.
#[derive(Drop)]
struct Watched {
    check: CheckerFields,
    place: u64,
}

// Takes these items.
fn watch<R: Abort>(rt: &R, name: &str, watched: &mut Watched, items: &[SwdItem]) {
    for item in items {
        expect_at(
            rt,
            &name,
            swd_check_watch(&mut watched.check, item, watched.place),
        );
        watched.place = watched.place.saturating_add(bits_in(item));
    }
}

// Begins a trace with this start.
fn started<R: Abort>(rt: &R, name: &str, start: u8, clean: u8) -> Watched {
    let mut check = ZEROS;
    expect_at(rt, &name, swd_check_new(&mut check, start, clean));
    Watched { check, place: 0 }
}

// A session up to a write of CSW, 242 bits: a line reset, DPIDR, power, and AddrInc single.
fn up<R: Abort>(rt: &R, name: &str, clean: u8) -> Watched {
    let mut watched = started(rt, name, 1, clean);
    let items = [
        counted(1, 56),
        counted(3, 2),
        ok(DPIDR, IDENTIFICATION),
        ok(CTRL_STAT_WRITE, 0x5000_0000),
        ok(CTRL_STAT_READ, 0xf000_0000),
        ok(CSW_WRITE, 0x2300_0012),
    ];
    watch(rt, name, &mut watched, &items);
    watched
}

fn is_verdict<R: Abort>(rt: &R, name: &str, check: &CheckerFields, wanted: &SwdVerdict) {
    let mut verdict = NO_VERDICT;
    expect_at(rt, &name, swd_check_verdict(check, &mut verdict));
    expect_eq_at(rt, &name, &verdict, wanted);
}

fn fits<R: Abort>(rt: &R, name: &str, items: &[SwdItem], faults: u64) {
    let mut watched = up(rt, name, 0);
    watch(rt, name, &mut watched, items);
    let wanted = SwdVerdict {
        faults,
        kind: 1,
        has_began: 1,
        ..NO_VERDICT
    };
    is_verdict(rt, name, &watched.check, &wanted);
}

// The last item breaks the rule with this number.
fn breaks<R: Abort>(rt: &R, name: &str, clean: u8, items: &[SwdItem], place_and_rule: (u64, u8)) {
    let mut watched = up(rt, name, clean);
    watch(rt, name, &mut watched, items);
    let mut verdict = NO_VERDICT;
    expect_at(rt, &name, swd_check_verdict(&watched.check, &mut verdict));
    expect_eq_at(rt, &name, &verdict.kind, &2);
    expect_eq_at(rt, &name, &(verdict.place, verdict.rule), &place_and_rule);
    // nothing is watched behind it
    let before = watched.check;
    watch(rt, name, &mut watched, &[ok(DPIDR, 0)]);
    expect_eq_at(rt, &name, &watched.check, &before);
}

// The bytes of a checker in C.
const CHECK_BYTES: usize = std::mem::size_of::<CheckerFields>();

#[test]
fn a_checker_is_smaller_than_eight_kilobytes(rt: HostRuntime) {
    assert!(rt; CHECK_BYTES < 8192);
}

#[test]
fn what_the_model_allows_fits(rt: HostRuntime) {
    let waits = [
        ok(TAR_WRITE, 0x2000_0000),
        ends(DRW_WRITE, 2),
        ok(TAR_READ, 0),
        ok(RDBUFF, 0x2000_0000),
    ];
    fits(&rt, "at WAIT nothing is done", &waits, 0);
    let damaged = [
        ok(TAR_WRITE, 0x2000_0000),
        ends(RDBUFF, 4),
        ok(CTRL_STAT_READ, 0xf000_0080),
    ];
    fits(&rt, "a write may arrive damaged", &damaged, 1);
    let lost = [
        ok(TAR_WRITE, 0x2000_0000),
        ends(DRW_READ, 0),
        counted(1, 100),
        counted(3, 2),
        ok(DPIDR, IDENTIFICATION),
        ok(TAR_READ, 0),
        ok(RDBUFF, 0x2000_0004),
    ];
    fits(&rt, "a lost read may have been done", &lost, 1);
    let resent = [
        ok(CSW_READ, 0),
        bad(RDBUFF, 0x2300_0053),
        ok(RESEND, 0x2300_0052),
    ];
    fits(&rt, "a damaged read is returned again", &resent, 1);
}

#[test]
fn an_answer_that_no_run_gives_breaks_a_rule(rt: HostRuntime) {
    let silence = [
        counted(1, 50),
        counted(3, 2),
        ok(CTRL_STAT_READ, 0xf000_0000),
    ];
    breaks(&rt, "silence", 0, &silence, (294, 1));
    breaks(&rt, "acknowledgement", 1, &[ends(RDBUFF, 7)], (242, 2));
    breaks(&rt, "WAIT", 0, &[ends(CTRL_STAT_READ, 2)], (242, 3));
    breaks(&rt, "FAULT of ABORT", 0, &[ends(ABORT, 4)], (242, 3));
    let flags = [ok(RDBUFF, 0), ends(RDBUFF, 4)];
    breaks(&rt, "flags", 0, &flags, (288, 4));
    breaks(
        &rt,
        "flags of a clean wire",
        1,
        &[ends(RDBUFF, 4)],
        (242, 4),
    );
    let power = [
        ok(CTRL_STAT_WRITE, 0),
        ok(CTRL_STAT_READ, 0),
        ok(TAR_READ, 0),
    ];
    breaks(&rt, "power", 0, &power, (334, 5));
    let first = [ends(RDBUFF, 4), ends(RDBUFF, 2)];
    breaks(&rt, "FAULT first", 0, &first, (255, 6));
}

#[test]
fn a_word_that_no_run_gives_breaks_a_rule(rt: HostRuntime) {
    let posted = [ok(CSW_READ, 0), ok(RDBUFF, 0x2300_0050)];
    breaks(&rt, "posted", 0, &posted, (288, 7));
    let moved = [
        ok(TAR_WRITE, 0x2000_0000),
        ok(DRW_READ, 0),
        ok(TAR_READ, 1),
        ok(RDBUFF, 0x2000_0008),
    ];
    breaks(&rt, "posted TAR", 0, &moved, (380, 7));
    let resent = [
        ok(CSW_READ, 0),
        ok(RDBUFF, 0x2300_0052),
        ok(RESEND, 0x2300_0053),
    ];
    breaks(&rt, "resent", 0, &resent, (334, 8));
    let status = [ok(CTRL_STAT_READ, 0xb000_0000)];
    breaks(&rt, "status", 0, &status, (242, 9));
    breaks(
        &rt,
        "identification",
        0,
        &[ok(DPIDR, 0x2ba0_1476)],
        (242, 10),
    );
    breaks(&rt, "parity", 1, &[bad(RDBUFF, 0)], (242, 11));
}

// 242 bits, 46 of TAR, and 92 of each transfer that may be done or not.
#[test]
fn a_read_of_seventy_addresses_is_crowded(rt: HostRuntime) {
    let name = "crowded";
    let mut watched = up(&rt, name, 0);
    watch(&rt, name, &mut watched, &[ok(TAR_WRITE, 0x2000_0000)]);
    for _ in 0..69u8 {
        watch(&rt, name, &mut watched, &[ok(DRW_WRITE, 1), ok(ABORT, 8)]);
    }
    watch(&rt, name, &mut watched, &[ok(TAR_READ, 0)]);
    let wanted = SwdVerdict {
        place: 6636,
        kind: 3,
        has_began: 1,
        ..NO_VERDICT
    };
    is_verdict(&rt, name, &watched.check, &wanted);
}

#[test]
fn a_check_begins_where_its_start_says(rt: HostRuntime) {
    for (name, start, has_began, began) in &[
        ("made", 1, 1, 0),
        ("at rest", 2, 1, 98),
        ("any", 3, 0, 0),
    ] {
        let mut watched = started(&rt, name, *start, 0);
        let items = [
            counted(1, 50),
            counted(3, 2),
            ok(DPIDR, IDENTIFICATION),
            ok(CTRL_STAT_READ, 0),
        ];
        watch(&rt, name, &mut watched, &items);
        let wanted = SwdVerdict {
            began: *began,
            kind: 1,
            has_began: *has_began,
            ..NO_VERDICT
        };
        is_verdict(&rt, name, &watched.check, &wanted);
    }
}

#[test]
fn stray_bits_are_a_gap(rt: HostRuntime) {
    let name = "gap";
    let mut watched = up(&rt, name, 0);
    watch(&rt, name, &mut watched, &[counted(5, 0)]);
    let mut switch = NONE;
    switch.kind = 2;
    let mut cut = counted(6, 3);
    cut.bits = 5;
    watch(&rt, name, &mut watched, &[counted(1, 50), switch, cut]);
    let wanted = SwdVerdict {
        gaps: 1,
        kind: 1,
        has_began: 1,
        ..NO_VERDICT
    };
    is_verdict(&rt, name, &watched.check, &wanted);
}

fn is_refused<R: Abort>(rt: &R, name: &str, fields: CheckerFields) {
    let mut check = fields;
    let mut verdict = NO_VERDICT;
    expect_at(rt, &name, !swd_check_watch(&mut check, &counted(3, 1), 0));
    expect_at(rt, &name, !swd_check_verdict(&check, &mut verdict));
    expect_eq_at(rt, &name, &check, &fields);
    expect_eq_at(rt, &name, &verdict, &NO_VERDICT);
}

// Each of these fields in turn is invalid.
#[test]
fn fields_of_no_checker_are_refused(rt: HostRuntime) {
    let mut check = ZEROS;
    for start in [0, 4, 255] {
        expect_at(&rt, &start, !swd_check_new(&mut check, start, 0));
    }
    is_refused(&rt, "zeros", check);
    let name = "a checker";
    let made = started(&rt, name, 1, 0).check;
    is_refused(&rt, "a world more", CheckerFields { count: 2, ..made });
    is_refused(&rt, "no world", CheckerFields { count: 0, ..made });
    is_refused(&rt, "65 worlds", CheckerFields { count: 65, ..made });
    is_refused(&rt, "an opening", CheckerFields { opening: 5, ..made });
    is_refused(&rt, "a word of SELECT", CheckerFields { select: 1, ..made });
    is_refused(&rt, "a rule", CheckerFields { rule: 12, ..made });
    is_refused(&rt, "a place", CheckerFields { broken: 1, ..made });
    is_refused(&rt, "a flag", CheckerFields { clean: 2, ..made });
    let mut other = made;
    other.worlds[0].reset = 4;
    is_refused(&rt, "a world's reset", other);
    let mut other = made;
    other.worlds[63].faults = 1;
    is_refused(&rt, "an unused world", other);
    let mut other = made;
    other.identification.kind = 2;
    is_refused(&rt, "an identification", other);
}

fn is_no_item<R: Abort>(rt: &R, name: &str, item: SwdItem) {
    let mut check = started(rt, name, 1, 0).check;
    let before = check;
    expect_at(rt, &name, !swd_check_watch(&mut check, &item, 0));
    expect_eq_at(rt, &name, &check, &before);
    expect_eq_at(rt, &name, &item.item(), &None);
}

#[test]
fn fields_of_no_item_are_refused(rt: HostRuntime) {
    is_no_item(&rt, "kind 0", NONE);
    is_no_item(&rt, "kind 7", counted(7, 1));
    is_no_item(&rt, "a count of a switch", counted(2, 1));
    is_no_item(&rt, "a request with wrong parity", ends(0x85, 2));
    is_no_item(&rt, "four bits", ends(DPIDR, 8));
    is_no_item(&rt, "a word at WAIT", transaction(DPIDR, 2, 1, 0));
    is_no_item(&rt, "a parity of 2", transaction(DPIDR, 1, 1, 2));
    is_no_item(&rt, "fifty bits", counted(6, 50));
    let mut long = counted(6, 3);
    long.bits = 8;
    is_no_item(&rt, "a bit behind the bits", long);
    let mut two = NONE;
    two.kind = 5;
    two.bits = 2;
    is_no_item(&rt, "a bit of 2", two);
    let mut worded = counted(1, 50);
    worded.word = 1;
    is_no_item(&rt, "a word of a line reset", worded);
}
