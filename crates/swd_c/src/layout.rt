//! The layout of the structs, for checks of a C header.
ghost use Rattle.std.specs.Prelude.{◌≡◌, ◌<◌, ◌^◌, replicate};
ghost use Rattle.swd_c.specs.Layouts.{CStructIsNumbered, c_access_layout, c_content_layout, c_cue_layout};
ghost use Rattle.swd_c.specs.Layouts.{c_decoder_layout, c_engine_layout, c_frame_layout, c_item_layout, c_whole_layout};
ghost use Rattle.swd_c.specs.Layouts.{c_struct_repeated_byte, c_run_layout, c_target_layout, c_transfer_layout};
ghost use Rattle.swd_c.specs.Layouts.{c_check_layout, c_checker_layout, c_held_layout, c_verdict_layout};
ghost use Rattle.swd_c.specs.Layouts.{c_planned_layout, c_world_layout};

use crate::access::SwdAccess;
use crate::check::SwdVerdict;
use crate::cue::SwdCue;
use crate::item::SwdItem;
use crate::plan::SwdPlanned;
use crate::target::SwdTransfer;
use std::mem::size_of;
use swd_checker::{CheckerFields, HeldFields, IntervalFields, WorldFields};
use swd_clocked::{ClockedFields, FrameFields, LineFields};
use swd_host::{EngineFields, JobFields, OutcomeFields, StateFields, TarFields, TaskFields};
use swd_steps::RunFields;
use swd_target::{ContentFields, PendingFields, TargetFields};
use swd_trace::DecoderFields;

/// The structs that C programs use, and their sizes in bytes.
#[repr(C)]
#[derive(Clone, Copy, Debug, PartialEq, Eq)]
pub struct SwdLayout {
    pub engine: EngineFields,
    pub cue: SwdCue,
    pub access: SwdAccess,
    pub decoder: DecoderFields,
    pub item: SwdItem,
    pub target: ClockedFields,
    pub transfer: SwdTransfer,
    pub engine_size: u64,
    pub cue_size: u64,
    pub access_size: u64,
    pub decoder_size: u64,
    pub item_size: u64,
    pub target_size: u64,
    pub transfer_size: u64,
    pub layout_size: u64,
}

// Returns a word whose four bytes are this number.
const fn word(number: u32) -> u32
    requires { number < 2 ^ 8 }
    ensures { result ≡ c_struct_repeated_byte 4 number }
{
    number * 0x0101_0101
}

const fn double(number: u64) -> u64
    requires { number < 2 ^ 8 }
    ensures { result ≡ c_struct_repeated_byte 8 number }
{
    number * 0x0101_0101_0101_0101
}

fn engine_numbered() -> EngineFields
    ensures { CStructIsNumbered 1 (c_engine_layout result) }
{
    EngineFields {
        requests: double(1),
        state: StateFields {
            outcome: OutcomeFields {
                word: word(2),
                kind: 3,
            },
            job: JobFields {
                kind: 4,
                place: 5,
                error: 6,
                damaged: 7,
            },
            kind: 8,
            phase: 9,
        },
        task: TaskFields {
            addr: word(10),
            word: word(11),
            kind: 12,
        },
        tar: TarFields {
            word: word(13),
            known: 14,
        },
        tries: word(15),
        events: word(16),
        aims: 17,
        bursts: 18,
        ahead: 19,
        begun: 20,
        stray: 21,
    }
}

fn cue_numbered() -> SwdCue
    ensures { CStructIsNumbered 22 (c_cue_layout result) }
{
    SwdCue {
        bits: double(22),
        ones: word(23),
        zeros: word(24),
        undriven: word(25),
        outcome: OutcomeFields {
            word: word(26),
            kind: 27,
        },
        kind: 28,
        request: 29,
        with_switch: 30,
        begun: 31,
    }
}

fn access_numbered() -> SwdAccess
    ensures { CStructIsNumbered 32 (c_access_layout result) }
{
    SwdAccess {
        addr: word(32),
        word: word(33),
        write: 34,
    }
}

fn decoder_numbered() -> DecoderFields
    ensures { CStructIsNumbered 35 (c_decoder_layout result) }
{
    DecoderFields {
        fed: double(35),
        run: double(36),
        bits: double(37),
        mode: 38,
        one: 39,
        len: 40,
    }
}

fn item_numbered() -> SwdItem
    ensures { CStructIsNumbered 41 (c_item_layout result) }
{
    SwdItem {
        count: double(41),
        bits: double(42),
        word: word(43),
        kind: 44,
        request: 45,
        ack: 46,
        parity_ok: 47,
    }
}

fn content_numbered(first: u32) -> ContentFields
    requires { first < 2 ^ 7 }
    ensures { CStructIsNumbered first (c_content_layout result) }
{
    ContentFields {
        word: word(first),
        known: (first + 1) as u8,
    }
}

fn frame_numbered() -> FrameFields
    ensures { CStructIsNumbered 49 (c_frame_layout result) }
{
    FrameFields {
        line: LineFields {
            bits: double(49),
            kind: 50,
            register: 51,
            flips: 52,
            flip: 53,
        },
        kind: 54,
        place: 55,
        byte: 56,
        reply: 57,
    }
}

fn target_numbered() -> ClockedFields
    ensures { CStructIsNumbered 48 (c_target_layout result) }
{
    ClockedFields {
        cycles: double(48),
        frame: frame_numbered(),
        target: TargetFields {
            tar: content_numbered(58),
            buffer: content_numbered(60),
            last_returned: content_numbered(62),
            pending: PendingFields {
                word: word(64),
                kind: 65,
            },
            filler: word(66),
            wrap: 67,
            late: 68,
            reset: 69,
            sticky_error: 70,
            write_error: 71,
            read_ok: 72,
            debug_power: 73,
            system_power: 74,
            power_up: 75,
            apsel: 76,
            apbanksel: 77,
            dpbanksel: 78,
            increments: 79,
            csw_upper: 80,
        },
        waits: 81,
    }
}

fn transfer_numbered() -> SwdTransfer
    ensures { CStructIsNumbered 82 (c_transfer_layout result) }
{
    SwdTransfer {
        addr: word(82),
        word: word(83),
        kind: 84,
    }
}

/// Writes a number of its own to each field, the same to all of its bytes: 1, 2 and so on in the order of the fields.
/// So a header can be checked, and a field's place and size can be found. Also writes the sizes.
#[unsafe(no_mangle)]
pub extern "C" fn swd_layout(layout: &mut SwdLayout)
    ensures { CStructIsNumbered 1 (c_whole_layout layout.new) }
{
    *layout = SwdLayout {
        engine: engine_numbered(),
        cue: cue_numbered(),
        access: access_numbered(),
        decoder: decoder_numbered(),
        item: item_numbered(),
        target: target_numbered(),
        transfer: transfer_numbered(),
        engine_size: size_of::<EngineFields>() as u64,
        cue_size: size_of::<SwdCue>() as u64,
        access_size: size_of::<SwdAccess>() as u64,
        decoder_size: size_of::<DecoderFields>() as u64,
        item_size: size_of::<SwdItem>() as u64,
        target_size: size_of::<ClockedFields>() as u64,
        transfer_size: size_of::<SwdTransfer>() as u64,
        layout_size: size_of::<SwdLayout>() as u64,
    };
}

/// The struct of a run, and its size in bytes.
#[repr(C)]
#[derive(Clone, Copy, Debug, PartialEq, Eq)]
pub struct SwdRunLayout {
    pub run: RunFields,
    pub run_size: u64,
    pub layout_size: u64,
}

/// Writes a number of its own to each field of a run's struct, the same to all of its bytes: 1 to 21 to those of its
/// engine, and from 22 on to the others, in their order. Also writes the sizes.
#[unsafe(no_mangle)]
pub extern "C" fn swd_run_layout(layout: &mut SwdRunLayout)
    ensures { CStructIsNumbered 1 (c_run_layout layout.new.run) }
{
    *layout = SwdRunLayout {
        run: RunFields {
            requests: double(22),
            engine: engine_numbered(),
            end: OutcomeFields {
                word: word(23),
                kind: 24,
            },
            answered: word(25),
            begun: 26,
            stage: 27,
        },
        run_size: size_of::<RunFields>() as u64,
        layout_size: size_of::<SwdRunLayout>() as u64,
    };
}

/// The struct of a transaction of a plan, and its size in bytes.
#[repr(C)]
#[derive(Clone, Copy, Debug, PartialEq, Eq)]
pub struct SwdPlanLayout {
    pub planned: SwdPlanned,
    pub planned_size: u64,
    pub layout_size: u64,
}

/// Writes a number of its own to each field of a transaction of a plan, the same to all of its bytes: 1 and 2. Also
/// writes the sizes.
#[unsafe(no_mangle)]
pub extern "C" fn swd_plan_layout(layout: &mut SwdPlanLayout)
    ensures { CStructIsNumbered 1 (c_planned_layout layout.new.planned) }
{
    *layout = SwdPlanLayout {
        planned: SwdPlanned {
            word: word(1),
            request: 2,
        },
        planned_size: size_of::<SwdPlanned>() as u64,
        layout_size: size_of::<SwdPlanLayout>() as u64,
    };
}

fn held_numbered(first: u32) -> HeldFields
    requires { first < 2 ^ 7 }
    ensures { CStructIsNumbered first (c_held_layout result) }
{
    HeldFields {
        places: double(u64::from(first)),
        word: word(first + 1),
        kind: (first + 2) as u8,
    }
}

fn world_numbered() -> WorldFields
    ensures { CStructIsNumbered 1 (c_world_layout result) }
{
    WorldFields {
        faults: double(1),
        buffer: held_numbered(2),
        last_returned: held_numbered(5),
        tar: IntervalFields {
            first: word(8),
            more: 9,
            known: 10,
        },
        reset: 11,
        sticky_error: 12,
        write_error: 13,
        read_ok: 14,
        debug: 15,
        system: 16,
        mem_ap: 17,
        bank0: 18,
        increments: 19,
        pending: 20,
        awaits: 21,
    }
}

// The worlds are this one.
fn check_numbered(world: WorldFields) -> CheckerFields
    ensures numbered { CStructIsNumbered 22 (c_checker_layout result) }
    ensures worlds { result.worlds ≡ replicate 64 world }
{
    CheckerFields {
        worlds: [world; 64],
        identification: held_numbered(22),
        began: double(25),
        faults_before: double(26),
        gaps: double(27),
        broken: double(28),
        crowded: double(29),
        select: word(30),
        count: 31,
        overfull: 32,
        opening: 33,
        clean: 34,
        has_began: 35,
        in_gap: 36,
        stray: 37,
        rule: 38,
        is_crowded: 39,
    }
}

fn verdict_numbered() -> SwdVerdict
    ensures { CStructIsNumbered 40 (c_verdict_layout result) }
{
    SwdVerdict {
        place: double(40),
        began: double(41),
        faults: double(42),
        gaps: double(43),
        kind: 44,
        rule: 45,
        has_began: 46,
    }
}

/// A world, the struct of a checker, the verdict, and their sizes in bytes.
#[repr(C)]
#[derive(Clone, Copy, Debug, PartialEq, Eq)]
pub struct SwdCheckLayout {
    pub world: WorldFields,
    pub check: CheckerFields,
    pub verdict: SwdVerdict,
    pub world_size: u64,
    pub check_size: u64,
    pub verdict_size: u64,
    pub layout_size: u64,
}

/// Writes a number of its own to each field of a world, of a checker and of a verdict, the same to all of its bytes: 1,
/// 2 and so on in the order of the fields. Each world of the checker is that world. Also writes the sizes.
#[unsafe(no_mangle)]
pub extern "C" fn swd_check_layout(layout: &mut SwdCheckLayout)
    ensures numbered { CStructIsNumbered 1 (c_check_layout layout.new) }
    ensures worlds { layout.new.check.worlds ≡ replicate 64 layout.new.world }
{
    let world = world_numbered();
    *layout = SwdCheckLayout {
        world,
        check: check_numbered(world),
        verdict: verdict_numbered(),
        world_size: size_of::<WorldFields>() as u64,
        check_size: size_of::<CheckerFields>() as u64,
        verdict_size: size_of::<SwdVerdict>() as u64,
        layout_size: size_of::<SwdCheckLayout>() as u64,
    };
}

/// Returns the version of the library: major, minor and patch in a byte each, 0x000100 for 0.1.0.
#[unsafe(no_mangle)]
pub extern "C" fn swd_version() -> u32
    ensures { result ≡ 0x0000_0100 }
{
    0x0000_0100
}
