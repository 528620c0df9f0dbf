//! Registers by worked words, a wire with nothing at its other end, wires to the outside, and how accesses, marks and
//! answers are written.
ghost use Rattle.std.specs.Prelude.{◌≡◌, ◌==◌, [], if◌then◌else◌};
ghost use Rattle.std.specs.FinMap.{empty};
ghost use Rattle.swd_port.specs.declared.state.AfterAck.TheVariants.{Idle};
ghost use Rattle.swd_port.specs.declared.state.Reset.TheVariants.{Fresh};
ghost use Rattle.swd_port.specs.declared.wire.Due.TheVariants.{Nothing};
ghost use Rattle.swd_port.specs.PlainBus.{bus_of};
ghost use Rattle.swd_port.specs.Made.{port_made_target, port_made};

mod expect;

use bitflags::Flags;
use expect::{expect_at, expect_eq, expect_eq_at};
use std::alloc::{AllocError, Global};
use std::fmt::Display;
use std::test::Fail;
use swd_bits::word_of;
use swd_port::{
    Abort, Access, Answer, Count, Csw, CtrlStat, Cue, Disconnected, Due, Mark, Register, Reset,
    Select, Story, Transport, TransportWire, Wire,
};

// A wire with nothing at its other end, where every bit reads 1. It keeps the law: no request is
// seen.
#[derive(Drop)]
struct OpenWire {
    due: Due,
    reset: Reset,
    asked: Count,
}

impl Wire for OpenWire {
    ghost port = { λ wire. record {
      link = record { due = wire.due; line = Idle };
      target = record (port_made_target 0 (bus_of (record { words = empty; log = []; room = 0 })))
          { reset = wire.reset };
      tally = record { asked = wire.asked.ticks; disturbed = 0; lost = wire.asked.ticks };
    } };

    fn due(&self) -> Due {
        self.due
    }

    fn step(&mut self, cue: Cue) -> u64 {
        self.due = Due::Nothing;
        match cue {
            Cue::Lead { ones, .. } => {
                self.reset = reset_after(ones, self.reset);
                0
            }
            Cue::Ask(_) => {
                self.asked.tick();
                self.due = Due::Lost;
                7
            }
            Cue::Take => 0x1_ffff_ffff,
            Cue::Give(_) | Cue::Pass => 0,
        }
    }
}

// Ones are a line reset.
fn reset_after(ones: u32, reset: Reset) -> Reset
    ensures { result ≡ (if ones == 0 then reset else Fresh) }
{
    if ones == 0 { reset } else { Reset::Fresh }
}

// What DPIDR reads after a line reset. `None` where the target doesn't answer, or its data is
// damaged. The example of `Wire`.
fn identification<W: Wire>(wire: &mut W) -> Option<u32>
    requires { (W.port wire.old).link.due ≡ Nothing }
{
    wire.lead(56, false, 8);
    match wire.ask(Register::DpidrRead.request()) {
        1 => word_of(wire.take()),
        2 | 4 => {
            wire.pass();
            None
        }
        _ => None,
    }
}

// A word's bits: those that a register keeps of it, those of a named bit, or those of its fields.
#[derive(Clone, Copy)]
enum Word {
    KeptByAbort(u32),
    KeptByCtrlStat(u32),
    KeptBySelect(u32),
    KeptByCsw(u32),
    Abort(Abort),
    CtrlStat(CtrlStat),
    Select(Select),
    Csw(Csw),
}

fn bits_of(word: Word) -> u32 {
    match word {
        Word::KeptByAbort(bits) => Abort::of(bits).bits(),
        Word::KeptByCtrlStat(bits) => CtrlStat::of(bits).bits(),
        Word::KeptBySelect(bits) => Select::of(bits).bits(),
        Word::KeptByCsw(bits) => Csw::of(bits).bits(),
        Word::Abort(abort) => abort.bits(),
        Word::CtrlStat(status) => status.bits(),
        Word::Select(select) => select.bits(),
        Word::Csw(csw) => csw.bits(),
    }
}

const SELECT: Select = Select {
    apsel: 0x12,
    apbanksel: 0x7,
    dpbanksel: 0x8,
};

const CSW: Csw = Csw {
    size: 2,
    addr_inc: 1,
    device_en: true,
    tr_in_prog: false,
    upper: 0x23,
};

const WORDS: &[(&str, Word, u32)] = &[
    // What is kept of a word.
    ("ABORT of ones", Word::KeptByAbort(0xffff_ffff), 0x0000_001f),
    (
        "CTRL/STAT of ones",
        Word::KeptByCtrlStat(0xffff_ffff),
        0xfcff_ffff,
    ),
    ("SELECT", Word::KeptBySelect(0x1234_5678), 0x1200_0078),
    ("CSW", Word::KeptByCsw(0x2300_0052), 0x2300_0052),
    ("CSW of ones", Word::KeptByCsw(0xffff_ffff), 0x7f00_00f7),
    // Where a named bit is.
    ("DAPABORT", Word::Abort(Abort::DAPABORT), 1),
    ("STKCMPCLR", Word::Abort(Abort::STKCMPCLR), 2),
    ("STKERRCLR", Word::Abort(Abort::STKERRCLR), 4),
    ("WDERRCLR", Word::Abort(Abort::WDERRCLR), 8),
    ("ORUNERRCLR", Word::Abort(Abort::ORUNERRCLR), 16),
    ("STICKYERR", Word::CtrlStat(CtrlStat::STICKYERR), 0x20),
    ("READOK", Word::CtrlStat(CtrlStat::READOK), 0x40),
    ("WDATAERR", Word::CtrlStat(CtrlStat::WDATAERR), 0x80),
    (
        "CDBGPWRUPREQ",
        Word::CtrlStat(CtrlStat::CDBGPWRUPREQ),
        0x1000_0000,
    ),
    (
        "CDBGPWRUPACK",
        Word::CtrlStat(CtrlStat::CDBGPWRUPACK),
        0x2000_0000,
    ),
    (
        "CSYSPWRUPREQ",
        Word::CtrlStat(CtrlStat::CSYSPWRUPREQ),
        0x4000_0000,
    ),
    (
        "CSYSPWRUPACK",
        Word::CtrlStat(CtrlStat::CSYSPWRUPACK),
        0x8000_0000,
    ),
    // Where a field is.
    ("SELECT of its fields", Word::Select(SELECT), 0x1200_0078),
    ("CSW of its fields", Word::Csw(CSW), 0x2300_0052),
];

#[test]
fn registers_have_the_bits_of_the_standard(rt: HostRuntime) {
    for (name, word, wanted) in WORDS {
        expect_eq_at(&rt, name, &bits_of(*word), wanted);
    }
    let clearings = Abort::STKERRCLR | Abort::WDERRCLR;
    expect_eq_at(&rt, &"both clearings", &clearings.bits(), &12);
    assert!(rt; CtrlStat::of(0xf000_0080).contains(CtrlStat::WDATAERR));
    assert!(rt; !CtrlStat::of(0xf000_0040).contains(CtrlStat::WDATAERR));
    expect_eq(&rt, &Select::of(0x1234_5678), &SELECT);
    expect_eq(&rt, &Csw::of(0x2300_0052), &CSW);
}

const BYTES: &[(Register, u8)] = &[
    (Register::DpidrRead, 0xa5),
    (Register::AbortWrite, 0x81),
    (Register::CtrlStatRead, 0x8d),
    (Register::CtrlStatWrite, 0xa9),
    (Register::ResendRead, 0x95),
    (Register::SelectWrite, 0xb1),
    (Register::RdbuffRead, 0xbd),
    (Register::CswRead, 0x87),
    (Register::CswWrite, 0xa3),
    (Register::TarRead, 0xaf),
    (Register::TarWrite, 0x8b),
    (Register::DrwRead, 0x9f),
    (Register::DrwWrite, 0xbb),
    (Register::DpOtherRead, 0x8d),
    (Register::DpIgnoredWrite, 0x99),
    (Register::ApOtherRead, 0xb7),
    (Register::ApOtherWrite, 0x93),
];

#[test]
fn a_register_is_named_by_its_byte(rt: HostRuntime) {
    for (register, byte) in BYTES {
        expect_eq(&rt, &register.request().bits(), byte);
    }
}

#[test]
fn nobody_answers_on_an_open_wire(rt: HostRuntime) {
    let mut wire = OpenWire {
        due: Due::Nothing,
        reset: Reset::Unreset,
        asked: Count::new(),
    };
    expect_eq(&rt, &identification(&mut &mut wire), &None);
    expect_eq(&rt, &wire.due(), &Due::Lost);
    wire.lead(100, false, 2);
    expect_eq(&rt, &wire.due(), &Due::Nothing);
}

// A way that answers OK to all, and reads zeros.
#[derive(Drop)]
struct Agreeing {
    failing: bool,
}

impl Transport for Agreeing {
    fn step(&mut self, cue: Cue) -> Result<u64, Disconnected> {
        match cue {
            Cue::Ask(_) if self.failing => Err(Disconnected),
            _ => Ok(agreed(cue)),
        }
    }
}

// What is seen where all is answered OK, and all data are zeros.
fn agreed(cue: Cue) -> u64 {
    match cue {
        Cue::Ask(_) => 1,
        _ => 0,
    }
}

// A way that agrees to all, and fails at the call with this number.
#[derive(Drop)]
struct Breaking {
    calls: u8,
    fails_at: u8,
}

impl Transport for Breaking {
    fn step(&mut self, cue: Cue) -> Result<u64, Disconnected> {
        self.calls = self.calls.saturating_add(1);
        if self.calls == self.fails_at {
            return Err(Disconnected);
        }
        Ok(agreed(cue))
    }
}

// Any story.
struct Untold;

impl Story for Untold {
    ghost at = { λ _. port_made 0 (bus_of (record { words = empty; log = []; room = 0 })) };
}

#[test]
fn a_wire_to_the_outside_says_what_came_back(rt: HostRuntime) {
    let mut wire: TransportWire<Agreeing, Untold> = TransportWire::new(Agreeing { failing: false });
    expect_eq(&rt, &identification(&mut &mut wire), &Some(0));
    expect_eq(&rt, &wire.due(), &Due::Nothing);
    let mut wire: TransportWire<Agreeing, Untold> = TransportWire::new(Agreeing { failing: true });
    expect_eq(&rt, &identification(&mut &mut wire), &None);
    expect_eq(&rt, &wire.due(), &Due::Lost);
}

// DPIDR is read, ABORT is written, and DPIDR is read again. What was seen after the last request.
fn three_requests(wire: &mut TransportWire<Breaking, Untold>) -> u8 {
    for register in [Register::DpidrRead, Register::AbortWrite] {
        if wire.due() != Due::Nothing {
            return 7;
        }
        let _ = wire.ask(register.request());
        match wire.due() {
            Due::Take => {
                let _ = wire.take();
            }
            Due::Give => wire.give(0x1e),
            _ => return 7,
        }
    }
    if wire.due() != Due::Nothing {
        return 7;
    }
    wire.ask(Register::DpidrRead.request())
}

#[test]
fn nothing_is_sent_once_the_other_end_went_away(rt: HostRuntime) {
    // The acknowledgement and the data of the first read, the acknowledgement of the write and its data, and
    // the two of the last read.
    for fails_at in 1..=6u8 {
        let way = Breaking { calls: 0, fails_at };
        let mut wire: TransportWire<Breaking, Untold> = TransportWire::new(way);
        expect_eq_at(&rt, &fails_at, &three_requests(&mut wire), &7);
        expect_at(&rt, &fails_at, wire.is_gone());
        expect_eq(&rt, &wire.into_transport().calls, &fails_at);
    }
    let way = Breaking {
        calls: 0,
        fails_at: 7,
    };
    let mut wire: TransportWire<Breaking, Untold> = TransportWire::new(way);
    expect_eq(&rt, &three_requests(&mut wire), &1);
    assert!(rt; !wire.is_gone());
    expect_eq(&rt, &wire.into_transport().calls, &6);
}

// Each value is printed so.
fn are_printed<R: std::process::Abort, T: Display>(
    rt: &R,
    alloc: Global,
    rows: &[(T, &str)],
) -> Result<(), AllocError> {
    for (value, text) in rows {
        expect_eq(rt, &format!(in alloc; "{value}")?.as_str(), text);
    }
    Ok(())
}

const ACCESSES: &[(Access, &str)] = &[
    (Access::Read(0x2000_0000), "r 20000000"),
    (Access::Write(0x10, 0xdead_beef), "w 00000010 deadbeef"),
];

const MARKS: &[(Mark, &str)] = &[
    (Mark::Clean, "."),
    (Mark::Wait, "wait"),
    (Mark::Flip(32), "flip 32"),
    (Mark::Deaf, "deaf"),
    (Mark::Mute(2), "mute 2"),
];

const ANSWERS: &[(Answer, &str)] = &[
    (Answer::Value(0x0000_00ff), "000000ff"),
    (Answer::Written, "written"),
    (Answer::BusFault, "busfault"),
];

#[test]
fn accesses_marks_and_answers_are_written_as_in_texts(rt: HostRuntime) -> Result<(), Fail> {
    are_printed(&rt, rt.alloc(), ACCESSES)?;
    are_printed(&rt, rt.alloc(), MARKS)?;
    are_printed(&rt, rt.alloc(), ANSWERS)?;
    Ok(())
}
