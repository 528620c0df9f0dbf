use super::expect::{expect_eq, expect_eq_at};
use super::recorded::{DEAF, FLIPPED_READ, FLIPPED_WRITE, MUTE, Recorded, UNDISTURBED, WAITS};
use std::alloc::Global;
use std::cell::Cell;
use std::io::Read;
use std::process::Abort;
use std::test::Fail;
use swd_bitbang::{Pins, Served, Trace, serve};
use swd_clocked::FaultyClocked;
use swd_fakes::{CountingWriter, FailingReader, OneByteWriter, ShortWriter, WatchingReader};
use swd_port::Mark;
use swd_target::{Memory, Quirks};

const QUIRKS: Quirks = Quirks {
    wrap: true,
    late: false,
    filler: 0,
    idr: None,
};

/// The pins at a target of sixteen words from 20000000, of whose requests this one meets the mark.
pub(super) fn pins_under(alloc: Global, request: usize, mark: Mark) -> Result<Pins<Memory>, Fail> {
    let memory = Memory::new(alloc, 0x2000_0000, 16, 16)?;
    let mut plan = Vec::new(alloc);
    for _ in 0..request {
        plan.push(Mark::Clean)?;
    }
    if mark.legal() {
        plan.push(mark)?;
    }
    if !plan.iter().all(|mark| mark.legal()) {
        return Err(Fail::from("a mark is not legal"));
    }
    let target = FaultyClocked::new(memory, QUIRKS, plan);
    Ok(Pins::new(target, Trace::new(alloc)))
}

fn plain_pins(alloc: Global) -> Result<Pins<Memory>, Fail> {
    pins_under(alloc, 0, Mark::Clean)
}

// What comes of a recorded session, through this reader.
fn comes_out<R: Read>(
    rt: &impl Abort,
    alloc: Global,
    session: &Recorded,
    reader: &mut R,
    served: Served,
) -> Result<(), Fail> {
    let pins = pins_under(alloc, session.request, session.mark)?;
    let mut writer = OneByteWriter::new(alloc);
    let (ended, pins) = serve(reader, &mut writer, pins);
    expect_eq_at(rt, &session.name, &ended, &served);
    expect_eq_at(rt, &session.name, &writer.taken.as_slice(), &session.levels);
    let (target, trace) = pins.into_parts();
    expect_eq_at(rt, &session.name, &target.cycles(), &session.cycles);
    expect_eq_at(rt, &session.name, &target.requests(), &session.requests);
    expect_eq_at(
        rt,
        &session.name,
        &(trace.text().len() as u64),
        &session.cycles,
    );
    assert!(rt; !trace.is_cut());
    Ok(())
}

// The same through each reader: whole, byte by byte, and without its end.
fn comes_out_however_read(rt: &impl Abort, alloc: Global, session: &Recorded) -> Result<(), Fail> {
    let mut whole = session.characters;
    comes_out(rt, alloc, session, &mut whole, Served::Quit)?;
    let mut bytes = FailingReader::new(session.characters, usize::MAX);
    comes_out(rt, alloc, session, &mut bytes, Served::Quit)?;
    let Some((_, begun)) = session.characters.split_last() else {
        return Err(Fail::from("the session is empty"));
    };
    let mut begun = begun;
    comes_out(rt, alloc, session, &mut begun, Served::Ended)
}

#[test]
fn recorded_sessions_are_answered_as_they_were(rt: HostRuntime) -> Result<(), Fail> {
    comes_out_however_read(&rt, rt.alloc(), &UNDISTURBED)?;
    comes_out_however_read(&rt, rt.alloc(), &WAITS)?;
    comes_out_however_read(&rt, rt.alloc(), &FLIPPED_READ)?;
    comes_out_however_read(&rt, rt.alloc(), &FLIPPED_WRITE)?;
    comes_out_however_read(&rt, rt.alloc(), &DEAF)?;
    comes_out_however_read(&rt, rt.alloc(), &MUTE)
}

// What a text is answered by, and how it ends.
fn answered(rt: &HostRuntime, text: &[u8]) -> Result<(Served, Vec<u8>, u64), Fail> {
    let mut text = text;
    let mut answers = Vec::new(rt.alloc());
    let (served, pins) = serve(&mut text, &mut answers, plain_pins(rt.alloc())?);
    let (target, _) = pins.into_parts();
    Ok((served, answers, target.cycles()))
}

// Each text, what is answered, and how many clocks went by.
const CLOCKED: &[(&[u8], &[u8], u64)] = &[
    (b"", b"", 0),
    // A host that drives sees its own level, and a look is no clock.
    (b"cdcec", b"101", 0),
    (b"ccegcdcec", b"11101", 1),
    // One that leaves the line alone: at the first look, which stays until the clock falls.
    (b"odccfccdf", b"1111", 2),
    (b"odcfdcf", b"11", 2),
    // Where it doesn't look first, at the rising edge.
    (b"odfcdf", b"1", 2),
    // A low level after a low level is no edge, nor a high one after a high one.
    (b"odcececf", b"111", 1),
    (b"egggdg", b"", 2),
    // The lamp, the reset lines and the waits.
    (b"BbrstuZz", b"", 0),
];

#[test]
fn a_clock_goes_by_once(rt: HostRuntime) -> Result<(), Fail> {
    for (text, levels, cycles) in CLOCKED {
        let (served, answers, went_by) = answered(&rt, text)?;
        expect_eq(&rt, &served, &Served::Ended);
        expect_eq(&rt, &answers.as_slice(), levels);
        expect_eq(&rt, &went_by, cycles);
    }
    Ok(())
}

#[test]
fn a_session_ends_at_quit_and_at_a_bad_byte(rt: HostRuntime) -> Result<(), Fail> {
    let (served, answers, _) = answered(&rt, b"cdcQcx")?;
    expect_eq(&rt, &served, &Served::Quit);
    expect_eq(&rt, &answers.as_slice(), &b"10".as_slice());
    for byte in b"07Rx\n\0\xff" {
        let byte = *byte;
        let text = [b'c', b'd', b'c', byte, b'c', b'Q'];
        let (served, answers, _) = answered(&rt, text.as_slice())?;
        expect_eq(&rt, &served, &Served::Bad { place: 3, byte });
        expect_eq(&rt, &answers.as_slice(), &b"10".as_slice());
    }
    Ok(())
}

// How many levels were told before each read.
const NOTED: &[usize] = &[0, 1, 1, 1, 2, 2, 2, 3, 3, 3, 3, 3];

#[test]
fn a_level_is_told_before_more_is_read(rt: HostRuntime) -> Result<(), Fail> {
    let text = b"codcfdcfOeg".as_slice();
    let taken = Cell::new(0);
    let mut reader = WatchingReader::new(rt.alloc(), text, &taken);
    let mut writer = CountingWriter { taken: &taken };
    let (served, _) = serve(&mut reader, &mut writer, plain_pins(rt.alloc())?);
    expect_eq(&rt, &served, &Served::Ended);
    expect_eq(&rt, &reader.noted.as_slice(), &NOTED);
    Ok(())
}

#[test]
fn a_failed_read_ends_a_session(rt: HostRuntime) -> Result<(), Fail> {
    for fails_at in 0..6usize {
        let mut reader = FailingReader::new(b"cdcec", fails_at);
        let mut answers = Vec::new(rt.alloc());
        let (served, _) = serve(&mut reader, &mut answers, plain_pins(rt.alloc())?);
        expect_eq(&rt, &served, &Served::Read);
        expect_eq(&rt, &answers.as_slice().len(), &fails_at.div_ceil(2));
    }
    Ok(())
}

#[test]
fn a_failed_write_ends_a_session(rt: HostRuntime) -> Result<(), Fail> {
    for room in 0..3usize {
        for fails in [false, true] {
            let mut text = b"cdcec".as_slice();
            let mut writer = ShortWriter::new(rt.alloc(), room, fails);
            let (served, _) = serve(&mut text, &mut writer, plain_pins(rt.alloc())?);
            let written = room as u64;
            expect_eq(&rt, &served, &Served::Write { written });
            expect_eq(&rt, &writer.taken().len(), &room);
        }
    }
    Ok(())
}
