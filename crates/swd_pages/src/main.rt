//! The examples of the pages at the heads of the libraries. Each is called once, and its result is written.
#![tactic(auto)]

mod bitbang;
mod bits;
mod capture;
mod capture_text;
mod clocked;
mod draw;
mod ends;
mod image;
mod image_ends;
mod image_files;
mod io;
mod run;
mod script;
mod sequences;
mod steps;
mod text;

use swd_clocked::Clocked;
use swd_draw::DrawnForm;
use swd_image_files::{Format, read_image};
use swd_io::send;
use swd_port::{Access, Cue};
use swd_resync::Part;
use swd_target::{Bench, Memory, Quirks};
use swd_trace::Item;

// A read of DPIDR, 2ba01477: as a trace text, and as a number, the first bit in time least significant.
const READ: &[u8] = b"10100101 1 100 11101110 00101000 00000101 11010100 0 1\n";

const READ_BITS: u64 = 0x22ba_0147_73a5;

// The same twice, the first one without its first bit.
const CAPTURE: &[u8] = b"0100101 1 100 11101110 00101000 00000101 11010100 0 1
10100101 1 100 11101110 00101000 00000101 11010100 0 1
10100101 1 100 11101110 00101000 00000101 11010100 0 1\n";

const SCRIPT: &[u8] = b"memory 20000000 16\nw 20000000 deadbeef\nr 20000000\n";

const MEMORY: &[u8] = b"memory 20000000 16\n";

// Five bytes from 20000002 on.
const HEX: &[u8] = b":020000042000DA\n:050002001122334455FA\n:00000001FF\n";

// A clock in which the host drives 1, a look at its own level, and the end.
const CHARACTERS: &[u8] = b"ecgQ";

const QUIRKS: Quirks = Quirks {
    wrap: true,
    late: false,
    filler: 0,
    idr: None,
};

// A line without a target: nobody drives it.
#[derive(Drop)]
struct Undriven;

impl steps::Line for Undriven {
    fn perform(&mut self, cue: Cue) -> u64 {
        match cue {
            Cue::Ask(_) => 7,
            Cue::Take => (1 << 33) - 1,
            Cue::Lead { .. } | Cue::Give(_) | Cue::Pass => 0,
        }
    }
}

// Writes the name of a library, and what its example wrote.
fn show(rt: &HostRuntime, name: &str, text: &[u8]) -> anyhow::Result<()> {
    println!(rt; "{name}:")?;
    Ok(send(&mut rt.stdout(), text)?)
}

fn show_traces(rt: &HostRuntime) -> anyhow::Result<()> {
    let word = bits::word_moved(READ_BITS).unwrap_or(0);
    println!(rt; "swd_bits: {word:08x}")?;
    let first = Part::Item(Item::Reset(56));
    let second = Part::Item(Item::Idle(2));
    show(
        rt,
        "swd_capture",
        capture::lines(&first, &second).as_bytes(),
    )?;
    let mut lines = Vec::new(rt.alloc());
    text::list(READ, &mut lines)?;
    show(rt, "swd_text", lines.as_slice())?;
    let mut lines = Vec::new(rt.alloc());
    capture_text::lines(CAPTURE, &mut lines)?;
    show(rt, "swd_capture_text", lines.as_slice())?;
    let mut svg = Vec::new(rt.alloc());
    let form = DrawnForm {
        items: 200,
        names: false,
    };
    draw::drawing(READ, form, &mut svg)?;
    println!(rt; "swd_draw: {}", svg.starts_with(b"<svg "))?;
    Ok(())
}

fn show_runs(rt: &HostRuntime) -> anyhow::Result<()> {
    let script = script::parse(rt.alloc(), SCRIPT)?;
    println!(rt; "swd_script: {} words", script.words)?;
    let mut report = Vec::new(rt.alloc());
    run::report(rt.alloc(), SCRIPT, &mut report)?;
    show(rt, "swd_run", report.as_slice())?;
    let accesses = [Access::Read(0x2000_0000)];
    let mut answers = [None];
    let ended = steps::drive(&mut Undriven, &accesses, &mut answers);
    println!(rt; "swd_steps: {ended:?} {answers:?}")?;
    Ok(())
}

fn show_lines(rt: &HostRuntime) -> anyhow::Result<()> {
    let memory = Memory::new(rt.alloc(), 0x2000_0000, 16, 16)?;
    let (ack, data) = clocked::identification(&mut Clocked::new(memory, QUIRKS));
    println!(rt; "swd_clocked: {ack} {data:08x}")?;
    show(rt, "swd_sequences", &sequences::clock(true))?;
    println!(rt; "")?;
    let mut levels = Vec::new(rt.alloc());
    let served = bitbang::answer(rt.alloc(), CHARACTERS, &mut levels)?;
    println!(rt; "swd_bitbang: {served:?}")?;
    show(rt, "levels", levels.as_slice())?;
    println!(rt; "")?;
    let mut levels = Vec::new(rt.alloc());
    if let Ok(Some(log)) = ends::serve_script(rt.alloc(), MEMORY, CHARACTERS, &mut levels) {
        show(rt, "swd_ends", log.as_slice())?;
    }
    let written = io::write_pair(&mut rt.stdout(), b"addr", b"20000000");
    println!(rt; "swd_io: {written:?}")?;
    Ok(())
}

fn show_images(rt: &HostRuntime) -> anyhow::Result<()> {
    let (addr, byte) = image_files::first_byte(rt.alloc(), HEX)?.unwrap_or((0, 0));
    println!(rt; "swd_image_files: {addr:08x} {byte:02x}")?;
    let memory = Memory::new(rt.alloc(), 0x2000_0000, 16, 16)?;
    let mut bench = Bench::new(memory, QUIRKS, Vec::new(rt.alloc()));
    image::flash(rt.alloc(), &mut bench, 0x2000_0000, &[1, 2, 3, 4])?;
    let word = bench.memory().word(0x2000_0000).unwrap_or(0);
    println!(rt; "swd_image: {word:08x}")?;
    let mut characters = Vec::new(rt.alloc());
    let levels: &[u8] = b"";
    let image = read_image(rt.alloc(), Format::Binary, b"abcd", 0x2000_0000)?;
    let (loaded, line) = image_ends::flash(rt.alloc(), levels, &mut characters, &image);
    println!(rt; "swd_image_ends: {loaded:?} {:?}", line.fault)?;
    Ok(())
}

fn main(rt: HostRuntime) -> anyhow::Result<()> {
    show_traces(&rt)?;
    show_runs(&rt)?;
    show_lines(&rt)?;
    show_images(&rt)
}
