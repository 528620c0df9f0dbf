//! `swd probes`: lists the debug probes of this machine.

use std::alloc::Global;
use std::io::{Read, Write};
use std::str;
use swd_console::{
    Console, DONE, Escaped, FAULT, Files, KeepsError, STOPPED, Stream, cannot_open_probe,
    tell_failure_or,
};

// How many raw human interface devices Linux has at most.
const DEVICES: u32 = 64;

// The most bytes that are read of what the system says of a device.
const SAID: usize = 4096;

// What the name of a probe has.
const PROBE: &str = "CMSIS-DAP";

/// Writes a line to standard output for each debug probe: the file that leads to it, its serial number and its name. On
/// standard error it says why one can't be opened. Returns the status: 0, 1 if there is no probe, 2 at an error.
pub(crate) fn carry_out_probes<O: Write + KeepsError, F: Files, C, E: Write>(
    output: &mut O,
    console: &mut Console<'_, Global, F, C, E>,
) -> u8 {
    let mut found = false;
    for number in 0..DEVICES {
        let mut said = [0u8; SAID];
        let count = said_of(number, console, &mut said);
        let device = Device::of(said.get(..count).unwrap_or(&[]));
        if !device.name.contains(PROBE) {
            continue;
        }
        found = true;
        let (serial, name) = (Escaped(device.serial), Escaped(device.name));
        if writeln!(output, "/dev/hidraw{number} {serial} {name}").is_err() {
            let streams = [Stream::output(output)];
            return tell_failure_or(console.errors, streams.as_slice(), "write failed");
        }
        tell_closed(number, console);
    }
    if found {
        return DONE;
    }
    let _ = writeln!(console.errors, "swd: no CMSIS-DAP probe is plugged in");
    STOPPED
}

// What the system says of a device.
#[derive(Clone, Copy)]
struct Device<'a> {
    name: &'a str,
    serial: &'a str,
}

impl<'a> Device<'a> {
    // Returns the name and the serial number among these lines, `NAME=VALUE`; `-` for a number that isn't there.
    fn of(said: &'a [u8]) -> Device<'a> {
        let mut device = Device {
            name: "",
            serial: "-",
        };
        for line in str::from_utf8(said).unwrap_or("").lines() {
            match line.split_once('=') {
                Some(("HID_NAME", name)) => device.name = name,
                Some(("HID_UNIQ", serial)) if !serial.is_empty() => device.serial = serial,
                _ => {}
            }
        }
        device
    }
}

// Reads what the system says of the device with this number, as one piece, and returns how many bytes that are, 0 if
// there is none.
fn said_of<F: Files, C, E>(
    number: u32,
    console: &Console<'_, Global, F, C, E>,
    said: &mut [u8; SAID],
) -> usize {
    let Ok(name) = format!(in console.alloc; "/sys/class/hidraw/hidraw{number}/device/uevent")
    else {
        return 0;
    };
    let Ok(opened) = console.files.open(name.as_str()) else {
        return 0;
    };
    let mut file = opened.file;
    file.read(said.as_mut_slice()).unwrap_or(0)
}

// Prints why the device with this number can't be opened, if it can't.
fn tell_closed<F: Files, C, E: Write>(number: u32, console: &mut Console<'_, Global, F, C, E>) {
    let Ok(name) = format!(in console.alloc; "/dev/hidraw{number}") else {
        return;
    };
    if let Err(why) = console.files.open_line_in(name.as_str()) {
        let _ = cannot_open_probe(console.errors, name.as_str(), &why);
    }
}
