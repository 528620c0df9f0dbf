//! Calls of a transport, the packets that they make, and what is seen.

use crate::answers::Answers;
use crate::row::{Wrong, want};
use std::alloc::{AllocError, Global};
use swd_bits::{Reg4, Request};
use swd_dap::DapTransport;
use swd_port::{Coming, Cue, Transport};

/// Makes the calls of a row, and then hangs up.
pub fn come<'t>(alloc: Global, lines: &'t str) -> Result<(), Wrong<'t>> {
    let mut transport = DapTransport::new(Answers::of(alloc, lines)?, 1_000_000);
    let mut coming = Vec::new(alloc);
    let mut announces = false;
    for line in lines.lines() {
        if let Some(words) = line.strip_prefix("+") {
            put_coming(&mut coming, words)?;
            announces = true;
        }
        if let Some(calls) = line.strip_prefix("* ") {
            if announces {
                transport.announce(&coming);
                coming.clear();
                announces = false;
            }
            make_calls(alloc, &mut transport, calls)?;
        }
    }
    let faulted = transport.fault();
    let (answers, fault) = transport.hang_up();
    want("the fault of a connection that is left", fault == faulted)?;
    want("the number of packets", answers.is_done(faulted.is_some()))
}

// Adds transactions, with commas between.
fn put_coming<'t>(coming: &mut Vec<Coming>, words: &'t str) -> Result<(), Wrong<'t>> {
    for text in words.split(",").filter(|it| !it.is_empty()) {
        let Some(one) = coming_of(text.trim_start()) else {
            return Err(Wrong::Here(text));
        };
        coming.push(one)?;
    }
    Ok(())
}

// Makes calls, with commas between. Each has behind `=` what comes of it, or else 0.
fn make_calls<'t>(
    alloc: Global,
    transport: &mut DapTransport<Answers>,
    calls: &'t str,
) -> Result<(), Wrong<'t>> {
    for text in calls.split(", ") {
        let (call, wanted) = text.split_once(" = ").unwrap_or((text, "0"));
        let came = match call {
            "looks" => looked(alloc, transport)?,
            "doubt" => format!(in alloc; "{}", transport.in_doubt())?,
            _ => match cue_of(call) {
                Some(cue) => seen(alloc, transport, cue)?,
                None => return Err(Wrong::Here(text)),
            },
        };
        want(text, came.as_str() == wanted)?;
    }
    Ok(())
}

// What a packet holds, if an announcement is of use.
fn looked(alloc: Global, transport: &DapTransport<Answers>) -> Result<String, AllocError> {
    match transport.looks_ahead() {
        Some(held) => format!(in alloc; "{} {}", held.writes, held.reads),
        None => format!(in alloc; "none"),
    }
}

// What is seen of a cue, or the error that ends the connection.
fn seen(
    alloc: Global,
    transport: &mut DapTransport<Answers>,
    cue: Cue,
) -> Result<String, AllocError> {
    match (transport.step(cue), transport.fault()) {
        (Ok(seen), None) => format!(in alloc; "{seen:x}"),
        (Err(_), Some(fault)) => format!(in alloc; "{fault:?}"),
        (_, fault) => format!(in alloc; "at odds with {fault:?}"),
    }
}

// A cue: `ask` and a request, `give` and a word with its parity, `take`, `pass`, or `lead` and its numbers.
fn cue_of(text: &str) -> Option<Cue> {
    let (verb, rest) = text.split_once(" ").unwrap_or((text, ""));
    match verb {
        "ask" => Some(Cue::Ask(request_of(rest)?)),
        "give" => Some(Cue::Give(u64::from_str_radix(rest, 16).ok()?)),
        "take" => Some(Cue::Take),
        "pass" => Some(Cue::Pass),
        "lead" => lead_of(rest),
        _ => None,
    }
}

// The number of ones, of clocks that release the line before, and of zeros behind; then `switch`, if the switch from
// JTAG follows the ones.
fn lead_of(text: &str) -> Option<Cue> {
    let (ones, rest) = text.split_once(" ")?;
    let (undriven, rest) = rest.split_once(" ")?;
    let (zeros, switch) = rest.split_once(" ").unwrap_or((rest, ""));
    Some(Cue::Lead {
        ones: ones.parse().ok()?,
        undriven: undriven.parse().ok()?,
        switch: switch == "switch",
        zeros: zeros.parse().ok()?,
    })
}

// A request, and its word if it is a write.
fn coming_of(text: &str) -> Option<Coming> {
    let Some((request, word)) = text.split_once(" write ") else {
        let request = request_of(text)?;
        return Some(Coming { request, word: 0 });
    };
    let word = u32::from_str_radix(word, 16).ok()?;
    let request = Request {
        read: false,
        ..address_of(request)?
    };
    Some(Coming { request, word })
}

fn request_of(text: &str) -> Option<Request> {
    if let Some(address) = text.strip_suffix(" write") {
        return Some(Request {
            read: false,
            ..address_of(address)?
        });
    }
    address_of(text.strip_suffix(" read")?)
}

// The read of a register.
fn address_of(text: &str) -> Option<Request> {
    let (port, addr) = text.split_once(" ")?;
    Some(Request {
        ap: match port {
            "ap" => true,
            "dp" => false,
            _ => return None,
        },
        read: true,
        addr: match addr {
            "0" => Reg4::R0,
            "4" => Reg4::R4,
            "8" => Reg4::R8,
            "c" => Reg4::RC,
            _ => return None,
        },
    })
}
