//! A workload for measurements: lists of mixed accesses over a simulated target that says WAIT and
//! changes bits here and there. It prints a checksum of the reports. With the word `accesses` the
//! target is driven clock by clock; with `cycles` nothing but cycles is measured, without a host; with
//! `reads` and `blocks` it is reads one by one and as a block, and with `read-requests` and
//! `block-requests` it prints how many requests these take on an undisturbed wire.
#![tactic(auto)]

mod blocks;
mod cycles;
mod random;
mod workload;

use std::alloc::Global;
use std::process::ExitCode;
use std::{env, io};

// What is printed of the workload with this name. None when out of memory.
fn figure(alloc: Global, name: Option<&str>) -> Option<u64> {
    match name {
        Some("cycles") => cycles::checksum(alloc),
        Some("accesses") => workload::clocked_checksum(alloc),
        Some("reads") => blocks::checksum(alloc, false),
        Some("blocks") => blocks::checksum(alloc, true),
        Some("read-requests") => blocks::requests(alloc, false),
        Some("block-requests") => blocks::requests(alloc, true),
        _ => workload::checksum(alloc),
    }
}

fn main(rt: HostRuntime) -> io::Result<ExitCode> {
    let words: Vec<String> = env::args(&rt)?.skip(1).collect(rt.alloc())?;
    let name = words.first().map(|word| word.as_str());
    match figure(rt.alloc(), name) {
        Some(figure) => {
            println!(rt; "{figure}")?;
            Ok(ExitCode::SUCCESS)
        }
        None => Ok(ExitCode::FAILURE),
    }
}
