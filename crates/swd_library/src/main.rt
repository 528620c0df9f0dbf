//! Ways to use the host: by `run` and `run_block` over a wire, by `resume` after a lost acknowledgement, by
//! `run_over_transport` over a probe, by `run_over_line` over a connection, by the engine alone over two pins, by `run`
//! over a wire that is recorded, whose trace shows the accesses, and by `run` over registers in place of a memory.
#![tactic(auto)]

mod by_hand;
mod outside;
mod registers;
mod resumed;
mod traced;
mod whole;

use std::io;
use std::process::ExitCode;

fn main(rt: HostRuntime) -> io::Result<ExitCode> {
    let loaded = whole::load(rt.alloc());
    let resumed = resumed::load(rt.alloc());
    let driven = by_hand::load(rt.alloc());
    let probed = outside::load(rt.alloc());
    let lined = outside::write_over_line(rt.alloc());
    let traced = traced::load(rt.alloc());
    let once = registers::once(rt.alloc());
    for (name, failed) in [
        ("run", loaded.err()),
        ("resume", resumed.err()),
        ("by hand", driven.err()),
        ("over a probe", probed.err()),
        ("over a line", lined.err()),
        ("in a trace", traced.err()),
        ("at registers", once.err()),
    ] {
        match failed {
            None => println!(rt; "{name}: the words are there")?,
            Some(failure) => {
                println!(rt; "{name}: {failure}")?;
                return Ok(ExitCode::FAILURE);
            }
        }
    }
    Ok(ExitCode::SUCCESS)
}
