//! What transports of tests share: the calls that a simulated target takes, and the story that says nothing of it.
ghost use Rattle.std.specs.FinMap.{empty};
ghost use Rattle.std.specs.Prelude.{[]};
ghost use Rattle.swd_port.specs.PlainBus.{bus_of};
ghost use Rattle.swd_port.specs.Made.{port_made};

use swd_port::{Cue, Disconnected, Due, Story, Wire};
use swd_target::{Bench, Memory};

/// Any story.
pub struct Untold;

impl Story for Untold {
    ghost at = { λ _. port_made 0 (bus_of (record { words = empty; log = []; room = 0 })) };
}

/// Makes the call, where the target can take it.
pub fn pass_on(bench: &mut Bench<Memory>, cue: Cue) -> Result<u64, Disconnected> {
    match (bench.due(), cue) {
        (
            Due::Nothing,
            Cue::Lead {
                ones,
                switch,
                zeros,
                ..
            },
        ) if ones >= 50 && zeros >= 2 => bench.lead(ones, switch, zeros),
        (
            Due::Nothing,
            Cue::Lead {
                ones: 0,
                switch: false,
                zeros,
                ..
            },
        ) => bench.idle(zeros),
        (Due::Nothing, Cue::Ask(request)) => return Ok(u64::from(bench.ask(request))),
        (Due::Take, Cue::Take) => return Ok(bench.take()),
        (Due::Give, Cue::Give(bits)) if bits < 0x2_0000_0000 => bench.give(bits),
        (Due::Pass, Cue::Pass) => bench.pass(),
        _ => return Err(Disconnected),
    }
    Ok(0)
}
