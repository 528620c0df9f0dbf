//! The target of lists and images.
ghost use Rattle.std.specs.Prelude.{◌≡◌, IsTrue};
ghost use Rattle.swd_port.specs.declared.wire.Due.TheVariants.{Nothing};
ghost use Rattle.swd_target.specs.Marks.{IsLegalPlan};

use crate::fault::Fault;
use std::alloc::Global;
use swd_port::{Due, Wire};
use swd_target::{Bench, Mark, Memory, Quirks};

/// Where the memory begins.
pub const BASE: u32 = 0x2000_0000;

/// The events that the opening or an access may meet.
pub const TRIES: u32 = 8;

const QUIRKS: Quirks = Quirks {
    wrap: true,
    late: false,
    filler: 0,
    idr: None,
};

/// Creates a target with so many words of memory, whose log has room for so many transfers.
pub fn bench(alloc: Global, words: u32, room: u32, plan: Vec<Mark>) -> Result<Bench<Memory>, Fault>
    requires { IsLegalPlan plan.items }
{
    let memory = Memory::new(alloc, BASE, words, room)?;
    Ok(Bench::new(memory, QUIRKS, plan))
}

/// Returns whether a call may begin: nothing is due.
pub fn is_ready<W: Wire>(wire: &W) -> bool
    ensures { IsTrue result → (W.port wire.now).link.due ≡ Nothing }
{
    matches!(wire.due(), Due::Nothing)
}
