//! A simulated target behind a host that moves its pins by characters.
use std::alloc::Global;
use swd_bitbang::{Pins, Served, Trace, serve};
use swd_clocked::FaultyClocked;
use swd_target::{MakeFault, Memory, Quirks};

/// Serves a host whose characters are these, and appends the levels that it asked for.
pub fn answer(
    alloc: Global,
    mut characters: &[u8],
    levels: &mut Vec<u8>,
) -> Result<Served, MakeFault> {
    let quirks = Quirks {
        wrap: true,
        late: false,
        filler: 0,
        idr: None,
    };
    let memory = Memory::new(alloc, 0x2000_0000, 16, 16)?;
    let target = FaultyClocked::new(memory, quirks, Vec::new(alloc));
    let pins = Pins::new(target, Trace::none(alloc));
    Ok(serve(&mut characters, levels, pins).0)
}
