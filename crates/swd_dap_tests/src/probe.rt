//! Packets to a probe's command processor, their replies, and the clocks that they make.

use crate::exchange::{Exchange, put_exchanges};
use crate::row::{Wrong, has, said, want};
use crate::target_line::TargetLine;
use crate::text_line::TextLine;
use std::alloc::Global;
use swd_clocked::FaultyClocked;
use swd_dap_probe::{LONGEST, ProbeLine, Processor};
use swd_target::{Memory, Quirks};

/// Sends the packets of a row over the line that it has, or over a simulated target.
pub fn come<'t>(alloc: Global, lines: &'t str) -> Result<(), Wrong<'t>> {
    let mut exchanges = Vec::new(alloc);
    put_exchanges(alloc, &mut exchanges, lines)?;
    if has(lines, "over a target") {
        let mut probe = Processor::new(target(alloc)?, 64);
        return send_all(&mut probe, &exchanges, lines);
    }
    let size = said(lines, "size ").unwrap_or("64");
    let Ok(size) = size.parse::<usize>() else {
        return Err(Wrong::Here(size));
    };
    let mut probe = Processor::new(TextLine::of(alloc, lines)?, size);
    send_all(&mut probe, &exchanges, lines)?;
    want("the clocks", probe.into_line().is_done())
}

fn target<'t>(alloc: Global) -> Result<TargetLine, Wrong<'t>> {
    let quirks = Quirks {
        wrap: true,
        late: false,
        filler: 0,
        idr: None,
    };
    let Ok(memory) = Memory::new(alloc, 0x2000_0000, 256, 64) else {
        return Err(Wrong::Memory);
    };
    Ok(TargetLine {
        target: FaultyClocked::new(memory, quirks, Vec::new(alloc)),
    })
}

fn send_all<'t, L: ProbeLine>(
    probe: &mut Processor<L>,
    exchanges: &[Exchange],
    lines: &'t str,
) -> Result<(), Wrong<'t>> {
    let mut replies = lines.lines().filter(|line| line.starts_with("<"));
    for packet in exchanges {
        let mut reply = [0xaa; LONGEST];
        let length = probe.take(packet.request.as_slice(), &mut reply);
        let line = replies.next().unwrap_or("a reply");
        want(line, reply.get(..length) == Some(packet.reply.as_slice()))?;
    }
    Ok(())
}
