//! Packets and their replies, as lines of a row.

use crate::row::{Wrong, put_bytes};
use std::alloc::Global;

/// A packet, and the reply to it.
#[derive(Drop)]
pub struct Exchange {
    pub request: Vec<u8>,
    pub reply: Vec<u8>,
}

/// Adds the packets of a row: of each the lines that begin with `>`, and behind them those of its reply, with `<`.
pub fn put_exchanges<'t>(
    alloc: Global,
    exchanges: &mut Vec<Exchange>,
    lines: &'t str,
) -> Result<(), Wrong<'t>> {
    let mut replied = true;
    for line in lines.lines() {
        if let Some(bytes) = line.strip_prefix(">") {
            if replied {
                exchanges.push(Exchange {
                    request: Vec::new(alloc),
                    reply: Vec::new(alloc),
                })?;
                replied = false;
            }
            if let Some(last) = exchanges.last_mut() {
                put_bytes(&mut last.request, bytes)?;
            }
        }
        if let Some(bytes) = line.strip_prefix("<") {
            replied = true;
            if let Some(last) = exchanges.last_mut() {
                put_bytes(&mut last.reply, bytes)?;
            }
        }
    }
    Ok(())
}
