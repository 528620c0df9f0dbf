//! A probe that answers from a row.

use crate::exchange::{Exchange, put_exchanges};
use crate::row::{Wrong, has};
use std::alloc::Global;
use std::cmp::min;
use swd_dap::{DapFault, Packets};

// The size of packets: 64 bytes where replies are padded, else 512.
const SHORT: &str = "> 00 ff\n< 00 02 40 00";

const LONG: &str = "> 00 ff\n< 00 02 00 02";

// What opens a connection at 1 MHz, behind the size of packets; and what closes it.
const OPENING: &str = "\
> 02 01
< 02 01
> 11 40 42 0f 00
< 11 00
> 04 08 00 00 00 00
< 04 00
> 13 00
< 13 00";

const CLOSING: &str = "> 03\n< 03 00";

/// A probe that is opened, gets the packets of a row, and is closed.
#[derive(Drop)]
pub struct Answers {
    exchanges: Vec<Exchange>,
    padded: bool,
    // How many packets it got.
    got: usize,
    // Whether it got another packet.
    strayed: bool,
}

impl Answers {
    /// Returns a probe that got nothing yet.
    pub fn of<'t>(alloc: Global, lines: &'t str) -> Result<Answers, Wrong<'t>> {
        let padded = !has(lines, "size 512");
        let mut exchanges = Vec::new(alloc);
        put_exchanges(alloc, &mut exchanges, if padded { SHORT } else { LONG })?;
        put_exchanges(alloc, &mut exchanges, OPENING)?;
        put_exchanges(alloc, &mut exchanges, lines)?;
        put_exchanges(alloc, &mut exchanges, CLOSING)?;
        Ok(Answers {
            exchanges,
            padded,
            got: 0,
            strayed: false,
        })
    }

    /// Returns whether it got each packet, and no other; the closing one only if no error came.
    pub fn is_done(&self, faulted: bool) -> bool {
        let got = self.got.saturating_add(usize::from(faulted));
        got == self.exchanges.len() && !self.strayed
    }
}

impl Packets for Answers {
    ghost pads = { λ answers. answers.padded };

    fn is_padded(&self) -> bool {
        self.padded
    }

    // An empty reply is none: the other end was closed.
    fn exchange(&mut self, request: &[u8], reply: &mut [u8; 512]) -> Result<usize, DapFault> {
        let Some(next) = self.exchanges.get(self.got) else {
            self.strayed = true;
            return Err(DapFault::Ended);
        };
        self.got = self.got.saturating_add(1);
        self.strayed = self.strayed || request != next.request.as_slice();
        let length = min(next.reply.len(), 512);
        if length == 0 {
            return Err(DapFault::Ended);
        }
        for place in 0..length {
            reply[place] = next.reply[place];
        }
        Ok(length)
    }
}
