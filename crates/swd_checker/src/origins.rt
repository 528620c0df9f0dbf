//! The items since which a target's state is as it is.

use crate::checker::Checker;
use crate::world::World;
use swd_bits::{Reg4, Tx, TxEnd};
use swd_trace::Item;

/// An item of a trace.
#[derive(Clone, Copy, Debug, PartialEq, Eq)]
pub struct Origin {
    /// The number of bits before it.
    pub place: u64,
    pub item: Item,
}

/// For each part of a target's state the item that changed it last, in the world with the fewest damaged or lost
/// requests. `None`: nothing did since the beginning, or since a gap. This is for messages, and no verdict depends on
/// it.
#[derive(Clone, Copy)]
pub struct Origins {
    world: Option<World>,
    pub(crate) reset: Option<Origin>,
    pub(crate) sticky_error: Option<Origin>,
    pub(crate) write_error: Option<Origin>,
    pub(crate) read_ok: Option<Origin>,
    pub(crate) debug: Option<Origin>,
    pub(crate) system: Option<Origin>,
    pub(crate) increments: Option<Origin>,
    pub(crate) tar: Option<Origin>,
    pub(crate) buffer: Option<Origin>,
    pub(crate) last_returned: Option<Origin>,
    /// The last access of DRW that was refused.
    pub(crate) refused: Option<Origin>,
}

impl Origins {
    /// Returns those before the first item.
    pub fn new() -> Origins {
        Origins {
            world: None,
            reset: None,
            sticky_error: None,
            write_error: None,
            read_ok: None,
            debug: None,
            system: None,
            increments: None,
            tar: None,
            buffer: None,
            last_returned: None,
            refused: None,
        }
    }

    /// Notes what an item changed. The checker has watched it.
    pub fn note(&mut self, checker: &Checker, item: &Item, place: u64) {
        let origin = Origin { place, item: *item };
        match item {
            Item::Reset(_) => self.reset = Some(origin),
            Item::Tx(tx) => self.note_refused(tx, origin),
            Item::Switch | Item::Idle(_) | Item::Junk(_) | Item::Cut(_) => {}
        }
        match checker.likeliest() {
            Some(now) => self.note_world(now, origin),
            None => self.forget(),
        }
    }

    // Notes what the last item changed in the world.
    fn note_world(&mut self, now: &World, origin: Origin) {
        let Some(before) = &self.world else {
            self.world = Some(*now);
            return;
        };
        if before.sticky_error != now.sticky_error {
            self.sticky_error = Some(origin);
        }
        if before.write_error != now.write_error {
            self.write_error = Some(origin);
        }
        if before.read_ok != now.read_ok {
            self.read_ok = Some(origin);
        }
        if before.debug != now.debug {
            self.debug = Some(origin);
        }
        if before.system != now.system {
            self.system = Some(origin);
        }
        if before.increments != now.increments {
            self.increments = Some(origin);
        }
        if before.tar != now.tar {
            self.tar = Some(origin);
        }
        if before.buffer != now.buffer {
            self.buffer = Some(origin);
        }
        if before.last_returned != now.last_returned {
            self.last_returned = Some(origin);
        }
        self.world = Some(*now);
    }

    // Forgets all where no world is held any more.
    fn forget(&mut self) {
        if self.world.is_some() {
            *self = Origins::new();
        }
    }

    fn note_refused(&mut self, tx: &Tx, origin: Origin) {
        let request = tx.request;
        if request.ap
            && request.addr == Reg4::RC
            && matches!(&tx.result, TxEnd::Wait | TxEnd::Fault)
        {
            self.refused = Some(origin);
        }
    }
}
