//! The transactions that a run asks for next.
ghost use Rattle.std.specs.Prelude.{◌≡◌, ◌≤◌, ◌+◌, drop, length, min, take};
ghost use Rattle.swd_steps.specs.Plans.{SteppedForesees};

use crate::accesses::Accesses;
use crate::run::{Run, Stage};
use arrayvec::ArrayVec;
use swd_port::{Access, Coming};

/// The most transactions of a plan.
pub const MOST_PLANNED: usize = 128;

// How many accesses a plan looks at: an engine takes up at most four in each transaction, and there are five more.
const MOST_AHEAD: usize = 517;

// The first accesses of a list behind an index.
#[derive(Drop)]
struct Ahead {
    accesses: [Access; MOST_AHEAD],
    count: usize,
}

impl Ahead {
    // Returns the accesses behind this index, as many as a plan looks at.
    fn of<L: Accesses>(accesses: &L, current: u32) -> Ahead
        ensures taken { take result.count result.accesses ≡ take 517 (drop (current + 1) (L.list accesses.now)) }
        ensures fits { result.count ≤ 517 }
    {
        let mut ahead = Ahead {
            accesses: [Access::Read(0); MOST_AHEAD],
            count: 0,
        };
        let first = current as usize + 1;
        for place in 0..MOST_AHEAD {
            let Some(access) = accesses.access(first + place) else {
                return ahead;
            };
            ahead.accesses[place] = access;
            ahead.count += 1;
        }
        ahead
    }
}

impl Run {
    /// Returns the transactions that come next, each as long as those before it are answered OK with right parity. They
    /// end behind a read whose word decides what follows (of DPIDR, CTRL/STAT or CSW), and with the last access; there
    /// are at most `room` and at most [`MOST_PLANNED`]. There are none where something else than a request is due, or
    /// nothing. Pass the same list as to [`next`](Run::next).
    pub fn coming<L: Accesses>(&self, accesses: &L, room: usize) -> ArrayVec<Coming, MOST_PLANNED>
        ensures foresees { SteppedForesees (min room 128) (L.list accesses.now) self.now result.items }
        ensures few { length result.items ≤ room }
    {
        let mut planned = ArrayVec::new();
        let Stage::Driving = self.stage else {
            return planned;
        };
        // In the opening the plan ends before the first access: it is the same whichever accesses follow.
        let ahead = Ahead::of(accesses, self.answered);
        let coming = self.engine.coming(&ahead.accesses[..ahead.count]);
        let coming = coming.as_slice();
        let most = room.min(MOST_PLANNED).min(coming.len());
        let _ = planned.try_extend_from_slice(&coming[..most]);
        planned
    }
}
