//! Plans: the memory that they are made for, and how many steps they have.

use swd_bits::{Reg4, Request};
use swd_conform::{MOST_STEPS, Plan, Step, Without};

// A memory, and what a plan for it leaves out, if there is one.
struct Row {
    base: u32,
    words: u32,
    hole: Option<u32>,
    without: Option<Without>,
}

const WHOLE: Option<Without> = Some(Without {
    errors: false,
    page: false,
    kilobyte: false,
});

const ROWS: &[Row] = &[
    Row {
        base: 0x2000_0ff0,
        words: 80,
        hole: Some(0x3000_0000),
        without: WHOLE,
    },
    // No address without memory.
    Row {
        base: 0x2000_0ff0,
        words: 80,
        hole: None,
        without: Some(Without {
            errors: true,
            page: false,
            kilobyte: false,
        }),
    },
    // 320 bytes of one kilobyte.
    Row {
        base: 0x2000_0000,
        words: 80,
        hole: Some(0x3000_0000),
        without: Some(Without {
            errors: false,
            page: false,
            kilobyte: true,
        }),
    },
    // The end of 256 bytes is that of a kilobyte.
    Row {
        base: 0x2000_0300,
        words: 80,
        hole: Some(0x3000_0000),
        without: Some(Without {
            errors: false,
            page: true,
            kilobyte: false,
        }),
    },
    Row {
        base: 0x2000_03fc,
        words: 80,
        hole: Some(0),
        without: WHOLE,
    },
    // The last words that there are.
    Row {
        base: 0xffff_fec0,
        words: 80,
        hole: Some(0),
        without: Some(Without {
            errors: false,
            page: false,
            kilobyte: true,
        }),
    },
    Row {
        base: 0,
        words: 0x4000_0000,
        hole: None,
        without: Some(Without {
            errors: true,
            page: false,
            kilobyte: false,
        }),
    },
    // Too few, at no multiple of 4, or past the last address.
    Row {
        base: 0x2000_0000,
        words: 79,
        hole: None,
        without: None,
    },
    Row {
        base: 0x2000_0002,
        words: 80,
        hole: None,
        without: None,
    },
    Row {
        base: 0xffff_fec4,
        words: 80,
        hole: None,
        without: None,
    },
    Row {
        base: 0,
        words: 0,
        hole: None,
        without: None,
    },
    Row {
        base: 4,
        words: 0x4000_0000,
        hole: None,
        without: None,
    },
    // An address that isn't one without memory, or no multiple of 4.
    Row {
        base: 0x2000_0000,
        words: 80,
        hole: Some(0x2000_0000),
        without: None,
    },
    Row {
        base: 0x2000_0004,
        words: 80,
        hole: Some(0x2000_0140),
        without: None,
    },
    Row {
        base: 0x2000_0008,
        words: 80,
        hole: Some(0x3000_0002),
        without: None,
    },
];

// The row of the memory for which a plan leaves out another thing than its row says.
fn first_wrong() -> Option<u32> {
    for row in ROWS {
        let plan = Plan::new(row.base, row.words, row.hole);
        if plan.map(|plan| plan.without()) != row.without {
            return Some(row.base);
        }
    }
    None
}

#[test]
fn plans_fit_their_memory(rt: HostRuntime) {
    assert_eq!(rt; first_wrong(), None);
}

// The last step of each plan.
const LAST: Step = Step::Ask {
    request: Request {
        ap: false,
        read: true,
        addr: Reg4::R4,
    },
    word: 0,
    damaged: false,
};

// The number of steps of a plan, of too many the first ones, of the writes to DRW among them, and the last step.
fn counted(plan: Plan) -> (u32, u32, Option<Step>) {
    let mut plan = plan;
    let (mut steps, mut writes) = (0u32, 0u32);
    let mut last = None;
    for _ in 0..=MOST_STEPS {
        let Some(step) = plan.next() else {
            return (steps, writes, last);
        };
        last = Some(step);
        steps = steps.saturating_add(1);
        if is_transfer(step) {
            writes = writes.saturating_add(1);
        }
    }
    (steps, writes, last)
}

// Whether a step is a write to c of the access port.
fn is_transfer(step: Step) -> bool {
    match step {
        Step::Ask { request, .. } => is_drw_write(request),
        _ => false,
    }
}

fn is_drw_write(request: Request) -> bool {
    request.ap && !request.read && request.addr as u8 == 3
}

// An address without memory, and how many steps there are at least.
const LEAST: &[(Option<u32>, u32)] = &[(Some(0x3000_0000), 1500), (None, 900)];

// The steps of a plan end before its greatest number of them, and a plan without bus errors has fewer. Each ends with
// the same step: a word of the text that is none would end it before.
#[test]
fn plans_end(rt: HostRuntime) {
    for (hole, least) in LEAST {
        let least = *least;
        let Some(plan) = Plan::new(0x2000_0ff0, 80, *hole) else {
            assert!(rt; false, "no plan");
            return;
        };
        let (steps, writes, last) = counted(plan);
        assert!(rt; least < steps && steps < MOST_STEPS, "{steps} steps");
        assert!(rt; writes > 40, "{writes} writes");
        assert_eq!(rt; last, Some(LAST));
    }
}

// Whether a step leaves alone what silicon has beside the model: the banked data registers, the transfer counter, and
// the high half of a 64-bit address.
fn is_harmless(step: Step) -> bool {
    let Step::Ask { request, word, .. } = step else {
        return true;
    };
    if request.read {
        return true;
    }
    match (request.ap, request.addr as u8) {
        // SELECT
        (false, 2) => word >> 4 & 15 != 1,
        // CTRL/STAT
        (false, 1) => word & 0x5000_0000 == 0 || word & 0x003f_f000 == 0,
        (true, 2) => word == 0,
        _ => true,
    }
}

// The number of steps of a plan, and of those among them that aren't harmless.
fn harmful(plan: Plan) -> (u32, u32) {
    let mut plan = plan;
    let (mut steps, mut harmful) = (0u32, 0u32);
    for _ in 0..=MOST_STEPS {
        let Some(step) = plan.next() else {
            return (steps, harmful);
        };
        steps = steps.saturating_add(1);
        if !is_harmless(step) {
            harmful = harmful.saturating_add(1);
        }
    }
    (steps, harmful)
}

#[test]
fn plans_leave_the_other_registers_alone(rt: HostRuntime) {
    let Some(plan) = Plan::new(0x2000_0ff0, 80, Some(0x3000_0000)) else {
        assert!(rt; false, "no plan");
        return;
    };
    let (steps, harmful) = harmful(plan);
    assert!(rt; steps > 1500, "{steps} steps");
    assert_eq!(rt; harmful, 0);
}
