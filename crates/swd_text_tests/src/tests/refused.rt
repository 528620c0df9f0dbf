//! Scripts and plans at fault, each with the fault that is told.
use super::expect::expect_eq_at;
use super::scripts::{plan_in, script_in};
use swd_script::ScriptFault;

// Texts that are told with the same fault.
struct Refused {
    name: &'static str,
    fault: ScriptFault,
    texts: &'static [&'static [u8]],
}

const SCRIPTS: &[Refused] = &[
    Refused {
        name: "the second line is wrong in its words",
        fault: ScriptFault::Word { line: 2 },
        texts: &[
            b"memory 0 1\nread 0\n",
            b"memory 0 1\nR 0\n",
            b"memory 0 1\nr\n",
            b"memory 0 1\nr 0 0\n",
            b"memory 0 1\nr 0 0 0\n",
            b"memory 0 1\nw 0\n",
            b"memory 0 1\nw 0 0 0\n",
            b"memory 0 1\nrn 0\n",
            b"memory 0 1\nroom\n",
            b"memory 0 1\nroom 1 1\n",
            b"memory 0 1\nmemory 0 1\n",
            b"memory 0 1\nroommmmmmmmm 1\n",
            b"memory 0 1\nblock 0\n",
            b"memory 0 1\nblock 0 1 1\n",
            b"memory 0 1\nblocks 0 1\n",
            b"memory 0 1\nnext 1\n",
            b"memory 0 1\nNext\n",
            b"memory 0 1\nnextnextnex\n",
            b"memory 0 1\nverify 0\n",
            b"memory 0 1\nverify 0 0 0\n",
            b"memory 0 1\nverif 0 0\n",
            b"memory 0 1\nuntil 0 0 0\n",
            b"memory 0 1\nuntil 0 0 0 1 1\n",
            b"memory 0 1\nuntil 0 0 0 1 1 1 1\n",
            b"memory 0 1\nuntil\n",
            b"memory 0 1\nUntil 0 0 0 1\n",
            b"memory 0 1\nuntils 0 0 0 1\n",
            b"memory 0 1\nr 0 0 0 0\n",
            b"memory 0 1\nr 0\x00\n",
            b"memory 0 1\nr 0\x7f\n",
            b"memory 0 1\nr \xc3\xa9\n",
            b"memory 0 1\nr 0\x0b\n",
            b"memory 0 1\nr 0\r \n",
            b"memory 0 1\n\rr 0\n",
            b"memory 0 1\nr 0\r\r\n",
            b"memory 0 1\nr 0\r# no\n",
            b"memory 0 1\nr 0\r",
            b"memory 0 1\n\r",
        ],
    },
    Refused {
        name: "the third line is wrong in its words",
        fault: ScriptFault::Word { line: 3 },
        texts: &[
            b"memory 0 1\nroom 1\nroom 1\n",
            b"memory 20000000 1\nr 20000000\nroom 3\n",
            b"memory 0 1\nrn 0 2\nroom 3",
            b"memory 20000000 2\nblock 20000000 3\nr 20000000",
            b"memory 0 1\nblock 0 1\nw 0 0\n",
            b"memory 0 1\nblock 0 1\nrn 0 1\n",
            b"memory 0 1\nblock 0 1\nblock 4 1\n",
            b"memory 0 1\nblock 0 1\nroom 3\n",
            b"memory 0 1\nblock 0 1\nverify 0 0\n",
            b"memory 0 1\nnext\nroom 3\n",
            b"memory 0 1\nr 0\nblock 0 1\n",
            b"memory 0 1\nw 0 0\nblock g g\n",
            b"memory 0 1\nblock 0 1\nr g\n",
            b"memory 0 1\nuntil 0 0 0 1\nroom 3\n",
        ],
    },
    Refused {
        name: "the first line is wrong in its words",
        fault: ScriptFault::Word { line: 1 },
        texts: &[
            b"memory\n",
            b"memory 0\n",
            b"memory 0 1 1\n",
            b"memory 0 1 1 1\n",
        ],
    },
    Refused {
        name: "the second line is wrong in a number",
        fault: ScriptFault::Number { line: 2 },
        texts: &[
            b"memory 20000000 1\nr 2000000g\n",
            b"memory 0 1\nr 000000000\n",
            b"memory 0 1\nr 0x\n",
            b"memory 0 1\nr x0\n",
            b"memory 0 1\nr 00x0\n",
            b"memory 0 1\nr 0x0x0\n",
            b"memory 0 1\nr 0xg\n",
            b"memory 0 1\nr 0x000000000\n",
            b"memory 0 1\nw 0 0x100000000\n",
            b"memory 0 1\nroom 0x1\n",
            b"memory 0 1\nuntil g 0 0 1\n",
            b"memory 0 1\nuntil 0 g 0 1\n",
            b"memory 0 1\nuntil 0 0 g 1\n",
            b"memory 0 1\nuntil 0 0 0 g\n",
            b"memory 0 1\nuntil 0 0 0 0x1\n",
            b"memory 0 1\nr -0\n",
            b"memory 0 1\nr +0\n",
            b"memory 0 1\nw 0 g\n",
            b"memory 0 1\nw 0 100000000\n",
            b"memory 0 1\nroom a\n",
            b"memory 0 1\nroom 4294967296\n",
            b"memory 0 1\nroom 9999999999\n",
            b"memory 0 1\nroom 00000000001\n",
            b"memory 0 1\nrn 0 1a\n",
            b"memory 0 1\nrn 0 4294967296\n",
        ],
    },
    Refused {
        name: "the first line is wrong in a number",
        fault: ScriptFault::Number { line: 1 },
        texts: &[
            b"memory 000000000 1\n",
            b"memory 0 0x1\n",
            b"memory 0 00000000001\n",
        ],
    },
    Refused {
        name: "the first line is wrong in a range",
        fault: ScriptFault::Range { line: 1 },
        texts: &[
            b"memory 20000002 1\n",
            b"memory 0 0\n",
            b"memory 0 65537\n",
            b"memory 0 4294967295\n",
            b"memory fffffffc 2\n",
            b"memory fffc0004 65536\n",
        ],
    },
    Refused {
        name: "the second line is wrong in a range",
        fault: ScriptFault::Range { line: 2 },
        texts: &[
            b"memory 20000000 1\nrn fffffffc 2\n",
            b"memory 0 1\nroom 65537\n",
            b"memory 0 1\nroom 4294967295\n",
            b"memory 0 1\nr 1\n",
            b"memory 0 1\nw 2 0\n",
            b"memory 0 1\nrn 3 1\n",
            b"memory 0 1\nrn 0 0\n",
            b"memory 0 1\nrn 0 65537\n",
            b"memory 0 1\nrn 0 4294967295\n",
            b"memory 20000000 1\nblock fffffffc 2\n",
            b"memory 0 1\nblock 3 1\n",
            b"memory 0 1\nblock 0 0\n",
            b"memory 0 1\nblock 0 65537\n",
            b"memory 0 1\nuntil 2 0 0 1\n",
            b"memory 0 1\nuntil 0 0 0 0\n",
            b"memory 0 1\nuntil 0 0 0 1000001\n",
            b"memory 0 1\nuntil 0 0 1 1\n",
            b"memory 0 1\nuntil 0 7 8 1\n",
            b"memory 0 1\nuntil 0 7fffffff ffffffff 1\n",
        ],
    },
    Refused {
        name: "memory comes first",
        fault: ScriptFault::NoMemoryLine { line: 1 },
        texts: &[
            b"",
            b"\n\n",
            b"# nothing\r\n",
            b"r 20000000\n",
            b"room 1\n",
            b"w 0 0\nmemory 0 1\n",
            b"rn 0 1\n",
            b"block 0 1\n",
            b"until 0 0 0 1\n",
        ],
    },
    Refused {
        name: "memory comes first, after lines without words",
        fault: ScriptFault::NoMemoryLine { line: 3 },
        texts: &[b"\n#\nr 0\nmemory 0 1\n"],
    },
    // Of two faults of one line the one that comes first in the order is told: words, the missing
    // memory, numbers, ranges.
    Refused {
        name: "the first fault is told: words of the first line",
        fault: ScriptFault::Word { line: 1 },
        texts: &[
            b"r g g\n",
            b"r 1 \x80\n",
            b"memory g 0 0\n",
            b"memory 1 0 0\n",
        ],
    },
    Refused {
        name: "the first fault is told: the missing memory of the first line",
        fault: ScriptFault::NoMemoryLine { line: 1 },
        texts: &[b"r g\n", b"r 1\n", b"room 65537\n", b"w 1 g\n"],
    },
    Refused {
        name: "the first fault is told: numbers of the first line",
        fault: ScriptFault::Number { line: 1 },
        texts: &[b"memory 1 g\n", b"memory g 0\n"],
    },
    Refused {
        name: "the first fault is told: words of the second line",
        fault: ScriptFault::Word { line: 2 },
        texts: &[b"memory 0 1\nmemory g g\n", b"memory 0 1\nmemory 1 0\n"],
    },
    Refused {
        name: "the first fault is told: words of the third line",
        fault: ScriptFault::Word { line: 3 },
        texts: &[
            b"memory 0 1\nr 0\nroom g\n",
            b"memory 0 1\nr 0\nroom 65537\n",
        ],
    },
    Refused {
        name: "the first fault is told: numbers of the second line",
        fault: ScriptFault::Number { line: 2 },
        texts: &[
            b"memory 0 1\nrn 1 g\n",
            b"memory 0 1\nrn g 0\n",
            b"memory 0 1\nblock 1 g\n",
            b"memory 0 1\nw 1 g\n",
            b"memory 0 1\nr g\nr\nr 1\n",
        ],
    },
    Refused {
        name: "the first fault is told: ranges of the second line",
        fault: ScriptFault::Range { line: 2 },
        texts: &[b"memory 0 1\nr 1\nr g\nr\n"],
    },
    Refused {
        name: "a call has at most 65536 accesses",
        fault: ScriptFault::Range { line: 3 },
        texts: &[
            b"memory 0 1\nrn 0 65536\nr 0\n",
            b"memory 0 1\nw 0 0\nrn 0 65536\n",
        ],
    },
    Refused {
        name: "a byte that is no text stands outside a comment",
        fault: ScriptFault::Word { line: 5 },
        texts: &[
            b"# a script\r\n\r\n \t \n\tmemory \t20000000  16# of sixteen words\r\nroom 5 \xff\n",
        ],
    },
];

const PLANS: &[Refused] = &[
    Refused {
        name: "a mark is wrong in its words",
        fault: ScriptFault::Word { line: 2 },
        texts: &[
            b".\n..\n",
            b".\nclean\n",
            b".\nWait\n",
            b".\nwait 1\n",
            b".\n. .\n",
            b".\nflip\n",
            b".\nflip 1 1\n",
            b".\nmute 1 1 1\n",
            b".\ndeaf 0\n",
            b".\nwaitwaitwaitwait\n",
            b".\nwait\x80\n",
            b".\nwait\r",
            b".\nr 0\n",
        ],
    },
    Refused {
        name: "a mark is wrong in a number",
        fault: ScriptFault::Number { line: 1 },
        texts: &[
            b"flip a\n",
            b"flip 4294967296\n",
            b"mute 00000000000\n",
            b"mute -1\n",
        ],
    },
    Refused {
        name: "a mark is wrong in a range",
        fault: ScriptFault::Range { line: 1 },
        texts: &[
            b"flip 33\n",
            b"flip 4294967295\n",
            b"mute 3\n",
            b"mute 256\n",
        ],
    },
];

#[test]
fn texts_at_fault_are_told_with_their_lines(rt: HostRuntime) {
    for row in SCRIPTS {
        for (index, text) in row.texts.iter().enumerate() {
            let found = script_in(rt.alloc(), text, 0).err();
            expect_eq_at(&rt, &(row.name, index), &found, &Some(row.fault));
        }
    }
    for row in PLANS {
        for (index, text) in row.texts.iter().enumerate() {
            let found = plan_in(rt.alloc(), text, 0).err();
            expect_eq_at(&rt, &(row.name, index), &found, &Some(row.fault));
        }
    }
}
