//! A memory is made, or refused.
use super::expect::{expect_eq, expect_eq_at};
use linked_list_allocator::LocalHeap;
use std::alloc::Global;
use std::process::Abort;
use std::test::Fail;
use swd_bits::data_bits;
use swd_port::{Access, Answer, Register, Transfer};
use swd_target::port::Target;
use swd_target::{MakeFault, Memory, Quirks};

// A memory that is made, and the words that it has then, or is refused.
struct Making {
    name: &'static str,
    base: u32,
    words: u32,
    room: u32,
    fault: Option<MakeFault>,
    found: &'static [(u32, Option<u32>)],
}

const MADE: &[Making] = &[
    Making {
        name: "no multiple of four, and no words",
        base: 0x2000_0002,
        words: 0,
        room: 0,
        fault: Some(MakeFault::Base),
        found: &[],
    },
    Making {
        name: "no multiple of four, and words past the end",
        base: 0xffff_fffe,
        words: 16,
        room: 0,
        fault: Some(MakeFault::Base),
        found: &[],
    },
    Making {
        name: "no words at the last address",
        base: 0xffff_fffc,
        words: 0,
        room: 0,
        fault: Some(MakeFault::Empty),
        found: &[],
    },
    Making {
        name: "no words",
        base: 0x2000_0000,
        words: 0,
        room: 0,
        fault: Some(MakeFault::Empty),
        found: &[],
    },
    Making {
        name: "a word behind the last",
        base: 0xffff_fffc,
        words: 2,
        room: 0,
        fault: Some(MakeFault::Range),
        found: &[],
    },
    Making {
        name: "2^30 words that don't begin at 0",
        base: 0x0000_0004,
        words: 0x4000_0000,
        room: 0,
        fault: Some(MakeFault::Range),
        found: &[],
    },
    Making {
        name: "the last word",
        base: 0xffff_fffc,
        words: 1,
        room: 0,
        fault: None,
        found: &[],
    },
    Making {
        name: "sixteen words",
        base: 0x2000_0000,
        words: 16,
        room: 0,
        fault: None,
        found: &[],
    },
    Making {
        name: "sixteen zero words and an empty log",
        base: 0x2000_0000,
        words: 16,
        room: 16,
        fault: None,
        found: &[
            (0x2000_0000, Some(0)),
            (0x2000_003c, Some(0)),
            (0x2000_0002, None),
            (0x2000_0040, None),
            (0x1fff_fffc, None),
        ],
    },
    Making {
        name: "a script's greatest memory",
        base: 0x2000_0000,
        words: 65_536,
        room: 65_536,
        fault: None,
        found: &[(0x2003_fffc, Some(0)), (0x2004_0000, None)],
    },
];

#[test]
fn a_memory_is_made_or_refused_in_order(rt: HostRuntime) {
    for row in MADE {
        match Memory::new(rt.alloc(), row.base, row.words, row.room) {
            Ok(memory) => {
                expect_eq_at(&rt, &row.name, &None, &row.fault);
                for (addr, word) in row.found {
                    expect_eq_at(&rt, &(row.name, *addr), &memory.word(*addr), word);
                }
                expect_eq_at(&rt, &row.name, &memory.log().is_empty(), &true);
            }
            Err(fault) => expect_eq_at(&rt, &row.name, &Some(fault), &row.fault),
        }
    }
}

// The memory has these words at these addresses.
fn has_words<R: Abort>(rt: &R, memory: &Memory, words: &[(u32, Option<u32>)]) {
    for (addr, word) in words {
        expect_eq_at(rt, addr, &memory.word(*addr), word);
    }
}

const LARGE: &[(u32, Option<u32>)] = &[
    (0x2000_0000, Some(1)),
    (0x2003_fffc, Some(65_536)),
    (0x2004_0000, Some(65_537)),
    (0x2004_45bc, Some(70_000)),
    (0x2004_45c0, None),
];

// A memory may be larger than a script's: each of these words is written, and there is no room for more.
#[test]
fn a_memory_of_more_than_65536_words_and_transfers(rt: HostRuntime) -> Result<(), Fail> {
    let memory = Memory::new(rt.alloc(), 0x2000_0000, 70_000, 70_000)?;
    let quirks = Quirks {
        wrap: false,
        late: false,
        filler: 0,
        idr: None,
    };
    let mut target = Target::new(memory, quirks);
    target.arrive(Register::CswWrite, data_bits(0x2300_0012));
    target.arrive(Register::TarWrite, data_bits(0x2000_0000));
    for word in 1..=70_000u32 {
        target.arrive(Register::DrwWrite, data_bits(word));
    }
    target.arrive(Register::TarWrite, data_bits(0x2000_0000));
    target.arrive(Register::DrwWrite, data_bits(7));
    let memory = target.memory();
    expect_eq(&rt, &memory.log().len(), &70_000);
    has_words(&rt, memory, LARGE);
    Ok(())
}

// The words have 64 bytes, and the log more: a small heap refuses the words, a larger one the log
// alone, and what a refused memory took is given back.
#[test]
fn each_part_of_a_memory_is_refused(rt: HostRuntime) -> Result<(), Fail> {
    let mut refused = 0u32;
    for size in 1..60usize {
        let heap = LocalHeap::new(rt.alloc(), size * 16)?;
        match Memory::new(&heap, 0x2000_0000, 16, 16) {
            Ok(memory) => {
                expect_eq(&rt, &memory.word(0x2000_003c), &Some(0));
                assert!(rt; memory.log().is_empty());
            }
            Err(fault) => {
                expect_eq(&rt, &fault, &MakeFault::Memory);
                expect_eq(&rt, &heap.used(), &0);
                refused = refused.saturating_add(1);
            }
        }
    }
    assert!(rt; refused > 4);
    assert!(rt; refused < 59);
    Ok(())
}

const REFUSED: &[(u32, u32, MakeFault)] = &[
    (0x2000_0002, 16, MakeFault::Base),
    (0x2000_0000, 0, MakeFault::Empty),
    (0xffff_fffc, 2, MakeFault::Range),
    (0x2000_0000, 16, MakeFault::Memory),
];

// What is wrong with the numbers is told before any memory is taken.
#[test]
fn numbers_are_refused_before_memory(rt: HostRuntime) -> Result<(), Fail> {
    let heap = LocalHeap::new(rt.alloc(), 16)?;
    for (base, words, fault) in REFUSED {
        let made = Memory::new(&heap, *base, *words, 16);
        expect_eq_at(&rt, fault, &made.err(), &Some(*fault));
    }
    Ok(())
}

const WINDOW: &[(u32, Option<u32>)] = &[
    (0x2000_0004, Some(7)),
    (0x2000_0000, None),
    (0x2000_0008, None),
];

// Elsewhere there is one word, and room for one transfer.
#[test]
fn a_window_makes_one_transfer(rt: HostRuntime) {
    let mut window = Memory::<Global>::window(0x2000_0004, Some(7));
    has_words(&rt, &window, WINDOW);
    expect_eq(
        &rt,
        &window.transfer(Access::Read(0x2000_0000)),
        &Answer::BusFault,
    );
    assert!(rt; window.log().is_empty());
    assert!(rt; window.is_ready(0x2000_0004));
    expect_eq(
        &rt,
        &window.transfer(Access::Write(0x2000_0004, 9)),
        &Answer::Written,
    );
    expect_eq(&rt, &window.word(0x2000_0004), &Some(9));
    let done = Transfer {
        read: false,
        addr: 0x2000_0004,
        word: 9,
    };
    expect_eq(&rt, &window.log(), &[done].as_slice());
    assert!(rt; !window.is_ready(0x2000_0004));
    expect_eq(
        &rt,
        &window.transfer(Access::Read(0x2000_0004)),
        &Answer::BusFault,
    );

    let mut window = Memory::<Global>::window(0x2000_0004, Some(7));
    expect_eq(
        &rt,
        &window.transfer(Access::Read(0x2000_0004)),
        &Answer::Value(7),
    );
    expect_eq(&rt, &window.log().len(), &1);

    let mut none = Memory::<Global>::window(0x2000_0004, None);
    assert!(rt; !none.is_ready(0x2000_0004));
    expect_eq(
        &rt,
        &none.transfer(Access::Write(0x2000_0004, 9)),
        &Answer::BusFault,
    );
}

// The numbers of a target give it back, over any memory, and zeros are those of none.
#[test]
fn a_target_is_given_back_by_its_numbers(rt: HostRuntime) {
    let quirks = Quirks {
        wrap: true,
        late: true,
        filler: 0xa5a5_a5a5,
        idr: None,
    };
    let mut target = Target::new(Memory::<Global>::window(0, None), quirks);
    let fresh = target.fields();
    target.line_reset(false);
    target.arrive(Register::CtrlStatWrite, data_bits(0x5000_0000));
    target.arrive(Register::SelectWrite, data_bits(0xab00_00cd));
    target.arrive(Register::CswWrite, data_bits(0x2300_0012));
    target.arrive(Register::TarWrite, data_bits(0x2000_0004));
    target.arrive(Register::DrwWrite, data_bits(0x1234_5678));
    let fields = target.fields();
    assert!(rt; fields != fresh);
    let mut again = fields.target(Memory::<Global>::window(0x2000_0004, Some(0)));
    expect_eq(&rt, &again.fields(), &fields);
    again.complete();
    let memory = again.memory();
    expect_eq(&rt, &memory.word(0x2000_0004), &Some(0x1234_5678));
    expect_eq(&rt, &again.fields().tar.word, &0x2000_0008);

    let mut none = fresh;
    none.reset = 0;
    assert!(rt; none.target(Memory::<Global>::window(0, None)).fields() != none);
}

const WHY: &[(MakeFault, &str)] = &[
    (MakeFault::Memory, "out of memory for the words or the log"),
    (MakeFault::Base, "the first address is no multiple of 4"),
    (MakeFault::Range, "the words go past 2^32"),
    (MakeFault::Empty, "no words"),
];

#[test]
fn faults_say_why_there_is_no_memory(rt: HostRuntime) -> Result<(), Fail> {
    for (fault, words) in WHY {
        expect_eq(&rt, &format!(in rt.alloc(); "{fault}")?.as_str(), words);
    }
    Ok(())
}
