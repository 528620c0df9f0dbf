//! Scripts and plans on worked texts, for every cut, and with memory refused.
use super::expect::{expect_eq, expect_eq_at};
use linked_list_allocator::LocalHeap;
use std::alloc::{AllocError, Allocator, Global};
use std::fmt;
use std::fmt::{Display, Formatter};
use std::process::Abort;
use std::test::Fail;
use swd_io::Consumer;
use swd_port::{Access, Mark};
use swd_script::{Batch, PlanReader, Script, ScriptFault, ScriptReader};

/// The script that a text in two pieces says.
pub(super) fn script_in<A: Allocator + Copy>(
    alloc: A,
    text: &[u8],
    cut: usize,
) -> Result<Script<A>, ScriptFault> {
    let cut = cut.min(text.len());
    let mut reader = ScriptReader::new(alloc);
    reader.take(&mut (), &text[..cut])?;
    reader.take(&mut (), &text[cut..])?;
    reader.finish()
}

/// The marks that a text in two pieces says.
pub(super) fn plan_in<A: Allocator>(
    alloc: A,
    text: &[u8],
    cut: usize,
) -> Result<Vec<Mark, A>, ScriptFault> {
    let cut = cut.min(text.len());
    let mut reader = PlanReader::new(alloc);
    reader.take(&mut (), &text[..cut])?;
    reader.take(&mut (), &text[cut..])?;
    reader.finish()
}

// A script: where its memory begins, its words, and the room of its log; and behind each `;` a call: the address of a
// block, the numbers of an `until`, the accesses, and of each read whose word is verified its line, its place among the
// accesses, its address and the word.
#[derive(Clone, Copy)]
struct Shown<'s> {
    script: &'s Script<Global>,
}

impl Display for Shown<'_> {
    fn fmt<W: fmt::Write>(&self, f: &mut Formatter<W>) -> fmt::Result {
        let script = self.script;
        write!(f, "{:x} {} {}", script.base, script.words, script.room)?;
        for batch in script.batches.as_slice() {
            f.write_str(";")?;
            show_call(f, batch)?;
        }
        Ok(())
    }
}

fn show_call<W: fmt::Write>(f: &mut Formatter<W>, batch: &Batch<Global>) -> fmt::Result {
    if let Some(addr) = batch.block {
        write!(f, " block {addr:x}")?;
    }
    if let Some(until) = batch.until {
        let most = until.most;
        write!(
            f,
            " until {:x} {:x} {:x} {most}",
            until.addr, until.mask, until.value
        )?;
    }
    for access in batch.accesses.as_slice() {
        match *access {
            Access::Read(addr) => write!(f, " r {addr:x}")?,
            Access::Write(addr, word) => write!(f, " w {addr:x} {word:x}")?,
        }
    }
    for read in batch.expected.as_slice() {
        let (line, place) = (read.line, read.place);
        write!(f, " expects {line} {place} {:x} {:x}", read.addr, read.word)?;
    }
    Ok(())
}

const SCRIPTS: &[(&str, &[u8], &str)] = &[
    (
        "a write and reads",
        b"memory 20000000 16\nw 20000000 deadbeef\nrn 20000000 2\nr 30000000\n",
        "20000000 16 65536; w 20000000 deadbeef r 20000000 r 20000004 r 30000000",
    ),
    (
        "blanks, comments and line ends are passed over",
        b"# a script \xff\x00\r\n\r\n \t \n\tmemory \t20000000  16# of sixteen words\r\nroom 5 #\xff\r\r\n\
            w\t2000000C\tDeAdBeEf\t\n#\nr 0# and no more\r",
        "20000000 16 5; w 2000000c deadbeef r 0",
    ),
    (
        "numbers of every length",
        b"memory 0 1\nw 4 1\nw 10 aB\nw 100 0aBc\nw 1000 1234567\nw 0000000c FFFFFFFF\n\
            rn 00000010 0000000002\n",
        "0 1 65536; w 4 1 w 10 ab w 100 abc w 1000 1234567 w c ffffffff r 10 r 14",
    ),
    (
        "the greatest numbers in range",
        b"memory fffc0000 65536\nroom 65536\nr fffffffc",
        "fffc0000 65536 65536; r fffffffc",
    ),
    (
        "no room, and the last two addresses",
        b"memory 0 1\nroom 0\nrn fffffff8 2",
        "0 1 0; r fffffff8 r fffffffc",
    ),
    (
        "a block is the only access line",
        b"memory 20000000 2\nroom 9\n# all of it\nblock 20000000 3\n\n",
        "20000000 2 9; block 20000000 r 20000000 r 20000004 r 20000008",
    ),
    (
        "the reads of a block, apart",
        b"memory 20000000 2\nrn 20000000 3\n",
        "20000000 2 65536; r 20000000 r 20000004 r 20000008",
    ),
    (
        "next begins a further call",
        b"memory 20000000 4\nroom 9\nw 20000000 5\nnext\nblock 20000000 2 # read back\n next\t#\nnext\n\
            rn 20000004 1\n",
        "20000000 4 9; w 20000000 5; block 20000000 r 20000000 r 20000004;; r 20000004",
    ),
    (
        "verify is a read with its word",
        b"memory 20000000 4\nw 20000000 5\nverify 20000000 5\n\nr 20000004\nverify 2000000C DeadBeef\n\
            next\nverify 20000008 0\n",
        "20000000 4 65536; w 20000000 5 r 20000000 r 20000004 r 2000000c expects 3 1 20000000 5 expects 6 3 \
            2000000c deadbeef; r 20000008 expects 8 0 20000008 0",
    ),
    (
        "hexadecimal numbers may have a prefix",
        b"memory 0x20000000 1\nw 0X2000000C 0xdeadBEEF\nw 0x0 0X00000001\nrn 0x10 2\nr 0x0\n",
        "20000000 1 65536; w 2000000c deadbeef w 0 1 r 10 r 14 r 0",
    ),
    (
        "until is a call of its own",
        b"memory 0 1\nr 0\nuntil 4002200c 1 0 1000\nr 0\n",
        "0 1 65536; r 0; until 4002200c 1 0 1000 r 4002200c; r 0",
    ),
    (
        "until first, one after another, and last",
        b"memory 0 1\nuntil 0x4002200c 0x1 0x0 1000\nuntil fffffffc FFFFFFFF ffffffff 1000000\n\
            until 0 0 0 1",
        "0 1 65536; until 4002200c 1 0 1000 r 4002200c; until fffffffc ffffffff ffffffff 1000000 r fffffffc; \
            until 0 0 0 1 r 0",
    ),
    (
        "next after until begins one call, and next before it none",
        b"memory 0 1\nr 0\nnext\nuntil 4002200c 1 0 1000\nnext\nr 0\n",
        "0 1 65536; r 0; until 4002200c 1 0 1000 r 4002200c; r 0",
    ),
    (
        "next at the end, after until",
        b"memory 0 1\nuntil 4002200c 1 0 1000\nnext\n",
        "0 1 65536; until 4002200c 1 0 1000 r 4002200c;",
    ),
    (
        "until between a block, a block, and a verify",
        b"memory 0 1\nblock 20000000 1\nuntil 0 0 0 1\nblock 20000000 1\nuntil 0 0 0 1\nverify 0 5\n",
        "0 1 65536; block 20000000 r 20000000; until 0 0 0 1 r 0; block 20000000 r 20000000; until 0 0 0 1 r 0; \
            r 0 expects 6 0 0 5",
    ),
];

// What is shown of a script.
fn as_text(alloc: Global, script: &Script<Global>) -> Result<String, AllocError> {
    format!(in alloc; "{}", Shown { script })
}

// Compares what is shown of a script, which was cut at this place.
fn is_said<R: Abort>(
    rt: &R,
    alloc: Global,
    at: (&str, usize),
    script: &Script<Global>,
    said: &str,
) {
    match as_text(alloc, script) {
        Ok(found) => expect_eq_at(rt, &at, &found.as_str(), &said),
        Err(fault) => panic!(rt; "{}, cut at {}: {fault:?}", at.0, at.1),
    }
}

#[test]
fn a_script_is_read_however_it_is_cut(rt: HostRuntime) {
    for (name, text, said) in SCRIPTS {
        for cut in 0..text.len().saturating_add(1) {
            match script_in(rt.alloc(), text, cut) {
                Ok(script) => is_said(&rt, rt.alloc(), (*name, cut), &script, *said),
                Err(fault) => panic!(rt; "{name}, cut at {cut}: {fault:?}"),
            }
        }
    }
}

// Scripts of long calls: of each call how many accesses it has, and the last of them.
const LONG: &[(&str, &[u8], &[(usize, Access)])] = &[
    (
        "a call has at most 65536 accesses",
        b"memory 0 1\nrn 0 65536\n",
        &[(65536, Access::Read(0x3_fffc))],
    ),
    (
        "a script has more in several calls",
        b"memory 0 1\nrn 0 65536\nnext\nrn 0 34463\nr 4\nnext\nblock 0 65536\n",
        &[
            (65536, Access::Read(0x3_fffc)),
            (34464, Access::Read(4)),
            (65536, Access::Read(0x3_fffc)),
        ],
    ),
];

#[test]
fn a_script_has_long_calls(rt: HostRuntime) -> Result<(), Fail> {
    for (name, text, calls) in LONG {
        let script = script_in(rt.alloc(), text, 0)?;
        expect_eq_at(&rt, name, &script.batches.len(), &calls.len());
        for (batch, (length, last)) in script.batches.as_slice().iter().zip(calls.iter()) {
            let accesses = batch.accesses.as_slice();
            expect_eq_at(&rt, name, &accesses.len(), length);
            expect_eq_at(&rt, name, &accesses.last(), &Some(last));
        }
    }
    Ok(())
}

// The accesses of a script's first call.
fn accesses<A: Allocator>(script: &Script<A>) -> &[Access] {
    match script.batches.as_slice().first() {
        Some(batch) => batch.accesses.as_slice(),
        None => &[],
    }
}

// Pieces of a text, each so many times over.
fn take_all(reader: &mut ScriptReader<Global>, pieces: &[(&[u8], u32)]) -> Result<(), ScriptFault> {
    for (piece, times) in pieces {
        for _ in 0..*times {
            reader.take(&mut (), piece)?;
        }
    }
    Ok(())
}

const LONG_LINE: &[(&[u8], u32)] = &[
    (b"memory 0 1 #", 1),
    (&[b'x'; 1000], 1000),
    (b"\nr", 1),
    (&[b' '; 1000], 1000),
    (b"8", 1),
];

const MANY_LINES: &[(&[u8], u32)] = &[(b"memory 0 1\n", 1), (b"r 4\n", 65536)];

#[test]
fn a_script_comes_in_many_pieces(rt: HostRuntime) -> Result<(), Fail> {
    let mut reader = ScriptReader::new(rt.alloc());
    take_all(&mut reader, LONG_LINE)?;
    let script = reader.finish()?;
    expect_eq(&rt, &accesses(&script), &[Access::Read(8)].as_slice());
    // A further access is one too many.
    let mut reader = ScriptReader::new(rt.alloc());
    take_all(&mut reader, MANY_LINES)?;
    expect_eq(
        &rt,
        &reader.take(&mut (), b"w 0 0\n".as_slice()),
        &Err(ScriptFault::Range { line: 65538 }),
    );
    Ok(())
}

const PLANS: &[(&str, &[u8], &[Mark])] = &[
    (
        "each mark",
        b".\n\nwait # not now\r\n\tflip 0\nflip  0000000032\n#\ndeaf#\nmute 0\nmute 2",
        &[
            Mark::Clean,
            Mark::Wait,
            Mark::Flip(0),
            Mark::Flip(32),
            Mark::Deaf,
            Mark::Mute(0),
            Mark::Mute(2),
        ],
    ),
    ("no mark", b"", &[]),
    (
        "the eleventh mark",
        b".\n.\n.\n.\n.\n.\n.\n.\n.\n.\nmute 0\n",
        &[
            Mark::Clean,
            Mark::Clean,
            Mark::Clean,
            Mark::Clean,
            Mark::Clean,
            Mark::Clean,
            Mark::Clean,
            Mark::Clean,
            Mark::Clean,
            Mark::Clean,
            Mark::Mute(0),
        ],
    ),
];

#[test]
fn a_plan_is_read_however_it_is_cut(rt: HostRuntime) -> Result<(), Fail> {
    for (name, text, marks) in PLANS {
        for cut in 0..=text.len() {
            let plan = plan_in(rt.alloc(), text, cut)?;
            expect_eq_at(&rt, &(name, cut), &plan.as_slice(), &&marks[..]);
        }
    }
    Ok(())
}

#[test]
fn each_growth_of_a_script_is_refused(rt: HostRuntime) -> Result<(), Fail> {
    let mut refused = 0u32;
    for size in 1..200usize {
        let heap = LocalHeap::new(rt.alloc(), size * 64)?;
        match script_in(
            &heap,
            b"memory 0 1\n\nw 0 1\nrn 0 200\nr 4\nuntil 0 1 1 9\nverify 0 1\n".as_slice(),
            3,
        ) {
            Ok(script) => {
                expect_eq(&rt, &accesses(&script).len(), &202);
                expect_eq(&rt, &script.batches.len(), &3);
            }
            Err(ScriptFault::Memory { line: 3..=8 }) => refused = refused.saturating_add(1),
            Err(_) => assert!(rt; false),
        }
    }
    assert!(rt; refused > 2);
    assert!(rt; refused < 199);
    Ok(())
}

// A plan of so many lines, a piece each.
fn quiet_plan<A: Allocator>(alloc: A, lines: u32) -> Result<Vec<Mark, A>, ScriptFault> {
    let mut reader = PlanReader::new(alloc);
    for _ in 0..lines {
        reader.take(&mut (), b".\n".as_slice())?;
    }
    reader.finish()
}

#[test]
fn each_growth_of_a_plan_is_refused(rt: HostRuntime) -> Result<(), Fail> {
    let mut refused = 0u32;
    for size in 1..100usize {
        let heap = LocalHeap::new(rt.alloc(), size * 16)?;
        match quiet_plan(&heap, 40) {
            Ok(marks) => expect_eq(&rt, &marks.len(), &40),
            Err(ScriptFault::Memory { line }) => {
                assert!(rt; line <= 40);
                refused = refused.saturating_add(1);
            }
            Err(_) => assert!(rt; false),
        }
    }
    assert!(rt; refused > 2);
    assert!(rt; refused < 99);
    Ok(())
}

const FAULTS: &[(ScriptFault, &str)] = &[
    (ScriptFault::Word { line: 2 }, "line 2: word"),
    (ScriptFault::Number { line: 1 }, "line 1: number"),
    (ScriptFault::Range { line: 30 }, "line 30: range"),
    (
        ScriptFault::NoMemoryLine { line: 1 },
        "line 1: no memory line",
    ),
    (ScriptFault::Memory { line: 4 }, "line 4: memory"),
];

#[test]
fn faults_are_told_with_their_lines(rt: HostRuntime) -> Result<(), Fail> {
    for (fault, text) in FAULTS {
        let told = format!(in rt.alloc(); "{fault}")?;
        expect_eq(&rt, &told.as_str(), text);
    }
    Ok(())
}
