//! Plain memory where memory ends.
use linked_list_allocator::LocalHeap;
use std::alloc::Allocator;
use std::test::Fail;
use swd_capture_text::Reading;
use swd_check::{Check, CheckOptions, Checked, PlainMemory, check_text};
use swd_checker::CheckStart;
use swd_text::encode_text;

const OPTIONS: CheckOptions = CheckOptions {
    start: CheckStart::Made,
    clean: false,
    exact_registers: false,
    overrun: false,
};

// A write of the word at 20000000, from bit 288 on, which the read of RDBUFF confirms.
const WRITES: &[u8] =
    b"reset 56\nidle 2\ndp 0 read ok 2ba01477\ndp 4 write ok 50000000\ndp 4 read ok f0000000\nap 0 write ok 23000012\n\
        ap 4 write ok 20000000\nap c write ok 0000002a\ndp c read ok 00000000\n";

// Whether all of the address space is added as one plain memory.
fn is_added<A: Allocator + Copy>(memory: &mut PlainMemory<A>) -> bool {
    memory.add(0, 1 << 30).is_ok()
}

// What is said of a trace with this plain memory.
fn checked<A: Allocator + Copy>(trace: &[u8], memory: PlainMemory<A>) -> Result<Checked, Fail> {
    let mut text = trace;
    match check_text(Reading::Trace, Check::new(OPTIONS, memory), &mut text) {
        Ok(checked) => Ok(checked),
        Err(_) => Err(Fail::from("no trace")),
    }
}

// All words of the address space on a heap of each size: there is no memory for the range, none for the word that is
// written, which is said, or the items fit. Nothing is left behind.
#[test]
fn plain_memory_takes_what_the_trace_shows(rt: HostRuntime) -> Result<(), Fail> {
    let mut listing = WRITES;
    let mut trace = Vec::new(rt.alloc());
    if encode_text(rt.alloc(), &mut listing, &mut trace).is_err() {
        return Err(Fail::from("no normal listing"));
    }
    let mut met = [false; 3];
    for size in 1..200usize {
        let heap = LocalHeap::new(rt.alloc(), size * 16)?;
        {
            let mut memory = PlainMemory::new(&heap);
            let found = if !is_added(&mut memory) {
                0
            } else {
                match checked(trace.as_slice(), memory)? {
                    Checked::Crowded { place: 288 } => 1,
                    Checked::Fits { items: 9, .. } => 2,
                    _ => return Err(Fail::from("another verdict")),
                }
            };
            met[found] = true;
        }
        assert_eq!(rt; heap.used(), 0);
    }
    assert!(rt; met[0]);
    assert!(rt; met[1]);
    assert!(rt; met[2]);
    Ok(())
}
