//! Images at a simulated target: memory that is refused at each place, and a target that stays at rest.
use super::expect::{expect_eq, expect_eq_at};
use linked_list_allocator::LocalHeap;
use std::alloc::Allocator;
use std::test::Fail;
use swd_image::{ByteDifference, ImageFault, Limits, NoReports, dump};
use swd_image_ends::{load_pieces, memory_bytes, simulated_target, verify_pieces};
use swd_image_files::{Format, read_image};

const LIMITS: Limits = Limits {
    tries: 3,
    resumes: 0,
    bursts: true,
};

// The memory of a target, into which an image of five bytes was loaded. `None` where memory is refused.
fn loaded<A: Allocator + Copy>(alloc: A) -> Option<Vec<u8, A>> {
    let Ok(image) = read_image(alloc, Format::Binary, b"12345", 0x2000_0001) else {
        return None;
    };
    let memory = b"abcdefgh".as_slice();
    let mut bench = simulated_target(alloc, 0x2000_0000, memory, 64, Vec::new(alloc))?;
    match load_pieces(alloc, &mut bench, &image, LIMITS, &mut NoReports) {
        Ok(()) => memory_bytes(alloc, bench.memory(), 0x2000_0000, 8),
        Err(_) => None,
    }
}

#[test]
fn memory_ends_at_each_place_of_a_load(rt: HostRuntime) -> Result<(), Fail> {
    let (mut refused, mut done) = (false, false);
    for size in 1..300usize {
        let heap = LocalHeap::new(rt.alloc(), size * 16)?;
        match loaded(&heap) {
            Some(bytes) => {
                expect_eq_at(&rt, &size, &bytes.as_slice(), &b"a12345gh".as_slice());
                done = true;
            }
            None => refused = true,
        }
        expect_eq_at(&rt, &size, &heap.used(), &0);
    }
    expect_eq(&rt, &(refused, done), &(true, true));
    Ok(())
}

// Bytes outside the words of a memory are 0, and a memory without words gives a bus error.
#[test]
fn a_memory_is_read_and_compared(rt: HostRuntime) -> Result<(), Fail> {
    let alloc = rt.alloc();
    let memory = b"abcdefgh".as_slice();
    let image = read_image(alloc, Format::Binary, b"bcx", 0x2000_0001)?;
    let Some(mut bench) = simulated_target(alloc, 0x2000_0000, memory, 16, Vec::new(alloc)) else {
        return Err(Fail::from("no memory"));
    };
    let found = verify_pieces(alloc, &mut bench, &image, LIMITS, &mut NoReports);
    let wanted = ByteDifference {
        addr: 0x2000_0003,
        found: b'd',
        expected: b'x',
    };
    expect_eq(&rt, &found, &Ok(Some(wanted)));
    let Some(bytes) = memory_bytes(alloc, bench.memory(), 0x1fff_fffe, 12) else {
        return Err(Fail::from("no memory"));
    };
    let wanted = b"\0\0abcdefgh\0\0".as_slice();
    expect_eq(&rt, &bytes.as_slice(), &wanted);
    let Some(mut bench) = simulated_target(alloc, 0x2000_0000, memory, 16, Vec::new(alloc)) else {
        return Err(Fail::from("no memory"));
    };
    let bytes = dump(alloc, &mut bench, 0x2000_0003, 4, LIMITS, &mut NoReports)?;
    expect_eq(&rt, &bytes.as_slice(), &b"defg".as_slice());
    let Some(mut bench) = simulated_target(alloc, 0, b"".as_slice(), 16, Vec::new(alloc)) else {
        return Err(Fail::from("no memory"));
    };
    match dump(alloc, &mut bench, 0, 1, LIMITS, &mut NoReports) {
        Ok(_) => Err(Fail::from("a byte")),
        Err(fault) => {
            expect_eq(&rt, &fault, &ImageFault::BusFault(0));
            Ok(())
        }
    }
}
