//! Memory that is refused at each place.
use super::expect::{expect_at, expect_eq_at};
use super::{BASE, WORDS, dump_at, load_at, target_of, verify_at};
use linked_list_allocator::LocalHeap;
use std::test::Fail;
use swd_image::ImageFault;
use swd_port::Mark;

// A lost acknowledgement, so that a call is resumed, too.
const LOST: &[(usize, Mark)] = &[(11, Mark::Mute(0))];

const IMAGE: &[u8] = b"\xa0\xa1\xa2\xa3\xa4\xa5";

#[test]
fn memory_ends_in_a_load_and_in_a_verification(rt: HostRuntime) -> Result<(), Fail> {
    let mut refused = (false, false, false);
    let mut done = (false, false, false);
    for size in 1..200usize {
        let heap = LocalHeap::new(rt.alloc(), size * 16)?;
        let target = target_of(rt.alloc(), BASE, &WORDS, 64, LOST)?;
        let mut bench = target.expect(&rt, "a target");
        match load_at(&heap, &mut bench, BASE + 3, IMAGE, 1) {
            Some(Ok(())) => done.0 = true,
            other => {
                expect_eq_at(&rt, &size, &other, &Some(Err(ImageFault::Memory)));
                refused.0 = true;
            }
        }
        expect_eq_at(&rt, &size, &heap.used(), &0);
        let target = target_of(rt.alloc(), BASE, &WORDS, 64, LOST)?;
        let mut bench = target.expect(&rt, "a target");
        match verify_at(&heap, &mut bench, BASE + 3, b"\x44\x55\x66", 1) {
            Some(Ok(None)) => done.1 = true,
            other => {
                expect_eq_at(&rt, &size, &other, &Some(Err(ImageFault::Memory)));
                refused.1 = true;
            }
        }
        expect_eq_at(&rt, &size, &heap.used(), &0);
        let target = target_of(rt.alloc(), BASE, &WORDS, 64, LOST)?;
        let mut bench = target.expect(&rt, "a target");
        match dump_at(&heap, &mut bench, BASE + 3, 2, 1) {
            Some(Ok(bytes)) => {
                expect_eq_at(&rt, &size, &bytes.as_slice(), &b"\x44\x55".as_slice());
                done.2 = true;
            }
            Some(Err(fault)) => {
                expect_eq_at(&rt, &size, &fault, &ImageFault::Memory);
                refused.2 = true;
            }
            None => expect_at(&rt, &size, false),
        }
        expect_eq_at(&rt, &size, &heap.used(), &0);
    }
    expect_eq_at(&rt, &"refused", &refused, &(true, true, true));
    expect_eq_at(&rt, &"done", &done, &(true, true, true));
    Ok(())
}
