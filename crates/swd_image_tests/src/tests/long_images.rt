//! Images that are longer than a kilobyte, and than a call.
use super::expect::{expect_at, expect_eq_at};
use super::{BASE, dump_at, load_at, target_of, verify_at};
use std::alloc::Global;
use std::process::Abort;
use std::test::Fail;
use swd_image::ByteDifference;

// An image of so many bytes at this address.
#[derive(Clone, Copy)]
struct Row {
    name: &'static str,
    addr: u32,
    len: usize,
}

const ROWS: &[Row] = &[
    Row {
        name: "across a kilobyte, from one byte before its end",
        addr: BASE + 1023,
        len: 1030,
    },
    Row {
        name: "65,536 words",
        addr: BASE,
        len: 262_144,
    },
    Row {
        name: "65,537 words, of which the first and the last aren't whole",
        addr: BASE + 3,
        len: 262_142,
    },
];

// The byte of an image at this place.
fn byte_at(place: usize) -> u8 {
    (place % 251) as u8
}

fn image_of(alloc: Global, len: usize) -> Result<Vec<u8>, Fail> {
    let mut bytes = Vec::with_capacity(alloc, len)?;
    for place in 0..len {
        bytes.push(byte_at(place))?;
    }
    Ok(bytes)
}

// The image is loaded into words that were all ones, verified, and read with its neighbours; then one byte of it is
// another.
fn is_there<R: Abort>(rt: &R, alloc: Global, row: &Row) -> Result<(), Fail> {
    let ones = vec![in alloc; 0xffff_ffff; 65_540]?;
    let target = target_of(alloc, BASE, &ones, 500_000, &[])?;
    let mut bench = target.expect(rt, "a target");
    let mut bytes = image_of(alloc, row.len)?;
    let done = load_at(alloc, &mut bench, row.addr, &bytes, 0);
    expect_eq_at(rt, &row.name, &done, &Some(Ok(())));
    let end = verify_at(alloc, &mut bench, row.addr, &bytes, 0);
    expect_eq_at(rt, &row.name, &end, &Some(Ok(None)));
    let before = (row.addr.saturating_sub(BASE)) as usize;
    match dump_at(alloc, &mut bench, BASE, 4 * 65_540, 0) {
        Some(Ok(found)) => {
            let whole = found.iter().enumerate().all(|(place, byte)| {
                let inside = before <= place && place - before < row.len;
                *byte
                    == if inside {
                        byte_at(place - before)
                    } else {
                        0xff
                    }
            });
            expect_at(rt, &row.name, whole);
        }
        _ => expect_at(rt, &row.name, false),
    }
    let Some(last) = bytes.last_mut() else {
        return Ok(());
    };
    *last = 0xff;
    let end = verify_at(alloc, &mut bench, row.addr, &bytes, 0);
    let place = row.len.min(0x10_0000).saturating_sub(1);
    let difference = ByteDifference {
        addr: row.addr.saturating_add(place as u32),
        found: byte_at(place),
        expected: 0xff,
    };
    expect_eq_at(rt, &row.name, &end, &Some(Ok(Some(difference))));
    Ok(())
}

#[test]
fn an_image_that_is_long(rt: HostRuntime) -> Result<(), Fail> {
    for row in ROWS {
        is_there(&rt, rt.alloc(), row)?;
    }
    Ok(())
}
