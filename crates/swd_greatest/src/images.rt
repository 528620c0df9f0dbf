//! An image that is longer than a mebibyte.
use crate::fault::Fault;
use crate::targets::{BASE, TRIES, bench, is_ready};
use std::alloc::{AllocError, Global};
use swd_image::{Limits, NoReports, dump, load, verify};

/// The bytes of the image.
const BYTES: u32 = (1 << 20) + 4;

const LIMITS: Limits = Limits {
    tries: TRIES,
    resumes: 0,
    bursts: true,
};

/// Loads an image, verifies it, and reads its bytes. Returns whether they are those of the image.
pub fn loaded_and_dumped(alloc: Global) -> Result<bool, Fault> {
    let image = image(alloc)?;
    let mut bench = bench(alloc, BYTES / 4, BYTES, Vec::new(alloc))?;
    if !is_ready(&bench) {
        return Ok(false);
    }
    load(alloc, &mut bench, BASE, &image, LIMITS, &mut NoReports)?;
    let differs = verify(alloc, &mut bench, BASE, &image, LIMITS, &mut NoReports)?;
    let found = dump(
        alloc,
        &mut bench,
        BASE,
        BYTES as u64,
        LIMITS,
        &mut NoReports,
    )?;
    Ok(differs.is_none() && found.as_slice() == image.as_slice())
}

// Bytes that repeat after 251, so that no two words behind each other are the same.
fn image(alloc: Global) -> Result<Vec<u8>, AllocError> {
    let mut bytes = Vec::with_capacity(alloc, BYTES as usize)?;
    for place in 0..BYTES {
        bytes.push((place % 251) as u8)?;
    }
    Ok(bytes)
}
