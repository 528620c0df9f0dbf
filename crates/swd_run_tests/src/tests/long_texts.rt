//! Long texts, one byte at a read and one at a write: nothing gives up before the end. And long traces.
use super::expect::expect_eq;
use super::{ended, limits, only_trace};
use std::alloc::Global;
use std::test::Fail;
use swd_fakes::{OneByteReader, OneByteWriter};
use swd_host::End;
use swd_run::{Records, run_text};
use swd_text::decode_text;

// A text so many times over, after another one.
fn repeated(alloc: Global, first: &[u8], text: &[u8], times: u32) -> Result<Vec<u8>, Fail> {
    let mut all = Vec::new(alloc);
    all.extend_from_slice(first)?;
    for _ in 0..times {
        all.extend_from_slice(text)?;
    }
    Ok(all)
}

// The report of so many reads of address 0, each answered 0.
fn report_of(alloc: Global, count: u32) -> Result<Vec<u8>, Fail> {
    let mut report = repeated(alloc, b"".as_slice(), b"r 00000000 00000000\n", count)?;
    let last = format!(in alloc; "end all {count}\n")?;
    report.extend_from_slice(last.as_str().as_bytes())?;
    Ok(report)
}

// A script of a megabyte with 50,000 reads, a plan of a megabyte, and a report of a megabyte.
#[test]
fn long_texts_are_run_byte_by_byte(rt: HostRuntime) -> Result<(), Fail> {
    let script = repeated(
        rt.alloc(),
        b"memory 0 1\n".as_slice(),
        b"r 0 # a comment here\n",
        50_000,
    )?;
    let plan = repeated(rt.alloc(), b"# no mark\n".as_slice(), b".  \n", 250_000)?;
    let mut script = OneByteReader::new(&script);
    let mut plan = OneByteReader::new(&plan);
    let mut report = OneByteWriter::new(rt.alloc());
    let answer = run_text(
        rt.alloc(),
        &mut script,
        &mut plan,
        limits(0),
        &mut report,
        &mut Records::<Vec<u8>>::none(),
    );
    expect_eq(&rt, &answer, &ended(End::All));
    assert!(rt; report.taken == report_of(rt.alloc(), 50_000)?);
    Ok(())
}

// The transactions of one read, but for the first.
const READ: &[u8] = b"ap 4 write ok 00000000\nap c read ok 00000000\ndp c read ok 00000000\n";

// The opening, a read of address 0 so many times, and idle cycles.
fn listing_of(alloc: Global, count: u32) -> Result<Vec<u8>, Fail> {
    let mut listing = repeated(
        alloc,
        b"reset 56\nswitch\nreset 56\nidle 2\ndp 0 read ok 2ba01477\n\
        dp 0 write ok 0000001e\ndp 4 read ok 00000000\ndp 8 write ok 00000000\n\
        dp 4 write ok 50000000\ndp 4 read ok f0000000\nap 0 write ok 23000012\n\
        ap 0 read ok 00000000\ndp c read ok 23000052\n"
            .as_slice(),
        READ,
        count,
    )?;
    listing.extend_from_slice(b"idle 8\n")?;
    Ok(listing)
}

// More than 65,536 requests, and as many items. Each read of the same address is three requests.
#[test]
fn a_long_run_is_traced_byte_by_byte(rt: HostRuntime) -> Result<(), Fail> {
    let count = 22_000;
    let text = repeated(rt.alloc(), b"memory 0 1\n".as_slice(), b"r 0\n", count)?;
    let mut script = OneByteReader::new(&text);
    let mut plan = OneByteReader::new(b"".as_slice());
    let mut report = OneByteWriter::new(rt.alloc());
    let mut records = only_trace(OneByteWriter::new(rt.alloc()));
    let answer = run_text(
        rt.alloc(),
        &mut script,
        &mut plan,
        limits(0),
        &mut report,
        &mut records,
    );
    let trace = records.trace.expect(&rt, "its writer");
    expect_eq(&rt, &answer, &ended(End::All));
    assert!(rt; report.taken == report_of(rt.alloc(), count)?);
    let mut trace = trace.taken.as_slice();
    let mut listing = Vec::new(rt.alloc());
    expect_eq(&rt, &decode_text(&mut trace, &mut listing), &Ok(()));
    assert!(rt; listing == listing_of(rt.alloc(), count)?);
    Ok(())
}
