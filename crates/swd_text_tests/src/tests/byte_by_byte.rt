//! Long texts, one byte at a read and one at a write: nothing gives up before the end.
use super::expect::{expect_at, expect_eq};
use super::traces::{DPIDR_LINE, DPIDR_READ};
use std::alloc::Global;
use std::io::ErrorKind;
use std::test::Fail;
use swd_bits::one_text;
use swd_fakes::{OneByteReader, OneByteWriter, ShortWriter};
use swd_text::{decode_text, encode_text};
use swd_trace::{Item, encode};

// The trace text of a DPIDR read, as a line.
const DPIDR_TRACE: &[u8] = b"1010010111001110111000101000000001011101010001\n";

// A text so many times over.
fn repeated(alloc: Global, text: &[u8], times: u32) -> Result<Vec<u8>, Fail> {
    let mut all = Vec::new(alloc);
    for _ in 0..times {
        all.extend_from_slice(text)?;
    }
    Ok(all)
}

#[test]
fn a_long_trace_is_decoded_byte_by_byte(rt: HostRuntime) -> Result<(), Fail> {
    let trace = repeated(rt.alloc(), DPIDR_TRACE, 22_000)?;
    let listing = repeated(rt.alloc(), DPIDR_LINE, 22_000)?;
    let mut reader = OneByteReader::new(&trace);
    let mut writer = OneByteWriter::new(rt.alloc());
    expect_eq(&rt, &decode_text(&mut reader, &mut writer), &Ok(()));
    assert!(rt; writer.taken == listing);
    Ok(())
}

#[test]
fn a_long_listing_is_encoded_byte_by_byte(rt: HostRuntime) -> Result<(), Fail> {
    let trace = repeated(rt.alloc(), DPIDR_TRACE, 46_000)?;
    let listing = repeated(rt.alloc(), DPIDR_LINE, 46_000)?;
    let mut reader = OneByteReader::new(&listing);
    let mut writer = OneByteWriter::new(rt.alloc());
    expect_eq(
        &rt,
        &encode_text(rt.alloc(), &mut reader, &mut writer),
        &Ok(()),
    );
    assert!(rt; writer.taken == trace);
    Ok(())
}

#[test]
fn a_transaction_behind_a_long_comment(rt: HostRuntime) -> Result<(), Fail> {
    let mut text = repeated(rt.alloc(), b"# a comment of 25 bytes: \n", 40_000)?;
    text.extend_from_slice(DPIDR_READ)?;
    let mut reader = OneByteReader::new(&text);
    let mut writer = OneByteWriter::new(rt.alloc());
    expect_eq(&rt, &one_text(&mut reader, &mut writer), &Ok(()));
    expect_eq(&rt, &writer.taken.as_slice(), &DPIDR_LINE);
    Ok(())
}

#[test]
fn a_long_item_is_encoded_byte_by_byte(rt: HostRuntime) -> Result<(), Fail> {
    let mut text = vec![in rt.alloc(); b'0'; 1_000_000]?;
    text.push(b'\n')?;
    let mut writer = OneByteWriter::new(rt.alloc());
    assert!(rt; encode(&Item::Idle(1_000_000), &mut writer).is_ok());
    assert!(rt; writer.taken == text);
    Ok(())
}

// Whether a writer fails, or takes no bytes, and the error.
const WRITERS: &[(bool, ErrorKind)] = &[
    (true, ErrorKind::BrokenPipe),
    (false, ErrorKind::WriteZero),
];

// The error is the writer's own, and `WriteZero` where it took no bytes.
#[test]
fn an_item_whose_writer_fails(rt: HostRuntime) -> Result<(), Fail> {
    for (fails, kind) in WRITERS {
        for room in 0..=1030usize {
            let mut writer = ShortWriter::new(rt.alloc(), room, *fails);
            let error = encode(&Item::Idle(1030), &mut writer)
                .err()
                .ok_or("all went out")?;
            expect_at(&rt, &room, error.kind() == *kind);
            expect_eq(&rt, &writer.taken().len(), &room);
        }
    }
    Ok(())
}
