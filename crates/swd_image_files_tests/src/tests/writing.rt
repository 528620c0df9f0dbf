//! Files that are written.
use super::expect::{Read, expect_at, expect_eq_at};
use std::process::Abort;
use swd_fakes::ShortWriter;
use swd_image_files::{Format, read_image, write_image};

const BYTES: &[u8] = b"\x00\x01\x02\x03\x04\x05\x06\x07\x08\x09\x0a\x0b\x0c\x0d\x0e\x0f\xf0\xff";

/// An image, and its file.
type Row = (&'static str, Format, u32, &'static [u8], &'static [u8]);

const ROWS: &[Row] = &[
    ("bin", Format::Binary, 0x1234, b"a\nb", b"a\nb"),
    ("bin, empty", Format::Binary, 0, b"", b""),
    (
        "hex, empty",
        Format::IntelHex,
        0x2000_0000,
        b"",
        b":00000001FF\n",
    ),
    (
        "hex",
        Format::IntelHex,
        0x100,
        BYTES,
        b":10010000000102030405060708090A0B0C0D0E0F77\n:02011000F0FFFE\n:00000001FF\n",
    ),
    (
        "hex across 64 KiB",
        Format::IntelHex,
        0xfffe,
        b"\x01\x02\x03\x04",
        b":02FFFE000102FE\n:020000040001F9\n:020000000304F7\n:00000001FF\n",
    ),
    (
        "hex up to ffffffff",
        Format::IntelHex,
        0xffff_fffe,
        b"\x01\x02",
        b":02000004FFFFFC\n:02FFFE000102FE\n:00000001FF\n",
    ),
    (
        "srec, empty",
        Format::SRecord,
        0x2000_0000,
        b"",
        b"S70500000000FA\n",
    ),
    (
        "srec",
        Format::SRecord,
        0x0800_fff8,
        BYTES,
        b"S3150800FFF8000102030405060708090A0B0C0D0E0F73\nS30708010008F0FFF8\nS70500000000FA\n",
    ),
    (
        "srec up to ffffffff",
        Format::SRecord,
        0xffff_ffff,
        b"\x03",
        b"S306FFFFFFFF03FA\nS70500000000FA\n",
    ),
];

// Writes a row's image.
fn write_row<R: Abort>(rt: &R, row: &Row, writer: &mut ShortWriter) -> Result<(), u64> {
    let (name, format, addr, bytes, _) = row;
    assert!(rt;
        bytes.len() as u64 <= 0x1_0000_0000 - *addr as u64,
        "{name}"
    );
    write_image(*format, *addr, bytes, writer)
}

// Expects a row's image.
fn expect_image<R: Abort>(rt: &R, row: &Row, read: &Read) {
    let (name, _, addr, bytes, _) = row;
    match read {
        Ok(image) => {
            expect_eq_at(rt, name, &image.bytes.as_slice(), bytes);
            for piece in image.pieces() {
                expect_eq_at(rt, name, &piece.addr, addr);
                expect_eq_at(rt, name, &piece.bytes, bytes);
            }
        }
        Err(_) => expect_at(rt, name, false),
    }
}

#[test]
fn images_are_written_and_read_back(rt: HostRuntime) {
    for row in ROWS {
        let (name, format, addr, _, file) = row;
        let base = if *format == Format::Binary { *addr } else { 0 };
        let mut writer = ShortWriter::new(rt.alloc(), 4096, true);
        expect_eq_at(&rt, name, &write_row(&rt, row, &mut writer), &Ok(()));
        expect_eq_at(&rt, name, &writer.taken(), &&file[..]);
        expect_image(&rt, row, &read_image(rt.alloc(), *format, file, base));
    }
}

#[test]
fn a_writer_fails_at_each_byte(rt: HostRuntime) {
    for row in ROWS {
        let (name, .., file) = row;
        for room in 0..file.len() {
            for fails in [false, true] {
                let mut writer = ShortWriter::new(rt.alloc(), room, fails);
                let sent = write_row(&rt, row, &mut writer);
                expect_eq_at(&rt, name, &sent, &Err(room as u64));
                expect_eq_at(&rt, name, &writer.taken(), &&file[..room]);
            }
        }
    }
}
