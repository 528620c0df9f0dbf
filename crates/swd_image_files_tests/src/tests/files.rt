//! Valid files. Their records are those of the formats' documents and of Wikipedia's articles, or their checksums were
//! added up apart from the program.
use super::expect::{Pieces, expect_eq_at, expect_pieces};
use swd_image_files::{Format, read_image};

/// A file with its offset, and its pieces.
type Row = (&'static str, Format, u32, &'static [u8], Pieces);

const HEX: Format = Format::IntelHex;

const SREC: Format = Format::SRecord;

const BIN: Format = Format::Binary;

const ROWS: &[Row] = &[
    (
        "binary",
        BIN,
        0x2000_0001,
        b":\n\x00",
        &[(0x2000_0001, b":\n\x00")],
    ),
    ("an empty binary", BIN, 5, b"", &[]),
    (
        "a binary up to ffffffff",
        BIN,
        0xffff_fffe,
        b"ab",
        &[(0xffff_fffe, b"ab")],
    ),
    (
        "one record",
        HEX,
        0,
        b":10010000214601360121470136007EFE09D2190140\n:00000001FF\n",
        &[(
            0x100,
            b"\x21\x46\x01\x36\x01\x21\x47\x01\x36\x00\x7e\xfe\x09\xd2\x19\x01",
        )],
    ),
    (
        "records that continue each other",
        HEX,
        0,
        b":10010000214601360121470136007EFE09D2190140\n:100110002146017E17C20001FF5F16002148011928\n:00000001FF\n",
        &[(
            0x100,
            b"\x21\x46\x01\x36\x01\x21\x47\x01\x36\x00\x7e\xfe\x09\xd2\x19\x01\
\x21\x46\x01\x7e\x17\xc2\x00\x01\xff\x5f\x16\x00\x21\x48\x01\x19",
        )],
    ),
    (
        "lower case",
        HEX,
        0,
        b":01000000aa55\n:00000001ff\n",
        &[(0, b"\xaa")],
    ),
    (
        "mixed case",
        HEX,
        0,
        b":02000400cCDd51\n:00000001fF\n",
        &[(4, b"\xcc\xdd")],
    ),
    (
        "carriage returns",
        HEX,
        0,
        b":01000000AA55\r\n:00000001FF\r\n",
        &[(0, b"\xaa")],
    ),
    (
        "no line feed at the end",
        HEX,
        0,
        b":01000000AA55\n:00000001FF",
        &[(0, b"\xaa")],
    ),
    (
        "blank lines",
        HEX,
        0,
        b"\n  \t\n:01000000AA55\n\r\n:00000001FF\n\n \r\n\t",
        &[(0, b"\xaa")],
    ),
    ("no data", HEX, 0, b":00000001FF\n", &[]),
    (
        "a record without data",
        HEX,
        0,
        b":0000000000\n:00000001FF\n",
        &[],
    ),
    (
        "a gap",
        HEX,
        0,
        b":01000000AA55\n:02000400CCDD51\n:00000001FF\n",
        &[(0, b"\xaa"), (4, b"\xcc\xdd")],
    ),
    (
        "backward",
        HEX,
        0,
        b":02000400CCDD51\n:01000100BB43\n:01000000AA55\n:00000001FF\n",
        &[(4, b"\xcc\xdd"), (1, b"\xbb"), (0, b"\xaa")],
    ),
    (
        "an offset",
        HEX,
        0x1000,
        b":01000000AA55\n:00000001FF\n",
        &[(0x1000, b"\xaa")],
    ),
    (
        "a segment",
        HEX,
        0,
        b":020000021200EA\n:01000000AA55\n:00000001FF\n",
        &[(0x12000, b"\xaa")],
    ),
    (
        "a segment wraps",
        HEX,
        0,
        b":020000021200EA\n:04FFFE0001020304F5\n:00000001FF\n",
        &[(0x21ffe, b"\x01\x02"), (0x12000, b"\x03\x04")],
    ),
    (
        "the last segment",
        HEX,
        0,
        b":02000002FFFFFE\n:04FFFE0001020304F5\n:00000001FF\n",
        &[(0x10_ffee, b"\x01\x02"), (0xf_fff0, b"\x03\x04")],
    ),
    (
        "an upper half",
        HEX,
        0,
        b":020000040800F2\n:01000000AA55\n:00000001FF\n",
        &[(0x0800_0000, b"\xaa")],
    ),
    (
        "an upper half and an offset",
        HEX,
        0x10,
        b":020000040800F2\n:01000000AA55\n:00000001FF\n",
        &[(0x0800_0010, b"\xaa")],
    ),
    (
        "addresses don't wrap at 64 KiB behind an upper half",
        HEX,
        0,
        b":020000040800F2\n:04FFFE0001020304F5\n:00000001FF\n",
        &[(0x0800_fffe, b"\x01\x02\x03\x04")],
    ),
    (
        "nor before one",
        HEX,
        0,
        b":04FFFE0001020304F5\n:00000001FF\n",
        &[(0xfffe, b"\x01\x02\x03\x04")],
    ),
    (
        "the last of two bases counts",
        HEX,
        0,
        b":020000040800F2\n:020000021200EA\n:04FFFE0001020304F5\n:020000040800F2\n:01000000AA55\n:00000001FF\n",
        &[
            (0x21ffe, b"\x01\x02"),
            (0x12000, b"\x03\x04"),
            (0x0800_0000, b"\xaa"),
        ],
    ),
    (
        "up to ffffffff",
        HEX,
        0,
        b":02000004FFFFFC\n:02FFFE000102FE\n:00000001FF\n",
        &[(0xffff_fffe, b"\x01\x02")],
    ),
    (
        "start addresses",
        HEX,
        0,
        b":0400000300003800C1\n:04000005000000CD2A\n:01000000AA55\n:00000001FF\n",
        &[(0, b"\xaa")],
    ),
    (
        "S1, S5 and S9",
        SREC,
        0,
        b"S00F000068656C6C6F202020202000003C\n\
S11F00007C0802A6900100049421FFF07C6C1B787C8C23783C6000003863000026\n\
S11F001C4BFFFFE5398000007D83637880010014382100107C0803A64E800020E9\n\
S111003848656C6C6F20776F726C642E0A0042\nS5030003F9\nS9030000FC\n",
        &[(
            0,
            b"\x7c\x08\x02\xa6\x90\x01\x00\x04\x94\x21\xff\xf0\x7c\x6c\x1b\x78\x7c\x8c\x23\x78\
\x3c\x60\x00\x00\x38\x63\x00\x00\x4b\xff\xff\xe5\x39\x80\x00\x00\x7d\x83\x63\x78\
\x80\x01\x00\x14\x38\x21\x00\x10\x7c\x08\x03\xa6\x4e\x80\x00\x20\
\x48\x65\x6c\x6c\x6f\x20\x77\x6f\x72\x6c\x64\x2e\x0a\x00",
        )],
    ),
    (
        "an S1 record",
        SREC,
        0,
        b"S1137AF00A0A0D0000000000000000000000000061\r\nS9030000FC\r\n",
        &[(
            0x7af0,
            b"\x0a\x0a\x0d\x00\x00\x00\x00\x00\x00\x00\x00\x00\x00\x00\x00\x00",
        )],
    ),
    (
        "S2 and S8",
        SREC,
        0,
        b"S20612345601025A\nS804000000FB\n",
        &[(0x12_3456, b"\x01\x02")],
    ),
    (
        "S3 and S7",
        SREC,
        0,
        b"S30689ABCDEF0306\nS70500000000FA\n",
        &[(0x89ab_cdef, b"\x03")],
    ),
    (
        "S6",
        SREC,
        0,
        b"S104000001FA\nS104000102F8\nS604000002F9\nS9030000FC\n",
        &[(0, b"\x01\x02")],
    ),
    (
        "S5 counts the records so far",
        SREC,
        0,
        b"S5030000FC\nS104000001FA\nS5030001FB\nS104000102F8\nS5030002FA\nS9030000FC\n",
        &[(0, b"\x01\x02")],
    ),
    (
        "a start address",
        SREC,
        0,
        b"S104000001FA\nS9031234B6\n",
        &[(0, b"\x01")],
    ),
    (
        "S-records in lower case",
        SREC,
        7,
        b"S30689abcdef0306\nS70500000000fa\n",
        &[(0x89ab_cdf6, b"\x03")],
    ),
    ("a header alone", SREC, 0, b"S0030000FC\nS9030000FC\n", &[]),
    (
        "an S1 record without data counts",
        SREC,
        0,
        b"S1030000FC\nS5030001FB\nS9030000FC\n",
        &[],
    ),
    (
        "S3 up to ffffffff",
        SREC,
        0,
        b"S306FFFFFFFF03FA\nS9030000FC\n",
        &[(0xffff_ffff, b"\x03")],
    ),
];

#[test]
fn valid_files_are_read(rt: HostRuntime) {
    for (name, format, base, file, wanted) in ROWS {
        let read = read_image(rt.alloc(), *format, file, *base);
        expect_pieces(&rt, name, &read, wanted);
    }
}

const NAMES: &[(&str, Format)] = &[
    ("a.hex", HEX),
    ("A.HEX", HEX),
    ("dir.bin/b.iHex", HEX),
    ("c.ihx", HEX),
    ("d.srec", SREC),
    ("e.S19", SREC),
    ("f.s28", SREC),
    ("g.s37", SREC),
    ("h.Mot", SREC),
    ("i.bin", BIN),
    ("j.hex.gz", BIN),
    ("hex", BIN),
    ("x.s20", BIN),
    ("", BIN),
];

const WORDS: &[(&str, Option<Format>)] = &[
    ("bin", Some(BIN)),
    ("hex", Some(HEX)),
    ("srec", Some(SREC)),
    ("HEX", None),
    ("", None),
    ("ihex", None),
];

#[test]
fn names_and_words_stand_for_formats(rt: HostRuntime) {
    for (name, format) in NAMES {
        expect_eq_at(&rt, name, &Format::of_name(name), format);
    }
    for (word, format) in WORDS {
        expect_eq_at(&rt, word, &Format::of_word(word), format);
    }
}
