//! Worked values of the wire. Failing readers and writers are tried with all engines, in `swd_text`.
use super::expect::{expect_eq, expect_eq_at};
use swd_bits::*;

// A DPIDR read that was answered 2ba01477, with a space after each eighth bit.
const DPIDR_READ: &[u8] = b"10100101 11001110 11100010 10000000 01011101 010001";

const DPIDR_LINE: &[u8] = b"dp 0 read ok 2ba01477\n";

// Requests as bytes, whether they are of the access port, whether they read, and their registers.
const REQUESTS: &[(u8, bool, bool, Reg4)] = &[
    (0xa5, false, true, Reg4::R0),
    (0x8d, false, true, Reg4::R4),
    (0x95, false, true, Reg4::R8),
    (0xbd, false, true, Reg4::RC),
    (0x81, false, false, Reg4::R0),
    (0xa9, false, false, Reg4::R4),
    (0xb1, false, false, Reg4::R8),
    (0x99, false, false, Reg4::RC),
    (0x87, true, true, Reg4::R0),
    (0xaf, true, true, Reg4::R4),
    (0xb7, true, true, Reg4::R8),
    (0x9f, true, true, Reg4::RC),
    (0xa3, true, false, Reg4::R0),
    (0x8b, true, false, Reg4::R4),
    (0x93, true, false, Reg4::R8),
    (0xbb, true, false, Reg4::RC),
];

// The wrong Start, Park, Stop and Parity.
const NO_REQUESTS: &[u8] = &[0xa4, 0x25, 0xe5, 0x85];

const ACKNOWLEDGEMENTS: &[(u8, Option<Ack>)] = &[
    (0, None),
    (1, Some(Ack::Ok)),
    (2, Some(Ack::Wait)),
    (3, None),
    (4, Some(Ack::Fault)),
    (5, None),
    (6, None),
    (7, None),
];

#[test]
fn requests_and_acknowledgements_have_their_numbers(rt: HostRuntime) {
    for (byte, ap, read, addr) in REQUESTS {
        let request = Request {
            ap: *ap,
            read: *read,
            addr: *addr,
        };
        expect_eq_at(&rt, byte, &request.bits(), byte);
        expect_eq_at(&rt, byte, &Request::of(*byte), &Some(request));
    }
    for byte in NO_REQUESTS {
        expect_eq_at(&rt, byte, &Request::of(*byte), &None);
    }
    let count = (0..=255u8)
        .filter(|byte| Request::of(*byte).is_some())
        .count();
    expect_eq(&rt, &count, &16);
    for (seen, wanted) in ACKNOWLEDGEMENTS {
        expect_eq_at(&rt, seen, &Ack::of(*seen), wanted);
    }
}

// The bits of a data phase, the first in time first.
fn phase_text(phase: u64) -> [u8; 33] {
    let mut text = [b'0'; 33];
    for (i, place) in text.iter_mut().enumerate() {
        if i < 33 && phase >> i & 1 == 1 {
            *place = b'1';
        }
    }
    text
}

const PHASES: &[(u32, &[u8; 33])] = &[
    (0x2ba01477, b"111011100010100000000101110101000"),
    (0xffffffff, b"111111111111111111111111111111110"),
    (0x00000001, b"100000000000000000000000000000001"),
    (0x00000000, b"000000000000000000000000000000000"),
];

#[test]
fn data_phases_of_words(rt: HostRuntime) {
    for (word, bits) in PHASES {
        expect_eq_at(&rt, word, &phase_text(data_bits(*word)), *bits);
        expect_eq_at(&rt, word, &word_of(data_bits(*word)), &Some(*word));
    }
    expect_eq(&rt, &word_of((1 << 33) - 1), &None);
}

// A trace text, what `one_text` answers, and what it writes.
#[derive(Clone, Copy)]
struct Text {
    name: &'static str,
    text: &'static [u8],
    answer: Result<(), OneFault>,
    line: &'static [u8],
}

const TEXTS: &[Text] = &[
    Text {
        name: "a read",
        text: DPIDR_READ,
        answer: Ok(()),
        line: DPIDR_LINE,
    },
    Text {
        name: "comments and ends of lines",
        text: b"# DPIDR\n1010010111001110111000101000000001011101 # word\r\n\t010001",
        answer: Ok(()),
        line: DPIDR_LINE,
    },
    Text {
        name: "a write",
        text: b"10000001 1 100 1 01111000000000000000000000000000 0",
        answer: Ok(()),
        line: b"dp 0 write ok 0000001e\n",
    },
    Text {
        name: "a damaged read",
        text: b"10100101 1 100 01101110001010000000010111010100 0 1",
        answer: Ok(()),
        line: b"dp 0 read bad 2ba01476\n",
    },
    Text {
        name: "WAIT",
        text: b"10100101 1 010 1",
        answer: Ok(()),
        line: b"dp 0 read wait\n",
    },
    Text {
        name: "FAULT",
        text: b"11011101 0 001 0",
        answer: Ok(()),
        line: b"ap c write fault\n",
    },
    Text {
        name: "no acknowledgement",
        text: b"10100101 1 111",
        answer: Ok(()),
        line: b"dp 0 read none 7\n",
    },
    Text {
        name: "a bit short",
        text: b"10100101 1 100 11101110001010000000010111010100 0",
        answer: Err(OneFault::NotOne),
        line: b"",
    },
    Text {
        name: "a bit more",
        text: b"10100101 1 100 11101110001010000000010111010100 0 1 1",
        answer: Err(OneFault::NotOne),
        line: b"",
    },
    Text {
        name: "no acknowledgement with a turnaround",
        text: b"10100101 1 111 0",
        answer: Err(OneFault::NotOne),
        line: b"",
    },
    Text {
        name: "nothing",
        text: b"",
        answer: Err(OneFault::NotOne),
        line: b"",
    },
    Text {
        name: "a bad byte",
        text: b"10x",
        answer: Err(OneFault::BadChar { place: 2 }),
        line: b"",
    },
    // The bad byte is told, although the bits before it are more than one transaction has.
    Text {
        name: "a bad byte after too many bits",
        text: b"1111111111111111111111111111111111111111111111111111111x",
        answer: Err(OneFault::BadChar { place: 55 }),
        line: b"",
    },
];

#[test]
fn one_transaction_has_its_line_and_other_texts_are_refused(rt: HostRuntime) {
    for row in TEXTS {
        let mut reader = row.text;
        let mut out = Vec::new(rt.alloc());
        let answer = one_text(&mut reader, &mut out);
        expect_eq_at(&rt, &row.name, &answer, &row.answer);
        expect_eq_at(&rt, &row.name, &out.as_slice(), &row.line);
    }
}
