//! Items and their trace texts.
use super::expect::expect_eq;
use std::io::ErrorKind;
use std::test::Fail;
use swd_bits::{Reg4, Request, Tx, TxBits, TxEnd};
use swd_trace::{Item, encode};

const DPIDR_READ: Tx = Tx {
    request: Request {
        ap: false,
        read: true,
        addr: Reg4::R0,
    },
    result: TxEnd::Moved {
        word: 0x2ba01477,
        parity_ok: true,
    },
};

const TEXTS: &[(Item, &[u8])] = &[
    (Item::Switch, b"0111100111100111\n"),
    (Item::Idle(2), b"00\n"),
    (Item::Reset(3), b"111\n"),
    (Item::Junk(true), b"1\n"),
    (Item::Cut(TxBits { len: 3, bits: 5 }), b"101\n"),
    (
        Item::Tx(DPIDR_READ),
        b"1010010111001110111000101000000001011101010001\n",
    ),
];

#[test]
fn items_have_their_texts(rt: HostRuntime) -> Result<(), Fail> {
    for (item, text) in TEXTS {
        let mut out = Vec::new(rt.alloc());
        encode(item, &mut out)?;
        expect_eq(&rt, &out.as_slice(), text);
    }
    Ok(())
}

#[test]
fn a_writer_that_is_full_is_told(rt: HostRuntime) {
    let mut room = [0u8; 5];
    let mut writer = room.as_mut_slice();
    let answer = encode(&Item::Idle(9), &mut writer).map_err(|error| error.kind());
    expect_eq(&rt, &answer, &Err(ErrorKind::WriteZero));
    expect_eq(&rt, &room, &*b"00000");
}
