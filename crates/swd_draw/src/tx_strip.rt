//! The fields of a transaction.
ghost use Rattle.std.specs.Prelude.{◌≡◌, ◌+◌, ◌≤◌, ◌∷◌, []};
ghost use Rattle.swd_bits.specs.Wire.{addr_bits};
ghost use Rattle.swd_bits.specs.Bits.{odd};
ghost use Rattle.swd_draw.specs.Fields.{drawn_ack_field, drawn_field, drawn_ignored_fields, drawn_moved_fields};
ghost use Rattle.swd_draw.specs.Fields.{parity_shade, drawn_request_fields};
ghost use Rattle.swd_draw.specs.Fields.{drawn_tail_fields, drawn_turnaround, drawn_tx_fields, drawn_word_parity};
ghost use Rattle.swd_draw.specs.Strips.{StripAdded};

use crate::field::{Field, Name, Shade};
use crate::strip::Strip;
use swd_bits::{Reg4, Request, Tx, TxBits, TxEnd};

/// Returns a field of one bit.
pub(crate) fn one_bit(name: Name, shade: Shade, bit: bool) -> Field
    ensures { result ≡ drawn_field name shade (bit ∷ []) }
{
    let bits = TxBits {
        len: 1,
        bits: if bit { 1 } else { 0 },
    };
    Field { name, shade, bits }
}

// Returns the field of the address bits.
fn address(addr: Reg4) -> Field
    ensures { result ≡ drawn_field Name.Address Shade.Host (addr_bits addr) }
{
    let bits = match addr {
        Reg4::R0 => 0,
        Reg4::R4 => 1,
        Reg4::R8 => 2,
        Reg4::RC => 3,
    };
    Field {
        name: Name::Address,
        shade: Shade::Host,
        bits: TxBits { len: 2, bits },
    }
}

// Returns the parity bit of a request.
fn parity(request: Request) -> bool
    ensures { result ≡ odd (request.ap ∷ request.read ∷ addr_bits request.addr) }
{
    let asked = if request.ap {
        !request.read
    } else {
        request.read
    };
    match request.addr {
        Reg4::R0 | Reg4::RC => asked,
        Reg4::R4 | Reg4::R8 => !asked,
    }
}

// Appends the fields of a request.
fn add_request(strip: &mut Strip, request: Request)
    requires at { strip.old.at ≡ 0 }
    requires count { strip.old.count ≡ 0 }
    ensures added { StripAdded strip.old strip.new (drawn_request_fields request) }
    ensures at { strip.new.at ≡ 8 }
{
    strip.add(one_bit(Name::Start, Shade::Host, true));
    strip.add(one_bit(Name::Port, Shade::Host, request.ap));
    strip.add(one_bit(Name::Direction, Shade::Host, request.read));
    strip.add(address(request.addr));
    strip.add(one_bit(Name::Parity, Shade::Host, parity(request)));
    strip.add(one_bit(Name::Stop, Shade::Host, false));
    strip.add(one_bit(Name::Park, Shade::Host, true));
}

// Returns the field of a turnaround.
fn turn() -> Field
    ensures { result ≡ drawn_turnaround }
{
    one_bit(Name::Turnaround, Shade::Undriven, true)
}

// Returns the field of the acknowledgement.
fn ack(end: TxEnd) -> Field
    ensures field { result ≡ drawn_ack_field end }
    ensures len { result.bits.len ≡ 3 }
{
    let (shade, bits) = match end {
        TxEnd::Moved { .. } => (Shade::Target, 1),
        TxEnd::Wait => (Shade::Target, 2),
        TxEnd::Fault => (Shade::Target, 4),
        TxEnd::NoAck(seen) => (Shade::Unknown, u64::from(seen % 8)),
    };
    Field {
        name: Name::Ack,
        shade,
        bits: TxBits { len: 3, bits },
    }
}

// Returns the field of a word.
fn word_field(name: Name, shade: Shade, word: u32) -> Field
    ensures { result ≡ record { name = name; shade = shade; bits = record { len = 32; bits = word } } }
{
    Field {
        name,
        shade,
        bits: TxBits {
            len: 32,
            bits: u64::from(word),
        },
    }
}

// Returns the parity bit of a word, inverted unless `parity_ok`.
fn word_bit(word: u32, parity_ok: bool) -> bool
    ensures { result ≡ drawn_word_parity word parity_ok }
{
    let odd = word.count_ones() % 2 == 1;
    if parity_ok { odd } else { !odd }
}

// Returns the field of a word's parity bit.
fn word_parity_field(shade: Shade, word: u32, parity_ok: bool) -> Field
    ensures { result ≡ drawn_field Name.Parity (parity_shade shade parity_ok) (drawn_word_parity word parity_ok ∷ []) }
{
    let shade = if parity_ok { shade } else { Shade::Wrong };
    one_bit(Name::Parity, shade, word_bit(word, parity_ok))
}

// Appends the fields of a data phase and its turnaround.
fn add_moved(strip: &mut Strip, read: bool, word: u32, parity_ok: bool)
    requires at { strip.old.at ≤ 12 }
    requires count { strip.old.count ≤ 9 }
    ensures added { StripAdded strip.old strip.new (drawn_moved_fields read word parity_ok) }
    ensures at { strip.new.at ≤ strip.old.at + 34 }
    ensures count { strip.new.count ≤ strip.old.count + 3 }
{
    if read {
        strip.add(word_field(Name::ReadData, Shade::Target, word));
        strip.add(word_parity_field(Shade::Target, word, parity_ok));
        strip.add(turn());
    } else {
        strip.add(turn());
        strip.add(word_field(Name::WriteData, Shade::Host, word));
        strip.add(word_parity_field(Shade::Host, word, parity_ok));
    }
}

// Appends the fields after the acknowledgement.
fn add_tail(strip: &mut Strip, read: bool, end: TxEnd)
    requires at { strip.old.at ≤ 12 }
    requires count { strip.old.count ≤ 9 }
    ensures added { StripAdded strip.old strip.new (drawn_tail_fields read end) }
    ensures at { strip.new.at ≤ strip.old.at + 34 }
    ensures count { strip.new.count ≤ strip.old.count + 3 }
{
    match end {
        TxEnd::Moved { word, parity_ok } => add_moved(strip, read, word, parity_ok),
        TxEnd::Wait | TxEnd::Fault => strip.add(turn()),
        TxEnd::NoAck(_) => {}
    }
}

/// Appends the fields of a transaction.
pub(crate) fn add_tx(strip: &mut Strip, tx: &Tx)
    requires at { strip.old.at ≡ 0 }
    requires count { strip.old.count ≡ 0 }
    ensures added { StripAdded strip.old strip.new (drawn_tx_fields tx.now) }
    ensures at { strip.new.at ≤ 46 }
    ensures count { strip.new.count ≤ 12 }
{
    add_request(strip, tx.request);
    strip.add(turn());
    strip.add(ack(tx.result));
    add_tail(strip, tx.request.read, tx.result);
}

/// Appends a data phase of `len` bits without meaning.
pub(crate) fn add_ignored(strip: &mut Strip, len: u8)
    requires at { strip.old.at ≤ 46 }
    requires len { len ≤ 33 }
    requires count { strip.old.count ≤ 12 }
    ensures { StripAdded strip.old strip.new (drawn_ignored_fields len) }
{
    if len == 0 {
        return;
    }
    strip.add(Field {
        name: Name::Ignored,
        shade: Shade::Hidden,
        bits: TxBits { len, bits: 0 },
    });
}
