//! What replies say.
ghost use Rattle.std.specs.Prelude.{◌≡◌, ◌==◌, ◌≢◌, ◌≤◌, ◌<◌, length, true, false, IfOk, IfSome, OnOk};
ghost use Rattle.swd_dap.specs.Packets.{IsDapReply};
ghost use Rattle.swd_dap.specs.Transfers.{DapTells, dap_told_of, dap_told_okay, dap_told_failed, dap_word_told};
ghost use Rattle.swd_dap.specs.Transfers.{dap_words_left, DapTellsBy, DapTellsUpTo, DapHasWords, IsDapStop};

use crate::beginning::{HEAD, MOST, requests_of};
use crate::packets::DapFault;
use crate::requests::TRANSFER;
use crate::transfer::Transfer;
use arrayvec::ArrayVec;
use swd_bits::data_bits;

// The answers of a transfer, as its reply has them.
const OK: u8 = 1;

const WAIT: u8 = 2;

const FAULT: u8 = 4;

const DAMAGED: u8 = 8;

// Bits of a data phase whose parity is wrong.
const WRONG_PARITY: u64 = 0x1_0000_0000;

/// A transaction that the probe made, and how it was answered.
#[derive(Clone, Copy, Debug, Default, PartialEq, Eq)]
pub(crate) struct Told {
    pub(crate) transfer: Transfer,
    /// The three bits of the acknowledgement.
    pub(crate) seen: u8,
    /// The 33 bits of the data phase behind OK.
    pub(crate) bits: u64,
}

/// The transactions that the probe made by one packet.
pub(crate) type AllTold = ArrayVec<Told, MOST>;

/// Returns whether this is the reply to a command, with at least so many bytes.
///
/// # Errors
///
/// `Short`, `Unknown` or `OtherCommand` if it isn't.
pub(crate) fn check_reply(command: u8, reply: &[u8], least: usize) -> Result<(), DapFault>
    ensures { OnOk result (IsDapReply command least reply.now) }
{
    match reply.first() {
        None => Err(DapFault::Short),
        Some(&first) if first == command => {
            if reply.len() < least {
                Err(DapFault::Short)
            } else {
                Ok(())
            }
        }
        Some(0xff) => Err(DapFault::Unknown(command)),
        Some(&first) => Err(DapFault::OtherCommand(first)),
    }
}

// How a transaction ended that wasn't OK, or whose data arrived damaged.
fn failed(transfer: Transfer, value: u8) -> Result<Told, DapFault>
    ensures told { IfOk result (λ told. told ≡ dap_told_failed transfer value) }
    ensures not_okay { OnOk result (value ≢ 1) }
{
    match value {
        WAIT | FAULT | 0 | 3 | 5 | 6 | 7 => Ok(Told {
            transfer,
            seen: value,
            bits: 0,
        }),
        DAMAGED if transfer.request.read => Ok(Told {
            transfer,
            seen: OK,
            bits: WRONG_PARITY,
        }),
        _ => Err(DapFault::Impossible),
    }
}

// Returns the first word of these bytes, if the reply has one there, and the bytes behind it.
fn word_of_reply(words: &[u8], has_word: bool) -> Result<(u32, &[u8]), DapFault>
    ensures word { IfOk result (λ told. told.0 ≡ dap_word_told has_word words.now) }
    ensures left { IfOk result (λ told. told.1.now ≡ dap_words_left has_word words.now) }
    ensures long { OnOk result (has_word ≡ true → 4 ≤ length words.now) }
{
    if !has_word {
        return Ok((0, words));
    }
    let [first, second, third, last, left @ ..] = words else {
        return Err(DapFault::Short);
    };
    Ok((u32::from_le_bytes([*first, *second, *third, *last]), left))
}

// Returns a transaction that was answered OK.
fn okay(transfer: Transfer, word: u32) -> Told
    ensures { result ≡ dap_told_okay transfer word }
{
    let moved = if transfer.request.read {
        word
    } else {
        transfer.word
    };
    Told {
        transfer,
        seen: OK,
        bits: data_bits(moved),
    }
}

// Returns transactions that were answered OK, with their words.
fn told_okay(done: &[Transfer], words: &[u8]) -> Result<AllTold, DapFault>
    requires { length done.now ≤ 160 }
    ensures told { IfOk result (λ told. told.items ≡ dap_told_of false done.now words.now) }
    ensures count { IfOk result (λ told. length told.items ≡ length done.now) }
    ensures long { OnOk result (DapHasWords false done.now words.now) }
{
    let mut told = AllTold::new();
    let mut rest = words;
    let mut posts = false;
    for transfer in done {
        let (word, left) = word_of_reply(rest, posts || transfer.reads_dp())?;
        rest = left;
        posts = transfer.posts();
        told.push(okay(*transfer, word));
    }
    Ok(told)
}

// Returns behind how many transactions that were OK the probe stopped, where it had done so many requests and its reply
// has so many bytes of words.
fn stop_of(transactions: &[Transfer], padded: bool, done: usize, words: usize) -> Option<usize>
    requires { length transactions.now ≤ 160 }
    ensures { IfSome result (IsDapStop padded transactions.now done words) }
{
    let mut requests = 0;
    let mut told = 0;
    let mut posts = false;
    for (place, next) in transactions.iter().enumerate() {
        if requests == done && (padded || told == words) {
            return Some(place);
        }
        if !next.is_hidden(posts) {
            requests += 1;
        }
        told += next.word_bytes(posts);
        posts = next.posts();
    }
    None
}

// Returns what a reply says: that all was OK, or that one transaction wasn't, where `done` requests were done.
fn told_by(
    transactions: &[Transfer],
    padded: bool,
    done: usize,
    value: u8,
    words: &[u8],
) -> Result<AllTold, DapFault>
    requires { length transactions.now ≤ 160 }
    ensures { IfOk result (λ told.
        DapTellsBy (value == 1) padded transactions.now done value words.now told.items) }
{
    if value == OK {
        if done != requests_of(transactions).len() {
            return Err(DapFault::Impossible);
        }
        return told_okay(transactions, words);
    }
    let Some(okay) = stop_of(transactions, padded, done, words.len()) else {
        return Err(DapFault::Impossible);
    };
    told_up_to(transactions, okay, value, words)
}

// Returns the first transactions, which were answered OK, and the one behind them, which wasn't.
fn told_up_to(
    transactions: &[Transfer],
    okay: usize,
    value: u8,
    words: &[u8],
) -> Result<AllTold, DapFault>
    requires few { length transactions.now ≤ 160 }
    requires planned { okay < length transactions.now }
    ensures not_okay { OnOk result (value ≢ 1) }
    ensures told { IfOk result (λ told. DapTellsUpTo transactions.now okay value words.now told.items) }
{
    let last = failed(transactions[okay], value)?;
    let mut told = told_okay(&transactions[..okay], words)?;
    told.push(last);
    Ok(told)
}

/// Returns what the reply to a packet of `DAP_Transfer` says of the transactions that it was to make. `padded`: whether
/// it may be padded.
///
/// # Errors
///
/// If it isn't a reply to that packet.
pub(crate) fn told_of(
    transactions: &[Transfer],
    padded: bool,
    reply: &[u8],
) -> Result<AllTold, DapFault>
    requires { length transactions.now ≤ 160 }
    ensures { IfOk result (λ told. DapTells padded transactions.now reply.now told.items) }
{
    check_reply(TRANSFER, reply, HEAD)?;
    match reply {
        [TRANSFER, done, value, words @ ..] => {
            told_by(transactions, padded, usize::from(*done), *value, words)
        }
        _ => Err(DapFault::Short),
    }
}
