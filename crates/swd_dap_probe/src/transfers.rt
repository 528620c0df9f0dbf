//! `DAP_Transfer`: a list of transactions.
ghost use Rattle.std.specs.Prelude.{ℕ, ◌≡◌, ◌≤◌, ◌<◌, ◌+◌, ◌*◌, List, ◌++◌, [], ◌∷◌, drop, length, slice_index, IfSome};
ghost use Rattle.swd_dap_probe.specs.Plain.{dap_word};
ghost use Rattle.swd_dap_probe.specs.Shapes.{dap_item_shape, dap_shape_by};
ghost use Rattle.swd_dap_probe.specs.Transfers.{dap_asked_bytes, dap_pending_bytes, dap_request, dap_asked};
ghost use Rattle.swd_dap_probe.specs.Transfers.{dap_asked_list, DapRun, dap_run, dap_told, DapStepsMade, dap_post};
ghost use Rattle.swd_dap_probe.specs.Transfers.{dap_own, dap_own_pending, dap_fetch, dap_fetched, dap_read_again};
ghost use Rattle.swd_dap_probe.specs.Transfers.{dap_next, dap_next_pending, dap_finish};
ghost use Rattle.swd_dap_probe.specs.Transfers.{dap_steps, dap_transfer_value, DapTransfers};
ghost use Rattle.swd_dap_probe.specs.Transfers.{Tells, Seeks};
ghost use Rattle.swd_dap_probe.specs.Packets.{DapAppends};
ghost use Rattle.swd_dap_probe.specs.declared.transfers.Pending.{Pending};
ghost use Rattle.swd_dap_probe.specs.declared.command.Command.{Command};
ghost use Rattle.swd_dap_probe.specs.declared.shape.Items.{Items};

use crate::line::ProbeLine;
use crate::reply::{Reply, put, put_word};
use crate::settings::Settings;
use crate::shape::{Items, item_shape, matches, reads, skip};
use crate::transaction::{Answer, OK, RDBUFF, persist};
use swd_bits::{Reg4, Request};

// The result where no word matched.
const MISMATCH: u8 = 0x11;

/// A request of `DAP_Transfer`.
#[derive(Clone, Copy)]
enum Asked {
    /// A read, whose word is returned.
    Read(Request),
    /// A read that is repeated until its word, where the mask has ones, is this one.
    Match(Request, u32),
    /// A write of this word.
    Write(Request, u32),
    /// A mask for the words that are compared. No transaction.
    Mask(u32),
}

// What earlier requests of the packet left to do.
#[derive(Clone, Copy)]
enum Pending {
    Nothing,
    // The word of a read of the access port.
    Word,
    // A read behind a write, which tells whether the word arrived.
    Check,
}

// How far a packet came.
#[derive(Clone, Copy)]
pub(crate) struct Done {
    // How many requests were done.
    pub(crate) count: u16,
    // How the last transaction was answered; 0 where no request was made.
    pub(crate) value: u8,
}

/// Returns the register of a transaction's code: APnDP, RnW, A[2], A[3], the first in bit 0.
pub(crate) fn request_of(code: u8) -> Request
    ensures { result ≡ dap_request code }
{
    Request {
        ap: code % 2 == 1,
        read: reads(code),
        addr: match code / 4 % 4 {
            0 => Reg4::R0,
            1 => Reg4::R4,
            2 => Reg4::R8,
            _ => Reg4::RC,
        },
    }
}

/// Returns the word of these four bytes, the first least significant.
pub(crate) fn word_at(bytes: &[u8], place: usize) -> u32
    requires { place + 4 ≤ length bytes.now }
    ensures { result ≡ dap_word bytes.now place }
{
    u32::from_le_bytes([
        bytes[place],
        bytes[place + 1],
        bytes[place + 2],
        bytes[place + 3],
    ])
}

// Returns the request at the head of these bytes.
fn asked_of(bytes: &[u8]) -> Asked
    requires { (dap_item_shape Items.Transfers bytes.now).request ≤ length bytes.now }
    ensures is { result ≡ dap_asked bytes.now }
    ensures bytes { dap_asked_bytes result ≡ (dap_item_shape Items.Transfers bytes.now).reply }
{
    let code = bytes[0];
    let request = request_of(code);
    if reads(code) {
        if matches(code) {
            Asked::Match(request, word_at(bytes, 1))
        } else {
            Asked::Read(request)
        }
    } else if code / 32 % 2 == 1 {
        Asked::Mask(word_at(bytes, 1))
    } else {
        Asked::Write(request, word_at(bytes, 1))
    }
}

// Appends the word of a read that was OK.
fn put_told(words: &mut Reply, answer: Answer)
    requires { length words.old.items + 4 ≤ 512 }
    ensures told { words.new.items ≡ words.old.items ++ dap_told answer }
    ensures room { length words.new.items ≤ length words.old.items + 4 }
{
    if let Answer::Okay(word) = answer {
        put_word(words, word);
    }
}

/// Makes a read, and appends its word if it was OK.
pub(crate) fn read_word<L: ProbeLine>(
    line: &mut L,
    settings: &Settings,
    request: Request,
    words: &mut Reply,
) -> u8
    requires { length words.old.items + 4 ≤ 512 }
    ensures room { length words.new.items ≤ length words.old.items + 4 }
    ensures makes { (count mask : ℕ) → DapStepsMade L.clocks settings.now (Tells request ∷ []) result
        (dap_run count words.old.items mask) (dap_run count words.new.items mask) line.old line.new }
{
    let answer = persist(line, settings, request, 0);
    put_told(words, answer);
    answer.value()
}

/// Makes a read if it is one of the access port. The read behind it returns its word. Returns how it was answered.
pub(crate) fn post<L: ProbeLine>(line: &mut L, settings: &Settings, request: Request) -> u8
    ensures makes { (run : DapRun) → DapStepsMade L.clocks settings.now (dap_post request) result run run
        line.old line.new }
{
    if request.ap {
        persist(line, settings, request, 0).value()
    } else {
        OK
    }
}

// Makes a read until its word matches, and one read before of the access port, whose reads return the word of the one
// before.
fn seek<L: ProbeLine>(
    line: &mut L,
    settings: &Settings,
    mask: u32,
    request: Request,
    wanted: u32,
) -> u8
    ensures makes { (count : ℕ) (words : List ℕ) → DapStepsMade L.clocks settings.now
        (dap_post request ++ Seeks request wanted ∷ []) result (dap_run count words mask) (dap_run count words mask)
        line.old line.new }
{
    let value = post(line, settings, request);
    if value != OK {
        return value;
    }
    for place in 0..u32::from(settings.matches) + 1 {
        match persist(line, settings, request, 0) {
            Answer::Okay(word) if word & mask == wanted => return OK,
            Answer::Okay(_) => {}
            answer => return answer.value(),
        }
    }
    MISMATCH
}

// What the requests of a packet set.
#[derive(Clone, Copy)]
struct Run {
    mask: u32,
    pending: Pending,
}

// What is pending behind a transaction that was answered so.
fn pending_behind(value: u8, then: Pending) -> Pending
    ensures bytes { dap_pending_bytes result ≤ dap_pending_bytes then }
    ensures okay { value ≡ 1 → result ≡ then }
{
    if value == OK { then } else { Pending::Nothing }
}

// Fetches the word of a read that was made before, if there is one.
fn fetch<L: ProbeLine>(line: &mut L, settings: &Settings, run: &mut Run, words: &mut Reply) -> u8
    requires { length words.old.items + dap_pending_bytes run.old.pending ≤ 512 }
    ensures none { dap_pending_bytes run.new.pending ≡ 0 }
    ensures room { length words.new.items ≤ length words.old.items + dap_pending_bytes run.old.pending }
    ensures pending { run.new.pending ≡ dap_fetched run.old.pending }
    ensures mask { run.new.mask ≡ run.old.mask }
    ensures makes { (count mask : ℕ) → DapStepsMade L.clocks settings.now (dap_fetch run.old.pending) result
        (dap_run count words.old.items mask) (dap_run count words.new.items mask) line.old line.new }
{
    match run.pending {
        Pending::Word => {
            run.pending = Pending::Nothing;
            read_word(line, settings, RDBUFF, words)
        }
        _ => OK,
    }
}

// Performs a request, behind which no word is left of an earlier one.
fn perform<L: ProbeLine>(
    line: &mut L,
    settings: &Settings,
    run: &mut Run,
    asked: Asked,
    words: &mut Reply,
) -> u8
    requires none { dap_pending_bytes run.old.pending ≡ 0 }
    requires room { length words.old.items + dap_asked_bytes asked ≤ 512 }
    ensures room { length words.new.items + dap_pending_bytes run.new.pending
        ≤ length words.old.items + dap_asked_bytes asked }
    ensures pending { result ≡ 1 → run.new.pending ≡ dap_own_pending run.old.pending asked }
    ensures makes { (count : ℕ) → DapStepsMade L.clocks settings.now (dap_own asked) result
        (dap_run count words.old.items run.old.mask) (dap_run count words.new.items run.new.mask) line.old line.new }
{
    match asked {
        Asked::Mask(word) => {
            run.mask = word;
            OK
        }
        Asked::Write(request, word) => {
            let value = persist(line, settings, request, word).value();
            run.pending = pending_behind(value, Pending::Check);
            value
        }
        Asked::Match(request, word) => {
            run.pending = Pending::Nothing;
            seek(line, settings, run.mask, request, word)
        }
        Asked::Read(request) if request.ap => {
            let value = persist(line, settings, request, 0).value();
            run.pending = pending_behind(value, Pending::Word);
            value
        }
        Asked::Read(request) => {
            run.pending = Pending::Nothing;
            read_word(line, settings, request, words)
        }
    }
}

// Returns the request of a read of the access port, if it returns the word of the one before it.
fn read_again(pending: Pending, asked: Asked) -> Option<Request>
    ensures is { result ≡ dap_read_again pending asked }
    ensures bytes { IfSome result (λ _. dap_asked_bytes asked ≡ 4) }
{
    match (pending, asked) {
        (Pending::Word, Asked::Read(request)) if request.ap => Some(request),
        _ => None,
    }
}

// Fetches the word of a read that was made before, if there is one, and performs a request if that was OK.
fn fetch_and_perform<L: ProbeLine>(
    line: &mut L,
    settings: &Settings,
    run: &mut Run,
    asked: Asked,
    words: &mut Reply,
) -> u8
    requires { length words.old.items + dap_pending_bytes run.old.pending + dap_asked_bytes asked ≤ 512 }
    ensures room { length words.new.items + dap_pending_bytes run.new.pending
        ≤ length words.old.items + dap_pending_bytes run.old.pending + dap_asked_bytes asked }
    ensures pending { result ≡ 1 → run.new.pending ≡ dap_own_pending (dap_fetched run.old.pending) asked }
    ensures makes { (count : ℕ) → DapStepsMade L.clocks settings.now (dap_fetch run.old.pending ++ dap_own asked) result
        (dap_run count words.old.items run.old.mask) (dap_run count words.new.items run.new.mask) line.old line.new }
{
    let value = fetch(line, settings, run, words);
    if value == OK {
        perform(line, settings, run, asked, words)
    } else {
        value
    }
}

// Performs the next request.
fn next<L: ProbeLine>(
    line: &mut L,
    settings: &Settings,
    run: &mut Run,
    asked: Asked,
    words: &mut Reply,
) -> u8
    requires { length words.old.items + dap_pending_bytes run.old.pending + dap_asked_bytes asked ≤ 512 }
    ensures room { length words.new.items + dap_pending_bytes run.new.pending
        ≤ length words.old.items + dap_pending_bytes run.old.pending + dap_asked_bytes asked }
    ensures pending { result ≡ 1 → run.new.pending ≡ dap_next_pending run.old.pending asked }
    ensures makes { (count : ℕ) → DapStepsMade L.clocks settings.now (dap_next run.old.pending asked) result
        (dap_run count words.old.items run.old.mask) (dap_run count words.new.items run.new.mask) line.old line.new }
{
    match read_again(run.pending, asked) {
        Some(request) => read_word(line, settings, request, words),
        None => fetch_and_perform(line, settings, run, asked, words),
    }
}

// Makes the read that is pending behind the last request.
fn finish<L: ProbeLine>(
    line: &mut L,
    settings: &Settings,
    pending: Pending,
    words: &mut Reply,
) -> u8
    requires { length words.old.items + dap_pending_bytes pending ≤ 512 }
    ensures room { length words.new.items ≤ length words.old.items + dap_pending_bytes pending }
    ensures makes { (count mask : ℕ) → DapStepsMade L.clocks settings.now (dap_finish pending) result
        (dap_run count words.old.items mask) (dap_run count words.new.items mask) line.old line.new }
{
    match pending {
        Pending::Nothing => OK,
        Pending::Word => read_word(line, settings, RDBUFF, words),
        Pending::Check => persist(line, settings, RDBUFF, 0).value(),
    }
}

// Performs requests up to the first that isn't OK.
fn perform_all<L: ProbeLine>(
    line: &mut L,
    settings: &Settings,
    mask: &mut u32,
    request: &[u8],
    words: &mut Reply,
) -> Done
    requires whole { (dap_shape_by Command.Transfer request.now).request
        ≤ length request.now }
    requires room { (dap_shape_by Command.Transfer request.now).reply
        ≤ 512 }
    requires none { words.old.items ≡ [] }
    ensures room { 3 + length words.new.items
        ≤ (dap_shape_by Command.Transfer request.now).reply }
    ensures count { result.count < 256 }
    ensures makes { DapStepsMade L.clocks settings.now
        (dap_steps Pending.Nothing (dap_asked_list (slice_index request.now 2) (drop 3 request.now))) result.value
        (dap_run 0 [] mask.old) (dap_run result.count words.new.items mask.new) line.old line.new }
{
    let mut run = Run {
        mask: *mask,
        pending: Pending::Nothing,
    };
    let mut rest = &request[3..];
    for place in 0..request[2] {
        let value = next(line, settings, &mut run, asked_of(rest), words);
        *mask = run.mask;
        if value != OK {
            return Done {
                count: u16::from(place),
                value,
            };
        }
        rest = skip(rest, item_shape(Items::Transfers, rest).request);
    }
    Done {
        count: u16::from(request[2]),
        value: finish(line, settings, run.pending, words),
    }
}

// Performs the requests of a packet, if it has any.
fn perform_list<L: ProbeLine>(
    line: &mut L,
    settings: &Settings,
    mask: &mut u32,
    request: &[u8],
    words: &mut Reply,
) -> Done
    requires whole { (dap_shape_by Command.Transfer request.now).request
        ≤ length request.now }
    requires room { (dap_shape_by Command.Transfer request.now).reply
        ≤ 512 }
    requires none { words.old.items ≡ [] }
    ensures room { 3 + length words.new.items
        ≤ (dap_shape_by Command.Transfer request.now).reply }
    ensures count { result.count < 256 }
    ensures makes { (value : ℕ) × DapStepsMade L.clocks settings.now
        (dap_steps Pending.Nothing (dap_asked_list (slice_index request.now 2) (drop 3 request.now))) value
        (dap_run 0 [] mask.old) (dap_run result.count words.new.items mask.new) line.old line.new
        × (result.value ≡ dap_transfer_value (slice_index request.now 2) value) }
{
    if request[2] == 0 {
        Done { count: 0, value: 0 }
    } else {
        perform_all(line, settings, mask, request, words)
    }
}

/// Performs `DAP_Transfer`.
pub(crate) fn transfer<L: ProbeLine>(
    line: &mut L,
    settings: &Settings,
    mask: &mut u32,
    request: &[u8],
    reply: &mut Reply,
)
    requires whole { (dap_shape_by Command.Transfer request.now).request
        ≤ length request.now }
    requires room { length reply.old.items
        + (dap_shape_by Command.Transfer request.now).reply ≤ 512 }
    ensures { DapAppends (λ told. DapTransfers L.clocks settings.now request.now told mask.old mask.new
        line.old line.new) (dap_shape_by Command.Transfer request.now).reply reply.old.items reply.new.items }
{
    let mut words = Reply::new();
    let done = perform_list(line, settings, mask, request, &mut words);
    put(reply, &[0x05, done.count as u8, done.value]);
    put(reply, words.as_slice());
}
