//! The steps of a decoder of captures. `over` is what is known of overrun detection; `ended` means that no bits follow
//! the held ones. The functions return `None` if more bits are needed, or if no bits are left.
ghost use Rattle.std.specs.Prelude.{◌≡◌, ◌+◌, ◌^◌, ◌<◌, ◌≤◌, List, Bool, true, false, ◌∷◌, length};
ghost use Rattle.swd_trace.specs.declared.item.Item.TheVariants.{Tx as TxItem};
ghost use Rattle.swd_resync.specs.Parts.{resync_told};
ghost use Rattle.swd_resync.specs.Holding.{resync_held};
ghost use Rattle.swd_resync.specs.Sights.{IsTxSight};
ghost use Rattle.swd_resync.specs.Stages.{ResyncMoves, resync_stage_counted};
ghost use Rattle.swd_resync.specs.Stages.{ResyncSeesSwitch, stretch_other_length_move, stretch_stage_behind};
ghost use Rattle.swd_resync.specs.Stages.{stretch_fate_move, stretch_phase_move};
ghost use Rattle.swd_resync.specs.Fronts.{IsResyncFront, ResyncSeesBehind, resync_step_move};
ghost use Rattle.swd_resync.specs.Fronts.{resync_is_acknowledged};

use crate::held::{HeldBits, WINDOW_BITS};
use crate::judge::{TxFate, bits_before_start, fate_of_tx, other_len, starts_with, stretch_begins};
use crate::look::{has_phase, is_ones, look};
use crate::overrun::Overrun;
use crate::part::{PHASE_BITS, Part};
use crate::sight::Sight;
use crate::stage::{Move, RemovalStage, Step, WholeTx};
use swd_bits::{SWITCH, SWITCH_BITS, Tx, TxBits, TxEnd};
use swd_trace::Item;

// The number of ones that make a line reset: as many bits as are examined.
const RESET_ONES: u64 = 50;

// The number of bits of a data phase.
const SKIPPED_PHASE: u64 = PHASE_BITS as u64;

/// Returns the next step. `front` is the transaction at the front of the held bits, if the step before saw it.
pub(crate) fn next_move(
    over: Overrun,
    ended: bool,
    stage: RemovalStage,
    front: Option<WholeTx>,
    held: &HeldBits,
) -> Option<Step>
    requires counted { resync_stage_counted stage + length (resync_held held.now) < 2 ^ 64 }
    requires front { IsResyncFront over.phases front (resync_held held.now) }
    ensures moves { ResyncMoves over ended stage (resync_held held.now) (resync_step_move result) }
    ensures behind { ResyncSeesBehind (resync_held held.now) result }
{
    match stage {
        RemovalStage::Start(zeros) => alone(at_start(over, ended, zeros, held)),
        RemovalStage::Stretch(zeros) => {
            if zeros == 0 {
                in_stretch(over, ended, front, held)
            } else {
                alone(behind_idle(over, ended, zeros, held))
            }
        }
        RemovalStage::Reset(ones) => alone(in_reset(over, ended, ones, held)),
        RemovalStage::AfterReset => alone(behind_reset(over, ended, held)),
        RemovalStage::AfterSwitch => alone(behind_switch(over, ended, held)),
        RemovalStage::AfterPhase => alone(behind_phase(over, ended, held)),
        RemovalStage::Between(count) => alone(between(over, ended, count, held)),
    }
}

// Returns a step that saw nothing behind its bits.
fn alone(found: Option<Move>) -> Option<Step>
    ensures moves { resync_step_move result ≡ found }
    ensures behind { (bits : List Bool) → ResyncSeesBehind bits result }
{
    match found {
        None => None,
        Some(next) => Some(Step { next, behind: None }),
    }
}

// Steps at the front of the capture, after zeros.
fn at_start(over: Overrun, ended: bool, zeros: u64, held: &HeldBits) -> Option<Move>
    requires { zeros + length (resync_held held.now) < 2 ^ 64 }
    ensures { ResyncMoves over ended (RemovalStage.Start zeros) (resync_held held.now) result }
{
    match look(over.phases, ended, held) {
        Sight::Wait => None,
        Sight::Zero => {
            let count = held.run_of(false);
            Some(Move {
                count,
                over,
                stage: RemovalStage::Start(zeros + u64::from(count)),
                part: None,
            })
        }
        Sight::Tx(tx, len) => match starts_with(over.phases, ended, held, &tx, len) {
            None => None,
            Some(true) => Some(stay(over, RemovalStage::Stretch(zeros))),
            Some(false) => Some(stay(over, RemovalStage::Between(zeros))),
        },
        Sight::Junk => Some(stay(over, RemovalStage::Between(zeros))),
        Sight::End => Some(stay(over, RemovalStage::Stretch(zeros))),
        Sight::Ones => Some(stay(over, RemovalStage::Stretch(zeros))),
        Sight::Cut(_) => Some(stay(over, RemovalStage::Stretch(zeros))),
    }
}

// Changes the stage without removing bits.
fn stay(over: Overrun, stage: RemovalStage) -> Move
    ensures { result ≡ record { count = 0; over = over; stage = stage; part = None } }
{
    Move {
        count: 0,
        over,
        stage,
        part: None,
    }
}

// Steps in a stretch.
fn in_stretch(over: Overrun, ended: bool, front: Option<WholeTx>, held: &HeldBits) -> Option<Step>
    requires counted { length (resync_held held.now) < 2 ^ 64 }
    requires front { IsResyncFront over.phases front (resync_held held.now) }
    ensures moves { ResyncMoves over ended (RemovalStage.Stretch 0) (resync_held held.now) (resync_step_move result) }
    ensures behind { ResyncSeesBehind (resync_held held.now) result }
{
    if let Some(front) = front {
        return tx_step(over, ended, &front, held);
    }
    match look(over.phases, ended, held) {
        Sight::Wait => None,
        Sight::End => None,
        Sight::Zero => {
            let count = held.run_of(false);
            Some(Step {
                next: Move {
                    count,
                    over,
                    stage: RemovalStage::Stretch(u64::from(count)),
                    part: None,
                },
                behind: None,
            })
        }
        Sight::Ones => Some(Step {
            next: Move {
                count: WINDOW_BITS,
                over,
                stage: RemovalStage::Reset(RESET_ONES),
                part: None,
            },
            behind: None,
        }),
        Sight::Junk => Some(Step {
            next: Move {
                count: 1,
                over,
                stage: RemovalStage::Between(1),
                part: None,
            },
            behind: None,
        }),
        Sight::Cut(bits) => Some(Step {
            next: Move {
                count: bits.len,
                over,
                stage: RemovalStage::Stretch(0),
                part: Some(Part::Item(Item::Cut(bits))),
            },
            behind: None,
        }),
        Sight::Tx(tx, len) => tx_step(over, ended, &WholeTx { tx, len }, held),
    }
}

// Returns the stage after a reported transaction.
fn behind_tx(tx: &Tx) -> RemovalStage
    ensures { result ≡ stretch_stage_behind tx.now.result }
{
    match tx.result {
        TxEnd::NoAck(_) => RemovalStage::Between(0),
        _ => RemovalStage::Stretch(0),
    }
}

// Returns a transaction as a part, with the data phase that was foreseen.
fn told_tx(over: bool, tx: &Tx) -> Part
    ensures { result ≡ resync_told over (TxItem tx.now) }
{
    if has_phase(over, tx) {
        Part::Phased(*tx)
    } else {
        Part::Item(Item::Tx(*tx))
    }
}

// Reports a transaction whose length isn't the foreseen one.
fn other_length_move(over: Overrun, tx: &Tx) -> Move
    ensures { result ≡ stretch_other_length_move over tx.now }
{
    Move {
        count: other_len(over.phases),
        over: over.turned(),
        stage: if over.phases {
            RemovalStage::Stretch(0)
        } else {
            RemovalStage::AfterPhase
        },
        part: Some(Part::Item(Item::Tx(*tx))),
    }
}

// Reports or withdraws a transaction of `len` bits.
fn fate_move(over: Overrun, tx: &Tx, len: u8, fate: TxFate) -> Move
    ensures { result ≡ stretch_fate_move over tx.now len fate }
{
    match fate {
        TxFate::Reported => Move {
            count: len,
            over: over.after(tx),
            stage: behind_tx(tx),
            part: Some(told_tx(over.phases, tx)),
        },
        TxFate::OtherLength => other_length_move(over, tx),
        TxFate::Withdrawn(count) => Move {
            count,
            over,
            stage: RemovalStage::Between(0),
            part: Some(Part::Skip(u64::from(count))),
        },
    }
}

// Steps in a stretch where a transaction is at the front. Usually another one follows directly.
fn tx_step(over: Overrun, ended: bool, front: &WholeTx, held: &HeldBits) -> Option<Step>
    requires { IsTxSight over.phases front.now.tx front.now.len (resync_held held.now) }
    ensures moves { ResyncMoves over ended (RemovalStage.Stretch 0) (resync_held held.now) (resync_step_move result) }
    ensures behind { ResyncSeesBehind (resync_held held.now) result }
{
    if !is_acknowledged(&front.tx) {
        return alone(tx_move(over, ended, front, held));
    }
    match look(false, ended, &held.without(front.len)) {
        Sight::Wait => None,
        Sight::Tx(tx, len) => Some(followed_step(over, front, WholeTx { tx, len })),
        _ => alone(tx_move(over, ended, front, held)),
    }
}

/// Returns whether OK, WAIT or FAULT ended a transaction.
pub(crate) fn is_acknowledged(tx: &Tx) -> bool
    ensures { result ≡ resync_is_acknowledged tx.now.result }
{
    !matches!(&tx.result, TxEnd::NoAck(_))
}

/// Reports a transaction that another follows directly. That one was seen as without overrun detection.
pub(crate) fn followed_step(over: Overrun, front: &WholeTx, follower: WholeTx) -> Step
    ensures next { result.next ≡ stretch_fate_move over front.now.tx front.now.len TxFate.Reported }
    ensures behind { (bits : List Bool) → IsTxSight false follower.tx follower.len bits
        → IsResyncFront result.next.over.phases result.behind bits }
{
    let next = fate_move(over, &front.tx, front.len, TxFate::Reported);
    let behind = if next.over.phases {
        None
    } else {
        Some(follower)
    };
    Step { next, behind }
}

// Steps in a stretch where a transaction is at the front.
fn tx_move(over: Overrun, ended: bool, front: &WholeTx, held: &HeldBits) -> Option<Move>
    requires { IsTxSight over.phases front.now.tx front.now.len (resync_held held.now) }
    ensures { ResyncMoves over ended (RemovalStage.Stretch 0) (resync_held held.now) result }
{
    match fate_of_tx(over, ended, held, &front.tx, front.len) {
        None => None,
        Some(fate) => Some(fate_move(over, &front.tx, front.len, fate)),
    }
}

// Steps in a stretch, after a data phase that wasn't foreseen: what is skipped directly after it joins its 33 bits.
fn behind_phase(over: Overrun, ended: bool, held: &HeldBits) -> Option<Move>
    ensures { ResyncMoves over ended RemovalStage.AfterPhase (resync_held held.now) result }
{
    match look(over.phases, ended, held) {
        Sight::Wait => None,
        Sight::Junk => Some(Move {
            count: 1,
            over,
            stage: RemovalStage::Between(SKIPPED_PHASE + 1),
            part: None,
        }),
        Sight::Tx(tx, len) => match fate_of_tx(over, ended, held, &tx, len) {
            None => None,
            Some(fate) => Some(phase_move(over, fate)),
        },
        Sight::End => Some(phase_skipped(over)),
        Sight::Zero => Some(phase_skipped(over)),
        Sight::Ones => Some(phase_skipped(over)),
        Sight::Cut(_) => Some(phase_skipped(over)),
    }
}

// Reports a data phase that wasn't foreseen, and what is skipped of the transaction after it.
fn phase_move(over: Overrun, fate: TxFate) -> Move
    ensures { result ≡ stretch_phase_move over fate }
{
    match fate {
        TxFate::Withdrawn(count) => Move {
            count,
            over,
            stage: RemovalStage::Between(0),
            part: Some(Part::Skip(SKIPPED_PHASE + u64::from(count))),
        },
        TxFate::Reported | TxFate::OtherLength => phase_skipped(over),
    }
}

// Reports a data phase that wasn't foreseen.
fn phase_skipped(over: Overrun) -> Move
    ensures { result ≡ record
        { count = 0; over = over; stage = RemovalStage.Stretch 0; part = Some (Part.Skip 33) } }
{
    Move {
        count: 0,
        over,
        stage: RemovalStage::Stretch(0),
        part: Some(Part::Skip(SKIPPED_PHASE)),
    }
}

// Steps in a stretch, after idle cycles.
fn behind_idle(over: Overrun, ended: bool, zeros: u64, held: &HeldBits) -> Option<Move>
    requires some { 0 < zeros }
    requires count { zeros + length (resync_held held.now) < 2 ^ 64 }
    ensures { ResyncMoves over ended (RemovalStage.Stretch zeros) (resync_held held.now) result }
{
    let told = Move {
        count: 0,
        over,
        stage: RemovalStage::Stretch(0),
        part: Some(Part::Item(Item::Idle(zeros))),
    };
    match held.first() {
        None => { if ended { Some(told) } else { None } }
        Some(true) => Some(told),
        Some(false) => {
            let count = held.run_of(false);
            Some(Move {
                count,
                over,
                stage: RemovalStage::Stretch(zeros + u64::from(count)),
                part: None,
            })
        }
    }
}

// Steps in a stretch, after ones of a line reset.
fn in_reset(over: Overrun, ended: bool, ones: u64, held: &HeldBits) -> Option<Move>
    requires { ones + length (resync_held held.now) < 2 ^ 64 }
    ensures { ResyncMoves over ended (RemovalStage.Reset ones) (resync_held held.now) result }
{
    let told = Move {
        count: 0,
        over,
        stage: RemovalStage::AfterReset,
        part: Some(Part::Item(Item::Reset(ones))),
    };
    match held.first() {
        None => { if ended { Some(told) } else { None } }
        Some(true) => {
            let count = held.run_of(true);
            Some(Move {
                count,
                over,
                stage: RemovalStage::Reset(ones + u64::from(count)),
                part: None,
            })
        }
        Some(false) => Some(told),
    }
}

// Steps directly after a line reset.
fn behind_reset(over: Overrun, ended: bool, held: &HeldBits) -> Option<Move>
    ensures { ResyncMoves over ended RemovalStage.AfterReset (resync_held held.now) result }
{
    match sees_switch(ended, held.window()) {
        None => None,
        Some(false) => Some(stay(over, RemovalStage::Stretch(0))),
        Some(true) => Some(Move {
            count: SWITCH_BITS,
            over,
            stage: RemovalStage::AfterSwitch,
            part: Some(Part::Item(Item::Switch)),
        }),
    }
}

// Returns whether the bits begin with the switch from JTAG.
fn sees_switch(ended: bool, window: TxBits) -> Option<bool>
    requires { window.len ≤ 50 }
    ensures { ResyncSeesSwitch ended window result }
{
    let seen = window.len.min(SWITCH_BITS);
    let mask = (1 << seen) - 1;
    if window.bits & mask != SWITCH & mask {
        return Some(false);
    }
    if window.len >= SWITCH_BITS {
        return Some(true);
    }
    if ended { Some(false) } else { None }
}

// Steps directly after a switch.
fn behind_switch(over: Overrun, ended: bool, held: &HeldBits) -> Option<Move>
    ensures { ResyncMoves over ended RemovalStage.AfterSwitch (resync_held held.now) result }
{
    let window = held.window();
    if !is_ones(window) {
        return Some(stay(over, RemovalStage::Between(0)));
    }
    if window.len == WINDOW_BITS {
        return Some(Move {
            count: WINDOW_BITS,
            over,
            stage: RemovalStage::Reset(RESET_ONES),
            part: None,
        });
    }
    if !ended || window.len == 0 {
        return None;
    }
    Some(Move {
        count: window.len,
        over,
        stage: RemovalStage::Stretch(0),
        part: Some(Part::Item(Item::Cut(window))),
    })
}

// Steps between two stretches, after skipped bits.
fn between(over: Overrun, ended: bool, count: u64, held: &HeldBits) -> Option<Move>
    requires { count + length (resync_held held.now) < 2 ^ 64 }
    ensures { ResyncMoves over ended (RemovalStage.Between count) (resync_held held.now) result }
{
    match held.first() {
        None => {
            if ended && count > 0 {
                Some(skipped(over, count))
            } else {
                None
            }
        }
        Some(_) => {
            let before = bits_before_start(held.window());
            if before > 0 {
                return Some(Move {
                    count: before,
                    over,
                    stage: RemovalStage::Between(count + u64::from(before)),
                    part: None,
                });
            }
            between_at(over, ended, count, held)
        }
    }
}

// Steps between two stretches where the first held bit may begin one.
fn between_at(over: Overrun, ended: bool, count: u64, held: &HeldBits) -> Option<Move>
    requires some { (bit : Bool) × (back : List Bool) × (resync_held held.now ≡ bit ∷ back) }
    requires count { count + length (resync_held held.now) < 2 ^ 64 }
    ensures { ResyncMoves over ended (RemovalStage.Between count) (resync_held held.now) result }
{
    match stretch_begins(over.phases, ended, held) {
        None => None,
        Some(true) => {
            if count > 0 {
                Some(skipped(over, count))
            } else {
                Some(stay(over, RemovalStage::Stretch(0)))
            }
        }
        Some(false) => Some(Move {
            count: 1,
            over,
            stage: RemovalStage::Between(count + 1),
            part: None,
        }),
    }
}

// Reports the bits before here as skipped.
fn skipped(over: Overrun, count: u64) -> Move
    ensures { result ≡ record
        { count = 0; over = over; stage = RemovalStage.Between 0; part = Some (Part.Skip count) } }
{
    Move {
        count: 0,
        over,
        stage: RemovalStage::Between(0),
        part: Some(Part::Skip(count)),
    }
}
