//! The arguments of `swd draw`.
ghost use Rattle.std.specs.Prelude.{IfOk};
ghost use Rattle.clap.specs.Words.{found_of, rows_of};
ghost use Rattle.swd_words.specs.Commands.{AreDrawArguments};

use crate::argument::{Argument, CommandRow, Form};
use crate::decode_words::{NAMES, OVERRUN, OVERRUN_WITH_RESYNC, RESYNC};
use crate::fault::LineFault;
use crate::words::{FILE, NumberOption, is_set, number_in, refused, text_in, value_in};
use clap::ArgMatches;
use clap::error::ErrorKind;
use std::alloc::Global;
use swd_command_line::DrawLine;

const DRAW_AFTER: &str = "\
The picture goes to standard output. A browser shows it:
  swd draw session.trace >session.svg

A row has the item's place and line, as swd decode --places prints them, or with
--names as swd decode --places --names. Below are the waves of SWCLK and SWDIO,
and a box for each field of the packet request, the acknowledgement and the data
phase, with its value. Turnarounds are grey, and their level lies between high
and low. Each bit is one period of SWCLK, and is sampled at its rising edge. Of
a reset, idle cycles or a skip of more than 16 bits the wave is broken, and the
box has the count.

The first items are drawn, as many as --items says. The picture says how many it
leaves out. It is 72 pixels high, and 140 more for each item. The whole trace is
read first: where it is invalid there is no picture.";

/// The most items of a drawing.
pub(crate) const ITEMS: NumberOption = NumberOption {
    word: "--items",
    shown: "--items <N>",
    range: "it is not in 1..=1000",
    default: 200,
};

/// The command `draw`.
pub(crate) const DRAW: CommandRow = CommandRow {
    name: "draw",
    about: "Draw a trace's waves as an SVG picture, one row an item",
    after: Some(DRAW_AFTER),
    arguments: &[
        FILE,
        Argument {
            name: "items",
            form: Form::Number(1, "200"),
            help: "The most items that are drawn, from 1 to 1000",
        },
        NAMES,
        RESYNC,
        OVERRUN,
    ],
};

/// Returns the arguments of `swd draw`. Rejects `--overrun` without `--resync`.
pub(crate) fn draw_line(alloc: Global, matches: &ArgMatches<'_>) -> Result<DrawLine, LineFault>
    ensures { IfOk result (λ draw. AreDrawArguments draw (rows_of (found_of matches.now))) }
{
    let resync = is_set(matches, "resync");
    let overrun = is_set(matches, "overrun");
    if overrun && !resync {
        let kind = ErrorKind::MissingRequiredArgument;
        return Err(refused(alloc, kind, OVERRUN_WITH_RESYNC));
    }
    let items = number_in(alloc, value_in(matches, "items"), ITEMS)?;
    let names = is_set(matches, "names");
    let file = text_in(alloc, matches, "FILE")?;
    Ok(DrawLine {
        file,
        items,
        names,
        resync,
        overrun,
    })
}
