//! The arguments of a command as rows of a table, and the command of `clap` that has them.
ghost use Rattle.std.specs.Prelude.{◌≡◌, IfOk, false};
ghost use Rattle.clap.specs.Words.{app_of, rule_of, with_rule, with_subcommand};
ghost use Rattle.clap.specs.declared.builder.command.Command.TheViews.{out-Command};
ghost use Rattle.swd_words.specs.Rules.{flag_rule, number_rule, optional_rule, place_rule, places_rule, repeated_rule};
ghost use Rattle.swd_words.specs.Rules.{value_rule};
ghost use Rattle.swd_words.specs.Tables.{argument_rule, argument_rows_app, command_row_app, command_rows_app};

use clap::{Arg, ArgAction, Command, value_parser};
use std::alloc::{AllocError, Global};

/// What an argument consists of.
#[derive(Clone, Copy)]
pub(crate) enum Form {
    /// A value at its place, and whether it has to be given.
    Place(bool),
    /// An option without a value.
    Flag,
    /// An option with a value, and what the help calls that.
    Value(&'static str),
    /// An option with a value or none.
    Optional(&'static str),
    /// An option with a number, which is this one or larger and at most 1,000, and the number without the option.
    Number(u32, &'static str),
    /// Values at the last places, maybe none.
    Places,
    /// An option that may be given repeatedly, each time with values of these names.
    Repeated(&'static [&'static str]),
}

/// An argument of a command: its name, its form and its help.
#[derive(Clone, Copy)]
pub(crate) struct Argument {
    pub(crate) name: &'static str,
    pub(crate) form: Form,
    pub(crate) help: &'static str,
}

/// A command: its name, its help before and after that of its arguments, and these.
#[derive(Clone, Copy)]
pub(crate) struct CommandRow {
    pub(crate) name: &'static str,
    pub(crate) about: &'static str,
    pub(crate) after: Option<&'static str>,
    pub(crate) arguments: &'static [Argument],
}

// Returns a value at its place.
fn place<'a>(alloc: Global, name: &'a str, help: &'a str, required: bool) -> Arg<'a>
    ensures rule { rule_of result ≡ place_rule name.now required }
    ensures local { result.global ≡ false }
{
    Arg::new(alloc, name).required(required).help(help)
}

// Returns an option without a value.
fn flag<'a>(alloc: Global, name: &'a str, help: &'a str) -> Arg<'a>
    ensures rule { rule_of result ≡ flag_rule name.now }
    ensures local { result.global ≡ false }
{
    Arg::new(alloc, name)
        .long(name)
        .action(ArgAction::SetTrue)
        .help(help)
}

// Returns an option with a value.
fn value<'a>(alloc: Global, name: &'a str, help: &'a str, value: &'a str) -> Arg<'a>
    ensures rule { rule_of result ≡ value_rule name.now }
    ensures local { result.global ≡ false }
{
    Arg::new(alloc, name)
        .long(name)
        .value_name(value)
        .help(help)
}

// Returns an option with a value or none.
fn optional<'a>(alloc: Global, name: &'a str, help: &'a str, value: &'a str) -> Arg<'a>
    ensures rule { rule_of result ≡ optional_rule name.now }
    ensures local { result.global ≡ false }
{
    Arg::new(alloc, name)
        .long(name)
        .num_args(0..=1)
        .value_name(value)
        .help(help)
}

// Returns an option with a number.
fn number<'a>(alloc: Global, name: &'a str, help: &'a str, least: u32, default: &'a str) -> Arg<'a>
    ensures rule { rule_of result ≡ number_rule name.now least default.now }
    ensures local { result.global ≡ false }
{
    Arg::new(alloc, name)
        .long(name)
        .value_name("N")
        .value_parser(value_parser!(u32).range(i64::from(least)..=1000))
        .default_value(default)
        .help(help)
}

// Returns values at the last places.
fn places<'a>(alloc: Global, name: &'a str, help: &'a str) -> Arg<'a>
    ensures rule { rule_of result ≡ places_rule name.now }
    ensures local { result.global ≡ false }
{
    Arg::new(alloc, name)
        .num_args(0..)
        .action(ArgAction::Append)
        .help(help)
}

// Returns an option that may be given repeatedly.
fn repeated<'a>(alloc: Global, name: &'a str, help: &'a str, values: &'a [&'a str]) -> Arg<'a>
    ensures rule { rule_of result ≡ repeated_rule name.now values.now }
    ensures local { result.global ≡ false }
{
    Arg::new(alloc, name)
        .long(name)
        .value_names(values)
        .action(ArgAction::Append)
        .help(help)
}

// Returns the argument of a row.
fn arg_of<'a>(alloc: Global, row: &Argument) -> Arg<'a>
    ensures rule { rule_of result ≡ argument_rule row.now }
    ensures local { result.global ≡ false }
{
    let Argument { name, form, help } = *row;
    match form {
        Form::Place(required) => place(alloc, name, help, required),
        Form::Flag => flag(alloc, name, help),
        Form::Value(called) => value(alloc, name, help, called),
        Form::Optional(called) => optional(alloc, name, help, called),
        Form::Number(least, default) => number(alloc, name, help, least, default),
        Form::Places => places(alloc, name, help),
        Form::Repeated(values) => repeated(alloc, name, help, values),
    }
}

// Adds an argument.
fn with_arg<'a>(command: Command<'a>, arg: Arg<'a>) -> Result<Command<'a>, AllocError>
    requires arg { arg.global ≡ false }
    requires local { (out-Command command).has_globals ≡ false }
    ensures app { IfOk result (λ c. app_of c ≡ with_rule (app_of command.entry) (rule_of arg.entry)) }
    ensures local { IfOk result (λ c. (out-Command c).has_globals ≡ false) }
{
    command.arg(arg)
}

// Adds a command.
fn with_sub<'a>(command: Command<'a>, sub: Command<'a>) -> Result<Command<'a>, AllocError>
    requires sub { (out-Command sub).has_globals ≡ false }
    requires local { (out-Command command).has_globals ≡ false }
    ensures app { IfOk result (λ c. app_of c ≡ with_subcommand (app_of command.entry) (app_of sub.entry).top) }
    ensures local { IfOk result (λ c. (out-Command c).has_globals ≡ false) }
{
    command.subcommand(sub)
}

// Adds the arguments of these rows.
fn with_rows<'a>(
    alloc: Global,
    command: Command<'a>,
    rows: &[Argument],
) -> Result<Command<'a>, AllocError>
    requires local { (out-Command command).has_globals ≡ false }
    ensures app { IfOk result (λ c. app_of c ≡ argument_rows_app (app_of command.entry) rows.now) }
    ensures local { IfOk result (λ c. (out-Command c).has_globals ≡ false) }
{
    let mut command = command;
    for row in rows {
        command = with_arg(command, arg_of(alloc, row))?;
    }
    Ok(command)
}

// Returns the command of a row.
fn command_of<'a>(alloc: Global, row: &CommandRow) -> Result<Command<'a>, AllocError>
    ensures app { IfOk result (λ c. app_of c ≡ command_row_app row.now) }
    ensures local { IfOk result (λ c. (out-Command c).has_globals ≡ false) }
{
    let bare = Command::new(alloc, row.name).about(row.about);
    let helped = match row.after {
        Some(after) => bare.after_help(after),
        None => bare,
    };
    with_rows(alloc, helped, row.arguments)
}

/// Adds the commands of these rows.
pub(crate) fn with_commands<'a>(
    alloc: Global,
    command: Command<'a>,
    rows: &[CommandRow],
) -> Result<Command<'a>, AllocError>
    requires local { (out-Command command).has_globals ≡ false }
    ensures app { IfOk result (λ c. app_of c ≡ command_rows_app (app_of command.entry) rows.now) }
    ensures local { IfOk result (λ c. (out-Command c).has_globals ≡ false) }
{
    let mut command = command;
    for row in rows {
        command = with_sub(command, command_of(alloc, row)?)?;
    }
    Ok(command)
}
