//! The forms that the arguments of commands have, each with the command of `clap` that reads it.
ghost use Rattle.std.specs.Prelude.{◌≡◌, IfOk};
ghost use Rattle.clap.specs.Words.{app_of, with_rule};
ghost use Rattle.md_cli_words.specs.Forms.{app_of_form, from_rule, place_rule, units_rule, width_rule, with_draw, with_draws, with_files, with_number};

use clap::{Arg, Command};
use std::alloc::{AllocError, Global};

/// How many arguments stand in a row, and whether the option `--width`, `--units` or `--from` may stand among them.
#[derive(Clone, Copy)]
pub(crate) enum Form {
    /// One argument.
    One,
    /// One argument, and a width or none.
    OneWidth,
    /// One argument, and the second file or none.
    OneBasis,
    /// Two arguments.
    Two,
    /// Two arguments, and a width or none.
    TwoWidth,
    /// Two arguments, and a number of units or none.
    TwoUnits,
    /// One argument, a number, and a width or none.
    NumberWidth,
    /// One argument and a number.
    OneNumber,
    /// One argument, a number, a profile and a draw.
    NumberDraw,
    /// Two arguments, a profile, two draws, and a number of units or none.
    Draws,
    /// A number.
    Number,
}

// The command with one more argument, which has to be there.
fn with_place<'a>(
    alloc: Global,
    command: Command<'a>,
    id: &'a str,
) -> Result<Command<'a>, AllocError>
    ensures { IfOk result (λ more. app_of more ≡ with_rule (app_of command.entry) (place_rule id.entry.now)) }
{
    let place = Arg::new(alloc, id).required(true);
    command.arg(place)
}

// The command with the option `--width`, which takes one value.
fn with_width(alloc: Global, command: Command<'_>) -> Result<Command<'_>, AllocError>
    ensures { IfOk result (λ more. app_of more ≡ with_rule (app_of command.entry) width_rule) }
{
    let width = Arg::new(alloc, "width").long("width");
    command.arg(width)
}

// The command with the option `--units`, which takes one value.
fn with_units(alloc: Global, command: Command<'_>) -> Result<Command<'_>, AllocError>
    ensures { IfOk result (λ more. app_of more ≡ with_rule (app_of command.entry) units_rule) }
{
    let units = Arg::new(alloc, "units").long("units");
    command.arg(units)
}

// The command with the option `--from`, which takes the name of the second file.
fn with_basis(alloc: Global, command: Command<'_>) -> Result<Command<'_>, AllocError>
    ensures { IfOk result (λ more. app_of more ≡ with_rule (app_of command.entry) from_rule) }
{
    let basis = Arg::new(alloc, "second").long("from");
    command.arg(basis)
}

// The command with two arguments, which are the names of files.
fn with_files<'a>(alloc: Global, command: Command<'a>) -> Result<Command<'a>, AllocError>
    ensures { IfOk result (λ more. app_of more ≡ with_files (app_of command.entry)) }
{
    let first = with_place(alloc, command, "first")?;
    with_place(alloc, first, "second")
}

// The command with two arguments, the name of a file and a number.
fn with_number<'a>(alloc: Global, command: Command<'a>) -> Result<Command<'a>, AllocError>
    ensures { IfOk result (λ more. app_of more ≡ with_number (app_of command.entry)) }
{
    let first = with_place(alloc, command, "first")?;
    with_place(alloc, first, "number")
}

// The command with a profile and a draw.
fn with_draw<'a>(alloc: Global, command: Command<'a>) -> Result<Command<'a>, AllocError>
    ensures { IfOk result (λ more. app_of more ≡ with_draw (app_of command.entry)) }
{
    let profile = with_place(alloc, command, "profile")?;
    with_place(alloc, profile, "first_draw")
}

// The command with a profile and two draws.
fn with_draws<'a>(alloc: Global, command: Command<'a>) -> Result<Command<'a>, AllocError>
    ensures { IfOk result (λ more. app_of more ≡ with_draws (app_of command.entry)) }
{
    let first = with_draw(alloc, command)?;
    with_place(alloc, first, "second_draw")
}

/// The command of `clap` that reads arguments of a form.
pub(crate) fn reader_of<'a>(alloc: Global, form: Form) -> Result<Command<'a>, AllocError>
    ensures { IfOk result (λ command. app_of command ≡ app_of_form form) }
{
    let bare = Command::new(alloc, "mechdes");
    match form {
        Form::One => with_place(alloc, bare, "first"),
        Form::OneWidth => {
            let one = with_place(alloc, bare, "first")?;
            with_width(alloc, one)
        }
        Form::OneBasis => {
            let one = with_place(alloc, bare, "first")?;
            with_basis(alloc, one)
        }
        Form::Two => with_files(alloc, bare),
        Form::TwoWidth => {
            let two = with_files(alloc, bare)?;
            with_width(alloc, two)
        }
        Form::TwoUnits => {
            let two = with_files(alloc, bare)?;
            with_units(alloc, two)
        }
        Form::NumberWidth => {
            let two = with_number(alloc, bare)?;
            with_width(alloc, two)
        }
        Form::OneNumber => with_number(alloc, bare),
        Form::NumberDraw => {
            let two = with_number(alloc, bare)?;
            with_draw(alloc, two)
        }
        Form::Draws => {
            let two = with_files(alloc, bare)?;
            let draws = with_draws(alloc, two)?;
            with_units(alloc, draws)
        }
        Form::Number => with_place(alloc, bare, "number"),
    }
}
