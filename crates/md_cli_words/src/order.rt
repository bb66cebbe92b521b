//! What the words of a call ask for.
ghost use Rattle.std.specs.Prelude.{◌≡◌, IfOk, IfErr, IsSome, map, option_map, string_bytes};
ghost use Rattle.clap.specs.Words.{found_of, rows_of};
ghost use Rattle.md_cli_words.specs.Commands.{command_in};
ghost use Rattle.md_cli_words.specs.Orders.{asked};
ghost use Rattle.md_cli_words.specs.Words.{command_of, is_there, number_in, number_of, order_in, order_of_found, text_in, units_in, width_in, width_of, width_of_number};

use crate::command::{Command, command_in, form};
use crate::cut::{cut, text_of};
use crate::form::reader_of;
use clap::ArgMatches;
use md_num::{NoMemory, Width, read_whole};
use std::alloc::Global;

/// The width where none is asked for.
const GREATEST_WIDTH: u8 = 62;

/// A command with what it is asked for. A text is empty, and a number 0, where the command has no such argument.
#[derive(Clone, Copy)]
pub struct Order<'a> {
    /// What is to be done.
    pub command: Command,
    /// The name of the setting file.
    pub setting: &'a str,
    /// The name of the second file.
    pub second: &'a str,
    /// Whether a second file is named.
    pub has_second: bool,
    /// The width that is asked for; the greatest one where none is.
    pub width: Width,
    /// The reports at which an outcome is drawn, as they were typed.
    pub profile: &'a str,
    /// The draw of the outcome; of an auction, of the value that wins; where units are awarded, of who wins in a pool.
    pub first_draw: i128,
    /// The draw of the bidder among those with the value that wins.
    pub second_draw: i128,
    /// The number that stands for a setting, or how many units are sold.
    pub number: i128,
    /// How many units an answer is about, where `--units` says so.
    pub units: Option<i128>,
}

/// What the words of a call ask for, the first of which names the command.
///
/// None where they are no command: the first is missing or no name, `clap` refuses the rest, a call for help included,
/// a width is no whole number from 4 to 62, or a draw or a number, also of units, is no whole number of at most 126 bits.
pub fn order_of<'a>(alloc: Global, words: &'a [String]) -> Result<Option<Order<'a>>, NoMemory>
    // The order that the definition gives for the words, and none where it gives none.
    ensures asked { IfOk result (λ order. option_map asked order ≡ command_of (map string_bytes words.entry.now)) }

    // Want of memory comes only where the first word names a command: a call without words, or of an unknown name, is
    // always answered.
    ensures known { IfErr result (λ _. IsSome (command_in (map string_bytes words.entry.now))) }
{
    match command_in(words) {
        Some(command) => order_for(alloc, command, words),
        None => Ok(None),
    }
}

// What the words ask of a command.
fn order_for<'a>(
    alloc: Global,
    command: Command,
    words: &'a [String],
) -> Result<Option<Order<'a>>, NoMemory>
    ensures { IfOk result (λ order. option_map asked order ≡ order_in command (map string_bytes words.entry.now)) }
{
    let reader = reader_of(alloc, form(command))?;
    match cut(reader, words) {
        Ok(Some(matches)) => Ok(order_from(command, &matches)),
        Ok(None) => Ok(None),
        Err(error) => Err(error),
    }
}

// The command with the arguments that were found.
fn order_from<'a>(command: Command, matches: &ArgMatches<'a>) -> Option<Order<'a>>
    ensures { option_map asked result ≡ order_of_found command (rows_of (found_of matches.now)) }
{
    Some(Order {
        command,
        setting: text_from(matches, "first"),
        second: text_from(matches, "second"),
        has_second: has_text(matches, "second"),
        width: width_from(matches)?,
        profile: text_from(matches, "profile"),
        first_draw: number_from(matches, "first_draw")?,
        second_draw: number_from(matches, "second_draw")?,
        number: number_from(matches, "number")?,
        units: units_from(matches)?,
    })
}

// The text of an argument, or the empty one.
fn text_from<'a>(matches: &ArgMatches<'a>, id: &str) -> &'a str
    ensures { result.now ≡ text_in id.now (rows_of (found_of matches.now)) }
{
    text_of(matches, id).unwrap_or("")
}

// Whether an argument is there.
fn has_text(matches: &ArgMatches<'_>, id: &str) -> bool
    ensures { result ≡ is_there id.now (rows_of (found_of matches.now)) }
{
    match text_of(matches, id) {
        Some(_) => true,
        None => false,
    }
}

// The number that an argument says, or 0.
fn number_from(matches: &ArgMatches<'_>, id: &str) -> Option<i128>
    ensures { result ≡ number_in id.now (rows_of (found_of matches.now)) }
{
    match text_of(matches, id) {
        Some(text) => read_number(text),
        None => Some(0),
    }
}

// The number of units that `--units` asks for, if it is there; None where it says no number.
fn units_from(matches: &ArgMatches<'_>) -> Option<Option<i128>>
    ensures { result ≡ units_in (rows_of (found_of matches.now)) }
{
    match text_of(matches, "units") {
        Some(text) => Some(Some(read_number(text)?)),
        None => Some(None),
    }
}

// The number that a text says.
fn read_number(text: &str) -> Option<i128>
    ensures { result ≡ number_of text.now }
{
    match read_whole(text.as_bytes(), 126) {
        Ok(number) => Some(number),
        Err(_) => None,
    }
}

// The width that was asked for, or the greatest one.
fn width_from(matches: &ArgMatches<'_>) -> Option<Width>
    ensures { result ≡ width_in (rows_of (found_of matches.now)) }
{
    match text_of(matches, "width") {
        Some(text) => read_width(text),
        None => Width::new(GREATEST_WIDTH),
    }
}

// The width that a text says.
fn read_width(text: &str) -> Option<Width>
    ensures { result ≡ width_of text.now }
{
    match read_whole(text.as_bytes(), 126) {
        Ok(bits) => width_of_number(bits),
        Err(_) => None,
    }
}

// A number as a width.
fn width_of_number(bits: i128) -> Option<Width>
    ensures { result ≡ width_of_number bits }
{
    Width::new(u8::try_from(bits).ok()?)
}
