//! The commands by their names, and the form that the arguments of each have.
ghost use Rattle.std.specs.Prelude.{◌≡◌, map, string_bytes};
ghost use Rattle.md_cli_words.specs.Commands.{command_in, command_named, form_of};

use crate::form::Form;

/// A command, apart from its arguments.
#[derive(Clone, Copy)]
pub enum Command {
    /// `audit SETTING ANSWER` tries a mechanism against all conditions of a setting.
    Audit,
    /// `rows SETTING` prints the linear program of a setting.
    Rows,
    /// `check SETTING ANSWER [--units NUMBER]` checks an answer about a setting, or one about a sale of so many units.
    Check,
    /// `solve SETTING [--width W]` solves a setting within a width.
    Solve,
    /// `replay SETTING PIVOTS [--width W]` carries out pivots on the linear program of a setting within a width.
    Replay,
    /// `realise SETTING ODDS` realises interim odds of an auction.
    Realise,
    /// `fair SETTING [--width W]` finds the fairest mechanism of a setting within a width.
    Fair,
    /// `find SETTING [--from BASIS]` finds the best mechanism of a setting, off the stated paths too, from a basis where one is given.
    Find,
    /// `findfair SETTING` finds the fairest mechanism of a setting, off the stated paths too.
    FindFair,
    /// `require SETTING CONDITIONS` finds the best mechanism of a setting that meets conditions of the designer.
    Require,
    /// `asym SETTING [--width W]` solves the sale of one item to bidders who differ within a width.
    Asym,
    /// `units SETTING NUMBER [--width W]` sells so many units to the bidders of an auction within a width.
    Units,
    /// `threshold SETTING NUMBER` tells the best auction of so many units in which only winners pay.
    Threshold,
    /// `award SETTING NUMBER PROFILE DRAW` tells what each bidder has in it at a profile of reports and a draw.
    Award,
    /// `determ SETTING [--width W]` finds the best deterministic mechanism of a setting within a width.
    Determ,
    /// `determcheck SETTING ANSWER` checks an answer about the deterministic mechanisms of a setting.
    DetermCheck,
    /// `run SETTING ANSWER PROFILE DRAW1 DRAW2 [--units NUMBER]` draws an outcome of an answer at a profile of reports, or who gets one
    /// of so many units.
    Run,
    /// `report SETTING ANSWER [--units NUMBER]` tells what the mechanism of an answer does, also of one about so many units, and how far
    /// it is from truthful.
    Report,
    /// `iron SETTING` gives an optimal mechanism of an auction in closed form.
    Iron,
    /// `ironunits SETTING NUMBER` sells so many units to the bidders of an auction in closed form.
    IronUnits,
    /// `make NUMBER` prints the setting that a number stands for.
    Make,
    /// `drill NUMBER` solves the setting that a number stands for, and checks the answer.
    Drill,
}

/// The command that the first word of a call names, if there is one and it does. It takes no memory.
pub(crate) fn command_in(words: &[String]) -> Option<Command>
    ensures { result ≡ command_in (map string_bytes words.now) }
{
    named(words.first()?.as_str())
}

// The command of a name.
fn named(word: &str) -> Option<Command>
    ensures { result ≡ command_named word.now }
{
    match word {
        "audit" => Some(Command::Audit),
        "rows" => Some(Command::Rows),
        "check" => Some(Command::Check),
        "solve" => Some(Command::Solve),
        "replay" => Some(Command::Replay),
        "realise" => Some(Command::Realise),
        "fair" => Some(Command::Fair),
        "find" => Some(Command::Find),
        "findfair" => Some(Command::FindFair),
        "require" => Some(Command::Require),
        "asym" => Some(Command::Asym),
        "units" => Some(Command::Units),
        "threshold" => Some(Command::Threshold),
        "award" => Some(Command::Award),
        "determ" => Some(Command::Determ),
        "determcheck" => Some(Command::DetermCheck),
        "run" => Some(Command::Run),
        "report" => Some(Command::Report),
        "iron" => Some(Command::Iron),
        "ironunits" => Some(Command::IronUnits),
        "make" => Some(Command::Make),
        "drill" => Some(Command::Drill),
        _ => None,
    }
}

/// The form of a command's arguments.
pub(crate) fn form(command: Command) -> Form
    ensures { result ≡ form_of command }
{
    match command {
        Command::Rows | Command::FindFair | Command::Iron => Form::One,
        Command::Find => Form::OneBasis,
        Command::Solve | Command::Fair | Command::Asym | Command::Determ => Form::OneWidth,
        Command::Audit | Command::Realise | Command::Require | Command::DetermCheck => Form::Two,
        Command::Check | Command::Report => Form::TwoUnits,
        Command::Replay => Form::TwoWidth,
        Command::Units => Form::NumberWidth,
        Command::Threshold | Command::IronUnits => Form::OneNumber,
        Command::Award => Form::NumberDraw,
        Command::Run => Form::Draws,
        Command::Make | Command::Drill => Form::Number,
    }
}
