//! Why a command is not carried out, and what is said of it.
ghost use Rattle.std.specs.Prelude.{◌≡◌, IfOk, string_bytes};
ghost use Rattle.md_cli_driver.specs.declared.refusal.Refusal.TheVariants.{Memory};
ghost use Rattle.md_cli_driver.specs.Refused.{answer_refused};
ghost use Rattle.md_cli_driver.specs.Texts.{build_text, setting_text, answer_text, want_of_memory};

use crate::status::{
    ANSWER_REFUSED, ARGUMENT_REFUSED, NO_MEMORY, READ_FAULT, SETTING_REFUSED, USAGE,
};
use md_num::NoMemory;
use md_parts::AnswerRefusal;
use md_setting::BuildRefusal;
use md_toml::SettingRefusal;
use std::alloc::{AllocError, Global};

/// The first reason for which a command is not carried out.
#[derive(Clone, Copy)]
pub enum Refusal {
    /// The words are no command.
    Usage,
    /// The setting file is longer than its limit.
    SettingTooLong,
    /// The setting file says no setting.
    Setting(SettingRefusal),
    /// The command is for the other kind of setting.
    OtherKind,
    /// The command is for sales, and the setting is none.
    NotASale,
    /// The second file is longer than its limit.
    AnswerTooLong,
    /// The second file says no answer.
    Answer(AnswerRefusal),
    /// The answer that the second file says has no mechanism.
    NoTable,
    /// The listed pivot of this number, counted from 1, cannot be carried out.
    Pivot(u64),
    /// The reports at which an outcome is drawn are no profile.
    Profile,
    /// A draw is out of its range.
    Draw,
    /// The number stands for no setting.
    Number,
    /// A file could not be read.
    ReadFault,
    /// There is no memory left.
    Memory,
}

impl From<NoMemory> for Refusal {
    ghost from_gives = { λ _ e. e ≡ Memory };

    fn from(_: NoMemory) -> Self {
        Refusal::Memory
    }
}

impl From<AnswerRefusal> for Refusal {
    ghost from_gives = { λ refusal e. e ≡ answer_refused refusal };

    fn from(refusal: AnswerRefusal) -> Self {
        match refusal {
            AnswerRefusal::Memory => Refusal::Memory,
            other => Refusal::Answer(other),
        }
    }
}

/// What is said where there is no memory left.
pub fn want_of_memory() -> &'static str
    ensures { result.now ≡ want_of_memory }
{
    "mechdes: want of memory\n"
}

// What is said of a setting that is not well formed.
fn build_refusal_text(refusal: BuildRefusal) -> &'static str
    ensures { result.now ≡ build_text refusal }
{
    match refusal {
        BuildRefusal::BadName => "bad name",
        BuildRefusal::DoubleName => "double name",
        BuildRefusal::Sizes => "sizes",
        BuildRefusal::Shape => "shape",
        BuildRefusal::OutOfRange => "out of range",
        BuildRefusal::ZeroWeight => "zero weight",
        BuildRefusal::WeightTotal => "weight total",
        BuildRefusal::ValuesOrder => "values order",
        BuildRefusal::SlotsOrder => "slots order",
        BuildRefusal::TooManyRows => "too many rows",
        BuildRefusal::TooManyCounts => "too many counts",
        BuildRefusal::Memory => "memory",
    }
}

// What is said of a setting file that is refused.
fn setting_refusal_text(alloc: Global, refusal: SettingRefusal) -> Result<String, AllocError>
    ensures { IfOk result (λ text. string_bytes text ≡ setting_text refusal) }
{
    match refusal {
        SettingRefusal::NotToml => format!(in alloc; "mechdes: setting refused: not toml\n"),
        SettingRefusal::Missing(key) => {
            format!(in alloc; "mechdes: setting refused: missing {}\n", key.text())
        }
        SettingRefusal::WrongKind(key) => {
            format!(in alloc; "mechdes: setting refused: wrong kind {}\n", key.text())
        }
        SettingRefusal::UnknownWord(key) => {
            format!(in alloc; "mechdes: setting refused: unknown word {}\n", key.text())
        }
        SettingRefusal::UnknownKey => format!(in alloc; "mechdes: setting refused: unknown key\n"),
        SettingRefusal::Build(refusal) => {
            format!(in alloc;
                "mechdes: setting refused: {}\n",
                build_refusal_text(refusal)
            )
        }
        SettingRefusal::Memory => String::from_str(alloc, want_of_memory()),
    }
}

// What is said of an answer file that is refused.
fn answer_refusal_text(alloc: Global, refusal: AnswerRefusal) -> Result<String, AllocError>
    ensures { IfOk result (λ text. string_bytes text ≡ answer_text refusal) }
{
    match refusal {
        AnswerRefusal::Line(line) => {
            format!(in alloc; "mechdes: answer refused: line {line}: record\n")
        }
        AnswerRefusal::Cell(line, field) => {
            format!(in alloc; "mechdes: answer refused: line {line}: field {field}\n")
        }
        AnswerRefusal::Sum(line) => format!(in alloc;
            "mechdes: answer refused: line {line}: sum\n"
        ),
        AnswerRefusal::End(line) => format!(in alloc;
            "mechdes: answer refused: line {line}: ended\n"
        ),
        AnswerRefusal::Memory => String::from_str(alloc, want_of_memory()),
    }
}

impl Refusal {
    ghost use Rattle.std.specs.Prelude.{◌≡◌, None, IfOk, IfSome, string_bytes};
    ghost use Rattle.md_cli_driver.specs.Refused.{HasMadeLine, status_of, text_of};

    /// The status that the call ends with.
    pub fn status(self) -> u8
        ensures { result ≡ status_of self }
    {
        match self {
            Refusal::Usage => USAGE,
            Refusal::SettingTooLong
            | Refusal::Setting(_)
            | Refusal::OtherKind
            | Refusal::NotASale => SETTING_REFUSED,
            Refusal::AnswerTooLong | Refusal::Answer(_) | Refusal::NoTable => ANSWER_REFUSED,
            Refusal::Pivot(_) | Refusal::Profile | Refusal::Draw | Refusal::Number =>
                ARGUMENT_REFUSED,
            Refusal::ReadFault => READ_FAULT,
            Refusal::Memory => NO_MEMORY,
        }
    }

    /// The line that says it, where no word or number goes into it.
    pub fn line(self) -> Option<&'static str>
        ensures text { IfSome result (λ line. line.now ≡ text_of self) }
        ensures made { result ≡ None → HasMadeLine self }
    {
        match self {
            Refusal::Usage => Some("mechdes: usage\n"),
            Refusal::SettingTooLong => Some("mechdes: setting refused: too long\n"),
            Refusal::OtherKind => Some("mechdes: setting refused: other kind\n"),
            Refusal::NotASale => Some("mechdes: setting refused: not a sale\n"),
            Refusal::AnswerTooLong => Some("mechdes: answer refused: too long\n"),
            Refusal::NoTable => Some("mechdes: answer refused: no table\n"),
            Refusal::Profile => Some("mechdes: profile refused\n"),
            Refusal::Draw => Some("mechdes: draw refused\n"),
            Refusal::Number => Some("mechdes: number refused\n"),
            Refusal::ReadFault => Some("mechdes: read fault\n"),
            Refusal::Memory => Some(want_of_memory()),
            Refusal::Setting(_) | Refusal::Answer(_) | Refusal::Pivot(_) => None,
        }
    }

    /// The line that says it, made of words and numbers.
    pub fn made_line(self, alloc: Global) -> Result<String, AllocError>
        requires { HasMadeLine self }
        ensures { IfOk result (λ text. string_bytes text ≡ text_of self) }
    {
        match self {
            Refusal::Setting(refusal) => setting_refusal_text(alloc, refusal),
            Refusal::Answer(refusal) => answer_refusal_text(alloc, refusal),
            Refusal::Pivot(number) => format!(in alloc; "mechdes: pivot {number} refused\n"),
            _ => unreachable!(),
        }
    }
}
