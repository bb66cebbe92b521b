//! What `run` draws of.
ghost use Rattle.std.specs.Prelude.{◌≡◌, ◌⊎◌, true, false, IfOk, IfErr, MatchResult};
ghost use Rattle.md_setting.specs.ByKind.{has_no_groups};
ghost use Rattle.md_cli_driver.specs.declared.refusal.Refusal.TheVariants as refusal;
ghost use Rattle.md_cli_driver.specs.Reading.{Follows};
ghost use Rattle.md_cli_driver.specs.Refused.{status_of};
ghost use Rattle.md_cli_tell.specs.Drawing.{has_table};
ghost use Rattle.md_cli_tell.specs.Running.{IsDrawable, drawable_in, of_answer, table_or_none};

use md_answer::{Answer, read_answer};
use md_cli_driver::{AnswerText, Refusal};
use md_mechanism_text::{Proposal, names_another_kind, read_mechanism_text};
use md_setting::SettingFile;
use std::alloc::Global;

/// What `run` draws of.
#[derive(Drop)]
pub enum Drawable {
    /// An answer that has lotteries or masses.
    Table(Answer),
    /// A text about a general setting that names another kind of answer.
    Other(AnswerText),
}

/// What a second file says to be drawn of: of a general setting the mechanism of an answer, or a text that names another kind of
/// answer, and of an auction an answer with masses.
pub(crate) fn read_drawable(
    alloc: Global,
    file: &SettingFile,
    bytes: &[u8],
) -> Result<Drawable, Refusal>
    requires { has_no_groups file.now ≡ true }
    ensures follows { Follows (λ drawable. drawable) result (drawable_in file.now bytes.now) }
    ensures fits { IfOk result (IsDrawable file.now) }
    ensures errors { IfErr result (λ e. (e ≡ refusal.Memory) ⊎ (status_of e ≡ 66)) }
{
    match file {
        SettingFile::General(_) => match read_mechanism_text(alloc, bytes, file) {
            Err(refusal) if names_another_kind(refusal) => {
                Ok(Drawable::Other(AnswerText::copy(alloc, bytes)?))
            }
            read => table_of(read?),
        },
        SettingFile::Auction(_) => of_answer(with_table(read_answer(alloc, bytes, file)?)),
        SettingFile::Bidders(_) => unreachable!(),
    }
}

// An answer as what is drawn of.
fn of_answer(answer: Result<Answer, Refusal>) -> Result<Drawable, Refusal>
    ensures { result ≡ of_answer answer }
{
    match answer {
        Ok(answer) => Ok(Drawable::Table(answer)),
        Err(refusal) => Err(refusal),
    }
}

// A mechanism as an answer.
fn table_of(found: Option<Proposal>) -> Result<Drawable, Refusal>
    ensures { result ≡ table_or_none found }
{
    match found {
        Some(proposal) => Ok(Drawable::Table(Answer::Table(proposal.into_mechanism()))),
        None => Err(Refusal::NoTable),
    }
}

/// An answer of which something can be drawn.
pub(crate) fn with_table(answer: Answer) -> Result<Answer, Refusal>
    ensures { MatchResult result (λ same. (same ≡ answer) × (has_table answer ≡ true)) (λ e. (e ≡ refusal.NoTable) × (has_table answer ≡ false)) }
{
    if !has_table(&answer) {
        return Err(Refusal::NoTable);
    }
    Ok(answer)
}

// Whether an answer has lotteries or masses.
fn has_table(answer: &Answer) -> bool
    ensures { result ≡ has_table answer.now }
{
    match answer {
        Answer::Table(_) => true,
        Answer::Optimal { .. } => true,
        Answer::Infeasible { .. } => false,
        Answer::Unbounded { .. } => true,
        Answer::AuctionOptimal { .. } => true,
        Answer::TooWide { .. } => false,
    }
}
