//! The command `replay`: listed pivots, carried out on the linear program of a setting.
ghost use Rattle.std.specs.Prelude.{◌≡◌, ◌⊎◌, IfOk, IfErr, true};
ghost use Rattle.md_setting.specs.Auction.{value_count};
ghost use Rattle.md_setting.specs.ByKind.{WhereAuction, has_no_groups};
ghost use Rattle.md_lp.specs.Cuts.{AreCuts};
ghost use Rattle.md_answer.specs.AuctionPivots.{HasCutsOf};
ghost use Rattle.md_replay.specs.Records.{replay_text};
ghost use Rattle.md_cli_driver.specs.declared.refusal.Refusal.TheVariants as refusal;
ghost use Rattle.md_cli_driver.specs.Refused.{refused, status_of};
ghost use Rattle.md_cli_lp.specs.Replaying.{IsPivotRefused, IsProgramIn, IsReplay, IsReplayStatus, IsReplaying, pivots_in, status_of_replay};
ghost use Rattle.md_cli_driver.specs.Saying.{said};

use md_answer::{Pivots, read_pivots};
use md_cli_driver::{Answered, DONE, Refusal, TOO_WIDE, TwoFiles, has_no_groups};
use md_lp::{Entry, Lp, Path, Sets};
use md_num::{NoMemory, Width};
use md_reduced::program;
use md_replay::{ReplayError, replay, replay_text};
use md_rows::rows_of;
use md_setting::SettingFile;
use std::alloc::Global;

/// `replay SETTING PIVOTS [--width W]`
#[derive(Drop)]
pub struct Replay {
    /// How many bits the numbers of a basis may have.
    pub width: Width,
}

impl TwoFiles for Replay {
    type Second = Pivots;

    ghost is_served = { has_no_groups };

    ghost reading = { λ _. pivots_in };

    ghost fits = { λ _ file pivots. WhereAuction (λ a. HasCutsOf a pivots) file };

    ghost says = { λ command. IsReplay command.width };

    ghost own = { IsReplayStatus };

    fn serves(&self, file: &SettingFile) -> bool {
        has_no_groups(file)
    }

    fn second(&self, alloc: Global, file: &SettingFile, bytes: &[u8]) -> Result<Pivots, Refusal> {
        Ok(read_pivots(alloc, bytes, file)?)
    }

    fn answer(
        &self,
        alloc: Global,
        file: &SettingFile,
        pivots: &Pivots,
    ) -> Result<Answered, Refusal> {
        let lp = program_in(alloc, file, &pivots.cuts)?;
        replayed(alloc, &lp, self.width, &pivots.path)
    }
}

// The program of a setting, for an auction with the cuts.
fn program_in(alloc: Global, file: &SettingFile, cuts: &Sets) -> Result<Lp, NoMemory>
    requires kind { has_no_groups file.now ≡ true }
    requires cuts { WhereAuction (λ a. AreCuts (value_count a) cuts.now) file.now }
    ensures { IfOk result (IsProgramIn file.now cuts.now) }
{
    match file {
        SettingFile::General(setting) => rows_of(alloc, setting),
        SettingFile::Auction(auction) => program(alloc, auction, cuts),
        SettingFile::Bidders(_) => unreachable!(),
    }
}

// What comes of the pivots, or the first one that cannot be carried out.
fn replayed(alloc: Global, lp: &Lp, width: Width, pivots: &Path) -> Result<Answered, Refusal>
    ensures replaying { IfOk result (λ answered. IsReplaying lp.now width pivots.now (said answered)) }
    ensures status { IfOk result (λ answered. (answered.status ≡ 0) ⊎ (answered.status ≡ 12)) }
    ensures refused { IfErr result (λ e. (e ≡ refusal.Memory) ⊎ (IsPivotRefused lp.now width pivots.now (refused e) × (status_of e ≡ 67))) }
{
    match replay(alloc, lp, width, pivots) {
        Ok(replay) => Ok(told(alloc, &replay)?),
        Err(ReplayError::Pivot(number)) => Err(Refusal::Pivot(number)),
        Err(ReplayError::Memory) => Err(Refusal::Memory),
    }
}

// The records that tell what came of the pivots.
fn told(alloc: Global, replay: &md_replay::Replay) -> Result<Answered, NoMemory>
    ensures text { IfOk result (λ answered. answered.text.items ≡ replay_text replay.now) }
    ensures value { IfOk result (λ answered. answered.status ≡ status_of_replay replay.now.wide) }
    ensures status { IfOk result (λ answered. (answered.status ≡ 0) ⊎ (answered.status ≡ 12)) }
{
    Ok(Answered {
        status: status(&replay.wide),
        text: replay_text(alloc, replay)?,
    })
}

// The status that tells whether a basis is wide.
fn status(wide: &Option<Entry>) -> u8
    ensures value { result ≡ status_of_replay wide.now }
    ensures own { (result ≡ 0) ⊎ (result ≡ 12) }
{
    match wide {
        None => DONE,
        Some(_) => TOO_WIDE,
    }
}
