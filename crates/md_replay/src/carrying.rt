//! Listed pivots, one after the other.
ghost use Rattle.std.specs.Prelude.{◌≡◌, ℕ, List, IfErr, IfOk, MatchResult};
ghost use Rattle.md_lp.specs.Program.{Program};
ghost use Rattle.md_lp.specs.declared.pivot.Pivot.{Pivot};
ghost use Rattle.md_dict.specs.Start.{IsRefused};
ghost use Rattle.md_replay.specs.declared.outcome.Replay.{Replay};
ghost use Rattle.md_replay.specs.declared.outcome.ReplayError.{ReplayError};
ghost use Rattle.md_replay.specs.Replay.{IsLawless, IsReplay, Refuses, TellsNumber};
ghost use Rattle.md_replay.specs.Standing.{IsUntold};

use crate::outcome::{Followed, Replay, ReplayError};
use crate::standing::{can_pivot, followed_with, tell};
use md_dict::{Dict, StartRefusal};
use md_lp::{Lp, Path};
use md_num::{Nums, Width};
use std::alloc::Global;

// What is told before a basis was seen.
fn untold(alloc: Global) -> Replay
    ensures { IsUntold result }
{
    Replay {
        dens: Nums::new(alloc),
        greatest: Nums::new(alloc),
        wide: None,
        followed: Followed {
            forward: 0,
            backward: 0,
        },
    }
}

// What comes of pivots where the dictionary of the first basis is refused.
fn at_first(alloc: Global, refusal: StartRefusal) -> Result<Replay, ReplayError>
    ensures replayed { (p : Program) (width : ℕ) (listed : List Pivot) → IsRefused p width refusal → IfOk result (IsReplay p width listed) }
    ensures lawless { IfErr result (λ error. error ≡ ReplayError.Memory) }
{
    match refusal {
        StartRefusal::TooWide(entry) => Ok(Replay {
            wide: Some(entry),
            ..untold(alloc)
        }),
        StartRefusal::Memory => Err(ReplayError::Memory),
    }
}

// Carries out the pivots.
fn carry_out(alloc: Global, lp: &Lp, width: Width, pivots: &Path) -> Result<Replay, ReplayError>
    ensures replayed { IfOk result (IsReplay lp.now width pivots.now) }
    ensures lawless { IfErr result (Refuses lp.now width pivots.now) }
{
    let mut dict = match Dict::start(alloc, lp, width) {
        Ok(dict) => dict,
        Err(refusal) => return at_first(alloc, refusal),
    };
    let mut told = untold(alloc);
    for place in 0..pivots.len() {
        tell(&dict, &mut told)?;
        let pivot = pivots.get(place);
        let number = place as u64 + 1;
        if !can_pivot(&dict, pivot) {
            return Err(ReplayError::Pivot(number));
        }
        told.followed = followed_with(&dict, pivot, number, told.followed);
        if let Err(refusal) = dict.pivot(pivot.row, pivot.column) {
            told.wide = Some(refusal.entry);
            return Ok(told);
        }
    }
    tell(&dict, &mut told)?;
    Ok(told)
}

/// Carries out listed pivots on a program, one after the other from its first basis on, and tells of each basis.
/// The pivots are left at the first basis that is too wide.
/// A pivot is refused where it stands at no program row, or at no program or slack column, or where the dictionary of the
/// basis that those before it make has no positive entry. The number of the first such pivot is answered.
pub fn replay(alloc: Global, lp: &Lp, width: Width, pivots: &Path) -> Result<Replay, ReplayError>
    ensures replayed { IfOk result (IsReplay lp.now width pivots.now) }
    ensures lawless { IfErr result (Refuses lp.now width pivots.now) }

    // The program, the width and the pivots decide what is answered, unless memory ran out.
    ensures only { (other : Replay) → IsReplay lp.now width pivots.now other → MatchResult result (λ replay. replay ≡ other) (λ error. error ≡ ReplayError.Memory) }
    ensures only_lawless { (number : ℕ) → IsLawless lp.now width pivots.now number → MatchResult result (λ _. ⊥) (TellsNumber number) }
{
    carry_out(alloc, lp, width, pivots)
}
