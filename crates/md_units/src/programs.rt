//! The reduced programs of sales of several units.
ghost use Rattle.std.specs.Prelude.{◌≡◌, pos, length, IfOk};
ghost use Rattle.md_setting.specs.Auction.{value_count};
ghost use Rattle.md_lp.specs.Program.{row_count};
ghost use Rattle.md_lp.specs.Point.{Meets};
ghost use Rattle.md_lp.specs.Cuts.{AreCuts, HasSingles};
ghost use Rattle.md_reduced.specs.Conditions.{conditions_of};
ghost use Rattle.md_reduced.specs.Mechanisms.{IsBounded};
ghost use Rattle.md_reduced.specs.ProgramOf.{IsReducedProgram, HasEachRow, MeetsByConditions, CostsPoints};
ghost use Rattle.md_units.specs.Mechanisms.{AdmitsUnitPoints, HoldsUnitAdmissible, MakesUnitOptimal};
ghost use Rattle.md_unit_tables.specs.Numbers.{IsUnitNumber};

use md_lp::{Lp, Sets};
use md_num::NoMemory;
use md_reduced::program_for;
use md_setting::Auction;
use std::alloc::Global;

/// The reduced program of a sale of so many units with some cuts. Its columns and rows are those of the reduced program of one
/// unit, but for the right sides of the cuts. Nothing but want of memory is an error.
pub fn program(alloc: Global, auction: &Auction, units: u32, cuts: &Sets) -> Result<Lp, NoMemory>
    requires units { IsUnitNumber units }
    requires cuts { AreCuts (value_count auction.now) cuts.now }
    ensures program { IfOk result (IsReducedProgram auction.now units cuts.now) }
    ensures each_row { IfOk result (HasEachRow auction.now units cuts.now) }
    ensures count { IfOk result (λ lp. row_count lp ≡ length (conditions_of (value_count auction.now) cuts.now)) }

    // Points of any denominator, with numbers of any size.
    ensures meets { IfOk result (MeetsByConditions auction.now units cuts.now) }
    ensures costs { IfOk result (CostsPoints auction.now) }

    // What its points say of the mechanisms of the sale, and these of its points, whatever the cuts are.
    ensures admits { IfOk result (AdmitsUnitPoints auction.now units) }
    ensures averages { IfOk result (HoldsUnitAdmissible auction.now units) }
    ensures optimal { IfOk result (MakesUnitOptimal auction.now units) }

    // Some point meets it, and where each value alone has a cut no point grows without end.
    ensures zero { IfOk result (λ lp. Meets lp (pos 1) (λ _. pos 0)) }
    ensures bounded { IfOk result (λ lp. HasSingles (value_count auction.now) cuts.now → IsBounded lp) }
{
    let lp = program_for(alloc, auction, units, cuts)?;
    Ok(lp)
}
