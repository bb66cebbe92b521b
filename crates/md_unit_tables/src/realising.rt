//! Unit tables that have given odds.
ghost use Rattle.std.specs.Prelude.{◌≤◌, ℤ, List, IfOk};
ghost use Rattle.md_mech.specs.declared.mechanism.Mechanism.{Mechanism};
ghost use Rattle.md_mech.specs.Mechanism.{IsMechanism};
ghost use Rattle.md_border.specs.Odds.{IsInterim};
ghost use Rattle.md_winners.specs.Setting.{units_of};
ghost use Rattle.md_winners.specs.Odds.{HasUnitOdds, HasUnitPays, IsWorstUnitSet, MeetsUnitBorder};
ghost use Rattle.md_unit_tables.specs.Tables.{IsUnitTable, ImplementsUnits, table_of};
ghost use Rattle.md_unit_tables.specs.Mechanisms.{unit_mechanism_of};
ghost use Rattle.md_unit_tables.specs.Ends.{WhereTable, WhereViolated};

use crate::UnitEnd;
use crate::unit_net::net_of;
use md_border::Interim;
use md_counts::Counts;
use md_flow::{FlowEnd, find_end};
use md_num::NoMemory;
use md_setting::Auction;
use std::alloc::Global;

/// A unit table that has exactly the interim odds, or the set of values that asks for more units than there are by most. There
/// are 1 to 12 units, and no bidder gets two of them.
pub fn realise_units(
    alloc: Global,
    auction: &Auction,
    units: u32,
    interim: &Interim,
) -> Result<UnitEnd, NoMemory>
    requires units { (1 ≤ units) × (units ≤ 12) }
    requires fits { IsInterim auction.now interim.now }
    ensures table { IfOk result (WhereTable (λ rows. IsUnitTable auction.now units (table_of interim.now rows))) }
    ensures odds { IfOk result (WhereTable (ImplementsUnits auction.now interim.now)) }
    ensures none_over { IfOk result (WhereTable (λ _. MeetsUnitBorder auction.now units interim.now)) }

    // Border's condition suffices: with any payments by kind, the table makes a mechanism of the units, which has the odds.
    ensures mechanism { IfOk result (WhereTable (λ rows. (pays : List ℤ) → IsMechanism (units_of auction.now units) (unit_mechanism_of auction.now units (table_of interim.now rows) pays))) }
    ensures sufficient { IfOk result (WhereTable (λ rows. (pays : List ℤ) → HasUnitOdds auction.now units (unit_mechanism_of auction.now units (table_of interim.now rows) pays) interim.now.den interim.now.odds)) }
    ensures pays { IfOk result (WhereTable (λ rows. (pays : List ℤ) → HasUnitPays auction.now units (unit_mechanism_of auction.now units (table_of interim.now rows) pays) interim.now.den pays)) }

    // It is necessary: where a set breaks it, no mechanism of the units has the odds, truthful or not.
    ensures violated { IfOk result (WhereViolated (IsWorstUnitSet auction.now units interim.now)) }
    ensures necessary { IfOk result (WhereViolated (λ _. (m : Mechanism) → IsMechanism (units_of auction.now units) m → HasUnitOdds auction.now units m interim.now.den interim.now.odds → ⊥)) }
{
    let counts = Counts::of(alloc, auction)?;
    let net = net_of(alloc, auction, &counts, units, interim)?;
    match find_end(alloc, &net)? {
        FlowEnd::Full(rows) => Ok(UnitEnd::Table(rows)),
        FlowEnd::Cut { set, amounts: _ } => Ok(UnitEnd::Violated(set)),
    }
}
