//! Profile tables that have given odds.
ghost use Rattle.std.specs.Prelude.{ℤ, List, IfOk};
ghost use Rattle.md_mech.specs.declared.mechanism.Mechanism.{Mechanism};
ghost use Rattle.md_mech.specs.Mechanism.{IsMechanism};
ghost use Rattle.md_asym_sale.specs.Sale.{IsSale};
ghost use Rattle.md_asym_tables.specs.Ends.{WhereTable, WhereViolated};
ghost use Rattle.md_asym_tables.specs.Mechanisms.{mechanism_of};
ghost use Rattle.md_asym_tables.specs.Odds.{AreOdds, HasOdds, HasPays, IsWorstSet, MeetsBorder};
ghost use Rattle.md_asym_tables.specs.Tables.{IsProfileTable, Implements};

use crate::PairEnd;
use crate::pair_net::net_of;
use crate::pair_table::table_of;
use md_flow::{FlowEnd, find_end};
use md_num::{NoMemory, Nums};
use md_setting::Setting;
use std::alloc::Global;

/// A profile table with exactly the interim odds of a sale, over the denominator of the odds; or the set of pairs that asks
/// for most more than there is. The odds are 0 to 1, by pair. Nothing but want of memory is an error.
pub fn realise_pairs(
    alloc: Global,
    setting: &Setting,
    den: i128,
    odds: &Nums,
) -> Result<PairEnd, NoMemory>
    requires sale { IsSale setting.now }
    requires odds { AreOdds setting.now den odds.now }

    // A table comes where no set of pairs asks for more than there is.
    ensures table { IfOk result (WhereTable (IsProfileTable setting.now den)) }
    ensures odds { IfOk result (WhereTable (Implements setting.now odds.now)) }
    ensures none_over { IfOk result (WhereTable (λ _. MeetsBorder setting.now den odds.now)) }

    // Border's condition suffices: with any payments by pair, the table makes a mechanism of the sale, which has the odds.
    ensures mechanism { IfOk result (WhereTable (λ y. (pays : List ℤ) → IsMechanism setting.now (mechanism_of setting.now den y pays))) }
    ensures sufficient { IfOk result (WhereTable (λ y. (pays : List ℤ) → HasOdds setting.now (mechanism_of setting.now den y pays) den odds.now)) }
    ensures pays { IfOk result (WhereTable (λ y. (pays : List ℤ) → HasPays setting.now (mechanism_of setting.now den y pays) den pays)) }

    // It is necessary: where a set breaks it, no mechanism of the sale has the odds, truthful or not. What comes is the largest
    // of the sets with the greatest excess.
    ensures violated { IfOk result (WhereViolated (IsWorstSet setting.now den odds.now)) }
    ensures necessary { IfOk result (WhereViolated (λ _. (m : Mechanism) → IsMechanism setting.now m → HasOdds setting.now m den odds.now → ⊥)) }
{
    let net = net_of(alloc, setting, den, odds)?;
    match find_end(alloc, &net)? {
        FlowEnd::Full(amounts) => {
            let masses = table_of(alloc, setting, &amounts)?;
            Ok(PairEnd::Table(masses))
        }
        FlowEnd::Cut { set, amounts: _ } => Ok(PairEnd::Violated(set)),
    }
}
