//! Mass tables that have given odds.
ghost use Rattle.std.specs.Prelude.{ℤ, List, IfOk};
ghost use Rattle.md_setting.specs.Auction.{value_count};
ghost use Rattle.md_setting.specs.AuctionShaped.{IsAuction};
ghost use Rattle.md_setting.specs.General.{general_of};
ghost use Rattle.md_mech.specs.declared.mechanism.Mechanism.{Mechanism};
ghost use Rattle.md_mech.specs.Mechanism.{IsMechanism};
ghost use Rattle.md_border.specs.Odds.{IsInterim, HasOdds, HasPays};
ghost use Rattle.md_expost.specs.Masses.{AreMasses};
ghost use Rattle.md_expost.specs.Mechanisms.{mechanism_of};
ghost use Rattle.md_expost.specs.Implementing.{Implements};
ghost use Rattle.md_expost.specs.WorstSets.{IsWorstSet, MeetsBorder};
ghost use Rattle.md_expost.specs.Ends.{WhereTable, WhereViolated};

use crate::net::net_of;
use crate::{Masses, RealiseEnd};
use md_border::Interim;
use md_counts::Counts;
use md_flow::{FlowEnd, find_end};
use md_num::NoMemory;
use md_setting::Auction;
use std::alloc::Global;

/// A mass table that has exactly the interim odds, or the set of values that breaks Border's condition most.
pub fn realise(alloc: Global, auction: &Auction, interim: &Interim) -> Result<RealiseEnd, NoMemory>
    requires fits { IsInterim auction.now interim.now }
    ensures table { IfOk result (WhereTable (AreMasses auction.now)) }
    ensures odds { IfOk result (WhereTable (Implements auction.now interim.now)) }
    ensures none_over { IfOk result (WhereTable (λ _. MeetsBorder auction.now interim.now)) }

    // Border's condition suffices: with any payments by kind, the table makes a mechanism of the auction, which has the odds.
    ensures mechanism { IfOk result (WhereTable (λ y. (pays : List ℤ) → IsMechanism (general_of auction.now) (mechanism_of auction.now y pays))) }
    ensures sufficient { IfOk result (WhereTable (λ y. (pays : List ℤ) → HasOdds auction.now (mechanism_of auction.now y pays) interim.now.den interim.now.odds)) }
    ensures pays { IfOk result (WhereTable (λ y. (pays : List ℤ) → HasPays auction.now (mechanism_of auction.now y pays) y.den pays)) }

    // It is necessary: where a set breaks it, no mechanism of the auction has the odds, truthful or not.
    ensures violated { IfOk result (WhereViolated (IsWorstSet auction.now interim.now)) }
    ensures necessary { IfOk result (WhereViolated (λ _. (m : Mechanism) → IsMechanism (general_of auction.now) m → HasOdds auction.now m interim.now.den interim.now.odds → ⊥)) }
{
    let counts = Counts::of(alloc, auction)?;
    let net = net_of(alloc, auction, &counts, interim)?;
    match find_end(alloc, &net)? {
        FlowEnd::Full(rows) => Ok(RealiseEnd::Table(Masses {
            den: interim.den,
            rows,
        })),
        FlowEnd::Cut { set, amounts: _ } => Ok(RealiseEnd::Violated(set)),
    }
}
