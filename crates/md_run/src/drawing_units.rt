//! Who gets a unit, drawn of an answer about several units.
ghost use Rattle.std.specs.Prelude.{ℕ, IfOk, IfErr};
ghost use Rattle.md_answer.specs.AuctionAnswerTo.{IsAnswerFor};
ghost use Rattle.md_answer.specs.declared.supply.Supply.TheVariants.{Units};
ghost use Rattle.md_run.specs.DrawnUnits.{AreUnitsDrawn, AreUnitsLotteries, AreUnitsRefused};

use crate::units::draw_units_at;
use crate::{DrawRefusal, UnitsDrawn};
use md_answer::Answer;
use md_setting::Auction;
use std::alloc::Global;

/// Who gets a unit by two draws at a profile of reports, and what each bidder then pays, by the mechanism of an answer about several
/// units of an auction.
///
/// The reports are places of values. Each bidder has a stretch of whole numbers, as long as its part of the mass of its value at
/// the profile's counts, 27,720 for each unit of the mass, and the stretches lie one behind the other. The first draw is one of as
/// many as the denominator times the weight of the counts has units, 27,720 for each, from 0 on. It picks its own number and all
/// that are a multiple of the number of draws behind it, and those bidders get a unit in whose stretch one of them lies. The second
/// draw is 0.
pub fn draw_units(
    alloc: Global,
    auction: &Auction,
    answer: &Answer,
    profile: &[u8],
    d1: i128,
    d2: i128,
) -> Result<UnitsDrawn, DrawRefusal>
    requires { (units : ℕ) × IsAnswerFor (Units units) auction.now answer.now }
    ensures drawn { IfOk result (AreUnitsDrawn auction.now answer.now profile.now d1 d2) }

    // The first reason not to draw is told.
    ensures refused { IfErr result (AreUnitsRefused auction.now answer.now profile.now d1 d2) }

    // Over all draws that may be, each bidder wins as often as its part says, and each set of winners comes as often as its chance.
    ensures lottery { (units : ℕ) → IsAnswerFor (Units units) auction.now answer.now → AreUnitsLotteries auction.now units answer.now }
{
    match answer {
        Answer::AuctionOptimal {
            interim,
            masses,
            ..
        } => draw_units_at(alloc, auction, interim, masses, profile, d1, d2),
        _ => Err(DrawRefusal::NoTable),
    }
}
