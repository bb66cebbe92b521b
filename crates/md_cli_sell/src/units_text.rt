//! The text that tells the optimum of a sale of several units.
ghost use Rattle.std.specs.Prelude.{◌≡◌, IfOk, Ok};
ghost use Rattle.md_answer.specs.AuctionAnswerTo.{IsAnswerFor};
ghost use Rattle.md_answer.specs.AuctionAnswers.{answer_for};
ghost use Rattle.md_answer.specs.AuctionRows.{text_for};
ghost use Rattle.md_answer.specs.declared.supply.Supply.TheVariants.{Units};
ghost use Rattle.md_cli_sell.specs.UnitTexts.{sold_answer};

use md_answer::{Answer, Supply, write_auction_answer};
use md_expost::Masses;
use md_num::NoMemory;
use md_setting::Auction;
use md_unit_tables::UnitNumber;
use md_units::UnitsAnswer;
use std::alloc::Global;

/// The text of the answer about so many units, which reads back as it.
pub(crate) fn answer_text(
    alloc: Global,
    auction: &Auction,
    units: &UnitNumber,
    answer: UnitsAnswer,
) -> Result<Vec<u8>, NoMemory>
    requires { IsAnswerFor (Units units.now) auction.now (sold_answer answer) }
    ensures text { IfOk result (λ text. text.items ≡ text_for (Units units.now) auction.now (sold_answer answer)) }
    ensures reads_back { IfOk result (λ text. answer_for (Units units.now) auction.now text.items ≡ Ok (sold_answer answer)) }
{
    let supply = Supply::Units(*units);
    write_auction_answer(alloc, auction, &supply, &sold_answer(answer))
}

// The answer that tells the optimum.
fn sold_answer(answer: UnitsAnswer) -> Answer
    ensures { result ≡ sold_answer answer }
{
    Answer::AuctionOptimal {
        value: answer.value,
        masses: Masses {
            den: answer.interim.den,
            rows: answer.masses,
        },
        interim: answer.interim,
        cuts: answer.cuts,
        bound: answer.bound,
    }
}
