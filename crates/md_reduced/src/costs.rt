//! The cost of the reduced program: what a bidder adds to the designer's objective.
ghost use Rattle.std.specs.Prelude.{◌≡◌, ◌<◌, ◌++◌, IfOk, OnOk};
ghost use Rattle.md_math.specs.Sizes.{IsWithin};
ghost use Rattle.md_setting.specs.Auction.{value_count};
ghost use Rattle.md_reduced.specs.Costs.{odds_cost, odds_costs, pay_cost, pay_costs, written_cost};

use md_border::surplus;
use md_num::{NoMemory, Nums, product};
use md_setting::Auction;
use std::alloc::Global;

/// The cost of each column: what odds or a part of a payment add to the objective, by weight.
pub(crate) fn cost(alloc: Global, auction: &Auction) -> Result<Nums, NoMemory>
    ensures { IfOk result (λ cost. cost ≡ written_cost auction.now) }
{
    let mut cost = Nums::new(alloc);
    push_odds_costs(auction, &mut cost)?;
    push_pay_costs(auction, 1, &mut cost)?;
    push_pay_costs(auction, -1, &mut cost)?;
    Ok(cost)
}

fn push_odds_costs(auction: &Auction, cost: &mut Nums) -> Result<(), NoMemory>
    ensures { OnOk result (cost.new ≡ cost.old ++ odds_costs auction.now) }
{
    for kind in 0..auction.kinds() {
        cost.push(odds_cost(auction, kind))?;
    }
    Ok(())
}

fn odds_cost(auction: &Auction, kind: u32) -> i128
    requires { kind < value_count auction.now }
    ensures { result ≡ odds_cost auction.now kind }
{
    product(i128::from(auction.weight(kind)), surplus(auction, kind))
}

// The costs of one part of all payments, with a sign.
fn push_pay_costs(auction: &Auction, sign: i128, cost: &mut Nums) -> Result<(), NoMemory>
    requires { IsWithin 1 sign }
    ensures { OnOk result (cost.new ≡ cost.old ++ pay_costs auction.now sign) }
{
    for kind in 0..auction.kinds() {
        cost.push(pay_cost(auction, kind, sign))?;
    }
    Ok(())
}

fn pay_cost(auction: &Auction, kind: u32, sign: i128) -> i128
    requires kind_in { kind < value_count auction.now }
    requires sign { IsWithin 1 sign }
    ensures { result ≡ pay_cost auction.now sign kind }
{
    let weight = i128::from(auction.weight(kind));
    product(sign, product(weight, i128::from(auction.revenue())))
}
