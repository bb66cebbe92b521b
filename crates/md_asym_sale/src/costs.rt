//! The cost of the program of a sale: what the pairs add to the designer's objective.
ghost use Rattle.std.specs.Prelude.{◌≡◌, ◌<◌, ◌++◌, IfOk, OnOk};
ghost use Rattle.md_math.specs.Sizes.{IsWithin};
ghost use Rattle.md_asym_sale.specs.Costs.{odds_cost, odds_costs, pay_cost, pay_costs, written_cost};
ghost use Rattle.md_asym_sale.specs.Sale.{IsSale};
ghost use Rattle.md_asym_sale.specs.Values.{pairs_of};

use crate::pairs::pair_count;
use crate::worth::{marginal_at, surplus_at};
use md_num::{NoMemory, Nums, product};
use md_setting::Setting;
use std::alloc::Global;

/// The cost of each column: what odds or a part of a payment add to the objective, by weight.
pub(crate) fn cost(alloc: Global, setting: &Setting) -> Result<Nums, NoMemory>
    requires { IsSale setting.now }
    ensures { IfOk result (λ cost. cost ≡ written_cost setting.now) }
{
    let mut cost = Nums::new(alloc);
    push_odds_costs(setting, &mut cost)?;
    push_pay_costs(setting, 1, &mut cost)?;
    push_pay_costs(setting, -1, &mut cost)?;
    Ok(cost)
}

fn push_odds_costs(setting: &Setting, cost: &mut Nums) -> Result<(), NoMemory>
    requires { IsSale setting.now }
    ensures { OnOk result (cost.new ≡ cost.old ++ odds_costs setting.now) }
{
    for pair in 0..pair_count(setting) {
        cost.push(odds_cost(setting, pair))?;
    }
    Ok(())
}

fn odds_cost(setting: &Setting, number: u32) -> i128
    requires sale { IsSale setting.now }
    requires pair_in { number < pairs_of setting.now }
    ensures { result ≡ odds_cost setting.now number }
{
    product(marginal_at(setting, number), surplus_at(setting, number))
}

// The costs of one part of all payments, with a sign.
fn push_pay_costs(setting: &Setting, sign: i128, cost: &mut Nums) -> Result<(), NoMemory>
    requires { IsWithin 1 sign }
    ensures { OnOk result (cost.new ≡ cost.old ++ pay_costs setting.now sign) }
{
    for pair in 0..pair_count(setting) {
        cost.push(pay_cost(setting, pair, sign))?;
    }
    Ok(())
}

fn pay_cost(setting: &Setting, number: u32, sign: i128) -> i128
    requires pair_in { number < pairs_of setting.now }
    requires sign { IsWithin 1 sign }
    ensures { result ≡ pay_cost setting.now sign number }
{
    product(
        sign,
        product(marginal_at(setting, number), setting.revenue()),
    )
}
