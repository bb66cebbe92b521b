//! The cost of the program: the designer's objective.
ghost use Rattle.std.specs.Prelude.{◌≡◌, ◌<◌, ◌*ℤ◌, ◌++◌, IfOk, OnOk};
ghost use Rattle.md_math.specs.Sizes.{IsWithin};
ghost use Rattle.md_space.specs.Profiles.{profile_count, profile_at};
ghost use Rattle.md_setting.specs.Meaning.{outcome_count, sizes_of, weight_of, value_of};
ghost use Rattle.md_rows.specs.Costs.{chance_costs, chance_costs_at, revenue_costs, revenue_costs_of, revenue_cost, payment_costs, written_cost};

use md_num::{NoMemory, Nums, product};
use md_setting::Setting;
use std::alloc::Global;

/// The cost of each column: what a chance or a part of a payment adds to the objective, by weight.
pub(crate) fn cost(alloc: Global, setting: &Setting) -> Result<Nums, NoMemory>
    ensures { IfOk result (λ cost. cost ≡ written_cost setting.now) }
{
    let mut cost = Nums::new(alloc);
    push_chance_costs(setting, &mut cost)?;
    push_payment_costs(setting, &mut cost)?;
    Ok(cost)
}

fn push_chance_costs(setting: &Setting, cost: &mut Nums) -> Result<(), NoMemory>
    ensures { OnOk result (cost.new ≡ cost.old ++ chance_costs setting.now) }
{
    for rank in 0..setting.space().profiles() {
        push_chance_costs_at(setting, rank, cost)?;
    }
    Ok(())
}

fn push_chance_costs_at(setting: &Setting, rank: u32, cost: &mut Nums) -> Result<(), NoMemory>
    requires { rank < profile_count (sizes_of setting.now) }
    ensures { OnOk result (cost.new ≡ cost.old ++ chance_costs_at setting.now rank) }
{
    for outcome in 0..setting.outcomes() {
        cost.push(chance_cost(setting, rank, outcome))?;
    }
    Ok(())
}

fn chance_cost(setting: &Setting, rank: u32, outcome: u32) -> i128
    requires rank_in { rank < profile_count (sizes_of setting.now) }
    requires outcome_in { outcome < outcome_count setting.now }
    ensures { result ≡ weight_of setting.now (profile_at (sizes_of setting.now) rank) *ℤ value_of setting.now (profile_at (sizes_of setting.now) rank) outcome }
{
    product(setting.weight(rank), setting.value(rank, outcome))
}

fn push_payment_costs(setting: &Setting, cost: &mut Nums) -> Result<(), NoMemory>
    ensures { OnOk result (cost.new ≡ cost.old ++ payment_costs setting.now.payments setting.now) }
{
    if !setting.payments() {
        return Ok(());
    }
    push_revenue_costs(setting, 1, cost)?;
    push_revenue_costs(setting, -1, cost)?;
    Ok(())
}

// The costs of one part of all payments, with a sign.
fn push_revenue_costs(setting: &Setting, sign: i128, cost: &mut Nums) -> Result<(), NoMemory>
    requires { IsWithin 1 sign }
    ensures { OnOk result (cost.new ≡ cost.old ++ revenue_costs setting.now sign) }
{
    for _agent in 0..setting.space().agents() {
        push_revenue_costs_of(setting, sign, cost)?;
    }
    Ok(())
}

// The costs of one part of what an agent pays.
fn push_revenue_costs_of(setting: &Setting, sign: i128, cost: &mut Nums) -> Result<(), NoMemory>
    requires { IsWithin 1 sign }
    ensures { OnOk result (cost.new ≡ cost.old ++ revenue_costs_of setting.now sign) }
{
    for rank in 0..setting.space().profiles() {
        cost.push(revenue_cost(setting, rank, sign))?;
    }
    Ok(())
}

fn revenue_cost(setting: &Setting, rank: u32, sign: i128) -> i128
    requires rank_in { rank < profile_count (sizes_of setting.now) }
    requires sign { IsWithin 1 sign }
    ensures { result ≡ revenue_cost setting.now sign rank }
{
    product(sign, product(setting.weight(rank), setting.revenue()))
}
