//! What interim odds and payments of a sale are worth to the designer.
ghost use Rattle.std.specs.Prelude.{◌≡◌, ◌^◌, ◌<◌, pos, ◌<ℤ◌, ◌*ℤ◌};
ghost use Rattle.md_math.specs.Divisors.{IsLeastTerms};
ghost use Rattle.md_math.specs.Sizes.{IsWithin};
ghost use Rattle.md_setting.specs.Meaning.{total_of};
ghost use Rattle.md_setting.specs.Shaped.{IsShaped};
ghost use Rattle.md_parts.specs.Fitting.{IsFraction};
ghost use Rattle.md_asym_sale.specs.Sale.{IsSale};
ghost use Rattle.md_asym_sale.specs.Values.{pairs_of};
ghost use Rattle.md_asym_laws.specs.Worth.{base_of};
ghost use Rattle.md_asym.specs.Gains.{AreSaleOdds, gain_of, gains_of, worth_by};

use md_asym_sale::{marginal_at, pair_count, surplus_at};
use md_num::{Frac, Nums, add_product, product};
use md_setting::Setting;

/// The designer's expected objective, in least terms: what the item is worth where it is kept, and for each pair what it
/// gains and pays, by its weight.
pub fn sale_worth(setting: &Setting, den: i128, odds: &Nums, pays: &Nums) -> Frac
    requires sale { IsSale setting.now }
    requires fits { AreSaleOdds setting.now den odds.now pays.now }
    ensures value { result.num *ℤ (den *ℤ total_of setting.now) ≡ worth_by setting.now den odds.now pays.now *ℤ result.den }
    ensures least { IsLeastTerms result.num result.den }
    ensures fraction { IsFraction result.num result.den }
{
    Frac::reduced(
        worth_over_whole(setting, den, odds, pays),
        whole(setting, den, odds, pays),
    )
}

// The denominator times the weight of all profiles.
fn whole(setting: &Setting, den: i128, odds: &Nums, pays: &Nums) -> i128
    requires fits { AreSaleOdds setting.now den odds.now pays.now }
    ensures value { result ≡ den *ℤ total_of setting.now }
    ensures positive { pos 0 <ℤ result }
    ensures size { IsWithin (2 ^ 82) result }
{
    product(den, setting.total())
}

// The objective in units of one over the whole.
fn worth_over_whole(setting: &Setting, den: i128, odds: &Nums, pays: &Nums) -> i128
    requires sale { IsSale setting.now }
    requires fits { AreSaleOdds setting.now den odds.now pays.now }
    ensures value { result ≡ worth_by setting.now den odds.now pays.now }
    ensures size { IsWithin (2 ^ 114) result }
{
    add_product(gains(setting, den, odds, pays), base(setting), den)
}

// What the designer has where the item is always kept, over all profiles by weight.
fn base(setting: &Setting) -> i128
    requires { IsSale setting.now }
    ensures value { result ≡ base_of setting.now }
    ensures size { IsWithin (10 ^ 13) result }
    ensures shaped { IsShaped setting.now }
{
    let total = setting.total();
    product(setting.value(0, 0), total)
}

// What all pairs add to the objective, by their weights.
fn gains(setting: &Setting, den: i128, odds: &Nums, pays: &Nums) -> i128
    requires sale { IsSale setting.now }
    requires fits { AreSaleOdds setting.now den odds.now pays.now }
    ensures value { result ≡ gains_of setting.now odds.now pays.now }
    ensures size { IsWithin (2 ^ 110) result }
{
    let mut sum = 0;
    for pair in 0..pair_count(setting) {
        sum = add_product(
            sum,
            marginal_at(setting, pair),
            gain(setting, den, odds, pays, pair),
        );
    }
    sum
}

// What a pair adds to the objective: what the item is worth with it more than where it is kept, as often as it has it, and
// what it pays.
fn gain(setting: &Setting, den: i128, odds: &Nums, pays: &Nums, number: u32) -> i128
    requires sale { IsSale setting.now }
    requires fits { AreSaleOdds setting.now den odds.now pays.now }
    requires number_in { number < pairs_of setting.now }
    ensures value { result ≡ gain_of setting.now odds.now pays.now number }
    ensures size { IsWithin (2 ^ 86) result }
{
    let item = product(surplus_at(setting, number), odds.get(number as usize));
    add_product(item, setting.revenue(), pays.get(number as usize))
}
