//! The odds and the payments of a point of the program of a sale.
ghost use Rattle.std.specs.Prelude.{◌≡◌, ◌<◌, length, IfOk};
ghost use Rattle.md_math.specs.Lists.{list_to, number_at};
ghost use Rattle.md_math.specs.Sizes.{AllWithin};
ghost use Rattle.md_mech.specs.Accepted.{number_limit};
ghost use Rattle.md_setting.specs.Shaped.{IsShaped};
ghost use Rattle.md_asym_sale.specs.Forms.{pay_in};
ghost use Rattle.md_asym_sale.specs.ProgramOf.{column_count};
ghost use Rattle.md_asym_sale.specs.Values.{pairs_of};
ghost use Rattle.md_asym.specs.Gains.{odds_in, pays_in};

use md_asym_sale::pair_count;
use md_num::{NoMemory, Nums};
use md_setting::Setting;
use std::alloc::Global;

/// The odds of all pairs: the numbers of the first columns.
pub(crate) fn odds_of(alloc: Global, setting: &Setting, point: &Nums) -> Result<Nums, NoMemory>
    requires { length point.now ≡ column_count setting.now }
    ensures value { IfOk result (λ odds. odds ≡ odds_in setting.now (number_at point.now)) }
    ensures shaped { IfOk result (λ _. IsShaped setting.now) }
{
    let mut odds = Nums::new(alloc);
    for pair in 0..pair_count(setting) {
        odds.push(point.get(pair as usize))?;
    }
    Ok(odds)
}

/// What all pairs pay: the plus part of each payment less its minus part.
pub(crate) fn pays_of(alloc: Global, setting: &Setting, point: &Nums) -> Result<Nums, NoMemory>
    requires one_each { length point.now ≡ column_count setting.now }
    requires sizes { AllWithin number_limit point.now }
    ensures { IfOk result (λ pays. pays ≡ pays_in setting.now (number_at point.now)) }
{
    let mut pays = Nums::new(alloc);
    for pair in 0..pair_count(setting) {
        pays.push(pay(setting, point, pair))?;
    }
    Ok(pays)
}

fn pay(setting: &Setting, point: &Nums, number: u32) -> i128
    requires one_each { length point.now ≡ column_count setting.now }
    requires sizes { AllWithin number_limit point.now }
    requires number_in { number < pairs_of setting.now }
    ensures { result ≡ pay_in setting.now (number_at point.now) number }
{
    let pairs = pair_count(setting);
    let plus = point.get((pairs + number) as usize);
    let minus = point.get((2 * pairs + number) as usize);
    plus - minus
}
