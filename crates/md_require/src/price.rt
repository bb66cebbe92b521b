//! What the multipliers of the rows of a condition come to.
ghost use Rattle.std.specs.Prelude.{◌≡◌, ℕ, ◌+◌, ◌*◌, ◌-◌, ◌^◌, ◌<◌, ◌≤◌, ◌↔◌, ◌++◌, ◌+ℤ◌, ◌*ℤ◌, pos, IsTrue, List, length};
ghost use Rattle.md_math.specs.Lists.{number_at};
ghost use Rattle.md_math.specs.Sizes.{AllWithin, IsWithin};
ghost use Rattle.md_space.specs.Profiles.{profile_count};
ghost use Rattle.md_setting.specs.Meaning.{sizes_of};
ghost use Rattle.md_require.specs.Amounts.{Amount as Measure, amounts_of};
ghost use Rattle.md_require.specs.Named.{amounts_at};
ghost use Rattle.md_require.specs.Places.{IsIn};
ghost use Rattle.md_require.specs.Prices.{IsPricedTo};

use crate::Measured;
use crate::amount::amount_at;
use crate::bounds::whole;
use md_cert::Bound;
use md_num::add_product;
use md_setting::Setting;

/// What the multipliers of rows come to: their main multipliers, each times the whole of its amount, added up; whether none of them
/// has a face multiplier; and the row that comes next.
#[derive(Clone, Copy)]
pub(crate) struct Price {
    pub(crate) sum: i128,
    pub(crate) firm: bool,
    pub(crate) row: u32,
}

/// What the multipliers of the rows of a measure come to; the first one has this number.
pub(crate) fn price_of(setting: &Setting, measured: Measured, bound: &Bound, first: u32) -> Price
    requires measured_in { IsIn setting.now measured }
    requires main { first + length (amounts_of setting.now measured) ≤ length bound.now.main }
    requires few { length bound.now.main ≤ 4096 }
    requires face { length bound.now.face ≡ length bound.now.main }
    requires sizes { AllWithin (2 ^ 62 - 1) bound.now.main }
    ensures { IsPricedTo setting.now bound.now first (amounts_of setting.now measured) result }
{
    let mut price = Price {
        sum: 0,
        firm: true,
        row: first,
    };
    for rank in 0..setting.space().profiles() {
        price = with_rank(setting, measured, bound, rank, price);
    }
    price
}

// With the row of the amount that the measure has at a rank, if it has one there.
fn with_rank(setting: &Setting, measured: Measured, bound: &Bound, rank: u32, price: Price) -> Price
    requires measured_in { IsIn setting.now measured }
    requires rank_in { rank < profile_count (sizes_of setting.now) }
    requires main { price.row + length (amounts_at setting.now measured rank) ≤ length bound.now.main }
    requires few { length bound.now.main ≤ 4096 }
    requires face { length bound.now.face ≡ length bound.now.main }
    requires sizes { AllWithin (2 ^ 62 - 1) bound.now.main }
    requires size { IsWithin (price.row * 2 ^ 82) price.sum }
    ensures { (first : ℕ) (amounts : List Measure) → IsPricedTo setting.now bound.now first amounts price → IsPricedTo setting.now bound.now first (amounts ++ amounts_at setting.now measured rank) result }
{
    match amount_at(setting, measured, rank) {
        Some(amount) => with_row(bound, whole(setting, amount), price),
        None => price,
    }
}

// With the next row, by the whole of its amount.
fn with_row(bound: &Bound, whole: i128, price: Price) -> Price
    requires main { price.row < length bound.now.main }
    requires few { length bound.now.main ≤ 4096 }
    requires face { length bound.now.face ≡ length bound.now.main }
    requires sizes { AllWithin (2 ^ 62 - 1) bound.now.main }
    requires whole { IsWithin 1000000 whole }
    requires size { IsWithin (price.row * 2 ^ 82) price.sum }
    ensures row { result.row ≡ price.row + 1 }
    ensures sum { result.sum ≡ price.sum +ℤ number_at bound.now.main price.row *ℤ whole }
    ensures firm { IsTrue result.firm ↔ (IsTrue price.firm × (number_at bound.now.face price.row ≡ pos 0)) }
    ensures size { IsWithin (result.row * 2 ^ 82) result.sum }
{
    let row = price.row as usize;
    Price {
        sum: add_product(price.sum, bound.main.get(row), whole),
        firm: price.firm && bound.face.get(row) == 0,
        row: price.row + 1,
    }
}
