//! Both sides of a condition.
ghost use Rattle.std.specs.Prelude.{◌≡◌, ℕ, ◌^◌, pos, ◌*ℤ◌, ◌<ℤ◌};
ghost use Rattle.md_math.specs.Sizes.{IsWithin};
ghost use Rattle.md_mech.specs.Accepted.{number_limit};
ghost use Rattle.md_require.specs.Amounts.{whole_of};
ghost use Rattle.md_require.specs.Limits.{IsNarrowFor};
ghost use Rattle.md_require.specs.Named.{named};
ghost use Rattle.md_require.specs.RequireProgram.{at_most_by};

use crate::amount::Amount;
use crate::{Condition, Side};
use md_num::product;
use md_setting::Setting;

/// A number, turned over where it is to be at least another one.
pub(crate) fn at_most(side: Side, number: i128) -> i128
    requires { IsWithin (2 ^ 62) number }
    ensures value { result ≡ at_most_by side number }
    ensures size { (limit : ℕ) → IsWithin limit number → IsWithin limit result }
{
    match side {
        Side::Least => -number,
        Side::Most => number,
    }
}

/// The numerator of a bound times the whole of an amount.
pub(crate) fn bound(setting: &Setting, condition: &Condition, amount: Amount) -> i128
    requires size { IsWithin number_limit condition.now.num }
    requires narrow { IsNarrowFor setting.now condition.now (named setting.now amount) }
    ensures value { result ≡ condition.now.num *ℤ whole_of setting.now (named setting.now amount) }
    ensures size { IsWithin (2 ^ 44) result }
{
    product(condition.num, whole(setting, amount))
}

/// The weight of all profiles, where an amount is a sum over them, and else 1.
pub fn whole(setting: &Setting, amount: Amount) -> i128
    ensures value { result ≡ whole_of setting.now (named setting.now amount) }
    ensures positive { pos 0 <ℤ result }
    ensures size { IsWithin 1000000 result }
{
    match amount {
        Amount::Revenue | Amount::Welfare | Amount::Utility { .. } | Amount::Chance { .. } => {
            setting.total()
        }
        Amount::ChanceAt { .. } | Amount::PaymentAt { .. } => 1,
    }
}
