//! Printed values.
ghost use Rattle.std.specs.Prelude.{◌≡◌, ◌↔◌, ◌*ℤ◌, ◌<ℤ◌, pos, IsTrue, MatchOption};
ghost use Rattle.md_math.specs.Divisors.{IsLeastTerms};
ghost use Rattle.md_mech.specs.Accepted.{IsAccepted};
ghost use Rattle.md_mech.specs.Value.{HasValue};
ghost use Rattle.md_setting.specs.Meaning.{total_of};
ghost use Rattle.md_parts.specs.Fitting.{IsFraction};
ghost use Rattle.md_claims.specs.Values.{IsOtherValue};

use md_mech::{Mechanism, worth};
use md_num::Frac;
use md_setting::Setting;

/// The value of the mechanism in least terms, where the printed value is another number.
pub fn other_value(setting: &Setting, mechanism: &Mechanism, printed: &Frac) -> Option<Frac>
    requires accepted { IsAccepted setting.now mechanism.now }
    requires fraction { IsFraction printed.now.num printed.now.den }
    ensures value { MatchOption result (HasValue setting.now mechanism.now printed.now) (IsOtherValue setting.now mechanism.now printed.now) }
    ensures total { pos 0 <ℤ total_of setting.now }
{
    let weight = setting.total();
    prove!(weight > 0);
    let right = worth(setting, mechanism);
    if is_same_number(printed, &right) {
        None
    } else {
        Some(right)
    }
}

/// Whether a fraction is the number that the other one is in least terms.
pub fn is_same_number(fraction: &Frac, least: &Frac) -> bool
    requires fraction { IsFraction fraction.now.num fraction.now.den }
    requires least { IsLeastTerms least.now.num least.now.den }
    ensures { IsTrue result ↔ (least.now.num *ℤ fraction.now.den ≡ fraction.now.num *ℤ least.now.den) }
{
    Frac::reduced(fraction.num, fraction.den) == *least
}
