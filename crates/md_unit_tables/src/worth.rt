//! What interim odds and payments are worth to the designer where several units are sold.
ghost use Rattle.std.specs.Prelude.{◌≡◌, ◌-◌, ◌^◌, pos, ◌*ℤ◌};
ghost use Rattle.md_math.specs.Divisors.{IsLeastTerms};
ghost use Rattle.md_math.specs.Sizes.{IsWithin};
ghost use Rattle.md_border.specs.Odds.{IsInterim};
ghost use Rattle.md_unit_tables.specs.Worth.{HasUnitWorth};
ghost use Rattle.md_unit_tables.specs.Numbers.{IsUnitNumber};

use md_border::{Interim, auction_worth};
use md_num::{Frac, add_product, product};
use md_setting::Auction;

/// The designer's expected objective, in least terms: what it is with one unit, and what each further one is worth where it is
/// kept.
pub fn unit_worth(auction: &Auction, units: u32, interim: &Interim) -> Frac
    requires units { IsUnitNumber units }
    requires fits { IsInterim auction.now interim.now }
    ensures value { HasUnitWorth auction.now units interim.now result }
    ensures least { IsLeastTerms result.num result.den }
    ensures num_size { IsWithin (2 ^ 126 - 1) result.num }
    ensures den_size { IsWithin (2 ^ 126 - 1) result.den }
{
    let one = auction_worth(auction, interim);
    let num = add_product(one.num, further(auction, units), one.den);
    Frac::reduced(num, one.den)
}

// What all units but one are worth where they are kept.
fn further(auction: &Auction, units: u32) -> i128
    requires { IsUnitNumber units }
    ensures value { result ≡ auction.now.keep *ℤ pos (units - 1) }
    ensures size { IsWithin 12000000 result }
{
    product(i128::from(auction.keep()), i128::from(units - 1))
}
