//! Sums of masses.
ghost use Rattle.std.specs.Prelude.{◌≡◌, ℕ, ◌^◌, ◌<◌, ◌≤ℤ◌, pos};
ghost use Rattle.md_math.specs.Sizes.{IsWithin};
ghost use Rattle.md_mech.specs.Accepted.{number_limit};
ghost use Rattle.md_setting.specs.Auction.{value_count};
ghost use Rattle.md_expost.specs.Masses.{mass_of};
ghost use Rattle.md_unit_tables.specs.Tables.{IsUnitTable};

use md_expost::Masses;
use md_setting::Auction;

/// The masses of a kind at all lists of counts together: what the bidders with this value get by the table. It is a table of
/// some number of units.
pub fn mass_sum(auction: &Auction, masses: &Masses, kind: u32) -> i128
    requires masses { (units : ℕ) × IsUnitTable auction.now units masses.now }
    requires den_small { masses.now.den ≤ℤ pos number_limit }
    requires kind_in { kind < value_count auction.now }
    ensures value { result ≡ mass_of auction.now masses.now kind }
    ensures size { IsWithin (2 ^ 120) result }
{
    let kinds = auction.kinds() as usize;
    let mut sum = 0;
    for rank in 0..masses.rows.len() / kinds {
        sum += masses.rows.get(rank * kinds + kind as usize);
    }
    sum
}
