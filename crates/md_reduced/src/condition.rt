//! The conditions on interim odds and payments, in the order of the rows of the reduced program.
ghost use Rattle.std.specs.Prelude.{◌≡◌, ◌*◌, ◌-◌, ◌<◌, length};
ghost use Rattle.md_setting.specs.Auction.{value_count};
ghost use Rattle.md_mech.specs.Conditions.{IsFalseReport};
ghost use Rattle.md_reduced.specs.Conditions.{conditions_of, truths, IsAt};
ghost use Rattle.md_lp.specs.Cuts.{AreCuts};

use md_lp::Sets;
use md_setting::Auction;

/// A condition, each with a row in the reduced program.
#[derive(Clone, Copy)]
pub enum ReducedCondition {
    /// That a bidder with a value does not gain by telling another one.
    Truth {
        /// The kind of its value.
        kind: u32,
        /// The kind of the value that it tells.
        other: u32,
    },
    /// That a bidder with a value does not lose by taking part.
    Rational {
        /// The kind of its value.
        kind: u32,
    },
    /// That bidders with values in a set do not ask for the item more often than there are some.
    Cut {
        /// The set: the bit of a kind is 1 where it has the kind.
        set: u32,
    },
}

/// How many rows the reduced program with these cuts has.
pub fn row_count(auction: &Auction, cuts: &Sets) -> u32
    requires { AreCuts (value_count auction.now) cuts.now }
    ensures { result ≡ length (conditions_of (value_count auction.now) cuts.now) }
{
    let kinds = auction.kinds();
    kinds * (kinds - 1) + kinds + cuts.len() as u32
}

/// The condition of a row. It takes no memory.
pub fn condition_at(auction: &Auction, cuts: &Sets, row: u32) -> ReducedCondition
    requires cuts { AreCuts (value_count auction.now) cuts.now }
    requires row { row < length (conditions_of (value_count auction.now) cuts.now) }
    ensures { IsAt (value_count auction.now) (conditions_of (value_count auction.now) cuts.now) row result }
{
    let kinds = auction.kinds();
    let truths = kinds * (kinds - 1);
    if row < truths {
        return truth_at(kinds, row);
    }
    let rest = row - truths;
    if rest < kinds {
        return ReducedCondition::Rational { kind: rest };
    }
    ReducedCondition::Cut {
        set: cuts.get((rest - kinds) as usize),
    }
}

// The condition on truth of a number: as many for each value as there are others.
fn truth_at(kinds: u32, number: u32) -> ReducedCondition
    requires few { kinds < 13 }
    requires number { number < kinds * (kinds - 1) }
    ensures { IsAt kinds (truths kinds) number result }
{
    let others = kinds - 1;
    let kind = number / others;
    ReducedCondition::Truth {
        kind,
        other: other_kind(kind, number % others),
    }
}

// The kind of a number among those other than a given one.
fn other_kind(kind: u32, number: u32) -> u32
    requires { number < 12 }
    ensures { IsFalseReport kind number result }
{
    if number < kind { number } else { number + 1 }
}
