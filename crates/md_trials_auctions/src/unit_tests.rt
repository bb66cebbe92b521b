//! Odds of small auctions of several units, whose tables and violated sets were found by hand.
ghost use Rattle.std.specs.Prelude.{◌≡◌, ℕ, ◌^◌, ◌<◌, ◌≤◌, pos, ◌≤ℤ◌, length, IfOk};
ghost use Rattle.md_math.specs.Lists.{number_at};
ghost use Rattle.md_setting.specs.Auction.{SymmetricAuction, value_count};
ghost use Rattle.md_border.specs.Odds.{IsInterim};

use crate::auctions::auction;
use md_border::Interim;
use md_num::{NoMemory, Nums};
use md_unit_tables::{UnitEnd, realise_units};
use std::alloc::Global;
use std::test::Fail;

// A list of numbers, none of which is over the most.
fn numbers(alloc: Global, values: &[u64], most: u64) -> Result<Nums, NoMemory>
    ensures length { IfOk result (λ list. length list ≡ length values.now) }
    ensures nonneg { IfOk result (λ list. (k : ℕ) → k < length list → pos 0 ≤ℤ number_at list k) }
    ensures small { IfOk result (λ list. (k : ℕ) → k < length list → number_at list k ≤ℤ pos most) }
{
    let mut list = Nums::new(alloc);
    for value in values {
        list.push(i128::from((*value).min(most)))?;
    }
    Ok(list)
}

// Interim odds with no payments.
fn interim(alloc: Global, den: u64, odds: &[u64]) -> Result<Interim, NoMemory>
    requires den { 1 ≤ den }
    requires size { den < 2 ^ 62 }
    ensures { IfOk result (λ interim. (a : SymmetricAuction) → value_count a ≡ length odds.now → IsInterim a interim) }
{
    let pays = numbers(alloc, odds, 0)?;
    let odds = numbers(alloc, odds, den)?;
    Ok(Interim {
        den: i128::from(den),
        odds,
        pays,
    })
}

// Interim odds, and their table or the violated set.
struct Case {
    bidders: i64,
    values: &'static [i64],
    weights: &'static [i64],
    units: u32,
    den: u64,
    odds: &'static [u64],
    rows: &'static [i128],
    violated: Option<u32>,
}

// Two bidders with two kinds of values that weigh 1 each. A value is asked for with 4 times its odds. The lists of counts are
// (0, 2), (1, 1) and (2, 0), which weigh 1, 2 and 1.
const TWO: Case = Case {
    bidders: 2,
    values: &[1, 2],
    weights: &[1, 1],
    units: 1,
    den: 1,
    odds: &[1, 1],
    rows: &[],
    violated: None,
};

// Three bidders with two kinds of values that weigh 1 each, for two units. A value is asked for with 12 times its odds. The lists
// of counts are (0, 3), (1, 2), (2, 1) and (3, 0), which weigh 1, 3, 3 and 1. Bidders with one of the values can get 11 units
// in all, 2 + 2 * 3 + 3, and bidders with any value 16.
const THREE: Case = Case {
    bidders: 3,
    values: &[1, 2],
    weights: &[1, 1],
    units: 2,
    den: 12,
    odds: &[5, 11],
    rows: &[],
    violated: None,
};

static CASES: [Case; 10] = [
    // One unit cannot go to both bidders always: 8 units are asked for, and there are 4.
    Case {
        violated: Some(3),
        ..TWO
    },
    // Two units can.
    Case {
        units: 2,
        rows: &[0, 2, 2, 2, 2, 0],
        ..TWO
    },
    // They can with the greatest denominator, 2^62 - 1.
    Case {
        units: 2,
        den: 4611686018427387903,
        odds: &[4611686018427387903, 4611686018427387903],
        rows: &[
            0,
            9223372036854775806,
            9223372036854775806,
            9223372036854775806,
            9223372036854775806,
            0,
        ],
        ..TWO
    },
    // One bidder gets one unit, and the other units stay.
    Case {
        bidders: 1,
        units: 12,
        rows: &[0, 1, 1, 0],
        ..TWO
    },
    // Three bidders with one value, which weighs 2, get two units in turn: 3 * 2 * 8 in all.
    Case {
        values: &[1],
        weights: &[2],
        den: 3,
        odds: &[2],
        rows: &[48],
        ..THREE
    },
    // They do not all get one always: 3 are asked for, and there are 2.
    Case {
        values: &[1],
        weights: &[1],
        den: 1,
        odds: &[1],
        violated: Some(1),
        ..THREE
    },
    // The last value gets all that it can, 12 * 11, and the first one all that is left, 12 * 5.
    Case {
        rows: &[0, 24, 0, 72, 36, 36, 24, 0],
        ..THREE
    },
    // The last value asks for 12 units more than 12 * 11, and both values for less than 12 * 16.
    Case {
        odds: &[0, 12],
        violated: Some(2),
        ..THREE
    },
    // Both values ask for 12 units more than 12 * 16, and neither of them alone for too many.
    Case {
        odds: &[6, 11],
        violated: Some(3),
        ..THREE
    },
    // The last value asks for 12 units too many, as both values do.
    Case {
        odds: &[5, 12],
        violated: Some(3),
        ..THREE
    },
];

fn is_end(case: &Case, end: &UnitEnd) -> bool {
    match end {
        UnitEnd::Table(rows) => case.violated.is_none() && rows.as_slice() == case.rows,
        UnitEnd::Violated(set) => case.violated == Some(*set),
    }
}

fn ends_so(alloc: Global, case: &Case) -> Result<bool, Fail> {
    if case.den == 0 || case.den >= 1 << 62 || case.units == 0 || case.units > 12 {
        return Ok(false);
    }
    if case.odds.len() != case.values.len() {
        return Ok(false);
    }
    let auction = auction(alloc, case.bidders, case.values, case.weights)?;
    let interim = interim(alloc, case.den, case.odds)?;
    let end = realise_units(alloc, &auction, case.units, &interim)?;
    Ok(is_end(case, &end))
}

#[test]
fn odds_have_a_unit_table_or_a_violated_set(rt: HostRuntime) -> Result<(), Fail> {
    for case in &CASES {
        let (units, den, odds) = (case.units, case.den, case.odds);
        assert!(rt; ends_so(rt.alloc(), case)?, "at {units} {den} {odds:?}");
    }
    Ok(())
}
