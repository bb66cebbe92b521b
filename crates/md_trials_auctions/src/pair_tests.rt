//! Odds of a small sale to bidders who differ, with their only table or their worst set, worked out by hand.
use md_asym_sale::is_sale;
use md_asym_tables::{PairEnd, are_odds, realise_pairs};
use md_num::{NoMemory, Nums};
use md_setting::{Setting, SettingFile};
use md_toml::read_setting;
use std::alloc::Global;
use std::test::Fail;

// The item is worth 1 or 2 to the first agent, and 2 or 4 to the second. In front of the rest stand the weights of (1, 2), (1, 4),
// (2, 2) and (2, 4).
const REST: &str =
    "format = \"mechanism-setting\"\nversion = 1\nkind = \"general\"\ntruth = \"bayes\"\nrational = \"interim\"\npayments = true\noutcomes = [\"keep\", \"first\", \"second\"]\n[objective]\nrevenue = 1\n[[agent]]\nname = \"one\"\ntypes = [\"v1\", \"v2\"]\nutility = [[0, 1, 0], [0, 2, 0]]\n[[agent]]\nname = \"two\"\ntypes = [\"v2\", \"v4\"]\nutility = [[0, 0, 2], [0, 0, 4]]\n";

const EVEN: &str = "prior = [1, 1, 1, 1]\n";

const UNEVEN: &str = "prior = [2, 4, 1, 2]\n";

// The greatest denominator, 2^62 - 1.
const MOST: i128 = 4611686018427387903;

// What comes of numbers: the masses of the table of the odds, the set, or that they are no odds.
enum Wanted {
    Table(&'static [i128]),
    Violated(u32),
    NoOdds,
}

// Numbers over a denominator, by pair: of the first agent at 1 and 2, and of the second at 2 and 4.
struct Case {
    prior: &'static str,
    den: i128,
    odds: &'static [i128],
    wanted: Wanted,
}

static CASES: [Case; 13] = [
    // Each pair asks for 2 of 4, and all four for 8.
    Case {
        prior: EVEN,
        den: 1,
        odds: &[1, 1, 1, 1],
        wanted: Wanted::Violated(15),
    },
    // The first pair of each agent asks for 2, and one of them comes 3 times.
    Case {
        prior: EVEN,
        den: 1,
        odds: &[1, 0, 1, 0],
        wanted: Wanted::Violated(5),
    },
    // The second agent has the item always at 4, and the first at 2 else.
    Case {
        prior: EVEN,
        den: 2,
        odds: &[0, 1, 0, 2],
        wanted: Wanted::Table(&[0, 0, 0, 2, 2, 0, 0, 2]),
    },
    // The first agent always has it, whatever the weights are.
    Case {
        prior: UNEVEN,
        den: 1,
        odds: &[1, 1, 0, 0],
        wanted: Wanted::Table(&[2, 0, 4, 0, 1, 0, 2, 0]),
    },
    // The first agent asks for 6 at 1, and the second for 3 at 2. One of them is there at 2 + 4 + 1, so that they are over by 2.
    Case {
        prior: UNEVEN,
        den: 1,
        odds: &[1, 0, 1, 0],
        wanted: Wanted::Violated(5),
    },
    // Nobody asks for it.
    Case {
        prior: UNEVEN,
        den: 3,
        odds: &[0, 0, 0, 0],
        wanted: Wanted::Table(&[0, 0, 0, 0, 0, 0, 0, 0]),
    },
    // The first agent always has it, over the greatest denominator and over one more.
    Case {
        prior: EVEN,
        den: MOST,
        odds: &[MOST, MOST, 0, 0],
        wanted: Wanted::Table(&[MOST, 0, MOST, 0, MOST, 0, MOST, 0]),
    },
    Case {
        prior: EVEN,
        den: MOST + 1,
        odds: &[MOST, MOST, 0, 0],
        wanted: Wanted::NoOdds,
    },
    // Too few numbers and too many, a number above the denominator, a negative one, and no denominator.
    Case {
        prior: EVEN,
        den: 3,
        odds: &[0, 1, 2],
        wanted: Wanted::NoOdds,
    },
    Case {
        prior: EVEN,
        den: 3,
        odds: &[0, 1, 2, 0, 0],
        wanted: Wanted::NoOdds,
    },
    Case {
        prior: EVEN,
        den: 3,
        odds: &[0, 1, 2, 4],
        wanted: Wanted::NoOdds,
    },
    Case {
        prior: EVEN,
        den: 3,
        odds: &[0, 1, -2, 3],
        wanted: Wanted::NoOdds,
    },
    Case {
        prior: EVEN,
        den: 0,
        odds: &[0, 0, 0, 0],
        wanted: Wanted::NoOdds,
    },
];

fn is_as_wanted(end: &PairEnd, wanted: &Wanted) -> bool {
    match (end, wanted) {
        (PairEnd::Table(masses), Wanted::Table(list)) => masses.as_slice() == *list,
        (PairEnd::Violated(set), Wanted::Violated(other)) => *set == *other,
        _ => false,
    }
}

fn ends_so(alloc: Global, setting: &Setting, case: &Case) -> Result<bool, NoMemory> {
    let odds = Nums::from_slice(alloc, case.odds)?;
    if !is_sale(setting) {
        return Ok(false);
    }
    if !are_odds(setting, case.den, &odds) {
        return Ok(matches!(&case.wanted, Wanted::NoOdds));
    }
    let end = realise_pairs(alloc, setting, case.den, &odds)?;
    Ok(is_as_wanted(&end, &case.wanted))
}

fn sale(alloc: Global, text: &str) -> Option<Setting> {
    match read_setting(alloc, text.as_bytes()) {
        Ok(SettingFile::General(setting)) => Some(setting),
        _ => None,
    }
}

fn is_so(alloc: Global, case: &Case) -> Result<bool, NoMemory> {
    let prior = case.prior;
    let text = format!(in alloc; "{prior}{REST}")?;
    match sale(alloc, &text) {
        Some(setting) => ends_so(alloc, &setting, case),
        None => Ok(false),
    }
}

#[test]
fn odds_of_pairs_have_a_table_or_a_worst_set(rt: HostRuntime) -> Result<(), Fail> {
    for case in &CASES {
        let (prior, den, odds) = (case.prior, case.den, case.odds);
        assert!(rt; is_so(rt.alloc(), case)?, "at {prior} {den} {odds:?}");
    }
    Ok(())
}
