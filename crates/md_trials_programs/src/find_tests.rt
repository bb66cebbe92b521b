//! Certificates that each start finds by itself: where a profile has the weight 0, where payments are multiples of each other or grow
//! without end, where staying away is worth something, where the types of two bidders are correlated, and where a chance is to be
//! reached. And those that bases give.
use md_cert::Certificate;
use md_find::{FindError, Start, find_by};
use md_find_basis::find_at;
use md_lp::{Lp, LpRefusal, RowKind, Term};
use md_num::{NoMemory, Nums};
use std::alloc::Global;

// What a start or a basis comes to.
#[derive(Clone, Copy, PartialEq, Eq)]
enum Ending {
    // The greatest cost, over a denominator.
    Greatest(i128, i128),
    Infeasible,
    Unbounded,
    NoPlace,
    Singular,
    TooLong,
    NotValid,
    Nothing,
}

// A row: what it demands, its number at each column, and its right side.
type Row = (RowKind, &'static [i128], i128);

// A program, and what is told of it from the first best and from the leap.
struct Case {
    cost: &'static [i128],
    rows: &'static [Row],
    first_best: Ending,
    leap: Ending,
}

static CASES: [Case; 9] = [
    // A bidder to whom the item is worth 2, and a profile of the weight 0: nothing but its chances is told of it.
    Case {
        cost: &[0, 0, 0, 0, 1, 0, -1, 0],
        rows: &[
            (RowKind::AtMost, &[0, -2, 0, 0, 1, 0, -1, 0], 0),
            (RowKind::Exact, &[1, 1, 0, 0, 0, 0, 0, 0], 1),
            (RowKind::Exact, &[0, 0, 1, 1, 0, 0, 0, 0], 1),
        ],
        first_best: Ending::Greatest(2, 1),
        leap: Ending::Greatest(2, 1),
    },
    // Two payments of which one counts twice: 3 and what the better outcome adds.
    Case {
        cost: &[0, 0, 1, 2, -1],
        rows: &[
            (RowKind::AtMost, &[1, -1, 1, 2, -1], 3),
            (RowKind::Exact, &[1, 1, 0, 0, 0], 1),
        ],
        first_best: Ending::Greatest(4, 1),
        leap: Ending::Greatest(4, 1),
    },
    // The same, where it costs nothing to pay back.
    Case {
        cost: &[0, 0, 1, 2, 0],
        rows: &[
            (RowKind::AtMost, &[1, -1, 1, 2, -1], 3),
            (RowKind::Exact, &[1, 1, 0, 0, 0], 1),
        ],
        first_best: Ending::NoPlace,
        leap: Ending::Unbounded,
    },
    // A buyer to whom the item is worth 2 or 5, and 1 to stay away. Who has 2 is given that 1, and who has 5 pays 4.
    Case {
        cost: &[0, 0, 0, 0, 1, 1, -1, -1],
        rows: &[
            (RowKind::AtMost, &[0, -2, 0, 2, 1, -1, -1, 1], 0),
            (RowKind::AtMost, &[0, 5, 0, -5, -1, 1, 1, -1], 0),
            (RowKind::AtMost, &[0, -2, 0, 0, 1, 0, -1, 0], -1),
            (RowKind::AtMost, &[0, 0, 0, -5, 0, 1, 0, -1], -1),
            (RowKind::Exact, &[1, 1, 0, 0, 0, 0, 0, 0], 1),
            (RowKind::Exact, &[0, 0, 1, 1, 0, 0, 0, 0], 1),
        ],
        first_best: Ending::Greatest(3, 1),
        leap: Ending::Greatest(3, 1),
    },
    // It is worth 3 to stay away, and no one pays.
    Case {
        cost: &[0, 1, 0, 1],
        rows: &[
            (RowKind::AtMost, &[0, -2, 0, 0], -3),
            (RowKind::AtMost, &[0, 0, 0, -5], -1),
            (RowKind::Exact, &[1, 1, 0, 0], 1),
            (RowKind::Exact, &[0, 0, 1, 1], 1),
        ],
        first_best: Ending::Infeasible,
        leap: Ending::Infeasible,
    },
    // Two bidders with the values 1 and 2, which are the same with the chance 2/3: as `second-opinion/rows` prints it, whose
    // `find` has the value 5/3, a sixth of this.
    Case {
        cost: &[
            0, 0, 0, 0, 0, 0, 0, 0, 2, 1, 1, 2, 2, 1, 1, 2, -2, -1, -1, -2, -2, -1, -1, -2,
        ],
        rows: &[
            (
                RowKind::AtMost,
                &[
                    -2, 0, -1, 0, 2, 0, 1, 0, 2, 1, -2, -1, 0, 0, 0, 0, -2, -1, 2, 1, 0, 0, 0, 0,
                ],
                0,
            ),
            (
                RowKind::AtMost,
                &[
                    2, 0, 4, 0, -2, 0, -4, 0, -1, -2, 1, 2, 0, 0, 0, 0, 1, 2, -1, -2, 0, 0, 0, 0,
                ],
                0,
            ),
            (
                RowKind::AtMost,
                &[
                    0, -2, 0, 2, 0, -1, 0, 1, 0, 0, 0, 0, 2, -2, 1, -1, 0, 0, 0, 0, -2, 2, -1, 1,
                ],
                0,
            ),
            (
                RowKind::AtMost,
                &[
                    0, 2, 0, -2, 0, 4, 0, -4, 0, 0, 0, 0, -1, 1, -2, 2, 0, 0, 0, 0, 1, -1, 2, -2,
                ],
                0,
            ),
            (
                RowKind::AtMost,
                &[
                    -2, 0, -1, 0, 0, 0, 0, 0, 2, 1, 0, 0, 0, 0, 0, 0, -2, -1, 0, 0, 0, 0, 0, 0,
                ],
                0,
            ),
            (
                RowKind::AtMost,
                &[
                    0, 0, 0, 0, -2, 0, -4, 0, 0, 0, 1, 2, 0, 0, 0, 0, 0, 0, -1, -2, 0, 0, 0, 0,
                ],
                0,
            ),
            (
                RowKind::AtMost,
                &[
                    0, -2, 0, 0, 0, -1, 0, 0, 0, 0, 0, 0, 2, 0, 1, 0, 0, 0, 0, 0, -2, 0, -1, 0,
                ],
                0,
            ),
            (
                RowKind::AtMost,
                &[
                    0, 0, 0, -2, 0, 0, 0, -4, 0, 0, 0, 0, 0, 1, 0, 2, 0, 0, 0, 0, 0, -1, 0, -2,
                ],
                0,
            ),
            (
                RowKind::Exact,
                &[
                    1, 1, 0, 0, 0, 0, 0, 0, 0, 0, 0, 0, 0, 0, 0, 0, 0, 0, 0, 0, 0, 0, 0, 0,
                ],
                1,
            ),
            (
                RowKind::Exact,
                &[
                    0, 0, 1, 1, 0, 0, 0, 0, 0, 0, 0, 0, 0, 0, 0, 0, 0, 0, 0, 0, 0, 0, 0, 0,
                ],
                1,
            ),
            (
                RowKind::Exact,
                &[
                    0, 0, 0, 0, 1, 1, 0, 0, 0, 0, 0, 0, 0, 0, 0, 0, 0, 0, 0, 0, 0, 0, 0, 0,
                ],
                1,
            ),
            (
                RowKind::Exact,
                &[
                    0, 0, 0, 0, 0, 0, 1, 1, 0, 0, 0, 0, 0, 0, 0, 0, 0, 0, 0, 0, 0, 0, 0, 0,
                ],
                1,
            ),
        ],
        first_best: Ending::Greatest(10, 1),
        leap: Ending::Greatest(10, 1),
    },
    // A row that stands there twice.
    Case {
        cost: &[1, 0],
        rows: &[(RowKind::Exact, &[1, 1], 1), (RowKind::Exact, &[1, 1], 1)],
        first_best: Ending::NoPlace,
        leap: Ending::Greatest(1, 1),
    },
    // The second column is 1 over the square of a number of 44 bits.
    Case {
        cost: &[0, 1],
        rows: &[
            (RowKind::Exact, &[17_592_186_044_415, 0], 1),
            (RowKind::Exact, &[-1, 17_592_186_044_415], 0),
        ],
        first_best: Ending::TooLong,
        leap: Ending::TooLong,
    },
    // A buyer to whom the item is worth 2 or 5. Who has 2 is to get it at least half of the time, as a condition of the designer
    // may ask, and pays 1 for that; so who has 5 pays 7/2.
    Case {
        cost: &[0, 0, 0, 0, 1, 1, -1, -1],
        rows: &[
            (RowKind::AtMost, &[0, -2, 0, 2, 1, -1, -1, 1], 0),
            (RowKind::AtMost, &[0, 5, 0, -5, -1, 1, 1, -1], 0),
            (RowKind::AtMost, &[0, -2, 0, 0, 1, 0, -1, 0], 0),
            (RowKind::AtMost, &[0, 0, 0, -5, 0, 1, 0, -1], 0),
            (RowKind::AtMost, &[0, -2, 0, 0, 0, 0, 0, 0], -1),
            (RowKind::Exact, &[1, 1, 0, 0, 0, 0, 0, 0], 1),
            (RowKind::Exact, &[0, 0, 1, 1, 0, 0, 0, 0], 1),
        ],
        first_best: Ending::Greatest(9, 2),
        leap: Ending::Greatest(9, 2),
    },
];

// A basis of the program of a case, and what is told of it.
struct BasisCase {
    case: usize,
    columns: &'static [u32],
    slacks: &'static [u32],
    ending: Ending,
}

static BASES: [BasisCase; 9] = [
    // The better outcome, and 4 by the payment that counts once.
    BasisCase {
        case: 1,
        columns: &[2, 1],
        slacks: &[],
        ending: Ending::Greatest(4, 1),
    },
    // The other outcome, by which 2 are paid.
    BasisCase {
        case: 1,
        columns: &[0, 2],
        slacks: &[],
        ending: Ending::NotValid,
    },
    // Two payments, and no outcome.
    BasisCase {
        case: 1,
        columns: &[2, 3],
        slacks: &[],
        ending: Ending::Singular,
    },
    // One column too few, and one too many.
    BasisCase {
        case: 1,
        columns: &[1],
        slacks: &[],
        ending: Ending::Singular,
    },
    BasisCase {
        case: 1,
        columns: &[1, 2],
        slacks: &[0],
        ending: Ending::Singular,
    },
    // A column that the program has not.
    BasisCase {
        case: 1,
        columns: &[1, 5],
        slacks: &[],
        ending: Ending::Singular,
    },
    // Nothing is told of the profile of the weight 0 but one of its chances.
    BasisCase {
        case: 0,
        columns: &[1, 3, 4],
        slacks: &[],
        ending: Ending::Greatest(2, 1),
    },
    // The second of two rows has its start column.
    BasisCase {
        case: 6,
        columns: &[0],
        slacks: &[1],
        ending: Ending::Greatest(1, 1),
    },
    BasisCase {
        case: 7,
        columns: &[0, 1],
        slacks: &[],
        ending: Ending::TooLong,
    },
];

// The terms of a row.
fn terms_of(alloc: Global, numbers: &[i128]) -> Result<Vec<Term>, NoMemory> {
    let mut terms = Vec::new(alloc);
    let mut column = 0u32;
    for value in numbers {
        if *value != 0 {
            terms.push(Term {
                column,
                value: *value,
            })?;
        }
        column = column.saturating_add(1);
    }
    Ok(terms)
}

// The program of a case without rows.
fn empty(alloc: Global, cost: &[i128]) -> Result<Lp, LpRefusal> {
    let numbers = Nums::from_slice(alloc, cost)?;
    if cost.len() > 24 {
        return Err(LpRefusal::Index);
    }
    Lp::new(alloc, cost.len() as u32, numbers)
}

// The program of a case.
fn program(alloc: Global, case: &Case) -> Result<Lp, LpRefusal> {
    let mut lp = empty(alloc, case.cost)?;
    for (kind, numbers, right) in case.rows {
        let terms = terms_of(alloc, numbers)?;
        lp.push_row(*kind, terms.as_slice(), *right)?;
    }
    Ok(lp)
}

// The cost of a point, over its denominator.
fn cost_of(lp: &Lp, point: &Nums) -> i128 {
    let mut sum = 0i128;
    for column in 0..lp.columns() {
        let place = column as usize;
        if place < point.len() {
            sum = sum.wrapping_add(lp.cost(column).wrapping_mul(point.get(place)));
        }
    }
    sum
}

// What is told of the cost of a point: what is wanted, if it is that.
fn greatest(lp: &Lp, den: i128, point: &Nums, wanted: Ending) -> Ending {
    match wanted {
        Ending::Greatest(num, over)
            if cost_of(lp, point).wrapping_mul(over) == num.wrapping_mul(den) => { wanted }
        _ => Ending::Nothing,
    }
}

// What a search comes to.
fn ending_of(lp: &Lp, found: Result<Certificate, FindError>, wanted: Ending) -> Ending {
    match found {
        Ok(Certificate::Optimal { den, point, .. }) => greatest(lp, den, &point, wanted),
        Ok(Certificate::Infeasible { .. }) => Ending::Infeasible,
        Ok(Certificate::Unbounded { .. }) => Ending::Unbounded,
        Err(FindError::NoPlace) => Ending::NoPlace,
        Err(FindError::Singular) => Ending::Singular,
        Err(FindError::TooLong) => Ending::TooLong,
        Err(FindError::NotValid) => Ending::NotValid,
        Err(_) => Ending::Nothing,
    }
}

// Whether a start comes to what is told of it.
fn starts_as_told(alloc: Global, lp: &Lp, start: Start, wanted: Ending) -> bool {
    ending_of(lp, find_by(alloc, lp, start), wanted) == wanted
}

// Whether a basis comes to what is told of it.
fn bounds_as_told(alloc: Global, basis: &BasisCase) -> bool {
    if basis.case >= CASES.len() {
        return false;
    }
    match program(alloc, &CASES[basis.case]) {
        Ok(lp) => {
            let found = find_at(alloc, &lp, basis.columns, basis.slacks);
            ending_of(&lp, found, basis.ending) == basis.ending
        }
        Err(_) => false,
    }
}

// Whether both starts come to what is told of a case.
fn ends_as_told(alloc: Global, case: &Case) -> bool {
    match program(alloc, case) {
        Ok(lp) => {
            starts_as_told(alloc, &lp, Start::FirstBest, case.first_best)
                && starts_as_told(alloc, &lp, Start::Leap(0), case.leap)
        }
        Err(_) => false,
    }
}

#[test]
fn each_start_finds_certificates(rt: HostRuntime) {
    for (place, case) in CASES.iter().enumerate() {
        assert!(rt; ends_as_told(rt.alloc(), case), "at {place}");
    }
}

#[test]
fn bases_give_certificates(rt: HostRuntime) {
    for (place, basis) in BASES.iter().enumerate() {
        assert!(rt; bounds_as_told(rt.alloc(), basis), "at {place}");
    }
}
