//! Programs with the greatest numbers and columns, and rows that are refused.
ghost use Rattle.std.specs.Prelude.{◌≡◌, length, IfOk};

use md_lp::{Lp, LpRefusal, RowKind, Term};
use md_num::{NoMemory, Nums};
use std::alloc::Global;
use std::test::Fail;

// The greatest number of a row, 2^44.
const GREATEST: i128 = 17_592_186_044_416;

// What comes of a row.
enum Told {
    Taken,
    Index,
    Magnitude,
}

// Terms and a right side for a program with two columns, and what comes of them.
type Row = (&'static [Term], i128, Told);

static ROWS: [Row; 9] = [
    // The columns have to ascend, and to be those of the program.
    (
        &[
            Term {
                column: 1,
                value: 1,
            },
            Term {
                column: 0,
                value: 1,
            },
        ],
        0,
        Told::Index,
    ),
    (
        &[
            Term {
                column: 0,
                value: 1,
            },
            Term {
                column: 0,
                value: 1,
            },
        ],
        0,
        Told::Index,
    ),
    (
        &[Term {
            column: 2,
            value: 1,
        }],
        0,
        Told::Index,
    ),
    (
        &[Term {
            column: 0,
            value: GREATEST + 1,
        }],
        0,
        Told::Magnitude,
    ),
    (
        &[Term {
            column: 0,
            value: -GREATEST - 1,
        }],
        0,
        Told::Magnitude,
    ),
    (
        &[Term {
            column: 0,
            value: 1,
        }],
        GREATEST + 1,
        Told::Magnitude,
    ),
    (
        &[
            Term {
                column: 1,
                value: GREATEST + 1,
            },
            Term {
                column: 0,
                value: 1,
            },
        ],
        0,
        Told::Index,
    ),
    (
        &[
            Term {
                column: 0,
                value: GREATEST,
            },
            Term {
                column: 1,
                value: -GREATEST,
            },
        ],
        1,
        Told::Taken,
    ),
    (
        &[Term {
            column: 1,
            value: 1,
        }],
        -GREATEST,
        Told::Taken,
    ),
];

fn term(column: u32, value: i128) -> Term {
    Term { column, value }
}

fn is_told(answer: &Result<(), LpRefusal>, told: &Told) -> bool {
    match (answer, told) {
        (Ok(()), Told::Taken) => true,
        (Err(LpRefusal::Index), Told::Index) => true,
        (Err(LpRefusal::Magnitude), Told::Magnitude) => true,
        _ => false,
    }
}

#[test]
fn rows_are_taken_or_refused(rt: HostRuntime) -> Result<(), Fail> {
    let mut lp = Lp::new(rt.alloc(), 2, Nums::from_slice(rt.alloc(), &[1, 1])?)?;
    for (place, (terms, right, told)) in ROWS.iter().enumerate() {
        let answer = lp.push_row(RowKind::AtMost, terms, *right);
        assert!(rt; is_told(&answer, told), "at {place}");
    }
    assert_eq!(rt; lp.rows(), 2);
    Ok(())
}

#[test]
fn costs_are_refused(rt: HostRuntime) -> Result<(), Fail> {
    let cost = Nums::from_slice(rt.alloc(), &[0, -GREATEST - 1])?;
    let refused = Lp::new(rt.alloc(), 2, cost);
    assert!(rt; matches!(&refused, Err(LpRefusal::Magnitude)));
    Ok(())
}

// So many zeros.
fn zeros(alloc: Global, count: u32) -> Result<Nums, NoMemory>
    ensures { IfOk result (λ list. length list ≡ count) }
{
    let mut list = Nums::new(alloc);
    for place in 0..count {
        let _ = place;
        list.push(0)?;
    }
    Ok(list)
}

// A program with as many columns as may be, and two rows of the greatest numbers at the first one and the last one.
fn widest(alloc: Global) -> Result<Lp, LpRefusal> {
    let mut lp = Lp::new(alloc, 65_536, zeros(alloc, 65_536)?)?;
    for (first, last) in [(GREATEST, -GREATEST), (-GREATEST, GREATEST)] {
        lp.push_row(RowKind::AtMost, &[term(0, first), term(65_535, last)], 1)?;
    }
    Ok(lp)
}

fn coefficient_at(lp: &Lp, row: u32, column: u32) -> Option<i128> {
    if row < lp.rows() && column < lp.columns() {
        Some(lp.coefficient(row, column))
    } else {
        None
    }
}

// A row, a column and the number there.
static PLACES: [(u32, u32, i128); 5] = [
    (0, 0, GREATEST),
    (0, 65_535, -GREATEST),
    (1, 0, -GREATEST),
    (1, 65_535, GREATEST),
    (0, 1, 0),
];

#[test]
fn the_widest_program_keeps_the_greatest_numbers(rt: HostRuntime) -> Result<(), Fail> {
    let lp = widest(rt.alloc())?;
    for (row, column, number) in &PLACES {
        assert_eq!(rt;
            coefficient_at(&lp, *row, *column),
            Some(*number),
            "at {row} {column}"
        );
    }
    Ok(())
}
