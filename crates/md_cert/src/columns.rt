//! The sums of a program's columns under multipliers, and the first column where they are wrong.
ghost use Rattle.std.specs.Prelude.{◌≡◌, ◌+◌, ◌-◌, ◌^◌, ◌<◌, ◌≤◌, ◌-ℤ◌, ◌*ℤ◌, length, MatchOption};
ghost use Rattle.md_math.specs.FirstFailure.{HoldsBelow};
ghost use Rattle.md_math.specs.Lists.{number_at};
ghost use Rattle.md_math.specs.Sizes.{IsWithin};
ghost use Rattle.md_lp.specs.Program.{cost_at};
ghost use Rattle.md_cert.specs.Certified.{ColumnHolds, FaceSumHolds};
ghost use Rattle.md_cert.specs.Fault.{BreaksColumn, BreaksFaceSum, HasColumns, HasFaceSums};
ghost use Rattle.md_cert.specs.Fitting.{FitsBound, FitsRows, IsDenominator};

use crate::bound::Bound;
use crate::pairs::WrongPair;
use crate::signs::is_lex_nonneg;
use md_lp::Lp;
use md_num::{Nums, product};

// How many columns are summed at a time: room for their sums is on the stack.
const RUN: usize = 2048;

// The first column whose pair of sums has a wrong sign.
pub fn wrong_column(lp: &Lp, bound: &Bound) -> Option<WrongPair>
    requires { FitsBound lp.now bound.now }
    ensures { MatchOption result (HasColumns lp.now bound.now.den (number_at bound.now.face) (number_at bound.now.main)) (λ wrong. BreaksColumn lp.now bound.now.den (number_at bound.now.face) (number_at bound.now.main) wrong.place wrong.face wrong.main) }
{
    wrong_column_in_runs(lp, bound, &mut [0i128; RUN], &mut [0i128; RUN])
}

// The same, with this room for sums: as many columns are summed at a time.
fn wrong_column_in_runs(
    lp: &Lp,
    bound: &Bound,
    face_sums: &mut [i128],
    main_sums: &mut [i128],
) -> Option<WrongPair>
    requires fits { FitsBound lp.now bound.now }
    requires some { 0 < length face_sums.old }
    requires same { length main_sums.old ≡ length face_sums.old }
    ensures { MatchOption result (HasColumns lp.now bound.now.den (number_at bound.now.face) (number_at bound.now.main)) (λ wrong. BreaksColumn lp.now bound.now.den (number_at bound.now.face) (number_at bound.now.main) wrong.place wrong.face wrong.main) }
{
    let end = lp.columns() as usize;
    let room = face_sums.len();
    let mut first = 0;
    while first < end {
        let width = room.min(end - first);
        let run = wrong_column_in_run(
            lp,
            bound,
            first as u32,
            &mut face_sums[..width],
            &mut main_sums[..width],
        );
        if let Some(wrong) = run {
            return Some(wrong);
        }
        first += width;
    }
    None
}

// The same, among the columns of a run, where those before it have the right signs.
fn wrong_column_in_run(
    lp: &Lp,
    bound: &Bound,
    first: u32,
    face_sums: &mut [i128],
    main_sums: &mut [i128],
) -> Option<WrongPair>
    requires fits { FitsBound lp.now bound.now }
    requires few { lp.now.columns ≤ 65536 }
    requires run { first + length face_sums.old ≤ lp.now.columns }
    requires same { length main_sums.old ≡ length face_sums.old }
    requires before { HoldsBelow first (ColumnHolds lp.now bound.now.den (number_at bound.now.face) (number_at bound.now.main)) }
    ensures { MatchOption result (HoldsBelow (first + length face_sums.old) (ColumnHolds lp.now bound.now.den (number_at bound.now.face) (number_at bound.now.main))) (λ wrong. BreaksColumn lp.now bound.now.den (number_at bound.now.face) (number_at bound.now.main) wrong.place wrong.face wrong.main) }
{
    lp.column_sums(first, &bound.face, face_sums);
    lp.column_sums(first, &bound.main, main_sums);
    for place in 0..face_sums.len() {
        let column = first + place as u32;
        let face = face_sums[place];
        let main = reduced_cost(lp, bound.den, column, main_sums[place]);
        if !is_lex_nonneg(face, main) {
            return Some(WrongPair {
                place: column,
                face,
                main,
            });
        }
    }
    None
}

// How far a sum of main multipliers exceeds the cost of a column.
fn reduced_cost(lp: &Lp, over: i128, column: u32, sum: i128) -> i128
    requires denominator { IsDenominator over }
    requires column { column < lp.now.columns }
    requires size { IsWithin (2 ^ 119) sum }
    ensures { result ≡ sum -ℤ over *ℤ cost_at lp.now column }
{
    sum - product(over, lp.cost(column))
}

// The first column whose face sum is negative.
pub fn wrong_face_sum(lp: &Lp, face: &Nums) -> Option<WrongPair>
    requires { FitsRows lp.now face.now }
    ensures { MatchOption result (HasFaceSums lp.now (number_at face.now)) (λ wrong. BreaksFaceSum lp.now (number_at face.now) wrong.place wrong.face wrong.main) }
{
    wrong_face_in_runs(lp, face, &mut [0i128; RUN])
}

// The same, with this room for sums: as many columns are summed at a time.
fn wrong_face_in_runs(lp: &Lp, face: &Nums, sums: &mut [i128]) -> Option<WrongPair>
    requires fits { FitsRows lp.now face.now }
    requires some { 0 < length sums.old }
    ensures { MatchOption result (HasFaceSums lp.now (number_at face.now)) (λ wrong. BreaksFaceSum lp.now (number_at face.now) wrong.place wrong.face wrong.main) }
{
    let end = lp.columns() as usize;
    let room = sums.len();
    let mut first = 0;
    while first < end {
        let width = room.min(end - first);
        let run = wrong_face_in_run(lp, face, first as u32, &mut sums[..width]);
        if let Some(wrong) = run {
            return Some(wrong);
        }
        first += width;
    }
    None
}

// The same, among the columns of a run, where those before it have the right sign.
fn wrong_face_in_run(lp: &Lp, face: &Nums, first: u32, sums: &mut [i128]) -> Option<WrongPair>
    requires face { FitsRows lp.now face.now }
    requires few { lp.now.columns ≤ 65536 }
    requires run { first + length sums.old ≤ lp.now.columns }
    requires before { HoldsBelow first (FaceSumHolds lp.now (number_at face.now)) }
    ensures { MatchOption result (HoldsBelow (first + length sums.old) (FaceSumHolds lp.now (number_at face.now))) (λ wrong. BreaksFaceSum lp.now (number_at face.now) wrong.place wrong.face wrong.main) }
{
    lp.column_sums(first, face, sums);
    for place in 0..sums.len() {
        let sum = sums[place];
        if sum < 0 {
            return Some(WrongPair {
                place: first + place as u32,
                face: sum,
                main: 0,
            });
        }
    }
    None
}
