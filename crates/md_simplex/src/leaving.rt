//! The row that leaves a basis.
ghost use Rattle.std.specs.Prelude.{◌≡◌, ◌+◌, ◌<◌, ◌≤◌, ◌<ℤ◌, pos, neg_ℤ, MatchBool};
ghost use Rattle.md_math.specs.LexOrder.{IsLexPositive, IsLexNonNegative};
ghost use Rattle.md_dict.specs.Condensed.{entry_at};
ghost use Rattle.md_simplex.specs.Rules.{key, gap};
ghost use Rattle.md_simplex.specs.Best.{IsBest};
ghost use Rattle.md_simplex.specs.Rivals.{IsRival, IsBestRival};
ghost use Rattle.md_simplex.specs.Signs.{HasSign};

use crate::signs::{Sign, sign_of};
use md_dict::Dict;
use md_num::cross_difference;

// The column of a row's list at a place: the right side, and then the start columns.
fn key_of(rows: u32, columns: u32, place: u32) -> u32
    requires rows { rows ≤ 8192 }
    requires columns { columns ≤ 73728 }
    requires place { place < rows + 1 }
    ensures value { result ≡ key rows columns place }
    ensures range { result < columns + rows + 1 }
{
    if place == 0 {
        columns + rows
    } else {
        columns + (place - 1)
    }
}

// A row that may leave, with its entry in the column that enters, by which its list is divided.
#[derive(Clone, Copy)]
pub struct Rival {
    pub column: u32,
    pub row: u32,
    pub entry: i128,
}

impl Rival {
    // The sign of how far the row's list exceeds that of another at a place, each divided by its entry in the column.
    fn gap_sign(&self, dict: &Dict, other: &Rival, place: u32) -> Sign
        requires rival { IsRival dict.now self.now.column self.now }
        requires other { IsRival dict.now self.now.column other.now }
        requires place { place < dict.now.rows + 1 }
        ensures { HasSign result (gap dict.now.rows dict.now.columns (entry_at dict.now) self.now.column self.now.row other.now.row place) }
    {
        let at = key_of(dict.rows(), dict.columns(), place);
        sign_of(cross_difference(
            other.entry,
            dict.entry(self.row, at),
            self.entry,
            dict.entry(other.row, at),
        ))
    }

    // Whether the row's list is less than that of another, each divided by its entry in the column.
    #[tactic(auto, using(crate::proofs::BestLaws::lex_zeros))]
    fn is_less(&self, dict: &Dict, other: &Rival) -> bool
        requires rival { IsRival dict.now self.now.column self.now }
        requires other { IsRival dict.now self.now.column other.now }
        ensures { MatchBool result
            (IsLexPositive (dict.now.rows + 1) (λ k. neg_ℤ (gap dict.now.rows dict.now.columns (entry_at dict.now) self.now.column self.now.row other.now.row k)))
            (IsLexNonNegative (dict.now.rows + 1) (gap dict.now.rows dict.now.columns (entry_at dict.now) self.now.column self.now.row other.now.row)) }
    {
        for place in 0..dict.rows() + 1 {
            match self.gap_sign(dict, other, place) {
                Sign::Negative => return true,
                Sign::Zero => {}
                Sign::Positive => return false,
            }
        }
        false
    }
}

// Of a row with a positive entry and the best row before it, the one whose list is less.
fn lesser(dict: &Dict, rival: Rival, best: Rival) -> Rival
    requires rival { IsRival dict.now rival.column rival }
    requires positive { pos 0 <ℤ rival.entry }
    requires best { IsBestRival dict.now rival.column rival.row (Some best) }
    ensures { IsBestRival dict.now rival.column (rival.row + 1) (Some result) }
{
    if rival.is_less(dict, &best) {
        rival
    } else {
        best
    }
}

// The best row so far, with one more row.
fn better(dict: &Dict, column: u32, row: u32, best: Option<Rival>) -> Option<Rival>
    requires column { column < dict.now.columns }
    requires row { row < dict.now.rows }
    requires best { IsBestRival dict.now column row best }
    ensures { IsBestRival dict.now column (row + 1) result }
{
    let entry = dict.entry(row, column);
    if entry <= 0 {
        return best;
    }
    let rival = Rival { column, row, entry };
    match best {
        Some(other) => Some(lesser(dict, rival, other)),
        None => Some(rival),
    }
}

/// The row that leaves where the column enters, if one has a positive entry there.
#[tactic(auto, using(crate::proofs::BestLaws::best_none))]
pub fn leaving_row(dict: &Dict, column: u32) -> Option<u32>
    requires { column < dict.now.columns }
    ensures { IsBest dict.now.rows dict.now.columns (entry_at dict.now) column dict.now.rows result }
{
    let mut best = None;
    for row in 0..dict.rows() {
        best = better(dict, column, row, best);
    }
    best.map(|rival| rival.row)
}
