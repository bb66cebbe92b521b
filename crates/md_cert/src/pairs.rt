//! The signs of multipliers, and the first row where they are wrong.
ghost use Rattle.std.specs.Prelude.{◌≡◌, MatchOption};
ghost use Rattle.md_math.specs.Lists.{number_at};
ghost use Rattle.md_cert.specs.Fault.{BreaksPair, BreaksFace, HasPairs, HasFaces};
ghost use Rattle.md_cert.specs.Fitting.{FitsRows};

use crate::signs::{is_face_for, is_pair_for};
use md_lp::Lp;
use md_num::Nums;

// A pair of numbers at a row or a column that has a wrong sign.
#[derive(Clone, Copy)]
pub struct WrongPair {
    pub place: u32,
    pub face: i128,
    pub main: i128,
}

// The first row whose pair of multipliers has a wrong sign.
pub fn wrong_pair(lp: &Lp, face: &Nums, main: &Nums) -> Option<WrongPair>
    requires face { FitsRows lp.now face.now }
    requires main { FitsRows lp.now main.now }
    ensures { MatchOption result (HasPairs lp.now (number_at face.now) (number_at main.now)) (λ wrong. BreaksPair lp.now (number_at face.now) (number_at main.now) wrong.place wrong.face wrong.main) }
{
    for row in 0..lp.rows() {
        let first = face.get(row as usize);
        let second = main.get(row as usize);
        if !is_pair_for(lp.kind(row), first, second) {
            return Some(WrongPair {
                place: row,
                face: first,
                main: second,
            });
        }
    }
    None
}

// The first row whose face multiplier has a wrong sign.
pub fn wrong_face(lp: &Lp, face: &Nums) -> Option<WrongPair>
    requires { FitsRows lp.now face.now }
    ensures { MatchOption result (HasFaces lp.now (number_at face.now)) (λ wrong. BreaksFace lp.now (number_at face.now) wrong.place wrong.face wrong.main) }
{
    for row in 0..lp.rows() {
        let first = face.get(row as usize);
        if !is_face_for(lp.kind(row), first) {
            return Some(WrongPair {
                place: row,
                face: first,
                main: 0,
            });
        }
    }
    None
}
