//! The row that leaves a basis.
use crate::dictionary::Dictionary;
use md_find_numbers::WideNumber;

// Two rows that may leave where the column at a place enters, with their numbers there.
#[derive(Clone, Copy)]
struct Rivals {
    row: usize,
    other: usize,
    entry: i128,
    other_entry: i128,
}

impl Rivals {
    // How far a number of the one row exceeds one of the other, each divided by the row's entry.
    fn gap(&self, number: i128, other_number: i128) -> WideNumber {
        WideNumber::cross_difference(self.other_entry, number, self.entry, other_number)
    }

    // Whether the list of the one row, its right side and then its numbers at the columns of the first basis, is less than that of the other, each divided by the row's entry.
    fn is_less(&self, dictionary: &Dictionary) -> bool {
        let right = self.gap(dictionary.right(self.row), dictionary.right(self.other));
        if !right.is_zero() {
            return right.is_negative();
        }
        for of in 0..dictionary.rows() {
            let gap = self.gap(
                dictionary.unit_number(self.row, of),
                dictionary.unit_number(self.other, of),
            );
            if !gap.is_zero() {
                return gap.is_negative();
            }
        }
        false
    }
}

// The best row so far, with one more row.
fn better(dictionary: &Dictionary, place: usize, row: usize, best: Option<usize>) -> Option<usize> {
    let entry = dictionary.number(row, place);
    if entry <= 0 {
        return best;
    }
    let Some(other) = best else {
        return Some(row);
    };
    let rivals = Rivals {
        row,
        other,
        entry,
        other_entry: dictionary.number(other, place),
    };
    if rivals.is_less(dictionary) {
        Some(row)
    } else {
        best
    }
}

/// The row that leaves where the column at a place enters, if one has a positive number there: the one whose list is lexicographically least.
pub fn leaving_row(dictionary: &Dictionary, place: usize) -> Option<usize> {
    let mut best = None;
    for row in 0..dictionary.rows() {
        best = better(dictionary, place, row, best);
    }
    best
}
