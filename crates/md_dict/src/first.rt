//! The numbers of the first dictionary, row by row from the terms of the program.
ghost use Rattle.std.specs.Prelude.{◌≡◌, ℕ, ◌+◌, ◌-◌, ◌*◌, ◌^◌, ◌<◌, ◌≤◌, ℤ, pos, negsuc, int_lt, neg_ℤ, ◌-ℤ◌, ◌*ℤ◌, [], ◌∷◌, ◌++◌, length, replicate, if◌then◌else◌, IfOk, MatchOption, OnOk};
ghost use Rattle.md_math.specs.Lists.{list_to, number_at};
ghost use Rattle.md_math.specs.Sums.{sum_to};
ghost use Rattle.md_math.specs.Sizes.{AllWithin, IsWithin};
ghost use Rattle.md_math.specs.FirstFailure.{HoldsBelow, IsFirstFailure};
ghost use Rattle.md_lp.specs.Program.{right_at, row_count};
ghost use Rattle.md_dict.specs.FirstTable.{column_count, slacks_before};
ghost use Rattle.md_dict.specs.FirstRows.{IsBuiltBefore};
ghost use Rattle.md_dict.specs.Start.{IsBuilt, IsFirstWidePlace};
ghost use Rattle.md_dict.specs.Wide.{IsFirstWide, IsNarrow};

use crate::rows::filled;
use crate::sizes::are_surely_within;
use md_dict_division::is_within;
use md_lp::{Entry, Lp, RowKind};
use md_num::NoMemory;
use std::alloc::Global;

// How many program and slack columns the first table has.
pub fn first_columns(lp: &Lp) -> u32
    ensures value { result ≡ column_count lp.now }
    ensures size { result ≤ 73728 }
{
    let mut columns = lp.columns();
    for row in 0..lp.rows() {
        if lp.kind(row) == RowKind::AtMost {
            columns += 1;
        }
    }
    columns
}

// A number times the sign of a row, which is minus where the row's right side is negative.
fn signed(negative: bool, x: i128) -> i128
    requires size { IsWithin (2 ^ 44) x }
    ensures value { result ≡ (if negative then negsuc 0 else pos 1) *ℤ x }
    ensures size { IsWithin (2 ^ 44) result }
{
    if negative { -x } else { x }
}

// Appends zeros up to a length, and then a number.
fn push_at(kept: &mut Vec<i64>, at: usize, number: i128) -> Result<(), NoMemory>
    requires at { length kept.old.items ≤ at }
    requires number { IsWithin (2 ^ 62) number }
    ensures items { OnOk result (kept.new.items ≡ kept.old.items ++ (replicate (at - length kept.old.items) (pos 0) ++ number ∷ [])) }
{
    if kept.len() < at {
        kept.resize(at, 0)?;
    }
    kept.push(number as i64)?;
    Ok(())
}

// Appends the coefficients of a program row up to its last term, each times the row's sign.
fn push_terms(kept: &mut Vec<i64>, lp: &Lp, row: u32, negative: bool) -> Result<(), NoMemory>
    requires row { row < row_count lp.now }
    requires negative { negative ≡ int_lt (right_at lp.now row) (pos 0) }
    requires built { IsBuilt lp.now kept.old.items }
    requires length { length kept.old.items ≡ row * (column_count lp.now + 1) }
    ensures { OnOk result (IsBuiltBefore lp.now row lp.now.columns kept.new.items) }
{
    let start = kept.len();
    for k in 0..lp.term_count(row) {
        let term = lp.term(row, k);
        let number = signed(negative, term.value);
        push_at(kept, start + term.column as usize, number)?;
    }
    Ok(())
}

// Appends the number of a program row at its slack column, if it has one.
fn push_slack(
    kept: &mut Vec<i64>,
    lp: &Lp,
    at: usize,
    row: u32,
    negative: bool,
) -> Result<(), NoMemory>
    requires row { row < row_count lp.now }
    requires negative { negative ≡ int_lt (right_at lp.now row) (pos 0) }
    requires at { at ≡ row * (column_count lp.now + 1) + (lp.now.columns + slacks_before lp.now row) }
    requires built { IsBuiltBefore lp.now row lp.now.columns kept.old.items }
    ensures { OnOk result (IsBuiltBefore lp.now row (column_count lp.now) kept.new.items) }
{
    match lp.kind(row) {
        RowKind::AtMost => push_at(kept, at, signed(negative, 1)),
        RowKind::Exact => Ok(()),
    }
}

// Appends a program row of the first dictionary. The row's slack column, if it has one, is `slack`.
fn push_program_row(
    kept: &mut Vec<i64>,
    lp: &Lp,
    columns: u32,
    slack: u32,
    row: u32,
) -> Result<(), NoMemory>
    requires columns { columns ≡ column_count lp.now }
    requires size { columns ≤ 73728 }
    requires row { row < row_count lp.now }
    requires slack { slack ≡ lp.now.columns + slacks_before lp.now row }
    requires built { IsBuilt lp.now kept.old.items }
    requires length { length kept.old.items ≡ row * (columns + 1) }
    ensures built { OnOk result (IsBuilt lp.now kept.new.items) }
    ensures length { OnOk result (length kept.new.items ≡ (row + 1) * (columns + 1)) }
{
    let start = kept.len();
    let right = lp.right(row);
    let negative = right < 0;
    push_terms(kept, lp, row, negative)?;
    push_slack(kept, lp, start + slack as usize, row, negative)?;
    push_at(kept, start + columns as usize, signed(negative, right))
}

// Takes from each sum the number of a row of the table at the sum's place; the row begins at `start`.
fn subtract_row(sums: &mut [i64], kept: &[i64], start: usize)
    requires inside { start + length sums.old ≤ length kept.now }
    requires numbers { (s : ℕ) → s < length sums.old → IsWithin (2 ^ 44) (number_at kept.now (start + s)) }
    requires room { AllWithin (2 ^ 60) sums.old }
    ensures length { length sums.new ≡ length sums.old }
    ensures value { (s : ℕ) → s < length sums.old → number_at sums.new s ≡ number_at sums.old s -ℤ number_at kept.now (start + s) }
{
    for place in 0..sums.len() {
        sums[place] -= kept[start + place];
    }
}

// The face row: minus the sum of the program rows, which are built.
fn face_row(alloc: Global, kept: &[i64], columns: u32, rows: u32) -> Result<Vec<i64>, NoMemory>
    requires rows { rows ≤ 8192 }
    requires columns { columns ≤ 73728 }
    requires length { rows * (columns + 1) ≤ length kept.now }
    requires size { (k : ℕ) → k < rows * (columns + 1) → IsWithin (2 ^ 44) (number_at kept.now k) }
    ensures length { IfOk result (λ face. length face.items ≡ columns + 1) }
    ensures value { IfOk result (λ face. (s : ℕ) → s < columns + 1 → number_at face.items s ≡ neg_ℤ (sum_to rows (λ r. number_at kept.now (r * (columns + 1) + s)))) }
{
    let stride = columns as usize + 1;
    let mut face = filled(alloc, stride, 0)?;
    for row in 0..rows {
        subtract_row(face.as_mut_slice(), kept, row as usize * stride);
    }
    Ok(face)
}

// Appends the face row of the first dictionary to the program rows.
fn push_face_row(kept: &mut Vec<i64>, lp: &Lp, columns: u32) -> Result<(), NoMemory>
    requires columns { columns ≡ column_count lp.now }
    requires size { columns ≤ 73728 }
    requires built { IsBuilt lp.now kept.old.items }
    requires length { length kept.old.items ≡ row_count lp.now * (columns + 1) }
    ensures built { OnOk result (IsBuilt lp.now kept.new.items) }
    ensures length { OnOk result (length kept.new.items ≡ (row_count lp.now + 1) * (columns + 1)) }
{
    let face = face_row(*kept.allocator(), kept.as_slice(), columns, lp.rows())?;
    kept.extend_from_slice(face.as_slice())?;
    Ok(())
}

// Appends the main row of the first dictionary to the other rows.
fn push_main_row(kept: &mut Vec<i64>, lp: &Lp, columns: u32) -> Result<(), NoMemory>
    requires columns { columns ≡ column_count lp.now }
    requires size { columns ≤ 73728 }
    requires built { IsBuilt lp.now kept.old.items }
    requires length { length kept.old.items ≡ (row_count lp.now + 1) * (columns + 1) }
    ensures built { OnOk result (IsBuilt lp.now kept.new.items) }
    ensures length { OnOk result (length kept.new.items ≡ (row_count lp.now + 2) * (columns + 1)) }
{
    let start = kept.len();
    for place in 0..lp.columns() {
        let number = -lp.cost(place);
        kept.push(number as i64)?;
    }
    push_at(kept, start + columns as usize, 0)
}

// The kept numbers of the first dictionary.
pub fn first_numbers(alloc: Global, lp: &Lp, columns: u32) -> Result<Vec<i64>, NoMemory>
    requires columns { columns ≡ column_count lp.now }
    requires size { columns ≤ 73728 }
    ensures built { IfOk result (λ kept. IsBuilt lp.now kept.items) }
    ensures length { IfOk result (λ kept. length kept.items ≡ (row_count lp.now + 2) * (columns + 1)) }
{
    let rows = lp.rows();
    let mut kept = Vec::with_capacity(alloc, (rows as usize + 2) * (columns as usize + 1))?;
    let mut slack = lp.columns();
    for row in 0..rows {
        push_program_row(&mut kept, lp, columns, slack, row)?;
        if lp.kind(row) == RowKind::AtMost {
            slack += 1;
        }
    }
    push_face_row(&mut kept, lp, columns)?;
    push_main_row(&mut kept, lp, columns)?;
    Ok(kept)
}

// The first kept place of a row whose number is above the limit.
fn wide_place(kept: &[i64], columns: u32, limit: u128, row: u32) -> Option<u32>
    requires size { columns ≤ 73728 }
    requires row { row < 8194 }
    requires length { (row + 1) * (columns + 1) ≤ length kept.now }
    ensures { MatchOption result
        (HoldsBelow (columns + 1) (λ s. IsWithin limit (number_at kept.now (row * (columns + 1) + s))))
        (IsFirstFailure (columns + 1) (λ s. IsWithin limit (number_at kept.now (row * (columns + 1) + s)))) }
{
    let start = row as usize * (columns as usize + 1);
    for place in 0..columns + 1 {
        if !is_within(i128::from(kept[start + place as usize]), limit) {
            return Some(place);
        }
    }
    None
}

// The numbers from 0 on.
pub fn numbers_to(alloc: Global, count: u32) -> Result<Vec<u32>, NoMemory>
    ensures { IfOk result (λ numbers. numbers.items ≡ list_to count (λ k. k)) }
{
    let mut numbers = Vec::new(alloc);
    for k in 0..count {
        numbers.push(k)?;
    }
    Ok(numbers)
}

// The first entry of the first dictionary that is above the limit, by row, then by column.
pub fn wide_first(kept: &[i64], columns: u32, rows: u32, limit: u128) -> Option<Entry>
    requires columns { columns ≤ 73728 }
    requires rows { rows ≤ 8192 }
    requires length { length kept.now ≡ (rows + 2) * (columns + 1) }
    ensures { MatchOption result
        ((r s : ℕ) → r < rows + 2 → s < columns + 1 → IsWithin limit (number_at kept.now (r * (columns + 1) + s)))
        (IsFirstWidePlace rows columns limit kept.now) }
{
    if are_surely_within(kept, limit) {
        return None;
    }
    for row in 0..rows + 2 {
        if let Some(place) = wide_place(kept, columns, limit, row) {
            let start = row as usize * (columns as usize + 1);
            return Some(Entry {
                row,
                column: if place < columns {
                    place
                } else {
                    columns + rows
                },
                num: i128::from(kept[start + place as usize]),
                den: 1,
            });
        }
    }
    None
}
