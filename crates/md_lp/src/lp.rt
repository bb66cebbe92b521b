//! Linear programs.
ghost use Rattle.std.specs.Prelude.{◌≡◌, ◌+◌, ◌-◌, ◌^◌, ◌<◌, ◌≤◌, ◌↔◌, ◌⊎◌, length, All, pos, slice_index_or, IfOk, IfErr, OnOk, OnErr, IsErrOf};
ghost use Rattle.md_math.specs.Sizes.{IsWithin, AllWithin};
ghost use Rattle.md_math.specs.Lists.{number_at};
ghost use Rattle.md_lp.specs.Program.{row_count, row_at, kind_at, right_at, coefficient_at, cost_at};
ghost use Rattle.md_lp.specs.Point.{row_sum, cost_sum, right_sum};
ghost use Rattle.md_lp.specs.Runs.{AreColumnSums};
ghost use Rattle.md_lp.specs.Shape.{IsShaped, IsShapedRow, HasPlaces, numbers_of};
ghost use Rattle.md_lp.specs.Stored.{shown_terms};
ghost use Rattle.md_lp.specs.Divided.{HasDividedCost, AppendsDivided};

use crate::divide::{cost_divisor, divided_numbers, divided_row};
use crate::lp_refusal::LpRefusal;
use crate::places::{has_places, value_at};
use crate::row_kind::RowKind;
use crate::sizes::{cost_is_small, row_is_small};
use crate::stored_row::StoredRow;
use crate::stored_term::{StoredTerm, term_of};
use crate::sums::{add_row, clear, sum_of_products, sum_of_terms};
use crate::term::Term;
use md_num::{Nums, add_product};
use std::alloc::Global;
use std::marker::Model;

/// A linear program: a cost over its columns that is to be as great as can be, and rows that bound sums over them.
/// Columns and rows are numbered from 0. Each row, and the cost, is divided by its greatest common divisor.
#[derive(Drop)]
pub struct Lp {
    columns: u32,
    cost: Nums,
    factor: i128,
    rows: Vec<StoredRow>,
}

impl Model for Lp {
    ghost use Rattle.std.specs.Prelude.{map};
    ghost use Rattle.md_lp.specs.Program.{Program};

    ghost Value = { Program };

    ghost use Rattle.md_lp.specs.Stored.{shown};
    ghost use Rattle.md_lp.specs.Shape.{IsShaped};

    ghost view = { λ lp. record { columns = lp.columns; cost = lp.cost; factor = lp.factor; rows = map shown lp.rows.items } };

    ghost invariant = { λ lp. IsShaped (record { columns = lp.columns; cost = lp.cost; factor = lp.factor; rows = map shown lp.rows.items }) };
}

/// How many rows a program has at most.
pub const MAX_ROWS: usize = 8192;

impl Lp {
    /// The program with this cost, divided, and no row. The cost has a number for each column.
    pub fn new(alloc: Global, columns: u32, cost: Nums) -> Result<Lp, LpRefusal>
        requires columns { columns ≤ 65536 }
        requires one_each { length cost ≡ columns }
        ensures ok { IfOk result (HasDividedCost columns cost) }

        // Only a number of the cost that exceeds 2^44 in size is refused.
        ensures magnitude { IsErrOf result LpRefusal.Magnitude ↔ ¬ AllWithin (2 ^ 44) cost }
        ensures other { IfErr result (λ refusal. (refusal ≡ LpRefusal.Magnitude) ⊎ (refusal ≡ LpRefusal.Memory)) }
    {
        if !cost_is_small(&cost) {
            return Err(LpRefusal::Magnitude);
        }
        let factor = cost_divisor(cost.as_slice());
        let divided = divided_numbers(alloc, cost.as_slice(), factor)?;
        Ok(Lp {
            columns,
            cost: divided,
            factor,
            rows: Vec::new(alloc),
        })
    }

    /// Appends the row, divided with its right side by the greatest common divisor of its numbers.
    /// A row of zeros is kept. After a refusal the program is as it was.
    pub fn push_row(&mut self, kind: RowKind, terms: &[Term], right: i128) -> Result<(), LpRefusal>
        ensures ok { OnOk result (AppendsDivided self.old self.new (record { kind = kind; terms = terms.now; right = right })) }
        ensures err { OnErr result (self.new ≡ self.old) }

        // The first of these that holds is the refusal. Memory may be wanted after them.
        ensures index { IsErrOf result LpRefusal.Index ↔ ¬ HasPlaces self.old.columns terms.now }
        ensures magnitude { IsErrOf result LpRefusal.Magnitude ↔ (HasPlaces self.old.columns terms.now × ¬ AllWithin (2 ^ 44) (numbers_of (record { kind = kind; terms = terms.now; right = right }))) }
        ensures too_many { IsErrOf result LpRefusal.TooManyRows ↔ (IsShapedRow self.old.columns (record { kind = kind; terms = terms.now; right = right }) × (row_count self.old ≡ 8192)) }
        ensures taken { OnOk result (IsShapedRow self.old.columns (record { kind = kind; terms = terms.now; right = right }) × (row_count self.old < 8192)) }
    {
        if !has_places(self.columns, terms) {
            return Err(LpRefusal::Index);
        }
        if !row_is_small(terms, right) {
            return Err(LpRefusal::Magnitude);
        }
        if self.rows.len() >= MAX_ROWS {
            return Err(LpRefusal::TooManyRows);
        }
        let row = divided_row(*self.rows.allocator(), kind, terms, right)?;
        self.rows.push(row)?;
        Ok(())
    }

    /// How many rows the program has.
    pub fn rows(&self) -> u32
        ensures value { result ≡ row_count self.now }
        ensures shaped { IsShaped self.now }
    {
        self.rows.len() as u32
    }

    /// How many columns the program has.
    pub fn columns(&self) -> u32
        ensures value { result ≡ self.now.columns }
        ensures shaped { IsShaped self.now }
    {
        self.columns
    }

    /// What a row demands of its sum.
    pub fn kind(&self, row: u32) -> RowKind
        requires { row < row_count self.now }
        ensures { result ≡ kind_at self.now row }
    {
        self.rows[row as usize].kind
    }

    /// The right side of a row, divided as the row is.
    pub fn right(&self, row: u32) -> i128
        requires { row < row_count self.now }
        ensures value { result ≡ right_at self.now row }
        ensures size { IsWithin (2 ^ 44) result }
    {
        self.rows[row as usize].right
    }

    /// How many terms a row has. They stand by ascending column; a column that has no term has the coefficient 0.
    pub fn term_count(&self, row: u32) -> u32
        requires { row < row_count self.now }
        ensures value { result ≡ length (row_at self.now row).terms }
        ensures places { HasPlaces self.now.columns (row_at self.now row).terms }
    {
        self.terms(row).len() as u32
    }

    /// The term of a row at a place, its value divided as the row is.
    pub fn term(&self, row: u32, place: u32) -> Term
        requires row { row < row_count self.now }
        requires place { place < length (row_at self.now row).terms }
        ensures value { result ≡ slice_index_or (row_at self.now row).terms place (record { column = 0; value = pos 0 }) }
        ensures column { result.column < self.now.columns }
        ensures size { IsWithin (2 ^ 44) result.value }
    {
        term_of(self.terms(row)[place as usize])
    }

    // The terms of a row as they are kept.
    fn terms(&self, row: u32) -> &[StoredTerm]
        requires { row < row_count self.now }
        ensures value { shown_terms result.now ≡ (row_at self.now row).terms }
        ensures places { HasPlaces self.now.columns (shown_terms result.now) }
        ensures sizes { All (λ term. IsWithin (2 ^ 44) term.value) (shown_terms result.now) }
        ensures shaped { IsShaped self.now }
    {
        self.rows[row as usize].terms.as_slice()
    }

    /// The coefficient of a row at a column, divided: 0 where the row has no term there.
    pub fn coefficient(&self, row: u32, column: u32) -> i128
        requires row { row < row_count self.now }
        requires column { column < self.now.columns }
        ensures value { result ≡ coefficient_at self.now row column }
        ensures size { IsWithin (2 ^ 44) result }
    {
        value_at(self.terms(row), column)
    }

    /// The cost of a column, divided.
    pub fn cost(&self, column: u32) -> i128
        requires { column < self.now.columns }
        ensures value { result ≡ cost_at self.now column }
        ensures size { IsWithin (2 ^ 44) result }
    {
        self.cost.get(column as usize)
    }

    /// The number by which the cost was divided: 1 where the cost is all 0.
    pub fn cost_factor(&self) -> i128
        ensures value { result ≡ self.now.factor }
        ensures shaped { IsShaped self.now }
    {
        self.factor
    }

    /// The sum of a row's coefficients, each times the number of its column.
    pub fn row_sum(&self, row: u32, numbers: &Nums) -> i128
        requires row { row < row_count self.now }
        requires one_each { length numbers.now ≡ self.now.columns }
        requires sizes { AllWithin (2 ^ 62 - 1) numbers.now }
        ensures value { result ≡ row_sum self.now (number_at numbers.now) row }
        ensures size { IsWithin (2 ^ 122) result }
    {
        sum_of_terms(self.terms(row), numbers)
    }

    /// The sum of the costs, each times the number of its column.
    pub fn cost_sum(&self, numbers: &Nums) -> i128
        requires one_each { length numbers.now ≡ self.now.columns }
        requires sizes { AllWithin (2 ^ 62 - 1) numbers.now }
        ensures value { result ≡ cost_sum self.now (number_at numbers.now) }
        ensures size { IsWithin (2 ^ 122) result }
    {
        sum_of_products(&self.cost, numbers)
    }

    /// The sum of the right sides, each times the number of its row.
    pub fn right_sum(&self, numbers: &Nums) -> i128
        requires one_each { length numbers.now ≡ row_count self.now }
        requires sizes { AllWithin (2 ^ 62 - 1) numbers.now }
        ensures value { result ≡ right_sum self.now (number_at numbers.now) }
        ensures size { IsWithin (2 ^ 119) result }
    {
        let mut sum = 0;
        for row in 0..self.rows() {
            sum = add_product(sum, self.right(row), numbers.get(row as usize));
        }
        sum
    }

    /// The sums of the coefficients of the columns from `first` on, one for each place of `sums`,
    /// each coefficient times the number of its row.
    pub fn column_sums(&self, first: u32, numbers: &Nums, sums: &mut [i128])
        requires run { first + length sums.old ≤ self.now.columns }
        requires one_each { length numbers.now ≡ row_count self.now }
        requires sizes { AllWithin (2 ^ 62 - 1) numbers.now }
        ensures value { AreColumnSums self.now numbers.now first sums.new }
        ensures size { AllWithin (2 ^ 119) sums.new }
    {
        clear(sums);
        for row in 0..self.rows() {
            add_row(
                self.terms(row),
                first,
                numbers.as_slice(),
                row as usize,
                sums,
            );
        }
    }
}
