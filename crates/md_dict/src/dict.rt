//! The dictionary of a basis, as its callers see it.
ghost use Rattle.std.specs.Prelude.{◌≡◌, ℕ, ◌+◌, ◌*◌, ◌^◌, ◌<◌, ◌≤◌, ℤ, pos, ◌<ℤ◌, ◌≤ℤ◌, ◌*ℤ◌, ◌⊎◌, length, ◌↔◌, int_div, IfErr, IfNone, IfOk, IfSome, IsTrue, OnOk, OnErr, slice_index, ◌==◌, if◌then◌else◌, unsigned_abs};
ghost use Rattle.md_num.specs.Limits.{limit_of};
ghost use Rattle.md_math.specs.Lists.{number_at};
ghost use Rattle.md_math.specs.Sizes.{AllWithin, IsWithin};
ghost use Rattle.md_lp.specs.Program.{Program};
ghost use Rattle.md_dict.specs.Dictionary.{IsDictionary};
ghost use Rattle.md_dict.specs.Pivot.{with_column};
ghost use Rattle.md_dict.specs.Wide.{IsFirstWide, IsNarrow, IsWideBasis};
ghost use Rattle.md_dict.specs.FirstTable.{first_entry};

use crate::draft::Draft;
use crate::first::{first_columns, first_numbers, numbers_to, wide_first};
use crate::refusals::{StartRefusal, TooWide};
use crate::renewal::{fill, renew};
use crate::rows::Rows;
use crate::sizes::greatest_product;
use crate::step::{Step, basic_number};
use crate::wide::first_wide;
use md_dict_rows::Witnesses;
use md_lp::{Entry, Lp};
use md_num::Width;
use std::alloc::Global;
use std::marker::Model;

/// The dictionary of a basis of a linear program with m rows and n program and slack columns: whole numbers over one denominator, in least terms.
/// Its rows are the program rows, then the face row m and the main row m + 1. Its columns are the program and slack columns, then the start columns n to n + m - 1, and the right side n + m.
/// No number exceeds the limit of the width in size.
#[derive(Drop)]
pub struct Dict {
    rows: u32,
    columns: u32,
    width: Width,
    den: i128,
    order: Vec<u32>,
    seat: Vec<u32>,
    table: Rows,
    draft: Draft,
    witnesses: Witnesses,
}

// A dictionary is seen by its basis and the numbers that it keeps over its denominator, which is the least common multiple of its rows' denominators. The draft is where a pivot notes what it needs of the rows as they were. The witnesses are where the next pivot looks for divisors first.
impl Model for Dict {
    ghost use Rattle.std.specs.Prelude.{◌≡◌, ◌+◌, pos};
    ghost use Rattle.md_num.specs.Limits.{limit_of};
    ghost use Rattle.md_dict.specs.Condensed.{Condensed, IsShapedDictionary};
    ghost use Rattle.md_dict.specs.Rows.{HasRows, kept_of};
    ghost use Rattle.md_dict.specs.RowStep.{IsDraft};

    ghost Value = { Condensed };

    ghost view = { λ d. record { rows = d.rows; columns = d.columns; bits = d.width; den = d.den; order = d.order.items; seat = d.seat.items; kept = kept_of (d.rows + 2) d.table } };

    ghost invariant = { λ d. IsShapedDictionary (record { rows = d.rows; columns = d.columns; bits = d.width; den = d.den; order = d.order.items; seat = d.seat.items; kept = kept_of (d.rows + 2) d.table }) × HasRows d.rows d.columns d.den d.table × IsDraft (d.rows + 2) (d.columns + 1) d.draft };
}

impl Dict {
    ghost use Rattle.md_dict.specs.Condensed.{Holds, IsGreatestSize, IsShapedDictionary, KeepsEachOnce, TakesColumn, basic_at, entry_at, kept_column_at, kept_number, place_column};
    ghost use Rattle.md_dict.specs.Start.{IsRefused, IsStart};
    ghost use Rattle.md_dict.specs.Step.{new_entry};
    ghost use Rattle.md_dict.specs.Exchange.{IsExchange, IsWideStep, AreWritten, exchanged, step_of};

    /// The dictionary of the first basis, which has the start columns in row order.
    /// It is refused where it has an entry above the width's limit in size, and where memory ran out.
    pub fn start(alloc: Global, lp: &Lp, width: Width) -> Result<Dict, StartRefusal>
        ensures ok { IfOk result (IsStart lp.now width) }
        ensures narrow { IfOk result (λ d. IsNarrow d.rows d.columns (limit_of width) (entry_at d)) }
        ensures refused { IfErr result (IsRefused lp.now width) }
    {
        let rows = lp.rows();
        let columns = first_columns(lp);
        let Ok(numbers) = first_numbers(alloc, lp, columns) else {
            return Err(StartRefusal::Memory);
        };
        let limit = width.limit().unsigned_abs();
        if let Some(entry) = wide_first(numbers.as_slice(), columns, rows, limit) {
            return Err(StartRefusal::TooWide(entry));
        }
        let Ok(order) = numbers_to(alloc, columns + rows) else {
            return Err(StartRefusal::Memory);
        };
        let Ok(seat) = numbers_to(alloc, columns + rows) else {
            return Err(StartRefusal::Memory);
        };
        let stride = columns as usize + 1;
        let Ok(draft) = Draft::new(alloc, rows as usize + 2, stride) else {
            return Err(StartRefusal::Memory);
        };
        let Ok(table) = Rows::whole(alloc, rows as usize + 2, stride, numbers) else {
            return Err(StartRefusal::Memory);
        };
        Ok(Dict {
            rows,
            columns,
            width,
            den: 1,
            order,
            seat,
            table,
            draft,
            witnesses: Witnesses::new(),
        })
    }

    /// The number of program rows.
    pub fn rows(&self) -> u32
        ensures value { result ≡ self.now.rows }
        ensures shape { IsShapedDictionary self.now }
    {
        self.rows
    }

    /// The number of program and slack columns.
    pub fn columns(&self) -> u32
        ensures value { result ≡ self.now.columns }
        ensures shape { IsShapedDictionary self.now }
    {
        self.columns
    }

    /// The denominator of all entries.
    pub fn den(&self) -> i128
        ensures value { result ≡ self.now.den }
        ensures positive { pos 0 <ℤ result }
        ensures size { IsWithin (limit_of self.now.bits) result }

        // A basis has at most one dictionary, also where it is wide.
        ensures only { (p : Program) (den : ℤ) (e : ℕ → ℕ → ℤ) → Holds p self.now → IsDictionary self.now.rows self.now.columns (first_entry p) (basic_at self.now) den e → den ≡ result }
        ensures unique { (m n : ℕ) (t : ℕ → ℕ → ℤ) (basis : ℕ → ℕ) (den other : ℤ) (e f : ℕ → ℕ → ℤ) → IsDictionary m n t basis den e → IsDictionary m n t basis other f → den ≡ other }
    {
        self.den
    }

    /// The basic column of a program row.
    pub fn basic(&self, row: u32) -> u32
        requires { row < self.now.rows }
        ensures value { result ≡ basic_at self.now row }
        ensures range { result < self.now.columns + self.now.rows }
    {
        self.order[self.columns as usize + row as usize]
    }

    /// The column at a kept place. Over all places it is each column that is not basic exactly once.
    pub fn kept_column(&self, place: u32) -> u32
        requires { place < self.now.columns }
        ensures value { result ≡ kept_column_at self.now place }
        ensures range { result < self.now.columns + self.now.rows }
        ensures each_once { KeepsEachOnce self.now }
    {
        self.order[place as usize]
    }

    /// The number at a row and a kept place, over the denominator of all entries. At the place after the last is the right side.
    pub fn kept(&self, row: u32, place: u32) -> i128
        requires row_in { row < self.now.rows + 2 }
        requires place_in { place < self.now.columns + 1 }
        ensures value { result ≡ kept_number self.now row place }
        ensures entry { result ≡ entry_at self.now row (place_column self.now place) }
        ensures size { IsWithin (limit_of self.now.bits) result }
    {
        self.table.number(row as usize, place as usize)
    }

    /// The entry at a row and a column of the whole dictionary.
    pub fn entry(&self, row: u32, column: u32) -> i128
        requires row_in { row < self.now.rows + 2 }
        requires column_in { column < self.now.columns + self.now.rows + 1 }
        ensures value { result ≡ entry_at self.now row column }
        ensures size { IsWithin (limit_of self.now.bits) result }

        // A basis has at most one dictionary, also where it is wide.
        ensures only { (p : Program) (den : ℤ) (e : ℕ → ℕ → ℤ) → Holds p self.now → IsDictionary self.now.rows self.now.columns (first_entry p) (basic_at self.now) den e → e row column ≡ entry_at self.now row column }
        ensures unique { (m n : ℕ) (t : ℕ → ℕ → ℤ) (basis : ℕ → ℕ) (den other : ℤ) (e f : ℕ → ℕ → ℤ) → IsDictionary m n t basis den e → IsDictionary m n t basis other f → (r j : ℕ) → r < m + 2 → j < n + m + 1 → e r j ≡ f r j }
    {
        if column >= self.columns + self.rows {
            return self.kept(row, self.columns);
        }
        let place = self.seat[column as usize];
        if place < self.columns {
            return self.kept(row, place);
        }
        basic_number(
            self.rows as usize,
            self.columns as usize,
            self.den,
            (place - self.columns) as usize,
            column as usize,
            row as usize,
        )
    }

    /// The greatest size of an entry.
    pub fn greatest(&self) -> i128
        ensures nonneg { pos 0 ≤ℤ result }
        ensures greatest { IsGreatestSize self.now (unsigned_abs result) }
    {
        greatest_product(
            self.table.sizes.as_slice(),
            self.table.shares.as_slice(),
            least_size(self.rows, self.den),
        )
    }

    /// Makes a program or slack column basic at a row where its entry is positive.
    /// Where the new basis has an entry above the width's limit, the first such entry is answered, and the dictionary stays as it was.
    pub fn pivot(&mut self, row: u32, column: u32) -> Result<(), TooWide>
        requires row_in { row < self.old.rows }
        requires column_in { column < self.old.columns }
        requires positive { pos 0 <ℤ entry_at self.old row column }

        // For each program of which this was the dictionary of a basis, it is now the dictionary of the new basis.
        ensures dictionary { OnOk result ((p : Program) → Holds p self.old → Holds p self.new) }
        ensures basis { OnOk result (TakesColumn self.old self.new row column) }
        ensures narrow { OnOk result (IsNarrow self.new.rows self.new.columns (limit_of self.new.bits) (entry_at self.new)) }

        // The new basis is wide.
        ensures too_wide { IfErr result (λ refusal. (p : Program) → Holds p self.old → IsWideBasis self.old.rows self.old.columns (first_entry p) (with_column (basic_at self.old) row column) (limit_of self.old.bits) refusal.entry) }
        ensures err { OnErr result (self.new ≡ self.old) }
    {
        if self.is_basic(column) {
            return Ok(());
        }
        let step = self.plain_step(row, column);
        if let Err(divided) = self.exchange(&step) {
            return Err(TooWide {
                entry: self.first_wide(&divided),
            });
        }
        Ok(())
    }

    // Whether a column is basic.
    fn is_basic(&self, column: u32) -> bool
        requires { column < self.now.columns }
        ensures basic { IsTrue result ↔ (self.now.columns ≤ slice_index self.now.seat column) }
        ensures shape { IsShapedDictionary self.now }
    {
        self.seat[column as usize] >= self.columns
    }

    // The step of a pivot, before its divisor is known.
    fn plain_step(&self, row: u32, column: u32) -> Step
        requires { IsExchange self.now row column }
        ensures { result ≡ step_of self.now row column (pos 1) }
    {
        let columns = self.columns as usize;
        let place = self.seat[column as usize];
        Step {
            rows: self.rows as usize,
            columns,
            row: row as usize,
            place: place as usize,
            entering: column as usize,
            leaving: self.order[columns + row as usize] as usize,
            pivot: self.kept(row, place),
            den: self.den,
            limit: self.width.limit().unsigned_abs(),
            divisor: 1,
        }
    }

    // The first entry after a pivot that is above the limit, where the new basis is wide.
    fn first_wide(&self, divided: &Step) -> Entry
        requires exchange { IsExchange self.now divided.now.row divided.now.entering }
        requires wide { IsWideStep self.now divided.now.row divided.now.entering divided.now }
        ensures { IsFirstWide self.now.rows self.now.columns (limit_of self.now.bits) (int_div (divided.now.den *ℤ divided.now.pivot) divided.now.divisor) (new_entry divided.now self.now.kept self.now.seat divided.now.divisor) result }
    {
        first_wide(divided, &self.table, self.seat.as_slice())
    }

    // Makes of the dictionary what a pivot makes of it, where no entry is then above the limit, and answers the number by which all was divided; else the step with that number.
    fn exchange(&mut self, step: &Step) -> Result<i128, Step>
        requires exchange { IsExchange self.old step.now.row step.now.entering }
        requires step { step.now ≡ step_of self.old step.now.row step.now.entering (pos 1) }
        ensures new { IfOk result (λ divisor. self.new ≡ exchanged self.old step.now.row step.now.entering divisor self.new.kept) }
        ensures written { IfOk result (λ divisor. AreWritten self.old step.now.row step.now.entering divisor self.new.kept) }
        ensures wide { IfErr result (λ divided. IsWideStep self.old step.now.row step.now.entering divided) }
        ensures stays { IfErr result (λ _. self.new ≡ self.old) }
    {
        let filled = fill(step, &mut self.table, &mut self.draft, &mut self.witnesses);
        let divided = step.over(filled.den);
        if !renew(step, &mut self.table, &mut self.draft, &filled) {
            return Err(divided);
        }
        self.order[step.place] = step.leaving as u32;
        self.order[step.columns + step.row] = step.entering as u32;
        self.seat[step.entering] = (step.columns + step.row) as u32;
        self.seat[step.leaving] = step.place as u32;
        self.den = filled.den;
        Ok(divided.divisor)
    }
}

// The size that the basic columns have, if there are any.
fn least_size(rows: u32, den: i128) -> i128
    ensures { result ≡ (if rows == 0 then pos 0 else den) }
{
    if rows == 0 { 0 } else { den }
}
