//! Columns with their numbers, where those are not 0.
ghost use Rattle.std.specs.Prelude.{◌≡◌, ◌<◌, ◌++◌, ◌∷◌, [], ◌↔◌, pos, IfOk, IsTrue};
ghost use Rattle.md_num.specs.WholeText.{text_of};
ghost use Rattle.md_lp.specs.Program.{row_count, coefficient_at, cost_at};
ghost use Rattle.md_cli_lp.specs.ProgramTexts.{pair_of, pairs_of};

use md_lp::Lp;
use md_num::NoMemory;
use md_records::Row;

fn is_zero(number: i128) -> bool
    ensures { IsTrue result ↔ (number ≡ pos 0) }
{
    number == 0
}

// A record with two numbers at its end.
fn with_two(fields: Row, column: u32, number: i128) -> Result<Row, NoMemory>
    ensures { IfOk result (λ row. row ≡ fields ++ text_of (pos column) ∷ text_of number ∷ []) }
{
    let named = fields.with_number(i128::from(column))?;
    let numbered = named.with_number(number)?;
    Ok(numbered)
}

// A record with a column and its number at its end, where that is not 0.
fn with_pair(fields: Row, column: u32, number: i128) -> Result<Row, NoMemory>
    ensures { IfOk result (λ row. row ≡ fields ++ pair_of column number) }
{
    if is_zero(number) {
        return Ok(fields);
    }
    let filled = with_two(fields, column, number)?;
    Ok(filled)
}

/// A record with the terms of a row at its end.
pub(crate) fn with_terms(fields: Row, lp: &Lp, row: u32) -> Result<Row, NoMemory>
    requires { row < row_count lp.now }
    ensures { IfOk result (λ filled. filled ≡ fields ++ pairs_of (lp.now).columns (coefficient_at lp.now row)) }
{
    let mut filled = fields;
    for place in 0..lp.term_count(row) {
        let term = lp.term(row, place);
        filled = with_pair(filled, term.column, term.value)?;
    }
    Ok(filled)
}

/// A record with the costs of a program at its end.
pub(crate) fn with_costs(fields: Row, lp: &Lp) -> Result<Row, NoMemory>
    ensures { IfOk result (λ row. row ≡ fields ++ pairs_of (lp.now).columns (cost_at lp.now)) }
{
    let mut filled = fields;
    for column in 0..lp.columns() {
        filled = with_pair(filled, column, lp.cost(column))?;
    }
    Ok(filled)
}
