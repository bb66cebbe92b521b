//! Where the terms of a row stand.
ghost use Rattle.std.specs.Prelude.{◌≡◌, ◌^◌, ◌<◌, ◌↔◌, length, IsTrue, IfOk, IfErr, All};
ghost use Rattle.md_math.specs.Sizes.{IsWithin};
ghost use Rattle.md_lp.specs.Program.{value_of};
ghost use Rattle.md_lp.specs.Shape.{IsAscending, HasPlaces, column_in};
ghost use Rattle.md_lp.specs.Search.{IsGapFor, StartsFrom};
ghost use Rattle.md_lp.specs.Stored.{shown_terms};

use crate::stored_term::StoredTerm;
use crate::term::Term;

// Whether the terms stand at columns of a program, in strictly ascending order.
pub fn has_places(columns: u32, terms: &[Term]) -> bool
    ensures { IsTrue result ↔ HasPlaces columns terms.now }
{
    let mut least = 0;
    for term in terms {
        if term.column < least || term.column >= columns {
            return false;
        }
        least = term.column + 1;
    }
    true
}

// Where the term of a column is, or where it would go.
pub fn place_of(terms: &[StoredTerm], column: u32) -> Result<usize, usize>
    requires { IsAscending (shown_terms terms.now) }
    ensures found { IfOk result (λ at. (at < length terms.now) × (column_in (shown_terms terms.now) at ≡ column)) }
    ensures absent { IfErr result (IsGapFor (shown_terms terms.now) column) }
{
    terms.binary_search_by_key(&column, |term| term.column())
}

// The terms from a column on.
pub fn from_column(terms: &[StoredTerm], first: u32) -> &[StoredTerm]
    requires { IsAscending (shown_terms terms.now) }
    ensures { StartsFrom (shown_terms terms.now) first (shown_terms result.now) }
{
    if first == 0 {
        return terms;
    }
    match place_of(terms, first) {
        Ok(at) | Err(at) => &terms[at..],
    }
}

// The coefficient at a column.
pub fn value_at(terms: &[StoredTerm], column: u32) -> i128
    requires ascending { IsAscending (shown_terms terms.now) }
    requires values { All (λ term. IsWithin (2 ^ 44) term.value) (shown_terms terms.now) }
    ensures { result ≡ value_of (shown_terms terms.now) column }
{
    match place_of(terms, column) {
        Ok(at) => i128::from(terms[at].value()),
        Err(_) => 0,
    }
}
