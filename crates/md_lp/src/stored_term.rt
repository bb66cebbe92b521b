//! A term as a row keeps it, in one number.
ghost use Rattle.std.specs.Prelude.{◌≡◌, ◌^◌, ◌<◌};
ghost use Rattle.md_math.specs.Sizes.{IsWithin};
ghost use Rattle.md_lp.specs.Stored.{kept_column, kept_value, shown_term};

use crate::term::Term;

// A term as it is kept, in 8 bytes: the lowest 16 bits are its column, and the 48 above them its value.
#[derive(Clone, Copy)]
pub struct StoredTerm {
    packed: u64,
}

impl StoredTerm {
    // The column of the term.
    #[inline]
    #[tactic(auto, unfolding(crate::specs::Stored::kept_column))]
    pub fn column(&self) -> u32
        ensures { result ≡ kept_column self.now }
    {
        (self.packed % 65536) as u32
    }

    // The value of the term.
    #[inline]
    #[tactic(auto, unfolding(crate::specs::Stored::kept_value))]
    pub fn value(&self) -> i64
        ensures { result ≡ kept_value self.now }
    {
        self.packed.cast_signed() >> 16
    }
}

// A term in the form in which it is kept.
pub fn stored_term(column: u32, value: i128) -> StoredTerm
    requires column { column < 65536 }
    requires value { IsWithin (2 ^ 44) value }
    ensures { shown_term result ≡ record { column = column; value = value } }
{
    let packed = value as i64 * 65536 + i64::from(column);
    StoredTerm {
        packed: packed.cast_unsigned(),
    }
}

// A term that is kept.
pub fn term_of(stored: StoredTerm) -> Term
    ensures { result ≡ shown_term stored }
{
    Term {
        column: stored.column(),
        value: i128::from(stored.value()),
    }
}
