//! What records of conditions are about.
ghost use Rattle.std.specs.Prelude.{◌≡◌};
ghost use Rattle.md_conditions_text.specs.Kinds.{kind_by, kind_in, kind_of, measure_count, payment_by, word_of};

use md_records::Record;
use md_require::Measured;

/// What a record of a condition is about.
#[derive(Clone, Copy)]
pub(crate) enum Kind {
    /// What all agents pay.
    Revenue,
    /// What the outcome is worth to all agents.
    Welfare,
    /// What an agent gets, its payments taken off.
    Utility,
    /// How often an outcome comes.
    Chance,
    /// How often an outcome comes at a profile.
    ChanceAt,
    /// What an agent pays.
    Payment,
    /// What a type of an agent pays.
    PaymentAs,
}

impl Kind {
    /// The word that its records begin with.
    pub(crate) fn word(self) -> &'static str
        ensures { result.now ≡ word_of self }
    {
        match self {
            Kind::Revenue => "revenue",
            Kind::Welfare => "welfare",
            Kind::Utility => "utility",
            Kind::Chance => "chance",
            Kind::ChanceAt => "at",
            Kind::Payment | Kind::PaymentAs => "pay",
        }
    }

    /// How many fields of its records say what is measured.
    pub(crate) fn measures(self) -> usize
        ensures { result ≡ measure_count self }
    {
        match self {
            Kind::Revenue | Kind::Welfare => 0,
            Kind::Utility | Kind::Chance | Kind::Payment => 1,
            Kind::ChanceAt | Kind::PaymentAs => 2,
        }
    }

    /// The kind of the records of a measure.
    pub(crate) fn of(measured: Measured) -> Kind
        ensures { result ≡ kind_in measured }
    {
        match measured {
            Measured::Revenue => Kind::Revenue,
            Measured::Welfare => Kind::Welfare,
            Measured::Utility { .. } => Kind::Utility,
            Measured::Chance { .. } => Kind::Chance,
            Measured::ChanceAt { .. } => Kind::ChanceAt,
            Measured::Payment { .. } => Kind::Payment,
            Measured::PaymentAs { .. } => Kind::PaymentAs,
        }
    }
}

/// The kind of a record, if it is one of a condition.
pub(crate) fn kind_of(row: &Record) -> Option<Kind>
    ensures { result ≡ kind_of row.now }
{
    match row.get(0) {
        Some(word) => kind_by(word, row.len() - 1),
        None => None,
    }
}

// The kind of a record that begins with a word and has so many fields behind it.
fn kind_by(word: &[u8], count: usize) -> Option<Kind>
    ensures { result ≡ kind_by word.now count }
{
    if word == "revenue".as_bytes() {
        Some(Kind::Revenue)
    } else if word == "welfare".as_bytes() {
        Some(Kind::Welfare)
    } else if word == "utility".as_bytes() {
        Some(Kind::Utility)
    } else if word == "chance".as_bytes() {
        Some(Kind::Chance)
    } else if word == "at".as_bytes() {
        Some(Kind::ChanceAt)
    } else if word == "pay".as_bytes() {
        Some(payment_by(count))
    } else {
        None
    }
}

// What a record about payments is about, where it has so many fields behind its word.
fn payment_by(count: usize) -> Kind
    ensures { result ≡ payment_by count }
{
    if count == 5 {
        Kind::PaymentAs
    } else {
        Kind::Payment
    }
}
