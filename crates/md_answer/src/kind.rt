//! Which answer a file holds.
ghost use Rattle.std.specs.Prelude.{◌≡◌, map};
ghost use Rattle.md_answer.specs.Kinds.{word_of, kind_of, answer_words};

/// The kinds of answers about a setting.
#[derive(Clone, Copy)]
pub(crate) enum Kind {
    /// A mechanism, of which nothing is claimed.
    Table,
    /// A best mechanism.
    Optimal,
    /// That there is no mechanism.
    Infeasible,
    /// That mechanisms gain without end.
    Unbounded,
    /// That a number on the way grew too wide.
    TooWide,
}

/// The words of all kinds, in their order.
pub(crate) fn answer_words() -> [&'static str; 5]
    ensures { map (λ w. w.now) result ≡ answer_words }
{
    ["table", "optimal", "infeasible", "unbounded", "toowide"]
}

impl Kind {
    /// The word that names it.
    pub(crate) fn word(self) -> &'static str
        ensures { result.now ≡ word_of self }
    {
        match self {
            Kind::Table => "table",
            Kind::Optimal => "optimal",
            Kind::Infeasible => "infeasible",
            Kind::Unbounded => "unbounded",
            Kind::TooWide => "toowide",
        }
    }

    /// The kind whose word stands at a place.
    pub(crate) fn at(place: usize) -> Kind
        ensures { result ≡ kind_of place }
    {
        match place {
            0 => Kind::Table,
            1 => Kind::Optimal,
            2 => Kind::Infeasible,
            3 => Kind::Unbounded,
            _ => Kind::TooWide,
        }
    }
}
