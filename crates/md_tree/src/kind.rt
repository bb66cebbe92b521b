//! Which answer the first record of a file names.
ghost use Rattle.std.specs.Prelude.{◌≡◌, map};
ghost use Rattle.md_tree.specs.Kinds.{word_of, kind_of, answer_words};

/// The kinds of answers about deterministic mechanisms.
#[derive(Clone, Copy)]
pub(crate) enum Kind {
    /// A best mechanism.
    Optimal,
    /// That there is no mechanism.
    Infeasible,
    /// That mechanisms gain without end.
    Unbounded,
    /// That a number on the way grew too wide.
    TooWide,
}

/// The words of all kinds, in their order.
pub(crate) fn answer_words() -> [&'static str; 4]
    ensures { map (λ w. w.now) result ≡ answer_words }
{
    ["optimal", "infeasible", "unbounded", "toowide"]
}

impl Kind {
    /// The word that names it.
    pub(crate) fn word(self) -> &'static str
        ensures { result.now ≡ word_of self }
    {
        match self {
            Kind::Optimal => "optimal",
            Kind::Infeasible => "infeasible",
            Kind::Unbounded => "unbounded",
            Kind::TooWide => "toowide",
        }
    }

    /// The kind whose word stands at a place.
    pub(crate) fn at(place: usize) -> Kind
        ensures { result ≡ kind_of place }
    {
        match place {
            0 => Kind::Optimal,
            1 => Kind::Infeasible,
            2 => Kind::Unbounded,
            _ => Kind::TooWide,
        }
    }
}
