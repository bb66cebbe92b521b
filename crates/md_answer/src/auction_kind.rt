//! Which answer about an auction a file holds.
ghost use Rattle.std.specs.Prelude.{◌≡◌, map};
ghost use Rattle.md_answer.specs.AuctionKinds.{word_of, kind_of, auction_words};

/// The kinds of answers about an auction.
#[derive(Clone, Copy)]
pub(crate) enum AuctionKind {
    /// Best odds and payments.
    Optimal,
    /// That a number on the way grew too wide.
    TooWide,
}

/// The words of all kinds, in their order.
pub(crate) fn auction_words() -> [&'static str; 2]
    ensures { map (λ w. w.now) result ≡ auction_words }
{
    ["optimal", "toowide"]
}

impl AuctionKind {
    /// The word that names it.
    pub(crate) fn word(self) -> &'static str
        ensures { result.now ≡ word_of self }
    {
        match self {
            AuctionKind::Optimal => "optimal",
            AuctionKind::TooWide => "toowide",
        }
    }

    /// The kind whose word stands at a place.
    pub(crate) fn at(place: usize) -> AuctionKind
        ensures { result ≡ kind_of place }
    {
        match place {
            0 => AuctionKind::Optimal,
            _ => AuctionKind::TooWide,
        }
    }
}
