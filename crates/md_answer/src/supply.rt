//! What an answer about an auction sells.
ghost use Rattle.std.specs.Prelude.{◌≡◌};
ghost use Rattle.md_unit_tables.specs.Numbers.{IsUnitNumber};
ghost use Rattle.md_answer.specs.Supplies.{units_in, word_for};

use md_unit_tables::UnitNumber;

/// What is sold to the bidders of an auction.
#[derive(Clone, Copy)]
pub enum Supply {
    /// The one item of the auction.
    Item,
    /// So many identical units, of which each bidder wants one.
    Units(UnitNumber),
}

impl Supply {
    /// How many units it has: the item is one.
    pub fn units(&self) -> u32
        ensures value { result ≡ units_in self.now }
        ensures range { IsUnitNumber result }
    {
        match self {
            Supply::Item => 1,
            Supply::Units(units) => units.get(),
        }
    }

    /// The word that the first record of its answers has.
    pub(crate) fn word(&self) -> &'static str
        ensures { result.now ≡ word_for self.now }
    {
        match self {
            Supply::Item => "auction",
            Supply::Units(_) => "units",
        }
    }
}
