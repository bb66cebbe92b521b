//! How many lists of counts there are.
ghost use Rattle.std.specs.Prelude.{◌≡◌, ◌+◌, ◌-◌, ◌<◌, ◌≤◌, length};
ghost use Rattle.md_setting.specs.CountLists.{count_lists};
ghost use Rattle.md_counts.specs.Ranks.{lists_before};

use std::marker::Model;

// The numbers of bidders, and of kinds, from 0 to 12.
const NUMBERS: usize = 13;

const PLACES: usize = NUMBERS * NUMBERS;

/// The number of lists of counts for each number of kinds and of bidders up to 12.
#[derive(Drop)]
pub(crate) struct Ways {
    table: [u32; 169],
}

impl Model for Ways {
    ghost use Rattle.std.specs.Prelude.{List, ℕ};
    ghost use Rattle.md_counts.specs.Ways.{HasWays};

    ghost Value = { List ℕ };

    ghost view = { λ ways. ways.table };

    ghost invariant = { λ ways. HasWays ways.table 169 };
}

impl Ways {
    /// The table, row by row: without kinds there is a list for no bidder alone; one more kind has no bidder, or one
    /// bidder more than in a list of one bidder less.
    pub(crate) fn new() -> Ways {
        let mut table = [0u32; 169];
        table[0] = 1;
        for place in NUMBERS..PLACES {
            table[place] = if place % NUMBERS == 0 {
                1
            } else {
                table[place - 1] + table[place - NUMBERS]
            };
        }
        Ways { table }
    }

    /// The number of lists of so many bidders over so many kinds.
    pub(crate) fn lists(&self, bidders: u32, kinds: u32) -> u32
        requires bidders { bidders ≤ 12 }
        requires kinds { kinds ≤ 12 }
        ensures { result ≡ length (count_lists bidders kinds) }
    {
        self.table[kinds as usize * NUMBERS + bidders as usize]
    }

    /// How many lists of so many bidders over one kind and some others have a smaller first count.
    pub(crate) fn before(&self, bidders: u32, others: u32, first: u32) -> u32
        requires bidders { bidders ≤ 12 }
        requires others { others < 12 }
        requires first { first ≤ bidders }
        ensures { result ≡ lists_before bidders others first }
    {
        self.lists(bidders, others + 1) - self.lists(bidders - first, others + 1)
    }

    /// The first count of the list at a rank, of so many bidders over one kind and some others.
    pub(crate) fn first_at(&self, bidders: u32, others: u32, rank: u32) -> u32
        requires bidders { bidders ≤ 12 }
        requires others { others < 12 }
        requires rank_in { rank < length (count_lists bidders (others + 1)) }
        ensures few { result ≤ bidders }
        ensures from { lists_before bidders others result ≤ rank }
        ensures below { rank < lists_before bidders others (result + 1) }
    {
        for first in 0..bidders {
            if rank < self.before(bidders, others, first + 1) {
                return first;
            }
        }
        bidders
    }
}
