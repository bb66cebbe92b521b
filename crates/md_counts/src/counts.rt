//! The lists of counts, kept one after another.
ghost use Rattle.std.specs.Prelude.{◌≡◌, ◌^◌, ◌<◌, ◌≤◌, ◌++◌, length, slice_index, IfOk, Err};
ghost use Rattle.std.specs.List.{sum};
ghost use Rattle.md_setting.specs.Auction.{total_weight, value_count};
ghost use Rattle.md_setting.specs.AuctionShaped.{IsAuction};
ghost use Rattle.md_setting.specs.CountLists.{count_lists};
ghost use Rattle.md_counts.specs.Counts.{list_count, counts_at, AreFew, AreCounts};
ghost use Rattle.md_counts.specs.Kept.{table_to};
ghost use Rattle.md_counts.specs.Weights.{weight_of_counts};

use crate::CountsRefusal;
use crate::ways::Ways;
use crate::weights::weight_of;
use md_num::NoMemory;
use md_setting::Auction;
use std::alloc::Global;
use std::marker::Model;

/// The most lists of counts.
const MAX_LISTS: u32 = 20_000;

/// The lists of counts of so many bidders with so many kinds of values, in ascending lexicographic order.
#[derive(Drop)]
pub struct Counts {
    bidders: u32,
    kinds: u32,
    lists: u32,
    ways: Ways,
    // the lists one after another
    table: Vec<u8>,
}

impl Model for Counts {
    ghost use Rattle.md_counts.specs.Counts.{CountsOf};
    ghost use Rattle.md_counts.specs.Kept.{AreKept};

    ghost Value = { CountsOf };

    ghost view = { λ c. record { bidders = c.bidders; kinds = c.kinds } };

    ghost invariant = { λ c. AreKept (record { bidders = c.bidders; kinds = c.kinds }) c.lists c.table.items };
}

impl Counts {
    /// The lists of so many bidders with so many kinds of values, unless there are more than 20,000.
    pub fn new(alloc: Global, bidders: u32, kinds: u32) -> Result<Counts, CountsRefusal>
        requires some_bidder { 1 ≤ bidders }
        requires few_bidders { bidders ≤ 12 }
        requires some_kind { 1 ≤ kinds }
        requires few_kinds { kinds ≤ 12 }
        ensures ok { IfOk result (λ counts. counts ≡ record { bidders = bidders; kinds = kinds }) }
        ensures few { IfOk result (λ _. length (count_lists bidders kinds) ≤ 20000) }

        // Memory is asked for once the number of lists is found small.
        ensures many { result ≡ Err CountsRefusal.TooManyCounts → 20000 < length (count_lists bidders kinds) }
        ensures memory { result ≡ Err CountsRefusal.Memory → length (count_lists bidders kinds) ≤ 20000 }
    {
        let ways = Ways::new();
        let lists = ways.lists(bidders, kinds);
        if lists > MAX_LISTS {
            return Err(CountsRefusal::TooManyCounts);
        }
        let Ok(table) = table_of(alloc, &ways, bidders, kinds, lists) else {
            return Err(CountsRefusal::Memory);
        };
        Ok(Counts {
            bidders,
            kinds,
            lists,
            ways,
            table,
        })
    }

    /// The lists of counts of an auction, of which there are never too many.
    pub fn of(alloc: Global, auction: &Auction) -> Result<Counts, NoMemory>
        ensures ok { IfOk result (λ counts. counts ≡ record { bidders = auction.now.bidders; kinds = value_count auction.now }) }
        ensures shaped { IsAuction auction.now }
    {
        match Counts::new(alloc, auction.bidders(), auction.kinds()) {
            Ok(counts) => Ok(counts),
            Err(CountsRefusal::TooManyCounts) => unreachable!(),
            Err(CountsRefusal::Memory) => Err(NoMemory),
        }
    }

    /// The number of lists.
    pub fn len(&self) -> u32
        ensures value { result ≡ length (count_lists self.now.bidders self.now.kinds) }
        ensures few { AreFew self.now }
    {
        self.lists
    }

    /// How many bidders have a kind in the list at a rank.
    pub fn count(&self, rank: u32, kind: u32) -> u32
        requires rank_in { rank < length (count_lists self.now.bidders self.now.kinds) }
        requires kind_in { kind < self.now.kinds }
        ensures value { result ≡ slice_index (counts_at self.now.bidders self.now.kinds rank) kind }
        ensures counts { AreCounts self.now.bidders self.now.kinds (counts_at self.now.bidders self.now.kinds rank) }
        ensures few { AreFew self.now }
    {
        u32::from(self.list(rank)[kind as usize])
    }

    /// The rank of a list of one count for each kind, which add to the number of bidders.
    pub fn rank(&self, counts: &[u32]) -> u32
        requires one_each { length counts.now ≡ self.now.kinds }
        requires add { sum counts.now ≡ self.now.bidders }
        ensures below { result < length (count_lists self.now.bidders self.now.kinds) }
        ensures value { counts_at self.now.bidders self.now.kinds result ≡ counts.now }
    {
        let mut rank = 0;
        let mut left = self.bidders;
        for (kind, count) in counts.iter().enumerate() {
            let others = self.kinds - kind as u32 - 1;
            rank += self.ways.before(left, others, *count);
            left -= *count;
        }
        rank
    }

    /// The weight of the list at a rank: the sum, over all lists of one value for each bidder that have these counts,
    /// of the product of the weights of their values. There is one weight for each kind, and the power of their sum
    /// with the number of bidders as exponent is at most 1,000,000,000,000.
    pub fn weight(&self, rank: u32, weights: &[u64]) -> u64
        requires rank_in { rank < length (count_lists self.now.bidders self.now.kinds) }
        requires one_each { length weights.now ≡ self.now.kinds }
        requires power { total_weight weights.now ^ self.now.bidders ≤ 10 ^ 12 }
        ensures { result ≡ weight_of_counts weights.now self.now.bidders (counts_at self.now.bidders self.now.kinds rank) }
    {
        weight_of(self.bidders, self.list(rank), weights)
    }

    // The list at a rank.
    fn list(&self, rank: u32) -> &[u8]
        requires rank_in { rank < length (count_lists self.now.bidders self.now.kinds) }
        ensures value { result.now ≡ counts_at self.now.bidders self.now.kinds rank }
        ensures counts { AreCounts self.now.bidders self.now.kinds (counts_at self.now.bidders self.now.kinds rank) }
        ensures few { AreFew self.now }
    {
        let kinds = self.kinds as usize;
        let start = rank as usize * kinds;
        &self.table[start..start + kinds]
    }
}

// All lists one after another.
fn table_of(
    alloc: Global,
    ways: &Ways,
    bidders: u32,
    kinds: u32,
    lists: u32,
) -> Result<Vec<u8>, NoMemory>
    requires bidders { bidders ≤ 12 }
    requires kinds { kinds ≤ 12 }
    requires lists { lists ≡ length (count_lists bidders kinds) }
    ensures { IfOk result (λ table. table.items ≡ table_to bidders kinds lists) }
{
    let mut table = Vec::new(alloc);
    for rank in 0..lists {
        push_list(&mut table, ways, bidders, kinds, rank)?;
    }
    Ok(table)
}

// Appends the list at a rank: each count is the first one of a list of the bidders that are left, over the kinds that
// are left.
fn push_list(
    table: &mut Vec<u8>,
    ways: &Ways,
    bidders: u32,
    kinds: u32,
    rank: u32,
) -> Result<(), NoMemory>
    requires bidders { bidders ≤ 12 }
    requires kinds { kinds ≤ 12 }
    requires rank_in { rank < length (count_lists bidders kinds) }
    ensures { IfOk result (λ _. table.new.items ≡ table.old.items ++ counts_at bidders kinds rank) }
{
    let mut left = bidders;
    let mut place = rank;
    for kind in 0..kinds {
        let others = kinds - kind - 1;
        let count = ways.first_at(left, others, place);
        table.push(count as u8)?;
        place -= ways.before(left, others, count);
        left -= count;
    }
    Ok(())
}
