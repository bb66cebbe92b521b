//! How many lists of counts an auction has, and how much its profiles weigh.
ghost use Rattle.std.specs.Prelude.{◌≡◌, ℕ, ◌≤◌, ◌<◌, ◌+◌, ◌^◌, nat_le, length};
ghost use Rattle.md_setting.specs.CountLists.{count_lists};
ghost use Rattle.md_setting.specs.AuctionRefusals.{has_few_counts};
ghost use Rattle.md_setting.specs.Ways.{AreWays};

/// The most that all profiles weigh together.
const MAX_PROFILE_WEIGHT: u64 = 1_000_000_000_000;

/// The most lists of counts.
const MAX_COUNT_LISTS: u32 = 20_000;

/// Whether there are neither too heavy profiles nor too many lists of counts.
pub(crate) fn has_few_counts(total: u64, bidders: usize, kinds: usize) -> bool
    requires some_weight { 1 ≤ total }
    requires total { total ≤ 1000000 }
    requires bidders { bidders ≤ 12 }
    requires kinds { kinds ≤ 12 }
    ensures { result ≡ has_few_counts total bidders kinds }
{
    is_power_small(total, bidders) && count_lists(bidders, kinds) <= MAX_COUNT_LISTS
}

// Whether the weight of all profiles is within its limit.
fn is_power_small(total: u64, bidders: usize) -> bool
    requires some_weight { 1 ≤ total }
    requires total { total ≤ 1000000 }
    ensures { result ≡ nat_le (total ^ bidders) (10 ^ 12) }
{
    let mut power = 1;
    for _ in 0..bidders {
        power *= total;
        if power > MAX_PROFILE_WEIGHT {
            return false;
        }
    }
    true
}

// The number of lists of counts: one more kind adds, for each number of bidders, the ways of one bidder less.
fn count_lists(bidders: usize, kinds: usize) -> u32
    requires bidders { bidders ≤ 12 }
    requires kinds { kinds ≤ 12 }
    ensures { result ≡ length (count_lists bidders kinds) }
{
    let mut ways = [0u32; 13];
    ways[0] = 1;
    for _ in 0..kinds {
        add_kind(&mut ways);
    }
    ways[bidders]
}

// One more kind: with each number of bidders it has no bidder, or one bidder more than in a list of one bidder less. No number here comes near to the greatest one of 32 bits.
fn add_kind(ways: &mut [u32; 13])
    ensures { (kinds : ℕ) → kinds < 12 → AreWays 13 kinds ways.old → AreWays 13 (kinds + 1) ways.new }
{
    for bidders in 1..13 {
        ways[bidders] = ways[bidders].saturating_add(ways[bidders - 1]);
    }
}
