//! Where values stand in a list.
ghost use Rattle.std.specs.Prelude.{◌≡◌, ◌≤◌, length};
ghost use Rattle.md_list.specs.Lists.{rank_of, ranks_of};
ghost use Rattle.md_list.specs.Ranks.{has_value, place_of};

use md_list::Ranked;

// Whether a record has a value of a group.
fn has_value(rank: &Ranked, group: u32, value: usize) -> bool
    ensures { result ≡ has_value (rank_of rank.now) group value }
{
    rank.group == group && rank.first <= value && value < rank.stop
}

/// The place of a value: of the first record that has it, and behind all records where none does.
pub(crate) fn place_of(ranks: &[Ranked], group: u32, value: usize) -> usize
    ensures value { result ≡ place_of (ranks_of ranks.now) group value }
    ensures inside { result ≤ length ranks.now }
{
    for place in 0..ranks.len() {
        if has_value(&ranks[place], group, value) {
            return place;
        }
    }
    ranks.len()
}
