//! The tests of an auction as written.
ghost use Rattle.std.specs.Prelude.{◌≡◌, ◌≤◌, Some, None, IfOk, IfErr, OnOk, All, length};
ghost use Rattle.md_setting.specs.Auction.{written_auction, total_weight};
ghost use Rattle.md_setting.specs.AuctionRefusals.{HasGoodNumbers, auction_refusal_of, weight_refusal_of};

use crate::BuildRefusal;
use crate::auction_limits::{
    MAX_TOTAL, are_in_range, are_positive, has_good_numbers, is_ascending, total_weight,
};
use crate::counts::has_few_counts;

/// Tests the sizes, and the numbers one by one.
pub(crate) fn check_numbers(
    bidders: i64,
    values: &[i64],
    weights: &[i64],
    revenue: i64,
    welfare: i64,
    keep: i64,
) -> Result<(), BuildRefusal>
    ensures ok { OnOk result (HasGoodNumbers (written_auction bidders values.now weights.now revenue welfare keep)) }
    ensures refused { IfErr result (λ e. auction_refusal_of (written_auction bidders values.now weights.now revenue welfare keep) ≡ Some e) }
{
    if !has_good_numbers(bidders, values) {
        return Err(BuildRefusal::Sizes);
    }
    if weights.len() != values.len() {
        return Err(BuildRefusal::Shape);
    }
    if !are_in_range(values, weights, revenue, welfare, keep) {
        return Err(BuildRefusal::OutOfRange);
    }
    Ok(())
}

/// Tests the weights and the order of the values, and gives the weight of all values together.
pub(crate) fn check_weights(
    bidders: usize,
    values: &[i64],
    weights: &[u64],
) -> Result<u64, BuildRefusal>
    requires bidders { bidders ≤ 12 }
    requires some { 1 ≤ length values.now }
    requires few { length values.now ≤ 12 }
    requires one_each { length weights.now ≡ length values.now }
    requires sizes { All (λ weight. weight ≤ 1000000) weights.now }
    ensures ok { OnOk result (weight_refusal_of bidders values.now weights.now ≡ None) }
    ensures total { IfOk result (λ total. total ≡ total_weight weights.now) }
    ensures refused { IfErr result (λ e. weight_refusal_of bidders values.now weights.now ≡ Some e) }
{
    if !are_positive(weights) {
        return Err(BuildRefusal::ZeroWeight);
    }
    let total = total_weight(weights);
    if total > MAX_TOTAL {
        return Err(BuildRefusal::WeightTotal);
    }
    if !is_ascending(values) {
        return Err(BuildRefusal::ValuesOrder);
    }
    if !has_few_counts(total, bidders, values.len()) {
        return Err(BuildRefusal::TooManyCounts);
    }
    Ok(total)
}
