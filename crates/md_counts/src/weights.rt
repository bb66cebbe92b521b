//! The weight of a list of counts, by factorials and powers.
ghost use Rattle.std.specs.Prelude.{◌≡◌, ◌/◌, ◌^◌, ◌<◌, ◌≤◌, length};
ghost use Rattle.md_math.specs.Products.{factorial};
ghost use Rattle.md_setting.specs.Auction.{total_weight};
ghost use Rattle.md_counts.specs.Counts.{AreCounts};
ghost use Rattle.md_counts.specs.Weights.{weight_of_counts, factorials, powers};

/// The weight of all lists of one value for each bidder that have the counts: the number of such lists, times the
/// weights of the kinds, each as often as its count.
pub(crate) fn weight_of(bidders: u32, counts: &[u8], weights: &[u64]) -> u64
    requires bidders { bidders ≤ 12 }
    requires counts { AreCounts bidders (length counts.now) counts.now }
    requires one_each { length weights.now ≡ length counts.now }
    requires power { total_weight weights.now ^ bidders ≤ 10 ^ 12 }
    ensures { result ≡ weight_of_counts weights.now bidders counts.now }
{
    orders_of(bidders, counts) * powers(bidders, counts, weights)
}

// The number of lists of one value for each bidder that have the counts.
fn orders_of(bidders: u32, counts: &[u8]) -> u64
    requires bidders { bidders ≤ 12 }
    requires counts { AreCounts bidders (length counts.now) counts.now }
    ensures { result ≡ factorial bidders / factorials counts.now }
{
    factorial(bidders) / factorials(bidders, counts)
}

fn factorial(number: u32) -> u64
    requires { number ≤ 12 }
    ensures { result ≡ factorial number }
{
    let mut product = 1;
    for factor in 0..number {
        product *= u64::from(factor) + 1;
    }
    product
}

// The product of the factorials of the counts.
fn factorials(bidders: u32, counts: &[u8]) -> u64
    requires bidders { bidders ≤ 12 }
    requires counts { AreCounts bidders (length counts.now) counts.now }
    ensures value { result ≡ factorials counts.now }
    ensures some { 0 < result }
{
    let mut product = 1;
    for count in counts {
        product *= factorial(u32::from(*count));
    }
    product
}

// The product of the weights of all kinds, each as often as its count.
fn powers(bidders: u32, counts: &[u8], weights: &[u64]) -> u64
    requires counts { AreCounts bidders (length counts.now) counts.now }
    requires one_each { length weights.now ≡ length counts.now }
    requires power { total_weight weights.now ^ bidders ≤ 10 ^ 12 }
    ensures value { result ≡ powers weights.now counts.now }
{
    let mut product = 1;
    for (kind, count) in counts.iter().enumerate() {
        product *= weights[kind].pow(u32::from(*count));
    }
    product
}
