//! Who is before a bidder, and who is beside it, where it has a value and the others have those of a profile.
ghost use Rattle.std.specs.Prelude.{◌≡◌, ◌<◌, ◌≤◌, length, slice_index};
ghost use Rattle.md_space.specs.Profiles.{replaced};
ghost use Rattle.md_iron_pools.specs.Pooling.{pools_of};
ghost use Rattle.md_threshold_laws.specs.Rule.{ahead, beside, buys, is_ahead, is_beside, units_for};
ghost use Rattle.md_threshold.specs.Kinds.{AreKinds};

use md_iron_pools::AuctionPools;

// Whether a value buys.
fn buys(pools: &AuctionPools, kind: u32) -> bool
    ensures { result ≡ buys (pools_of pools.now) kind }
{
    !(kind < pools.reserve)
}

/// The lowest value of the pool of a value.
pub(crate) fn first_of(pools: &AuctionPools, kind: u32) -> u32
    requires { kind < length pools.now.by_kind.items }
    ensures { result ≡ (pools_of pools.now).first kind }
{
    pools.by_kind[kind as usize].first
}

// Whether a bidder with another value is ahead of one with its own.
fn is_ahead(pools: &AuctionPools, own: u32, other: u32) -> bool
    requires own { own < length pools.now.by_kind.items }
    requires other { other < length pools.now.by_kind.items }
    ensures { result ≡ is_ahead (pools_of pools.now) own other }
{
    buys(pools, other) && first_of(pools, own) < first_of(pools, other)
}

/// Whether a bidder with another value is beside one with its own.
pub(crate) fn is_beside(pools: &AuctionPools, own: u32, other: u32) -> bool
    requires own { own < length pools.now.by_kind.items }
    requires other { other < length pools.now.by_kind.items }
    ensures { result ≡ is_beside (pools_of pools.now) own other }
{
    if !buys(pools, own) {
        return false;
    }
    buys(pools, other) && first_of(pools, other) == first_of(pools, own)
}

// The value at a place of a profile in which a bidder has another one.
fn kind_with(profile: &[u8], bidder: usize, kind: u32, place: usize) -> u32
    requires { place < length profile.now }
    ensures { result ≡ slice_index (replaced profile.now bidder kind) place }
{
    if place == bidder {
        return kind;
    }
    u32::from(profile[place])
}

// How many bidders are ahead of one with a value.
fn ahead_with(pools: &AuctionPools, profile: &[u8], bidder: usize, kind: u32) -> u32
    requires kinds { AreKinds pools.now profile.now }
    requires kind { kind < length pools.now.by_kind.items }
    ensures { result ≡ ahead (pools_of pools.now) (replaced profile.now bidder kind) kind }
{
    let mut count = 0;
    for place in 0..profile.len() {
        if is_ahead(pools, kind, kind_with(profile, bidder, kind, place)) {
            count += 1;
        }
    }
    count
}

/// How many bidders are in the pool of one with a value.
pub(crate) fn beside_with(pools: &AuctionPools, profile: &[u8], bidder: usize, kind: u32) -> u32
    requires kinds { AreKinds pools.now profile.now }
    requires kind { kind < length pools.now.by_kind.items }
    ensures value { result ≡ beside (pools_of pools.now) (replaced profile.now bidder kind) kind }
    ensures few { result ≤ 12 }
{
    let mut count = 0;
    for place in 0..profile.len() {
        if is_beside(pools, kind, kind_with(profile, bidder, kind, place)) {
            count += 1;
        }
    }
    count
}

/// How many of the units go to the bidders of the pool of one with a value.
pub(crate) fn units_with(
    pools: &AuctionPools,
    units: u32,
    profile: &[u8],
    bidder: usize,
    kind: u32,
) -> u32
    requires kinds { AreKinds pools.now profile.now }
    requires kind { kind < length pools.now.by_kind.items }
    ensures value { result ≡ units_for units (pools_of pools.now) (replaced profile.now bidder kind) kind }
    ensures few { result ≤ 12 }
{
    let bidders = beside_with(pools, profile, bidder, kind);
    let left = units.saturating_sub(ahead_with(pools, profile, bidder, kind));
    if left < bidders { left } else { bidders }
}
