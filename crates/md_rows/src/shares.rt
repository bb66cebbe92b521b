//! The weights of profiles in a row, each a term whose column is the profile's rank.
ghost use Rattle.std.specs.Prelude.{◌≡◌, ◌≢◌, ℕ, ◌<◌, ◌+◌, ◌*◌, ℤ, pos, ◌+ℤ◌, ◌-ℤ◌, ◌*ℤ◌, slice_index, IfOk, OnOk};
ghost use Rattle.md_math.specs.Sizes.{IsWithin};
ghost use Rattle.md_math.specs.Sums.{sum_to};
ghost use Rattle.md_space.specs.Profiles.{profile_count, profile_at, rank_of, replaced};
ghost use Rattle.md_setting.specs.Meaning.{agent_count, sizes_of};
ghost use Rattle.md_forms.specs.Terms.{sum_at, AreTermsBelow, AddsTerms};
ghost use Rattle.md_rows.specs.Shares.{bayes_share, interim_share};

use md_forms::push_term;
use md_lp::Term;
use md_num::NoMemory;
use md_setting::Setting;
use std::alloc::Global;

/// A report against the true type at a rank: the report's profile counts once, and the true profile is taken away.
pub(crate) fn dominant_shares(
    alloc: Global,
    setting: &Setting,
    agent: u8,
    rank: u32,
    report: u8,
) -> Result<Vec<Term>, NoMemory>
    requires agent_in { agent < agent_count setting.now }
    requires rank_in { rank < profile_count (sizes_of setting.now) }
    requires report_in { report < slice_index (sizes_of setting.now) agent }
    requires false_report { report ≢ slice_index (profile_at (sizes_of setting.now) rank) agent }
    ensures placed { IfOk result (λ shares. AreTermsBelow 1000000 (profile_count (sizes_of setting.now)) shares.items) }
    ensures sum { IfOk result (λ shares. (y : ℕ → ℤ) → sum_at y shares.items ≡ y (rank_of (sizes_of setting.now) (replaced (profile_at (sizes_of setting.now) rank) agent report)) -ℤ y rank) }
{
    let told = setting.space().replace(rank, agent, report);
    if told < rank {
        pair(alloc, told, 1, rank, -1)
    } else {
        pair(alloc, rank, -1, told, 1)
    }
}

// Two weights at ranks in their order.
fn pair(
    alloc: Global,
    low: u32,
    first: i128,
    high: u32,
    second: i128,
) -> Result<Vec<Term>, NoMemory>
    requires order { low < high }
    requires first_size { IsWithin 1 first }
    requires second_size { IsWithin 1 second }
    ensures placed { IfOk result (λ shares. AreTermsBelow 1000000 (high + 1) shares.items) }
    ensures sum { IfOk result (λ shares. (y : ℕ → ℤ) → sum_at y shares.items ≡ first *ℤ y low +ℤ second *ℤ y high) }
{
    let mut shares = Vec::new(alloc);
    push_term(&mut shares, low, first)?;
    push_term(&mut shares, high, second)?;
    Ok(shares)
}

/// A report against a type on average: each profile with the report counts by the weight of the profile with the type
/// in its place, and each profile with the type is taken away by its own weight.
pub(crate) fn bayes_shares(
    alloc: Global,
    setting: &Setting,
    agent: u8,
    kind: u8,
    report: u8,
) -> Result<Vec<Term>, NoMemory>
    requires agent_in { agent < agent_count setting.now }
    requires kind_in { kind < slice_index (sizes_of setting.now) agent }
    ensures placed { IfOk result (λ shares. AreTermsBelow 1000000 (profile_count (sizes_of setting.now)) shares.items) }
    ensures sum { IfOk result (λ shares. (y : ℕ → ℤ) → sum_at y shares.items ≡ sum_to (profile_count (sizes_of setting.now)) (λ r. bayes_share setting.now agent kind report (profile_at (sizes_of setting.now) r) *ℤ y r)) }
{
    let mut shares = Vec::new(alloc);
    for rank in 0..setting.space().profiles() {
        push_bayes_share(setting, agent, kind, report, rank, &mut shares)?;
    }
    Ok(shares)
}

// The weight of one profile.
fn push_bayes_share(
    setting: &Setting,
    agent: u8,
    kind: u8,
    report: u8,
    rank: u32,
    shares: &mut Vec<Term>,
) -> Result<(), NoMemory>
    requires agent_in { agent < agent_count setting.now }
    requires kind_in { kind < slice_index (sizes_of setting.now) agent }
    requires rank_in { rank < profile_count (sizes_of setting.now) }
    ensures { OnOk result (AddsTerms 1000000 rank (rank + 1) (λ y. bayes_share setting.now agent kind report (profile_at (sizes_of setting.now) rank) *ℤ y rank) shares.old.items shares.new.items) }
{
    let told = setting.space().report(rank, agent);
    if told == kind {
        return push_term(shares, rank, -setting.weight(rank));
    }
    if told == report {
        let truth = setting.space().replace(rank, agent, kind);
        return push_term(shares, rank, setting.weight(truth));
    }
    Ok(())
}

/// A type on average: each profile with the type is taken away by its weight.
pub(crate) fn interim_shares(
    alloc: Global,
    setting: &Setting,
    agent: u8,
    kind: u8,
) -> Result<Vec<Term>, NoMemory>
    requires agent_in { agent < agent_count setting.now }
    ensures placed { IfOk result (λ shares. AreTermsBelow 1000000 (profile_count (sizes_of setting.now)) shares.items) }
    ensures sum { IfOk result (λ shares. (y : ℕ → ℤ) → sum_at y shares.items ≡ sum_to (profile_count (sizes_of setting.now)) (λ r. interim_share setting.now agent kind (profile_at (sizes_of setting.now) r) *ℤ y r)) }
{
    let mut shares = Vec::new(alloc);
    for rank in 0..setting.space().profiles() {
        push_interim_share(setting, agent, kind, rank, &mut shares)?;
    }
    Ok(shares)
}

// The weight of one profile.
fn push_interim_share(
    setting: &Setting,
    agent: u8,
    kind: u8,
    rank: u32,
    shares: &mut Vec<Term>,
) -> Result<(), NoMemory>
    requires agent_in { agent < agent_count setting.now }
    requires rank_in { rank < profile_count (sizes_of setting.now) }
    ensures { OnOk result (AddsTerms 1000000 rank (rank + 1) (λ y. interim_share setting.now agent kind (profile_at (sizes_of setting.now) rank) *ℤ y rank) shares.old.items shares.new.items) }
{
    if setting.space().report(rank, agent) == kind {
        push_term(shares, rank, -setting.weight(rank))?;
    }
    Ok(())
}
